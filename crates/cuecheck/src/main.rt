// The check call on one case from standard input: prints `Y,k,n` or `R,number,line,item` and a line feed.
#![tactic(auto)]

const STDIN: i32 = 0;

// The buffer holds one byte more than a case may have, so that a longer input is not cut to a fitting length.
fn main() {
    let mut buffer = io::large_buffer();
    let n = io::read_full(STDIN, &mut buffer);
    printing::print_reply(replies::as_reply(verdict::check_text(&buffer[..n])));
}
