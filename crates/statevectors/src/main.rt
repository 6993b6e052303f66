// Runs the core of the check call or of the replay call on every case that its arguments name, in their order: five words to a case, its file,
// the call, and the lengths of the state list, the node list (which the replay call does not borrow) and the work space. All that is lent
// comes in dirty. Prints the words and the answer of each; then the row of each state, without the zeros at its end; and last, if any other
// number of the state list is not zero, the place of the first. What it prints is held against the stored expectations, which come from the
// papers and two independent renderings.
#![tactic(auto)]

ghost use Rattle.std.specs.Prelude.{◌+◌, ◌≤◌, length};

use replies::Reply;
use rules::{Answer, STATES, WORK};
use state::WORDS;
use std::rt::{Env, Files};

const STDOUT: i32 = 1;

// The most that is lent; the core of the check call takes the length of the node list alone.
const MOST_STATES: usize = STATES * WORDS + 1000;

const MOST_WORK: usize = WORK + 32;

// How many words of a row there are up to the last that is not zero.
fn used(row: &[u64]) -> usize
    ensures { result ≤ length row.now }
{
    row.iter().rposition(|word| *word != 0).map_or(0, |i| i + 1)
}

// `S`, the number of the state, its words, and a line feed.
fn print_row(i: usize, row: &[u64]) {
    io::write_all(STDOUT, b"S,");
    io::print_decimal(STDOUT, i as u64);
    let n = used(row);
    for word in &row[..n] {
        io::write_all(STDOUT, b",");
        io::print_decimal(STDOUT, *word);
    }
    io::write_all(STDOUT, b"\n");
}

// The rows below the count that the list has.
fn print_rows(states: &[u64], count: usize) {
    for (i, row) in states.chunks_exact(WORDS).take(count).enumerate() {
        print_row(i, row);
    }
}

// The place of the first number from there on that is not zero, if one isn't.
fn print_dirt(states: &[u64], from: usize) {
    let found = states.iter().skip(from).position(|word| *word != 0);
    if let Some(i) = found {
        io::write_all(STDOUT, b"dirty ");
        io::print_decimal(STDOUT, (from + i) as u64);
        io::write_all(STDOUT, b"\n");
    }
}

// How many rows an answer comes with: states 0 to k, or none.
fn rows_of(r: Reply) -> usize
    ensures { result ≤ 4294967296 }
{
    if r.number == 0 {
        r.cues as usize + 1
    } else {
        0
    }
}

fn print_all(answer: Answer, states: &[u64]) {
    let r = replies::as_reply(answer);
    let count = rows_of(r);
    printing::print_reply(r);
    print_rows(states, count);
    print_dirt(states, WORDS * count);
}

fn run_with(text: &[u8], whole: bool, nodes: usize, states: &mut [u64], work: &mut [u32]) {
    if whole {
        print_all(judge::judge(text, states, work, nodes), states);
    } else {
        print_all(replay::replay(text, states, work), states);
    }
}

// The call on a text, with lists of these lengths.
fn run_text(text: &[u8], whole: bool, states_len: usize, nodes_len: usize, work_len: usize) {
    let mut states = [7u64; MOST_STATES];
    let mut work = [7u32; MOST_WORK];
    let s = arguments::lesser(states_len, MOST_STATES);
    let w = arguments::lesser(work_len, MOST_WORK);
    run_with(text, whole, nodes_len, &mut states[..s], &mut work[..w]);
}

// Whether the call that argument i names is the check, and not the replay; the word is printed.
fn is_check(rt: &impl Env, i: usize) -> bool {
    let mut word = io::buffer();
    arguments::word_at(rt, i, &mut word);
    word[0] == b'c'
}

// The case of a file, its bytes up to one more than a case may have, and the words that follow its name.
fn run_file(rt: &(impl Env + Files + Eprint), path: &[u8], i: usize)
    requires { i + 4 ≤ 18446744073709551615 }
{
    let mut buffer = io::large_buffer();
    let Some(n) = arguments::read_file(rt, path, &mut buffer) else {
        return;
    };
    let whole = is_check(rt, i + 1);
    let states = arguments::number_at(rt, i + 2);
    let nodes = arguments::number_at(rt, i + 3);
    let work = arguments::number_at(rt, i + 4);
    run_text(&buffer[..n], whole, states, nodes, work);
}

fn run_argument(rt: &(impl Env + Files + Eprint), i: usize)
    requires { i + 4 ≤ 18446744073709551615 }
{
    let mut path = io::buffer();
    let n = arguments::argument(rt, i, &mut path);
    run_file(rt, &path[..n], i);
}

fn main(rt: HostRuntime) {
    let cases = arguments::count(&rt) / 5;
    for done in 0..cases {
        run_argument(&rt, 5 * done + 1);
    }
}
