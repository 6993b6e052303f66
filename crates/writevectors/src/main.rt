// Runs the core of the write call on every case that its arguments name, in their order: five words to a case, its file, the bytes of the
// output, and the lengths of the state list, the node list and the work space. All that is lent comes in dirty. Prints the words and the answer of each; then
// what was put out; and last, if any byte of the output behind that is not zero, the place of the first. What it prints is held against the stored
// expectations, which come from the papers and two independent renderings.
#![tactic(auto)]

ghost use Rattle.std.specs.Prelude.{◌+◌, ◌≤◌};

use rules::{STATES, TEXT, WORK};
use state::WORDS;
use std::rt::{Env, Files};
use writer::Wrote;

// The most that is lent; the core takes the length of the node list alone.
const MOST_STATES: usize = STATES * WORDS + 32;

const MOST_WORK: usize = WORK + 32;

const MOST_OUTPUT: usize = TEXT + 1;

// The answer, and the bytes up to the length answered.
fn print_all(w: Wrote, output: &[u8]) {
    let answer = w.answer;
    let length = w.length;
    answers::print_answer(replies::as_reply(answer), &[length]);
    answers::print_text(output, length);
}

fn write_with(text: &[u8], nodes: usize, states: &mut [u64], work: &mut [u32], output: &mut [u8]) {
    print_all(writer::write(text, states, work, nodes, output), output);
}

// The call on a text, with lists and an output of these lengths.
fn write_text(
    text: &[u8],
    output_len: usize,
    states_len: usize,
    nodes_len: usize,
    work_len: usize,
) {
    let mut states = [7u64; MOST_STATES];
    let mut work = [7u32; MOST_WORK];
    let mut output = [7u8; MOST_OUTPUT];
    let s = arguments::lesser(states_len, MOST_STATES);
    let w = arguments::lesser(work_len, MOST_WORK);
    let o = arguments::lesser(output_len, MOST_OUTPUT);
    write_with(
        text,
        nodes_len,
        &mut states[..s],
        &mut work[..w],
        &mut output[..o],
    );
}

// The case of the file that argument i names, its bytes up to one more than a case may have, and the lengths that follow its name.
fn write_argument(rt: &(impl Env + Files + Eprint), i: usize)
    requires { i + 4 ≤ 18446744073709551615 }
{
    let mut buffer = io::large_buffer();
    let n = arguments::file_at(rt, i, &mut buffer);
    let output = arguments::number_at(rt, i + 1);
    let states = arguments::number_at(rt, i + 2);
    let nodes = arguments::number_at(rt, i + 3);
    let work = arguments::number_at(rt, i + 4);
    write_text(&buffer[..n], output, states, nodes, work);
}

fn main(rt: HostRuntime) {
    let cases = arguments::count(&rt) / 5;
    for done in 0..cases {
        write_argument(&rt, 5 * done + 1);
    }
}
