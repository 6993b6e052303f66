// Runs the core of the find-the-gaps call on every case that its arguments name, in their order: four words to a case, its file, and the lengths of
// the state list, the node list and the work space. All that is lent comes in dirty. Prints the words and the answer of each, and then the records
// of what was found, from their columns. What it prints is held against the stored expectations, which come from the papers and from two
// renderings that try every choice.
#![tactic(auto)]

ghost use Rattle.std.specs.Prelude.{◌+◌, ◌≤◌};

use finder::Discovery;
use rules::{STATES, WORK};
use state::WORDS;
use std::rt::{Env, Files};

// The most that is lent; the core takes the length of the node list alone.
const MOST_STATES: usize = STATES * WORDS + 32;

const MOST_WORK: usize = WORK + 32;

// The answer, and the records of an acceptance.
fn print_all(d: Discovery, work: &[u32]) {
    let answer = d.answer;
    let tried = d.tried;
    let r = replies::as_reply(answer);
    answers::print_answer(r, &[tried]);
    answers::print_records(work, r.nodes);
}

fn find_with(text: &[u8], nodes: usize, states: &mut [u64], work: &mut [u32]) {
    print_all(finder::find(text, states, work, nodes), work);
}

// The call on a text, with lists of these lengths.
fn find_text(text: &[u8], states_len: usize, nodes_len: usize, work_len: usize) {
    let mut states = [7u64; MOST_STATES];
    let mut work = [7u32; MOST_WORK];
    let s = arguments::lesser(states_len, MOST_STATES);
    let w = arguments::lesser(work_len, MOST_WORK);
    find_with(text, nodes_len, &mut states[..s], &mut work[..w]);
}

// The case of the file that argument i names, its bytes up to one more than a case may have, and the lengths that follow its name.
fn find_argument(rt: &(impl Env + Files + Eprint), i: usize)
    requires { i + 3 ≤ 18446744073709551615 }
{
    let mut buffer = io::large_buffer();
    let n = arguments::file_at(rt, i, &mut buffer);
    let states = arguments::number_at(rt, i + 1);
    let nodes = arguments::number_at(rt, i + 2);
    let work = arguments::number_at(rt, i + 3);
    find_text(&buffer[..n], states, nodes, work);
}

fn main(rt: HostRuntime) {
    let cases = arguments::count(&rt) / 4;
    for done in 0..cases {
        find_argument(&rt, 4 * done + 1);
    }
}
