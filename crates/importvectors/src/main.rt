// Runs the core of the import call on every case that its arguments name, in their order: seven words to a case, its file, those of the name list
// and of the form, the bytes of the output, and the lengths of the state list, the node list and the work space. All that is lent comes in dirty.
// Prints the words and the answer of each; then the records of what was found, from their columns, and what was put out; and last, if any byte of the
// output behind that is not zero, the place of the first. What it prints is held against the stored expectations, which come from the papers and
// from two renderings that search whole lists and try every choice.
#![tactic(auto)]

ghost use Rattle.std.specs.Prelude.{◌+◌, ◌≤◌};

use importer::Outcome;
use rules::{STATES, WORK};
use state::WORDS;
use std::rt::{Env, Files};

// The most that is lent; the core takes the length of the node list alone. No text that a form makes is as long as the output.
const MOST_STATES: usize = STATES * WORDS + 32;

const MOST_WORK: usize = WORK + 32;

const MOST_OUTPUT: usize = 120000;

// The answer, the records of an acceptance, and the bytes up to the length answered.
fn print_all(o: Outcome, work: &[u32], output: &[u8]) {
    let answer = o.answer;
    let tried = o.tried;
    let length = o.length;
    let r = replies::as_reply(answer);
    answers::print_answer(r, &[tried, length]);
    answers::print_records(work, r.nodes);
    answers::print_text(output, length);
}

fn import_with(
    text: &[u8],
    names: &[u8],
    form: &[u8],
    nodes: usize,
    states: &mut [u64],
    work: &mut [u32],
    output: &mut [u8],
) {
    print_all(
        importer::import(text, names, form, states, work, nodes, output),
        work,
        output,
    );
}

// The call on a case, a name list and a form, with lists and an output of these lengths.
fn import_texts(
    text: &[u8],
    names: &[u8],
    form: &[u8],
    output_len: usize,
    states_len: usize,
    nodes_len: usize,
    work_len: usize,
) {
    let mut states = [7u64; MOST_STATES];
    let mut work = [7u32; MOST_WORK];
    let mut output = [7u8; MOST_OUTPUT];
    let s = arguments::lesser(states_len, MOST_STATES);
    let w = arguments::lesser(work_len, MOST_WORK);
    let o = arguments::lesser(output_len, MOST_OUTPUT);
    import_with(
        text,
        names,
        form,
        nodes_len,
        &mut states[..s],
        &mut work[..w],
        &mut output[..o],
    );
}

// The three files that argument i and the next two name, and the lengths that follow them. Of each file as much is read as a case may have, and a byte more.
fn import_argument(rt: &(impl Env + Files + Eprint), i: usize)
    requires { i + 6 ≤ 18446744073709551615 }
{
    let mut text = io::large_buffer();
    let mut names = io::large_buffer();
    let mut form = io::large_buffer();
    let t = arguments::file_at(rt, i, &mut text);
    let m = arguments::file_at(rt, i + 1, &mut names);
    let f = arguments::file_at(rt, i + 2, &mut form);
    let output = arguments::number_at(rt, i + 3);
    let states = arguments::number_at(rt, i + 4);
    let nodes = arguments::number_at(rt, i + 5);
    let work = arguments::number_at(rt, i + 6);
    import_texts(
        &text[..t],
        &names[..m],
        &form[..f],
        output,
        states,
        nodes,
        work,
    );
}

fn main(rt: HostRuntime) {
    let cases = arguments::count(&rt) / 7;
    for done in 0..cases {
        import_argument(&rt, 7 * done + 1);
    }
}
