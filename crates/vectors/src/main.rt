// Runs the check call on every case that its arguments name, in their order, and prints the name and the answer of each. What it prints is
// held against the stored expectations, which come from the papers and an independent rendering.
#![tactic(auto)]

use std::rt::{Env, Files};

// The case of a file: its bytes, up to one more than a case may have.
fn check_file(rt: &(impl Files + Eprint), path: &[u8]) {
    let mut buffer = io::large_buffer();
    let Some(n) = arguments::read_file(rt, path, &mut buffer) else {
        return;
    };
    printing::print_reply(replies::as_reply(verdict::check_text(&buffer[..n])));
}

fn check_argument(rt: &(impl Env + Files + Eprint), i: usize) {
    let mut path = io::buffer();
    let n = arguments::argument(rt, i, &mut path);
    check_file(rt, &path[..n]);
}

fn main(rt: HostRuntime) {
    for i in 1..arguments::count(&rt) {
        check_argument(&rt, i);
    }
}
