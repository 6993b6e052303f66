// What the programs of stored cases print of an answer: its line, the records that come with it from their columns, and the text put out.
#![tactic(auto)]

ghost use Rattle.std.specs.Prelude.{◌≤◌, ◌<◌, length};

use records::{ENDS, LABELS, LETTERS, PLACES, STARTS};
use replies::Reply;
use rules::{NODES, WORK};

const STDOUT: i32 = 1;

fn print_field(n: u32) {
    io::write_all(STDOUT, b",");
    io::print_decimal(STDOUT, n as u64);
}

fn print_fields(numbers: &[u32]) {
    for n in numbers {
        print_field(*n);
    }
}

// The answer: `Y,k,n` and what more the call tells of an acceptance, or `R,number,line,item`, and a line feed.
pub fn print_answer(r: Reply, more: &[u32]) {
    if r.number == 0 {
        io::write_all(STDOUT, b"Y");
        print_field(r.cues);
        print_field(r.nodes);
        print_fields(more);
    } else {
        io::write_all(STDOUT, b"R");
        print_field(r.number);
        print_field(r.line);
        print_field(r.item);
    }
    io::write_all(STDOUT, b"\n");
}

// Record i: `T` and its five numbers.
fn print_record(work: &[u32], i: usize)
    requires { (i < 3000) × (16384 ≤ length work.now) }
{
    io::write_all(STDOUT, b"T");
    print_field(work[LETTERS + i]);
    print_field(work[LABELS + i]);
    print_field(work[PLACES + i]);
    print_field(work[STARTS + i]);
    print_field(work[ENDS + i]);
    io::write_all(STDOUT, b"\n");
}

// The records of so many nodes.
fn print_each(work: &[u32], count: usize)
    requires { (count ≤ 3000) × (16384 ≤ length work.now) }
{
    for i in 0..count {
        print_record(work, i);
    }
}

// The records of so many nodes, as a work space has them that is long enough for any.
pub fn print_records(work: &[u32], nodes: u32) {
    if work.len() < WORK {
        return;
    }
    print_each(work, arguments::lesser(nodes as usize, NODES));
}

// The place of the first byte from there on that is not zero, if one isn't.
fn print_dirt(output: &[u8], from: usize) {
    let found = output.iter().skip(from).position(|b| *b != 0);
    if let Some(i) = found {
        io::write_all(STDOUT, b"dirty ");
        io::print_decimal(STDOUT, (from + i) as u64);
        io::write_all(STDOUT, b"\n");
    }
}

// The bytes of an output up to the length answered; then, if any byte behind them is not zero, the place of the first.
pub fn print_text(output: &[u8], length: u32) {
    let n = arguments::lesser(length as usize, output.len());
    io::write_all(STDOUT, &output[..n]);
    print_dirt(output, n);
}
