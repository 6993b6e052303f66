// The node records as five columns of plain numbers: the last step over the lent work space, before they are gathered into the node list. Columns
// and no structs, since the work space that a caller in C lends has numbers alone.
#![tactic(auto)]

ghost use Rattle.std.specs.Prelude.{◌≡◌, List, ℕ, ◌+◌, ◌≤◌, ◌<◌, length};
ghost use Rattle.rules.specs.Case.{NodeLine};
ghost use Rattle.fields.specs.Directory.{node_size};
ghost use Rattle.parts.specs.Spans.{row_span};
ghost use Rattle.records.specs.Records.{record_at, up_to, NodesStand, letter_code, place_at, column_span, records_of};

use fields::node_size;
use rules::{Header, NODES};
use tree::ROWS;

// Where each column starts: those of the spans below the rows, the others over the rows, which nothing reads once the spans are out.
pub const STARTS: usize = 0;

pub const ENDS: usize = STARTS + NODES;

pub const LETTERS: usize = ROWS;

pub const LABELS: usize = LETTERS + NODES;

pub const PLACES: usize = LABELS + NODES;

// The letter code in a node record: a number of the C interface.
fn letter_code(letter: u32) -> u32
    ensures { result ≡ letter_code letter }
{
    match letter {
        68 => 1,
        69 => 2,
        _ => 3,
    }
}

// The place of the node line at `at`, by its letter: D has no field for it.
fn place_at(fields: &[u32], at: usize, letter: u32) -> u32
    requires { at + node_size letter ≤ length fields.now }
    ensures { result ≡ place_at fields.now at letter }
{
    if letter == 68 { 0 } else { fields[at + 2] }
}

// The columns of starts and ends, out of the rows.
fn put_spans(work: &mut [u32], count: usize)
    requires { (count ≤ 3000) × (16384 ≤ length work.old) }
    ensures { (i : ℕ) → i < count → column_span work.new i ≡ row_span work.old i }
{
    for i in 0..count {
        let row = ROWS + 3 * i;
        work[STARTS + i] = work[row];
        work[ENDS + i] = work[row + 1];
    }
}

// The columns of letter codes, methods or actions, and places, out of the node lines: then every record stands in the columns.
fn put_heads(fields: &[u32], nodes: usize, count: usize, work: &mut [u32])
    requires count_bound { (count ≤ 3000) × (16384 ≤ length work.old) }
    requires nodes_stand { (ns : List NodeLine) × NodesStand fields.now nodes count ns }
    ensures { (ns : List NodeLine) → NodesStand fields.now nodes count ns → up_to (record_at work.new) count ≡ records_of (column_span work.old) 0 ns }
{
    let mut at = nodes;
    for i in 0..count {
        let letter = fields[at];
        let label = fields[at + 1];
        let place = place_at(fields, at, letter);
        work[LETTERS + i] = letter_code(letter);
        work[LABELS + i] = label;
        work[PLACES + i] = place;
        at += node_size(letter);
    }
}

// The records of all nodes into the columns: each node line, from `nodes` on, with the span of its row.
pub fn write_records(fields: &[u32], header: Header, nodes: usize, work: &mut [u32])
    requires nodes_bound { (header.nodes ≤ 3000) × (16384 ≤ length work.old) }
    requires nodes_stand { (ns : List NodeLine) × NodesStand fields.now nodes header.nodes ns }
    ensures { (ns : List NodeLine) → NodesStand fields.now nodes header.nodes ns → up_to (record_at work.new) header.nodes ≡ records_of (row_span work.old) 0 ns }
{
    let count = header.nodes as usize;
    put_spans(work, count);
    put_heads(fields, nodes, count, work);
}
