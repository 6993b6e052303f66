// The E lines of a case among its fields (02, Card 4): how many there are, what their gaps add to the text's length, other gaps put in their
// place; and what node lines say of a span whatever the gaps are.
#![tactic(auto)]

ghost use Rattle.std.specs.Prelude.{◌≡◌, List, ◌++◌, map, ℕ, ◌+◌, ◌-◌, ◌<◌, ◌≤◌, length, take, drop};
ghost use Rattle.rules.specs.declared.Header.{Header};
ghost use Rattle.rules.specs.State.{bit};
ghost use Rattle.rules.specs.Text.{decimal};
ghost use Rattle.rules.specs.Case.{NodeLine};
ghost use Rattle.rules.specs.Fields.{lines_fields, node_line};
ghost use Rattle.rules.specs.Refusals.{Each};
ghost use Rattle.rules.specs.Ranges.{GoodNode};
ghost use Rattle.rules.specs.Gaps.{empty_count, with_gaps, gaps_of};
ghost use Rattle.rules.proofs.Gaps.Lengths.{surplus};
ghost use Rattle.records.specs.Records.{NodesStand};
ghost use Rattle.gaps.specs.Sums.{low_of, high_of, in_run};

use fields::node_size;

// The letters E and L, as the lent fields have them, which are numbers.
const EMPTY: u32 = b'E' as u32;

const LEAF: u32 = b'L' as u32;

// How many of so many node lines are E lines.
pub fn count_empties(fields: &[u32], nodes: usize, count: usize) -> u32
    requires count_bound { count ≤ 3000 }
    requires nodes_stand { (ns : List NodeLine) × NodesStand fields.now nodes count ns }
    ensures { (ns : List NodeLine) → NodesStand fields.now nodes count ns → result ≡ empty_count ns }
{
    let mut at = nodes;
    let mut empties: u32 = 0;
    for _ in 0..count {
        let letter = fields[at];
        if letter == EMPTY {
            empties += 1;
        }
        at += node_size(letter);
    }
    empties
}

// How many digits a gap has past its first.
#[tactic(auto, using(crate::proofs::Digits::digits_one, crate::proofs::Digits::digits_two, crate::proofs::Digits::digits_three, crate::proofs::Digits::digits_four))]
pub fn more_digits(gap: u32) -> u32
    requires { gap ≤ 1000 }
    ensures { result ≡ length (decimal gap) - 1 }
{
    match gap {
        0..=9 => 0,
        10..=99 => 1,
        100..=999 => 2,
        _ => 3,
    }
}

// How many digits the gaps of the E lines have past their first ones. The loop is that of `count_empties` with another share of a line: one function
// over a closure would have the closure's bound and its sum in every clause, and be no plainer.
pub fn claimed_surplus(fields: &[u32], nodes: usize, count: usize) -> u32
    requires count_bound { count ≤ 3000 }
    requires nodes_stand { (ns : List NodeLine) × (h : Header) × NodesStand fields.now nodes count ns × Each (GoodNode h) ns × (h.cues ≤ 1000) }
    ensures { (ns : List NodeLine) → NodesStand fields.now nodes count ns → result ≡ surplus (gaps_of ns) }
{
    let mut at = nodes;
    let mut digits: u32 = 0;
    for _ in 0..count {
        let letter = fields[at];
        if letter == EMPTY {
            digits += more_digits(fields[at + 2]);
        }
        at += node_size(letter);
    }
    digits
}

// The gaps of a choice put into the E lines, in turn: the gap's number moves on at those lines alone, so no iterator goes with the lines.
pub fn put_gaps(fields: &mut [u32], nodes: usize, count: usize, choice: &[u32])
    requires { (ns : List NodeLine) × NodesStand fields.old nodes count ns × (empty_count ns ≤ length choice.now) }
    ensures { (ns : List NodeLine) (s : NodesStand fields.old nodes count ns) → empty_count ns ≤ length choice.now → fields.new ≡ take nodes fields.old ++ (lines_fields (map node_line (with_gaps choice.now 0 ns)) ++ s.here.rest) }
{
    let mut at = nodes;
    let mut a: usize = 0;
    for _ in 0..count {
        let letter = fields[at];
        if letter == EMPTY {
            fields[at + 2] = choice[a];
            a += 1;
        }
        at += node_size(letter);
    }
}

// What so many node lines say of their span: the least and the greatest cue, how many empty tasks there are, and where the next line stands.
#[derive(Clone, Copy)]
pub struct Sum {
    pub low: u32,
    pub high: u32,
    pub empties: u32,
    pub next: usize,
}

pub fn sum_lines(fields: &[u32], from: usize, count: usize, cues: u32) -> Sum
    requires count_bound { (count ≤ 3000) × (cues ≤ 1000) }
    requires nodes_stand { (ns : List NodeLine) × (h : Header) × NodesStand fields.now from count ns × Each (GoodNode h) ns × (h.cues ≤ 1000) }
    ensures { (ns : List NodeLine) → NodesStand fields.now from count ns → (result.low ≡ low_of cues ns) × (result.high ≡ high_of ns) × (result.empties ≡ empty_count ns) × (result.next ≡ from + length (lines_fields (map node_line ns))) }
{
    let mut at = from;
    let mut low = 2 * cues + 1;
    let mut high: u32 = 0;
    let mut empties: u32 = 0;
    for _ in 0..count {
        let letter = fields[at];
        if letter == EMPTY {
            empties += 1;
        }
        if letter == LEAF {
            let index = 2 * fields[at + 2];
            low = low.min(index);
            high = high.max(index);
        }
        at += node_size(letter);
    }
    Sum {
        low,
        high,
        empties,
        next: at,
    }
}

// The positions of `count` empty tasks from the first on, as a set: bit s for position s.
pub fn run(first: u32, count: u32) -> u32
    requires { first + count ≤ 32 }
    ensures { (s : ℕ) → bit result s ≡ in_run first count s }
{
    subsets::all(first + count) - subsets::all(first)
}
