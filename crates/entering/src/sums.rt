// The parts of a task's subtasks, from the node lines below each; and the part of a set of subtasks.
ghost use Rattle.std.specs.Prelude.{◌≡◌, ℕ, ◌+◌, ◌≤◌, length};
ghost use Rattle.rules.specs.State.{bit};
ghost use Rattle.rules.specs.Tree.{Trees};
ghost use Rattle.gaps.specs.Sums.{in_run};
ghost use Rattle.entering.specs.Parts.{joined, part_of_set};
ghost use Rattle.entering.specs.Trees.{TreesStand, PartsSaid};

use gaps::Sum;

// What a part of a task says of its span: the least and the greatest cue below it, and the positions of the empty tasks there.
#[derive(Clone, Copy)]
pub struct Part {
    pub low: u32,
    pub high: u32,
    pub set: u32,
}

// What a subtask has that is not there.
pub const ABSENT: Part = Part {
    low: 0,
    high: 0,
    set: 0,
};

// How many subtasks a method has at most: the members of a set of them.
pub const SUBTASKS: usize = 32;

// The part that node lines say, which come after `first` empty tasks.
pub fn part_of(sum: Sum, first: u32) -> Part
    requires { first + sum.empties ≤ 32 }
    ensures { (result.low ≡ sum.low) × (result.high ≡ sum.high) × ((s : ℕ) → bit result.set s ≡ in_run first sum.empties s) }
{
    Part {
        low: sum.low,
        high: sum.high,
        set: gaps::run(first, sum.empties),
    }
}

// The parts of so many trees, as those of a task's subtasks, the first of them node `node`, whose line stands at `at`, after `first` empty tasks.
// A slice: the whole task's own part stands in a list of one.
pub fn sum_trees(
    fields: &[u32],
    work: &[u32],
    node: u32,
    at: usize,
    first: u32,
    count: u32,
    cues: u32,
    sums: &mut [Part],
)
    requires cues_bound { (cues ≤ 1000) × (count ≤ length sums.old) }
    requires trees_stand { (ts : Trees) × TreesStand fields.now work.now node at first count ts }
    ensures { (ts : Trees) → TreesStand fields.now work.now node at first count ts → PartsSaid cues first ts sums.new 0 }
{
    let mut n = node;
    let mut place = at;
    let mut before = first;
    for j in 0..count as usize {
        let after = parts::after_at(work, n);
        let sum = gaps::sum_lines(fields, place, (after - n) as usize, cues);
        sums[j] = part_of(sum, before);
        n = after;
        place = sum.next;
        before += sum.empties;
    }
}

// Two parts together.
fn join(a: Part, b: Part) -> Part
    ensures { result ≡ joined a b }
{
    Part {
        low: a.low.min(b.low),
        high: a.high.max(b.high),
        set: a.set | b.set,
    }
}

// The part of a set of subtasks, of a task whose own is `own`: "0 is the whole task". A `while`: it goes on by the set that is left.
pub fn part_of_set(sums: &[Part; SUBTASKS], own: Part, u: u32) -> Part
    ensures { result ≡ part_of_set sums.now own u }
{
    if u == 0 {
        return own;
    }
    let mut part = sums[subsets::lowest(u) as usize];
    let mut rest = subsets::others(u);
    while 0 < subsets::size(rest) {
        part = join(part, sums[subsets::lowest(rest) as usize]);
        rest = subsets::others(rest);
    }
    part
}
