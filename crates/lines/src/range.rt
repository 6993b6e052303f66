// The ranges of the numbers of a line.
ghost use Rattle.std.specs.Prelude.{◌≡◌, ◌<◌};
ghost use Rattle.rules.specs.Table.{is_compound};
ghost use Rattle.lines.specs.Shapes.{kind_of};
ghost use Rattle.lines.specs.Ranges.{apart_from};
ghost use Rattle.lines.specs.Reading.{in_kind};

use crate::numbers::Known;

// How many numbers of a line are kept: seven items at most follow a letter, and eight are copied as whole halves.
pub const VALUES: usize = 8;

// Where the ranges start: that of kind k at RANGES + 2 * k.
const RANGES: usize = 8;

// The kinds of numbers that the code speaks of, by their bytes in a shape; the others stand in the table of shapes alone. Numbers and no enum:
// the table packs them as bytes of one number, so an enum of the twenty would come with a match of twenty arms from byte to kind, tried at every
// item, and a second map of kinds in specs/, beside the bytes. No plainer than these names.
pub const GOAL: u64 = 1;

pub const OTHER_SUBTASK: u64 = 2;

pub const PROPOSITION: u64 = 11;

pub const CUE_ACTION: u64 = 15;

pub const SUBTASK_COUNT: u64 = 17;

pub const MEMBER_COUNT: u64 = 18;

pub const SUBTASK_TASK: u64 = 19;

// How many kinds there are: from here on a shape's byte is a list.
pub const KINDS: u64 = 20;

fn is_compound(actions: u32, compounds: u32, t: u32) -> bool
    ensures { result ≡ is_compound actions compounds t }
{
    actions <= t && t - actions < compounds
}

// What two kinds ask for besides: the goal is compound by the counts in its own line, and j is not i.
fn apart(kind: u64, before: &[u32; VALUES], v: u32) -> bool
    requires { kind < 3 }
    ensures { result ≡ apart_from before.now (kind_of kind) v }
{
    match kind {
        GOAL => is_compound(before[1], before[2], v),
        OTHER_SUBTASK => v != before[0],
        _ => true,
    }
}

// Whether v is in the range of the kind of number that a shape's byte stands for, after the numbers before it in its line: two loads, where
// a match on the kind would be a jump for every number.
pub fn in_range(kind: u64, x: &Known, before: &[u32; VALUES], v: u32) -> bool
    requires kind_bound { kind < 20 }
    ensures { result ≡ in_kind x.now.numbers before.now kind v }
{
    let at = RANGES + 2 * kind as usize;
    if v < x.numbers[at] {
        return false;
    }
    if x.numbers[at + 1] < v {
        return false;
    }
    kind > OTHER_SUBTASK || apart(kind, before, v)
}
