// An entry, and its test with the gaps of a choice.
ghost use Rattle.std.specs.Prelude.{◌≡◌, ◌≢◌, ◌+◌, ◌^◌, ◌<◌, ◌≤◌, length};
ghost use Rattle.rules.specs.Gaps.{Within};
ghost use Rattle.index.specs.Spans.{span_of};
ghost use Rattle.rows.specs.Rows.{in_row};
ghost use Rattle.columns.specs.Columns.{Columns};
ghost use Rattle.subsets.specs.Members.{members_of};
ghost use Rattle.blames.specs.Entries.{lowest, highest, edges, entry_keeps, EntryFits};

use index::{Doubled, Span};
use parts::{is_either, keeps_after, keeps_before, keeps_between, sign_of};

// A constraint's letter and proposition; the cue that its end part ends at, at least, and the positions of the empty tasks there; the same of
// its start part's start, at most. The letter stays the text's byte: the definitions' constraint_of and sign_of go by it.
#[derive(Clone, Copy)]
pub struct Entry {
    pub letter: u8,
    pub p: u32,
    pub end: u32,
    pub ends: u32,
    pub start: u32,
    pub starts: u32,
}

// No entry: it has no letter and says nothing. A list of slots is made of it; with an Option each slot would be a word longer.
pub const SILENT: Entry = Entry {
    letter: 0,
    p: 0,
    end: 0,
    ends: 0,
    start: 0,
    starts: 0,
};

// The least of an index and of the gaps at the positions of a set. A `while`: it goes on by the set that is left. `greatest` differs in the rule,
// not in a type or a constant.
fn least(v: u32, set: u32, choice: &[u32], k: u32) -> u32
    requires { (k ≤ 1000) × Within k choice.now × (length choice.now ≤ 32) × (set < 2 ^ length choice.now) }
    ensures { result ≡ lowest v (members_of set) choice.now }
{
    let mut low = v;
    let mut rest = set;
    while 0 < subsets::size(rest) {
        let s = subsets::lowest(rest) as usize;
        low = low.min(2 * choice[s] + 1);
        rest = subsets::others(rest);
    }
    low
}

// The greatest. A `while`, as in `least`.
fn greatest(v: u32, set: u32, choice: &[u32], k: u32) -> u32
    requires { (k ≤ 1000) × Within k choice.now × (length choice.now ≤ 32) × (set < 2 ^ length choice.now) }
    ensures { result ≡ highest v (members_of set) choice.now }
{
    let mut high = v;
    let mut rest = set;
    while 0 < subsets::size(rest) {
        let s = subsets::lowest(rest) as usize;
        high = high.max(2 * choice[s] + 1);
        rest = subsets::others(rest);
    }
    high
}

// The span from where the start part starts to where the end part ends.
fn span_of(x: Entry, choice: &[u32], k: u32) -> Span
    requires { (k ≤ 1000) × Within k choice.now × (length choice.now ≤ 32) × EntryFits k (length choice.now) x }
    ensures { span_of result ≡ edges x choice.now }
{
    Span {
        start: Doubled::stored(least(x.start, x.starts, choice, k)),
        end: Doubled::stored(greatest(x.end, x.ends, choice, k)),
    }
}

// Whether the constraint of an entry holds with the gaps of a choice.
pub fn keeps_entry(
    x: Entry,
    choice: &[u32],
    k: u32,
    states: &[u64],
    columns: &mut [u64],
    built: &mut [u64],
) -> bool
    requires k_bound { (k ≤ 1000) × Within k choice.now × (length choice.now ≤ 32) × (x.letter ≢ 0 → EntryFits k (length choice.now) x) }
    requires columns { Columns states.now (k + 1) columns.old built.old }
    ensures value { result ≡ entry_keeps (in_row states.now) x choice.now }
    ensures columns_2 { Columns states.now (k + 1) columns.new built.new }
{
    let letter = x.letter;
    if letter == 0 {
        return true;
    }
    let p = x.p;
    let sign = sign_of(letter);
    let span = span_of(x, choice, k);
    let held = k as usize + 1;
    if is_either(letter, b'W') {
        return keeps_between(columns, built, states, held, sign, p, span, span);
    }
    if is_either(letter, b'F') {
        return keeps_after(states, sign, p, span);
    }
    if is_either(letter, b'B') {
        return keeps_before(states, sign, p, span);
    }
    span.is_before(span)
}
