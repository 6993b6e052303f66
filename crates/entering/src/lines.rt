// The constraints of one node as entries, from the parts of its task and its subtasks.
ghost use Rattle.std.specs.Prelude.{◌≡◌, Bool, List, ℕ, ◌+◌, ◌≤◌, length};
ghost use Rattle.rules.specs.Case.{Constraint};
ghost use Rattle.rules.specs.Constraint.{Holds};
ghost use Rattle.rules.specs.Refusals.{Each};
ghost use Rattle.rules.specs.Gaps.{Within};
ghost use Rattle.columns.specs.Columns.{Columns};
ghost use Rattle.constraints.specs.Methods.{ConstraintsHere, meant};
ghost use Rattle.blames.specs.Entries.{EntryFits, EntrySound, PoolFits, PoolSound};
ghost use Rattle.entering.specs.Lines.{InSums, entry_of, EntriesSound};

use crate::sums::{Part, SUBTASKS, part_of_set};
use blames::{Entry, SLOTS};
use constraints::Line;
use parts::is_either;

// The entry of a constraint: O takes the end of one subtask and the start of another; B the start of its set, F the end; W the end of one set and
// the start of another.
fn entry_of(d: Line, own: Part, sums: &[Part; SUBTASKS]) -> Entry
    requires { InSums (meant d) }
    ensures { result ≡ entry_of d own sums.now }
{
    let letter = d.letter;
    if is_either(letter, b'W') {
        let u = part_of_set(sums, own, d.first);
        let v = part_of_set(sums, own, d.third);
        return Entry {
            letter,
            p: d.second,
            end: u.high,
            ends: u.set,
            start: v.low,
            starts: v.set,
        };
    }
    if is_either(letter, b'F') {
        let u = part_of_set(sums, own, d.second);
        return Entry {
            letter,
            p: d.first,
            end: u.high,
            ends: u.set,
            start: 1,
            starts: 0,
        };
    }
    if is_either(letter, b'B') {
        let u = part_of_set(sums, own, d.second);
        return Entry {
            letter,
            p: d.first,
            end: 0,
            ends: 0,
            start: u.low,
            starts: u.set,
        };
    }
    let t = sums[d.first as usize];
    let v = sums[d.second as usize];
    Entry {
        letter,
        p: 0,
        end: t.high,
        ends: t.set,
        start: v.low,
        starts: v.set,
    }
}

// Whether no empty task touches an entry, and it holds: then it holds with every choice.
fn is_settled(
    x: Entry,
    choice: &[u32],
    k: u32,
    states: &[u64],
    columns: &mut [u64],
    built: &mut [u64],
) -> bool
    requires k_bound { (k ≤ 1000) × Within k choice.now × (length choice.now ≤ 19) × EntryFits k (length choice.now) x }
    requires columns { Columns states.now (k + 1) columns.old built.old }
    ensures { Columns states.now (k + 1) columns.new built.new }
{
    if x.ends | x.starts == 0 {
        return blames::keeps_entry(x, choice, k, states, columns, built);
    }
    false
}

// An entry put among the others, if it fits and is not settled already.
fn enter(
    pool: &mut [Entry; SLOTS],
    counts: &mut [u32],
    k: u32,
    choice: &[u32],
    x: Entry,
    states: &[u64],
    columns: &mut [u64],
    built: &mut [u64],
)
    requires k_bound { (k ≤ 1000) × Within k choice.now × (length choice.now ≤ 19) }
    requires columns_2 { Columns states.now (k + 1) columns.old built.old }
    requires pool_fits { PoolFits k (length choice.now) pool.old }
    requires counts_len { length counts.old ≡ 19 }
    ensures columns { Columns states.now (k + 1) columns.new built.new }
    ensures fits { PoolFits k (length choice.now) pool.new }
    ensures sound { (holds : Holds) (passing : List ℕ → Bool) → (EntryFits k (length choice.now) x → EntrySound holds passing k (length choice.now) x) → PoolSound holds passing k (length choice.now) pool.old → PoolSound holds passing k (length choice.now) pool.new }
{
    let positions = choice.len() as u32;
    if !blames::fits(k, positions, x) {
        return;
    }
    if is_settled(x, choice, k, states, columns, built) {
        return;
    }
    blames::push(pool, counts, k, positions, x);
}

// The entries of so many constraints of one node.
pub fn enter_lines(
    fields: &[u32],
    from: usize,
    count: u32,
    own: Part,
    sums: &[Part; SUBTASKS],
    k: u32,
    choice: &[u32],
    pool: &mut [Entry; SLOTS],
    counts: &mut [u32],
    states: &[u64],
    columns: &mut [u64],
    built: &mut [u64],
)
    requires k_bound { (k ≤ 1000) × Within k choice.now × (length choice.now ≤ 19) }
    requires constraints_here { (cs : List Constraint) × ConstraintsHere fields.now from count cs × Each InSums cs }
    requires columns_2 { Columns states.now (k + 1) columns.old built.old }
    requires pool_fits { PoolFits k (length choice.now) pool.old }
    requires counts_len { length counts.old ≡ 19 }
    ensures columns { Columns states.now (k + 1) columns.new built.new }
    ensures fits { PoolFits k (length choice.now) pool.new }
    ensures sound { (holds : Holds) (passing : List ℕ → Bool) (cs : List Constraint) → ConstraintsHere fields.now from count cs → EntriesSound holds passing k (length choice.now) own sums.now cs → PoolSound holds passing k (length choice.now) pool.old → PoolSound holds passing k (length choice.now) pool.new }
{
    let mut at = from;
    for number in 0..count {
        let d = constraints::line_at(fields, at);
        let x = entry_of(d, own, sums);
        enter(pool, counts, k, choice, x, states, columns, built);
        at = d.next;
    }
}
