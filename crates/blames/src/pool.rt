// Entries in buckets, and the first that is broken.
ghost use Rattle.std.specs.Prelude.{◌≡◌, Bool, true, List, ℕ, ◌+◌, ◌*◌, ◌<◌, ◌≤◌, length};
ghost use Rattle.rules.specs.Constraint.{Holds};
ghost use Rattle.rules.specs.Gaps.{Within};
ghost use Rattle.rows.specs.Rows.{in_row};
ghost use Rattle.columns.specs.Columns.{Columns};
ghost use Rattle.blames.specs.Entries.{EntryFits, EntrySound, PoolFits, PoolSound};
ghost use Rattle.blames.specs.Tests.{Broken, Says};

use crate::entry::{Entry, keeps_entry};

// How many positions have a bucket: with at least one cue more empty tasks make more than 1,000,000 choices.
pub const POSITIONS: usize = 19;

// How many entries a bucket has room for. One that finds no room is left out: a choice that passes the others is checked whole. How many a bucket
// has stands in a list beside: no heap, fixed memory.
pub const BUCKET: usize = 128;

// How many slots the buckets have, each with an entry and with a turn.
pub const SLOTS: usize = POSITIONS * BUCKET;

// A slot that is broken, and in which turn it was tried.
#[derive(Clone, Copy)]
struct Hit {
    slot: usize,
    turn: usize,
}

// The last position of a set; 0 for the empty set.
fn last_of(set: u32) -> usize
    ensures { result ≤ 31 }
{
    if set == 0 {
        return 0;
    }
    set.ilog2() as usize
}

// Whether an entry fits: its indexes lie between the first gap and the last one, its positions below those that there are.
pub fn fits(k: u32, positions: u32, x: Entry) -> bool
    requires { (k ≤ 1000) × (positions ≤ 19) }
    ensures { result ≡ true → EntryFits k positions x }
{
    if x.start < 1 {
        return false;
    }
    if 2 * k + 1 < x.start {
        return false;
    }
    if 2 * k + 1 < x.end {
        return false;
    }
    let set = x.ends | x.starts;
    if subsets::all(positions) < set {
        return false;
    }
    true
}

// An entry put into the bucket of its last position, if it fits and there is room.
pub fn push(pool: &mut [Entry; SLOTS], counts: &mut [u32], k: u32, positions: u32, x: Entry)
    requires { (k ≤ 1000) × (positions ≤ 19) × (length counts.old ≡ 19) }
    ensures pool_fits { PoolFits k positions pool.old → PoolFits k positions pool.new }
    ensures pool_sound { (holds : Holds) (passing : List ℕ → Bool) → PoolSound holds passing k positions pool.old → (EntryFits k positions x → EntrySound holds passing k positions x) → PoolSound holds passing k positions pool.new }
{
    if !fits(k, positions, x) {
        return;
    }
    let bucket = last_of(x.ends | x.starts);
    if POSITIONS <= bucket {
        return;
    }
    let count = counts[bucket] as usize;
    if BUCKET <= count {
        return;
    }
    counts[bucket] += 1;
    pool[bucket * BUCKET + count] = x;
}

// Each bucket's slots in turn, before any is broken: their numbers in the bucket. Nothing is promised: any order is right.
pub fn in_order(order: &mut [u32]) {
    for (i, slot) in order.iter_mut().enumerate() {
        *slot = (i % BUCKET) as u32;
    }
}

// The slot of turn i comes first, those before it one turn later. Nothing is promised: any order is right.
fn to_front(turns: &mut [u32], i: usize)
    requires { i < length turns.old }
{
    turns[..i + 1].rotate_right(1);
}

// The first broken one of a bucket's entries, in their turns.
fn broken_in(
    pool: &[Entry; SLOTS],
    first: usize,
    count: usize,
    turns: &[u32],
    choice: &[u32],
    k: u32,
    states: &[u64],
    columns: &mut [u64],
    built: &mut [u64],
) -> Option<Hit>
    requires k_bound { (k ≤ 1000) × Within k choice.now × (length choice.now ≤ 32) × PoolFits k (length choice.now) pool.now }
    requires count_in_bounds { (first + count ≤ length pool.now) × (count ≤ length turns.now) }
    requires columns { Columns states.now (k + 1) columns.old built.old }
    ensures broken { Broken (in_row states.now) pool.now choice.now (length turns.now) result }
    ensures columns_2 { Columns states.now (k + 1) columns.new built.new }
{
    for i in 0..count {
        let place = turns[i] as usize;
        if place < count {
            let x = pool[first + place];
            if !keeps_entry(x, choice, k, states, columns, built) {
                return Some(Hit {
                    slot: first + place,
                    turn: i,
                });
            }
        }
    }
    None
}

// The positions of the first broken entry from a bucket on: the set because of which the choice fails. Its slot's turn in its bucket is the first
// from then on. What is said where none is found is left open: the caller tries such a choice whole.
pub fn test(
    pool: &[Entry; SLOTS],
    counts: &[u32],
    order: &mut [u32],
    from: usize,
    choice: &[u32],
    k: u32,
    states: &[u64],
    columns: &mut [u64],
    built: &mut [u64],
) -> Option<u32>
    requires k_bound { (k ≤ 1000) × Within k choice.now × (length choice.now ≤ 19) × PoolFits k (length choice.now) pool.now }
    requires counts_len { (length counts.now ≡ 19) × (length order.old ≡ 2432) }
    requires columns { Columns states.now (k + 1) columns.old built.old }
    ensures says { Says (in_row states.now) pool.now choice.now result }
    ensures columns_2 { Columns states.now (k + 1) columns.new built.new }
{
    for s in from..choice.len() {
        let first = s * BUCKET;
        let past = first + BUCKET;
        let count = (counts[s] as usize).min(BUCKET);
        let hit = broken_in(
            pool,
            first,
            count,
            &order[first..past],
            choice,
            k,
            states,
            columns,
            built,
        );
        if let Some(hit) = hit {
            to_front(&mut order[first..past], hit.turn);
            let x = pool[hit.slot];
            return Some(x.ends | x.starts);
        }
    }
    None
}
