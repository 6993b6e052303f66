// A table of ids (02, Card 6): an entry is the place of an id in a list, and the table finds the first entry with each id. So an id "defined
// twice" is known by the first line that defines it, and one "never defined" is not found. Walks and slots are `probing`'s.
#![tactic(auto)]

ghost use Rattle.std.specs.Prelude.{◌≡◌, ℕ, suc, ◌<◌, ◌≤◌, length, get_or};
ghost use Rattle.probing.specs.Probing.{walk, first, Kept};
ghost use Rattle.ids.specs.Ids.{same_id, hash_id};

use probing::Walk;

// How many slots the table has: for at most 3,000 ids, so that more than half of them stay free.
pub const SLOTS: usize = 8192;

#[tactic(auto, unfolding(crate::specs::Ids::hash_id))]
fn hash(id: u32) -> usize
    ensures { (result ≡ hash_id id) × (result < 8192) }
{
    (u64::from(id) * 2654435769 % 4294967296 / 524288) as usize
}

// The walk from the id's slot on.
fn walk_to(ids: &[u32], slots: &[u32], id: u32) -> Walk
    requires { (length slots.now ≡ 8192) × ((i : ℕ) → get_or slots.now i 0 ≤ length ids.now) }
    ensures { result ≡ walk (same_id ids.now id) slots.now (hash_id id) }
{
    probing::walk_to(slots, hash(id), |e| ids[e] == id)
}

// The table of the first `count` ids of a list.
#[derive(Clone, Copy)]
pub struct Table<'a> {
    pub ids: &'a [u32],
    pub slots: &'a [u32],
    pub count: usize,
    ghost size: { length slots.now ≡ 8192 },
    ghost within: { count ≤ length ids.now },
    ghost kept: { Kept (same_id ids.now) hash_id slots.now count },
}

// The first entry of the table that has this id.
pub fn find(table: &Table, id: u32) -> Option<usize>
    ensures { result ≡ first (same_id table.now.ids.now id) table.now.count }
{
    probing::told(walk_to(table.ids, table.slots, id))
}

// Adds the entry `count`. The answer: the first entry with its id, where there is one already; the table then still finds that one.
pub fn insert(ids: &[u32], slots: &mut [u32], count: usize) -> Option<usize>
    requires { (length slots.old ≡ 8192) × (count < 8192) × (count < length ids.now) × Kept (same_id ids.now) hash_id slots.old count }
    ensures { (result ≡ first (same_id ids.now (get_or ids.now count 0)) count) × Kept (same_id ids.now) hash_id slots.new (suc count) }
{
    let end = walk_to(ids, slots, ids[count]);
    probing::put(slots, end, count)
}
