// A table of names (02, Card 6): an entry e is a place of the name list, from starts[e] to before ends[e], and the table finds the first entry
// with each name. So "a name not listed for that use" is not found, and one "listed again among the tasks or among the methods" is known when
// "the later line" is added. The places are two lists of numbers, as `name_at` and `Placed` say; walks and slots are `probing`'s.
#![tactic(auto)]

ghost use Rattle.std.specs.Prelude.{◌≡◌, ℕ, suc, ◌-◌, ◌<◌, ◌≤◌, length, get_or, take, drop};
ghost use Rattle.rules.specs.Tokens.{same_bytes};
ghost use Rattle.probing.specs.Probing.{walk, first, Kept};
ghost use Rattle.names.specs.Names.{hash_name, name_at, same_name, Placed};

use probing::Walk;

// How many slots the table has: for at most 2,048 names of a use, so that at least half of them stay free.
pub const SLOTS: usize = 4096;

// The slot of a name: 32 bits are kept from byte to byte, and cut once at the end.
fn hash(name: &[u8]) -> usize
    ensures { (result ≡ hash_name name.now) × (result < 4096) }
{
    let mut h: u64 = 0;
    for &b in name {
        h = (h * 31 + u64::from(b)) % 4294967296;
    }
    (h * 2654435769 % 4294967296 / 1048576) as usize
}

// Whether two names have the same bytes.
pub fn same(a: &[u8], b: &[u8]) -> bool
    ensures { result ≡ same_bytes a.now b.now }
{
    a == b
}

// The walk from the name's slot on.
fn walk_to(text: &[u8], starts: &[usize], ends: &[usize], slots: &[u32], name: &[u8]) -> Walk
    requires { (length slots.now ≡ 4096) × Placed text.now starts.now ends.now × ((i : ℕ) → get_or slots.now i 0 ≤ length starts.now) }
    ensures { result ≡ walk (same_name text.now starts.now ends.now name.now) slots.now (hash_name name.now) }
{
    probing::walk_to(slots, hash(name), |e| {
        same(&text[starts[e]..ends[e]], name)
    })
}

// The first of the `count` entries whose name is other[from..to].
pub fn find(
    text: &[u8],
    starts: &[usize],
    ends: &[usize],
    slots: &[u32],
    count: usize,
    other: &[u8],
    from: usize,
    to: usize,
) -> Option<usize>
    requires { (length slots.now ≡ 4096) × (count ≤ length starts.now) × Placed text.now starts.now ends.now × (from ≤ to) × (to ≤ length other.now) × Kept (same_name text.now starts.now ends.now) hash_name slots.now count }
    ensures { result ≡ first (same_name text.now starts.now ends.now (take (to - from) (drop from other.now))) count }
{
    probing::told(walk_to(text, starts, ends, slots, &other[from..to]))
}

// Adds the entry `count`. The answer: the first entry with its name, where there is one already; the table then still finds that one.
pub fn insert(
    text: &[u8],
    starts: &[usize],
    ends: &[usize],
    slots: &mut [u32],
    count: usize,
) -> Option<usize>
    requires { (length slots.old ≡ 4096) × (count < 4096) × (count < length starts.now) × Placed text.now starts.now ends.now × Kept (same_name text.now starts.now ends.now) hash_name slots.old count }
    ensures { (result ≡ first (same_name text.now starts.now ends.now (name_at text.now starts.now ends.now count)) count) × Kept (same_name text.now starts.now ends.now) hash_name slots.new (suc count) }
{
    let from = starts[count];
    let to = ends[count];
    let end = walk_to(text, starts, ends, slots, &text[from..to]);
    probing::put(slots, end, count)
}
