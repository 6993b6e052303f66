// What a table by hash is made of, whatever its keys: open addressing in a lent list of numbers. A slot holds an entry and one more, or 0
// where it is free; a walk goes from the key's slot to the next, from the last on to slot 0. The table finds the first entry that has a key.
#![tactic(auto)]

ghost use Rattle.std.specs.Prelude.{◌≡◌, Bool, ℕ, suc, ◌<◌, ◌≤◌, length, get_or};
ghost use Rattle.probing.specs.declared.Walk.TheVariants.{Free};
ghost use Rattle.probing.specs.Probing.{spot_of, look_of, walk, answer, Tells, with_entry};

// What one slot tells: it is free, it holds the entry that has the key, or it holds another.
#[derive(Clone, Copy)]
pub enum Look {
    Empty,
    Same(usize),
    Other,
}

// A walk from slot to slot: it ends at the key's entry or at a free slot, or it has seen every slot.
#[derive(Clone, Copy)]
pub enum Walk {
    Hit(usize),
    Free(usize),
    Full,
}

// The slot that is d further than h, from the last on to slot 0.
#[tactic(auto, unfolding(crate::specs::Probing::spot_of))]
pub fn spot(size: usize, h: usize, d: usize) -> usize
    requires { (h < size) × (d < size) × (size ≤ 65536) }
    ensures { (result ≡ spot_of size h d) × (result < size) }
{
    if h + d < size { h + d } else { h + d - size }
}

// What slot p tells of a key. `has` tells of an entry whether it has the key.
fn look_at<F: Fn(usize) -> bool>(slots: &[u32], has: &F, p: usize) -> Look
    requires in_table { p < length slots.now }
    requires callable { (i e : ℕ) → get_or slots.now i 0 ≡ suc e → F.pre has.now e }
    ensures { (same : ℕ → Bool) → Tells (F.post has.now) slots.now same → result ≡ look_of same (get_or slots.now p 0) }
{
    let v = slots[p];
    if v == 0 {
        return Look::Empty;
    }
    let e = (v - 1) as usize;
    if has(e) { Look::Same(e) } else { Look::Other }
}

// The walk of a key from slot h on. `has` tells of an entry whether it has the key.
pub fn walk_to<F: Fn(usize) -> bool>(slots: &[u32], h: usize, has: F) -> Walk
    requires in_table { (h < length slots.now) × (length slots.now ≤ 65536) }
    requires callable { (i e : ℕ) → get_or slots.now i 0 ≡ suc e → F.pre has e }
    ensures { (same : ℕ → Bool) → Tells (F.post has) slots.now same → result ≡ walk same slots.now h }
{
    for d in 0..slots.len() {
        let p = spot(slots.len(), h, d);
        match look_at(slots, &has, p) {
            Look::Empty => return Walk::Free(p),
            Look::Same(e) => return Walk::Hit(e),
            Look::Other => {}
        }
    }
    Walk::Full
}

// What a walk has found: the entry that has the key, if there is one.
pub fn told(w: Walk) -> Option<usize>
    ensures { result ≡ answer w }
{
    match w {
        Walk::Hit(e) => Some(e),
        Walk::Free(_) | Walk::Full => None,
    }
}

// Stores the entry n where its key's walk ended, if it ended at a free slot. The answer: the entry that has the key already, if there is one.
pub fn put(slots: &mut [u32], end: Walk, n: usize) -> Option<usize>
    requires few { n < 65536 }
    requires in_table { (p : ℕ) → end ≡ Free p → p < length slots.old }
    ensures told { result ≡ answer end }
    ensures stored { slots.new ≡ with_entry end n slots.old }
{
    if let Walk::Free(p) = end {
        slots[p] = (n + 1) as u32;
    }
    told(end)
}

// Makes a table with no entries.
pub fn clear(slots: &mut [u32])
    ensures { (i : ℕ) → get_or slots.new i 0 ≡ 0 }
{
    slots.fill(0);
}
