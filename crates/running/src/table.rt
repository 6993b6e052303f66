// The table of the first actions' sets: an action's line is decoded once, and not at each of its cues.
ghost use Rattle.std.specs.Prelude.{◌≡◌, ℕ, ◌*◌, ◌≤◌, ◌<◌, length, get_or, replicate};
ghost use Rattle.rules.specs.State.{word_count};
ghost use Rattle.running.specs.Sets.{HasAction, set_count, Holds};

use crate::sets;
use crate::sets::SET_COUNT;

// How many of so many actions, with sets of `size` words, a table of so many words has room for.
#[tactic(auto, unfolding(rules::specs::State::word_count))]
pub fn held(actions: u32, size: usize, words: usize) -> usize
    requires { (1 ≤ size) × (size ≤ word_count) }
    ensures { (result ≤ actions) × (set_count * size * result ≤ words) }
{
    let all = actions as usize;
    let most = words / (SET_COUNT * size);
    all.min(most)
}

// The sets of the first `count` actions, each in its own stretch of a table that is zero.
pub fn decode_actions(
    fields: &[u32],
    directory: &[u32],
    count: usize,
    size: usize,
    table: &mut [u64],
)
    requires few { size ≤ word_count }
    requires listed { count ≤ length directory.now }
    requires here { (i : ℕ) → i < count → HasAction size fields.now (get_or directory.now i 0) }
    requires room { set_count * size * count ≤ length table.old }
    requires zero { table.old ≡ replicate (length table.old) 0 }
    ensures { Holds fields.now directory.now table.new size count }
{
    let stretch = SET_COUNT * size;
    for a in 0..count {
        let at = directory[a] as usize;
        let from = stretch * a;
        let to = from + stretch;
        sets::decode(fields, at, size, &mut table[from..to]);
    }
}
