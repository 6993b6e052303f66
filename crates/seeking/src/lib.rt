// The search through the choices of gaps (02, Card 4), in dictionary order: a choice that an entry or the text's length stands against is skipped
// with all others that fail for the same reason.
#![tactic(auto)]

ghost use Rattle.std.specs.Prelude.{◌≡◌, Bool, true, List, ℕ, ◌+◌, ◌≤◌, length};
ghost use Rattle.rules.specs.Gaps.{Within};
ghost use Rattle.rows.specs.Rows.{in_row};
ghost use Rattle.columns.specs.Columns.{Columns};
ghost use Rattle.choices.specs.Reasons.{Reason, Known};
ghost use Rattle.blames.specs.Entries.{PoolFits, PoolSound};
ghost use Rattle.seeking.specs.Seeking.{LongFails, LongSays, Skipped, Nearer, Sought};

use blames::{Entry, SLOTS};

// The next choice that does not fail for a reason that is known, with the reasons known of it: how many of its first positions may have
// changed; none where no choice is left.
pub fn skip(choice: &mut [u32], why: &mut [u32], k: u32, set: u32) -> Option<usize>
    requires { (k ≤ 1000) × (length why.old ≡ length choice.old) × (length choice.old ≤ 32) }
    ensures nearer { Nearer k choice.old result choice.new }
    ensures skips { (passing : List ℕ → Bool) → Within k choice.old → Reason passing k (length choice.old) set choice.old → Known passing k why.old choice.old → Skipped passing k choice.old result choice.new why.new }
{
    let b = choices::learn(choice, why, k, set);
    if !choices::advance(choice, k, b) {
        return None;
    }
    Some(b)
}

// The positions of two digits or more, where there are more digits past the first ones than there is room for.
fn too_long(choice: &[u32], k: u32, spare: u32) -> Option<u32>
    requires { (k ≤ 1000) × Within k choice.now × (length choice.now ≤ 19) }
    ensures { LongSays k spare choice.now result }
{
    if 3 * choice.len() <= spare as usize {
        return None;
    }
    let mut digits: u32 = 0;
    let mut set: u32 = 0;
    for (s, gap) in choice.iter().enumerate() {
        let more = gaps::more_digits(*gap);
        if more != 0 {
            digits += more;
            set |= 1u32 << s;
        }
    }
    if spare < digits {
        return Some(set);
    }
    None
}

// From a choice on to the first that no entry and no length stands against; false where none is left. Whether that one passes is left open:
// the caller tries it whole.
pub fn seek(
    choice: &mut [u32],
    why: &mut [u32],
    pool: &[Entry; SLOTS],
    counts: &[u32],
    order: &mut [u32],
    k: u32,
    spare: u32,
    states: &[u64],
    columns: &mut [u64],
    built: &mut [u64],
) -> bool
    requires k_bound { (k ≤ 1000) × Within k choice.old × (length choice.old ≤ 19) × (length why.old ≡ length choice.old) }
    requires pool_fits { PoolFits k (length choice.old) pool.now }
    requires counts_len { (length counts.now ≡ 19) × (length order.old ≡ 2432) }
    requires columns { Columns states.now (k + 1) columns.old built.old }
    ensures within { result ≡ true → Within k choice.new }
    ensures sought { (passing : List ℕ → Bool) → PoolSound (in_row states.now) passing k (length choice.old) pool.now → LongFails passing k (length choice.old) spare → Known passing k why.old choice.old → Sought passing k choice.old result choice.new why.new }
{
    let mut from: usize = 0;
    // A `loop`: each turn goes on from the position that the step to the next choice has changed.
    loop {
        let set = match blames::test(pool, counts, order, from, choice, k, states, columns, built) {
            Some(set) => set,
            None => match too_long(choice, k, spare) {
                Some(set) => set,
                None => return true,
            },
        };
        let Some(b) = skip(choice, why, k, set) else {
            return false;
        };
        from = b - 1;
    }
}
