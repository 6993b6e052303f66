// The lent lists (01, "The check and replay calls"): "the state list holds states 0 to k, each written to its own stretch";
// "the rest is zero"; "Work space is zero after each call."
#![tactic(auto)]

ghost use Rattle.std.specs.Prelude.{◌≡◌, ◌+◌, ◌*◌, ◌≤◌, length, replicate};
ghost use Rattle.rules.specs.State.{word_count};
ghost use Rattle.rules.specs.Constraint.{signed};
ghost use Rattle.index.specs.Spans.{state_of};
ghost use Rattle.rows.specs.Rows.{put_row, in_row};

use index::StateNumber;
use rules::Sign;
use state::{State, WORDS};

// Where the row of state l starts: "each written to its own stretch".
fn row_start(l: StateNumber) -> usize
    ensures { result ≡ word_count * state_of l }
{
    WORDS * l.number() as usize
}

// Writes s as state l: the row for state l is lent on as a middle part of the state list.
pub fn put_row(states: &mut [u64], l: StateNumber, s: State)
    requires { word_count * state_of l + word_count ≤ length states.old }
    ensures { states.new ≡ put_row states.old (state_of l) s.words }
{
    let from = row_start(l);
    let to = from + WORDS;
    states[from..to].copy_from_slice(&s.words);
}

// A test with a sign.
fn with_sign(sign: Sign, holds: bool) -> bool
    ensures { result ≡ signed sign holds }
{
    match sign {
        Sign::Positive => holds,
        Sign::Negative => !holds,
    }
}

// "The test "p holds in state l" therefore carries a sign" (02, Card 1). The row for state l is lent on likewise.
pub fn holds_at(states: &[u64], sign: Sign, p: u32, l: StateNumber) -> bool
    requires { word_count * state_of l + word_count ≤ length states.now }
    ensures { result ≡ in_row states.now sign p (state_of l) }
{
    let from = row_start(l);
    let to = from + WORDS;
    with_sign(sign, state::holds(&states[from..to], p))
}

// The state list, zero throughout. It and `clear_work` are `fill` at two widths: generic, they would be `fill` again, with the zero handed in.
pub fn clear(list: &mut [u64])
    ensures { list.new ≡ replicate (length list.old) 0 }
{
    list.fill(0);
}

// The work space, zero throughout.
pub fn clear_work(work: &mut [u32])
    ensures { work.new ≡ replicate (length work.old) 0 }
{
    work.fill(0);
}
