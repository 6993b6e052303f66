// The import call (02, Card 6) over plain lists: the case, the name list and the form become a text in the lent output, and that text goes through
// the find-the-gaps call. The columns of the node records are left in the work space.
#![tactic(auto)]

ghost use Rattle.std.specs.Prelude.{◌≡◌, List, ℕ, ◌≤◌, length, replicate};
ghost use Rattle.rules.specs.Verdict.{check_lists, filled};
ghost use Rattle.rules.specs.Gaps.{before_choices, Limited};
ghost use Rattle.rules.specs.Import.{made_from, import_form, LimitedMade};
ghost use Rattle.judge.specs.Phases.{Cleared};
ghost use Rattle.importer.specs.Importing.{made_text, then_find, from_made, LimitedTo, Imports};

mod made;
mod texts;

use rules::Answer;

// What the call answers, how many choices of gaps it tried and how long the made text is, both 0 for a refusal: no `Result`, since the C struct
// has all three.
#[derive(Clone, Copy)]
pub struct Outcome {
    pub answer: Answer,
    pub tried: u32,
    pub length: u32,
}

// "zero if refused"
fn refuse(output: &mut [u8], answer: Answer) -> Outcome
    ensures { (result.answer ≡ answer) × (result.tried ≡ 0) × (result.length ≡ 0) × (output.new ≡ replicate (length output.old) 0) }
{
    output::clear(output);
    Outcome {
        answer,
        tried: 0,
        length: 0,
    }
}

// The made text "goes through Card 4, whose refusals stand".
fn find_made(
    states: &mut [u64],
    work: &mut [u32],
    node_room: usize,
    bytes: u32,
    output: &mut [u8],
) -> Outcome
    requires { (made : List ℕ) × (output.old ≡ filled (length output.old) 0 made) × (length made ≡ bytes) × (length made ≤ length output.old) }
    ensures { (made : List ℕ) → output.old ≡ filled (length output.old) 0 made → length made ≡ bytes → Imports (λ n. then_find n (check_lists (length states.old) node_room (length work.old)) made) (Limited (before_choices (check_lists (length states.old) node_room (length work.old)) made)) (length states.old) (length output.old) result states.new work.new output.new }
{
    let d = finder::find(&output[..bytes as usize], states, work, node_room);
    let answer = d.answer;
    // None was tried: it is refused.
    if d.tried == 0 {
        return refuse(output, answer);
    }
    Outcome {
        answer,
        tried: d.tried,
        length: bytes,
    }
}

// The rows past 2, with lists that are long enough.
fn import_lent(
    text: &[u8],
    names: &[u8],
    form: &[u8],
    states: &mut [u64],
    work: &mut [u32],
    node_room: usize,
    output: &mut [u8],
) -> Outcome
    requires { Cleared text.now states.old work.old }
    ensures { Imports (λ n. from_made n (check_lists (length states.old) node_room (length work.old)) (made_text (length output.old) text.now names.now form.now)) (LimitedTo (check_lists (length states.old) node_room (length work.old)) (made_text (length output.old) text.now names.now form.now)) (length states.old) (length output.old) result states.new work.new output.new }
{
    match texts::make_lent(text, names, form, work, output) {
        Ok(length) => find_made(states, work, node_room, length, output),
        Err(answer) => refuse(output, answer),
    }
}

// All rows. The state list is zero before anything is checked.
pub fn import(
    text: &[u8],
    names: &[u8],
    form: &[u8],
    states: &mut [u64],
    work: &mut [u32],
    node_room: usize,
    output: &mut [u8],
) -> Outcome
    ensures { Imports (λ n. import_form n (check_lists (length states.old) node_room (length work.old)) (length output.old) text.now names.now form.now) (LimitedMade (check_lists (length states.old) node_room (length work.old)) (made_from (check_lists (length states.old) node_room (length work.old)) text.now names.now form.now)) (length states.old) (length output.old) result states.new work.new output.new }
{
    rows::clear(states);
    match judge::admit(text, states.len(), node_room, work.len()) {
        Ok(()) => import_lent(text, names, form, states, work, node_room, output),
        Err(answer) => refuse(output, answer),
    }
}
