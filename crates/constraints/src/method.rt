// One method's constraints, tested where their lines stand among the fields.
ghost use Rattle.std.specs.Prelude.{◌≡◌, List, ◌∷◌, map, ℕ, ◌≤◌, length};
ghost use Rattle.rules.specs.Index.{span_of_part};
ghost use Rattle.rules.specs.Case.{Constraint, constraint_of};
ghost use Rattle.rules.specs.Fields.{lines_fields, constraint_line};
ghost use Rattle.rules.specs.Constraint.{keeps, broken_at, first_broken_of};
ghost use Rattle.rules.specs.Refusals.{Each};
ghost use Rattle.index.specs.Spans.{span_of};
ghost use Rattle.fields.specs.Standing.{Stands};
ghost use Rattle.tree.specs.Layout.{subtasks_past};
ghost use Rattle.rows.specs.Rows.{in_row};
ghost use Rattle.columns.specs.Columns.{Columns};
ghost use Rattle.parts.specs.Spans.{spans_in};
ghost use Rattle.parts.specs.Tests.{Tested};
ghost use Rattle.constraints.specs.Methods.{kept_as, ConstraintsHere, meant, Says};

use index::Span;
use parts::{is_either, keeps};
use rules::Answer;

// A constraint's line: its letter, its numbers, and the place after it. The letter is the text's, and no enum of kinds: `keeps` and the definition
// `constraint_of` go by it, a small one as its large one.
#[derive(Clone, Copy)]
pub struct Line {
    pub letter: u8,
    pub first: u32,
    pub second: u32,
    pub third: u32,
    pub next: usize,
}

// "first broken O, B, F, W": 10, 11, 12, 13; a small letter's as its large one's, by the test that `line_at` and `keeps` make of a letter.
fn broken(letter: u8, line: u32, number: u32) -> Answer
    ensures { (first second third : ℕ) → result ≡ broken_at line number (constraint_of letter first second third) }
{
    if is_either(letter, b'W') {
        return Answer::BetweenBroken {
            line,
            constraint: number,
        };
    }
    if is_either(letter, b'F') {
        return Answer::AfterBroken {
            line,
            constraint: number,
        };
    }
    if is_either(letter, b'B') {
        return Answer::BeforeBroken {
            line,
            constraint: number,
        };
    }
    Answer::OrderBroken {
        line,
        constraint: number,
    }
}

// The line of a constraint: its letter, its numbers, and where the line after it stands. Only W and w have a third number, and no field need
// follow the numbers of the others.
pub fn line_at(fields: &[u32], at: usize) -> Line
    requires { (d : Constraint) × (ds : List Constraint) × Stands fields.now at (lines_fields (map constraint_line (d ∷ ds))) }
    ensures { (d : Constraint) (ds : List Constraint) → Stands fields.now at (lines_fields (map constraint_line (d ∷ ds))) → Says fields.now result d ds }
{
    let letter = fields[at] as u8;
    let first = fields[at + 1];
    let second = fields[at + 2];
    if is_either(letter, b'W') {
        let third = fields[at + 3];
        return Line {
            letter,
            first,
            second,
            third,
            next: at + 4,
        };
    }
    Line {
        letter,
        first,
        second,
        third: 0,
        next: at + 3,
    }
}

// Whether a task with this span keeps the constraint of a line.
fn keeps_line(
    work: &[u32],
    columns: &mut [u64],
    built: &mut [u64],
    states: &[u64],
    held: usize,
    own: Span,
    d: Line,
) -> bool
    requires subtasks_past_in_bounds { subtasks_past ≤ length work.now }
    requires columns { Columns states.now held columns.old built.old }
    requires tested { Tested work.now held (span_of own) (meant d) }
    ensures value { result ≡ keeps (in_row states.now) (span_of_part (span_of own) (spans_in work.now)) (meant d) }
    ensures columns_2 { Columns states.now held columns.new built.new }
{
    keeps(
        work, columns, built, states, held, own, d.letter, d.first, d.second, d.third,
    )
}

// Whether all of so many constraints hold, or the answer for the first broken one, "each method's in text order", for a node with this line and span.
pub fn first_broken_of(
    fields: &[u32],
    from: usize,
    count: u32,
    line: u32,
    own: Span,
    held: usize,
    states: &[u64],
    work: &[u32],
    columns: &mut [u64],
    built: &mut [u64],
) -> Result<(), Answer>
    requires subtasks_past_in_bounds { subtasks_past ≤ length work.now }
    requires columns { Columns states.now held columns.old built.old }
    requires constraints_here { (cs : List Constraint) × ConstraintsHere fields.now from count cs × Each (Tested work.now held (span_of own)) cs }
    ensures value { (cs : List Constraint) → ConstraintsHere fields.now from count cs → result ≡ kept_as (first_broken_of (in_row states.now) (span_of_part (span_of own) (spans_in work.now)) line 0 cs) }
    ensures columns_2 { Columns states.now held columns.new built.new }
{
    let mut at = from;
    for number in 0..count {
        let d = line_at(fields, at);
        if !keeps_line(work, columns, built, states, held, own, d) {
            return Err(broken(d.letter, line, number));
        }
        at = d.next;
    }
    Ok(())
}
