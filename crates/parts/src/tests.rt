// The tests of the four kinds of constraint (01, "Indexes"; 02, Card 1: a condition has a sign), at the spans of a task's parts. From an index
// to a state's number there are only the two roundings of `index`.
ghost use Rattle.std.specs.Prelude.{◌≡◌, ◌+◌, ◌-◌, ◌*◌, ◌/◌, ◌%◌, ◌≤◌, length};
ghost use Rattle.rules.specs.State.{word_count};
ghost use Rattle.rules.specs.Index.{c, f, span_of_part};
ghost use Rattle.rules.specs.Constraint.{holds_from, keeps};
ghost use Rattle.index.specs.Spans.{span_of};
ghost use Rattle.rows.specs.Rows.{in_row};
ghost use Rattle.columns.specs.Columns.{Columns};
ghost use Rattle.tree.specs.Layout.{subtasks_past};
ghost use Rattle.parts.specs.Spans.{spans_in};
ghost use Rattle.parts.specs.Tests.{Tested};
ghost use Rattle.rules.specs.Case.{sign_of, is_either, constraint_of};

use crate::spans::{span_of_set, subtask_span};
use index::Span;
use rules::Sign;

// The sign of a condition's letter: "b, f and w [..] ask that the proposition be false".
pub fn sign_of(letter: u8) -> Sign
    ensures { result ≡ sign_of letter }
{
    if letter < b'a' {
        Sign::Positive
    } else {
        Sign::Negative
    }
}

// Whether a letter is the large one of a condition, or the small one, which has one bit more.
pub fn is_either(letter: u8, large: u8) -> bool
    requires { large / 32 % 2 ≡ 0 }
    ensures { result ≡ is_either letter large (large + 32) }
{
    letter & 0xdf == large
}

// "before(p, U): p is in state c(U) - 1."
pub fn keeps_before(states: &[u64], sign: Sign, p: u32, u: Span) -> bool
    requires bound { 1 ≤ c (span_of u) }
    requires u_in_bounds { word_count * c (span_of u) ≤ length states.now }
    ensures { result ≡ in_row states.now sign p (c (span_of u) - 1) }
{
    rows::holds_at(states, sign, p, u.c().previous())
}

// "after(p, U): p is in state f(U)."
pub fn keeps_after(states: &[u64], sign: Sign, p: u32, u: Span) -> bool
    requires { word_count * f (span_of u) + word_count ≤ length states.now }
    ensures { result ≡ in_row states.now sign p (f (span_of u)) }
{
    rows::holds_at(states, sign, p, u.f())
}

// "between(U, p, V): p is in each state l with f(U) ≤ l < c(V); no such l, then it holds." Over the first n states, by their columns.
pub fn keeps_between(
    columns: &mut [u64],
    built: &mut [u64],
    states: &[u64],
    n: usize,
    sign: Sign,
    p: u32,
    u: Span,
    v: Span,
) -> bool
    requires columns { Columns states.now n columns.old built.old }
    requires v_bound { c (span_of v) ≤ n }
    ensures value { result ≡ holds_from (in_row states.now) sign p (f (span_of u)) (c (span_of v)) }
    ensures columns_2 { Columns states.now n columns.new built.new }
{
    columns::test(columns, built, states, n, sign, p, u.f(), v.c())
}

// Whether a task keeps the constraint of a line's letter and numbers: "O,i,j (i before j, i ≠ j, both subtask numbers); B,p,U (before);
// F,p,U (after); W,U,p,V (between)"; "Lines b, f and w take the fields of B, F and W".
pub fn keeps(
    work: &[u32],
    columns: &mut [u64],
    built: &mut [u64],
    states: &[u64],
    n: usize,
    own: Span,
    letter: u8,
    first: u32,
    second: u32,
    third: u32,
) -> bool
    requires subtasks_past_in_bounds { subtasks_past ≤ length work.now }
    requires columns { Columns states.now n columns.old built.old }
    requires tested { Tested work.now n (span_of own) (constraint_of letter first second third) }
    ensures value { result ≡ keeps (in_row states.now) (span_of_part (span_of own) (spans_in work.now)) (constraint_of letter first second third) }
    ensures columns_2 { Columns states.now n columns.new built.new }
{
    let sign = sign_of(letter);
    if is_either(letter, b'W') {
        let u = span_of_set(work, own, first);
        let v = span_of_set(work, own, third);
        return keeps_between(columns, built, states, n, sign, second, u, v);
    }
    if is_either(letter, b'F') {
        return keeps_after(states, sign, first, span_of_set(work, own, second));
    }
    if is_either(letter, b'B') {
        return keeps_before(states, sign, first, span_of_set(work, own, second));
    }
    subtask_span(work, first).is_before(subtask_span(work, second))
}
