// What is known before a line is read: the header, the subtask count, and the range of each kind of number, worked out once.
ghost use Rattle.std.specs.Prelude.{◌≡◌, ◌+◌, ◌≤◌};
ghost use Rattle.rules.specs.Case.{header_in};
ghost use Rattle.lines.specs.Ranges.{all_below, known_of};

use crate::numbers::Known;
use rules::{Header, PROPOSITIONS};

// A range, as its least and its greatest number: there is none if the least is above the greatest.
#[derive(Clone, Copy)]
struct Bounds(u32, u32);

// The numbers below n.
fn below(n: u32) -> Bounds
    ensures { result ≡ all_below n }
{
    if n == 0 {
        Bounds(1, 0)
    } else {
        Bounds(0, n - 1)
    }
}

// What a header makes known, with no subtasks: its numbers, and then two for each kind, in the order of the kinds' bytes.
pub fn known(h: Header) -> Known
    requires { h.actions + h.compounds ≤ 2048 }
    ensures { result.numbers ≡ known_of h 0 }
{
    let task = below(h.actions + h.compounds);
    let compound = below(h.compounds);
    let proposition = below(h.propositions);
    let method = below(h.methods);
    let action = below(h.actions);
    let position = Bounds(1, h.cues);
    let numbers = [
        h.propositions,
        h.actions,
        h.compounds,
        h.methods,
        h.goal,
        h.cues,
        h.nodes,
        0,
        // 0 to 2: a task, the goal, the j of an order.
        task.0,
        task.1,
        0,
        4294967295,
        1,
        0,
        // 3 to 7: the counts of the N line.
        0,
        PROPOSITIONS,
        0,
        1024,
        0,
        2048,
        0,
        1000,
        1,
        3000,
        // 8 to 12: the task of a method, its constraint count, a subtask, a proposition, a set of subtasks.
        h.actions + compound.0,
        h.actions + compound.1,
        0,
        64,
        1,
        0,
        proposition.0,
        proposition.1,
        0,
        0,
        // 13 to 16: a method, a gap, an action, a position.
        method.0,
        method.1,
        0,
        h.cues,
        action.0,
        action.1,
        position.0,
        position.1,
        // 17 to 19: a subtask count, a member count, a task.
        0,
        32,
        0,
        h.propositions,
        task.0,
        task.1,
    ];
    Known { numbers }
}

// The same for the constraints of a method with n subtasks: the three ranges that the count sets are made anew.
pub fn with_subtasks(x: &Known, n: u32) -> Known
    requires n_bound { n ≤ 32 }
    ensures { result.numbers ≡ known_of (header_in x.now.numbers) n }
{
    let subtask = below(n);
    let mut own = *x;
    own.numbers[7] = n;
    // Kinds 2 and 10, and the greatest of kind 12: a range stands at 8 + 2 * kind.
    own.numbers[12] = subtask.0;
    own.numbers[13] = subtask.1;
    own.numbers[28] = subtask.0;
    own.numbers[29] = subtask.1;
    own.numbers[33] = subsets::all(n);
    own
}
