// The spans of a task's parts, from the rows that the walk left in the work space: three numbers a node, since what a caller in C lends has
// numbers alone.
ghost use Rattle.std.specs.Prelude.{◌≡◌, ◌+◌, ◌≤◌, length};
ghost use Rattle.std.proofs.lemmas.List.Edits.{sets};
ghost use Rattle.rules.specs.Index.{part_of, span_of_part};
ghost use Rattle.rules.specs.Refusals.{Each};
ghost use Rattle.index.specs.Spans.{span_of};
ghost use Rattle.subsets.specs.Members.{members_of};
ghost use Rattle.tree.specs.Layout.{subtasks_from, subtasks_past};
ghost use Rattle.parts.specs.Spans.{row_span, node_after, RowInside, siblings, spans_in, subtask_span, SubtaskInside};

use index::{Doubled, Span};
use tree::{ROWS, SUBTASKS};

// The span in the row of node n.
pub fn span_at(work: &[u32], n: u32) -> Span
    requires { RowInside work.now n }
    ensures { span_of result ≡ row_span work.now n }
{
    let at = ROWS + 3 * n as usize;
    Span {
        start: Doubled::stored(work[at]),
        end: Doubled::stored(work[at + 1]),
    }
}

// The node after the subtree of node n.
pub fn after_at(work: &[u32], n: u32) -> u32
    requires { RowInside work.now n }
    ensures { result ≡ node_after work.now n }
{
    let at = ROWS + 3 * n as usize + 2;
    work[at]
}

// The nodes of the subtasks of node n: the first is the next node, and each other one the node after the subtree of the one before it.
pub fn subtask_nodes(work: &mut [u32], n: u32, count: u32)
    requires n_bound { n + 1 ≤ 4294967295 }
    requires count_bound { count ≤ 32 }
    requires subtasks_past_in_bounds { subtasks_past ≤ length work.old }
    requires each { Each (RowInside work.old) (siblings work.old (n + 1) count) }
    ensures { work.new ≡ sets work.old subtasks_from (siblings work.old (n + 1) count) }
{
    let mut at = n + 1;
    for i in 0..count as usize {
        work[SUBTASKS + i] = at;
        at = after_at(work, at);
    }
}

// The span of subtask j.
pub fn subtask_span(work: &[u32], j: u32) -> Span
    requires subtasks_past_in_bounds { subtasks_past ≤ length work.now }
    requires subtask_inside { SubtaskInside work.now j }
    ensures { span_of result ≡ subtask_span work.now j }
{
    let at = SUBTASKS + j as usize;
    span_at(work, work[at])
}

// The span of a set of subtasks, of a task whose own span is `own`: "0 is the whole task. To get a set's start and end, take its lowest
// subtask, then the rest." Trailing zeros give the lowest subtask's number; ones give how many members remain. A `while`: the set itself tells
// the next member.
pub fn span_of_set(work: &[u32], own: Span, u: u32) -> Span
    requires subtasks_past_in_bounds { subtasks_past ≤ length work.now }
    requires each { Each (SubtaskInside work.now) (members_of u) }
    ensures { span_of result ≡ span_of_part (span_of own) (spans_in work.now) (part_of u) }
{
    if u == 0 {
        return own;
    }
    let mut span = subtask_span(work, subsets::lowest(u));
    let mut rest = subsets::others(u);
    while 0 < subsets::size(rest) {
        span = span.join(subtask_span(work, subsets::lowest(rest)));
        rest = subsets::others(rest);
    }
    span
}
