// What a walk leaves in the work space: a row for each node, and a mark for each position claimed.
ghost use Rattle.std.specs.Prelude.{◌≡◌, ◌≤◌, ◌<◌, length};
ghost use Rattle.index.specs.Spans.{index_in, span_of};
ghost use Rattle.rules.specs.Index.{of_gap, at};
ghost use Rattle.rules.specs.Case.{Case};
ghost use Rattle.tree.specs.Standing.{put_row, settled, joined, Steady, ClaimWithin, Claims};

use crate::fit;
use crate::fit::{Given, Place};
use crate::layout::{MARKS, ROWS};
use index::{Doubled, Span};
use rules::Answer;

// What a walk came to: the node after what it walked, and the span of that.
#[derive(Clone, Copy)]
pub struct Walked {
    pub next: Place,
    pub span: Span,
}

// A node's row: "doubled start and doubled end", and the node after its subtree, where its next sibling is. Three numbers of the lent work
// space, since there is no heap: the definition `rows` lays them out.
pub fn put_row(work: &mut [u32], node: u32, span: Span, after: u32)
    requires { (node < 3000) × (16384 ≤ length work.old) }
    ensures { work.new ≡ put_row node (span_of span) after work.old }
{
    let i = ROWS + 3 * node as usize;
    work[i] = span.start.number();
    work[i + 1] = span.end.number();
    work[i + 2] = after;
}

// A node with no subtasks: it starts and ends at one index.
pub fn settle(work: &mut [u32], node: u32, index: Doubled, next: Place) -> Walked
    requires { (node < 3000) × (16384 ≤ length work.old) }
    ensures answer { result ≡ settled (index_in index) next }
    ensures row { work.new ≡ put_row node (at (index_in index)) next.node work.old }
{
    let span = Span::at(index);
    put_row(work, node, span, next.node);
    Walked { next, span }
}

// An empty method's task sits in its gap.
pub fn rest(work: &mut [u32], node: u32, gap: u32, next: Place) -> Walked
    requires { (node < 3000) × (16384 ≤ length work.old) × (gap ≤ 1000) }
    ensures answer { result ≡ settled (of_gap gap) next }
    ensures row { work.new ≡ put_row node (at (of_gap gap)) next.node work.old }
{
    settle(work, node, Doubled::of_gap(gap), next)
}

// A leaf claims its position: refused if "leaf's position has another action or was claimed earlier".
pub fn claim(
    fields: &[u32],
    g: Given,
    work: &mut [u32],
    node: u32,
    action: u32,
    position: u32,
    next: Place,
) -> Result<Walked, Answer>
    requires { (k : Case) × Steady k fields.now g work.old × ClaimWithin k node position }
    ensures { (k : Case) → Steady k fields.now g work.old → ClaimWithin k node position → Claims k node action position next work.old result work.new }
{
    let i = position as usize;
    let planned = g.plan + i;
    let mark = MARKS + (i - 1);
    if fields[planned] != action || work[mark] != 0 {
        return Err(Answer::WrongClaim {
            line: fit::line_at(g, node),
            position,
        });
    }
    work[mark] = 1;
    Ok(settle(work, node, Doubled::of_cue(position), next))
}

// The span of the first subtasks, so many of them, joined to that of the next: "the least start and [..] the greatest end of its subtasks,
// empty ones counted". Of none there is no span yet; a count says so, and no `Option` of a span, since a walk ends with one.
pub fn join(count: usize, span: Span, last: Span) -> Span
    ensures { span_of result ≡ joined count (span_of span) (span_of last) }
{
    if count == 0 { last } else { span.join(last) }
}
