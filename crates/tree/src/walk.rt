// The walk of the claimed tree (01, "The tree"): "A node is walked by walking its subtasks, and the subtasks by walking each node among
// them in turn."
ghost use Rattle.std.specs.Prelude.{◌+◌, ◌-◌, ◌≤◌, ◌<◌, length};
ghost use Rattle.rules.specs.Case.{Case};
ghost use Rattle.rules.specs.Tree.{may_claim, walk_tree};
ghost use Rattle.tree.specs.Fits.{Follows};
ghost use Rattle.tree.specs.Standing.{Steady, WalksNode, WalksList};
ghost use Rattle.tree.specs.Whole.{WalkReady, TreeTold};

use crate::fit::{Fit, Given, Place};
use crate::rows::Walked;
use crate::{fit, rows};
use index::{Doubled, Span};
use rules::{Answer, Header};

// The node here, where `task` is expected at `level`. What is given is lent: a copy of it would stand in the frame of `walk_subtasks`, and the
// stack grows by that frame with each level.
#[cycle(walk_node_walk_subtasks)]
fn walk_node(
    fields: &[u32],
    g: &Given,
    work: &mut [u32],
    p: Place,
    task: u32,
    level: u32,
) -> Result<Walked, Answer>
    requires steady { (k : Case) × Steady k fields.now g.now work.old × Follows k fields.now p }
    requires level_bound { level ≤ 65 }
    ensures { (k : Case) → Steady k fields.now g.now work.old → Follows k fields.now p → WalksNode k fields.now (65 - level) task p.node work.old result work.new }
{
    let fit = fit::judge(fields, *g, work, p, task, level)?;
    match fit {
        Fit::Open { subtasks, next } => {
            let from = subtasks.at;
            let past = from + subtasks.count as usize;
            let walked = walk_subtasks(fields, g, work, next, &fields[from..past], level)?;
            rows::put_row(work, p.node, walked.span, walked.next.node);
            Ok(walked)
        }
        Fit::Empty { gap, next } => Ok(rows::rest(work, p.node, gap, next)),
        Fit::Leaf {
            action,
            position,
            next,
        } => rows::claim(fields, *g, work, p.node, action, position, next),
    }
}

// The subtasks of a node at `level`, one at least: "walking each node among them in turn", the first of them here. A loop: the stack grows
// with the levels, and not with the siblings. No other function calls `walk_node`, so its code can stand in the loop: a leaf costs no call.
#[cycle(walk_node_walk_subtasks)]
fn walk_subtasks(
    fields: &[u32],
    g: &Given,
    work: &mut [u32],
    p: Place,
    tasks: &[u32],
    level: u32,
) -> Result<Walked, Answer>
    requires steady { (k : Case) × Steady k fields.now g.now work.old × Follows k fields.now p }
    requires level_bound { (level ≤ 64) × (0 < length tasks.now) }
    ensures { (k : Case) → Steady k fields.now g.now work.old → Follows k fields.now p → WalksList k fields.now (64 - level) tasks.now p.node work.old result work.new }
{
    let mut next = p;
    // The span of no subtask yet: any, since it is joined to none.
    let mut span = Span::at(Doubled::of_cue(0));
    for (i, task) in tasks.iter().enumerate() {
        let walked = walk_node(fields, g, work, next, *task, level + 1)?;
        next = walked.next;
        span = rows::join(i, span, walked.span);
    }
    Ok(Walked { next, span })
}

// "The tree is right if the root decomposes the goal, each node fits the task expected there [..], and no line is over or lacking."
// The root is at level 1, as the one subtask of a level 0; a surplus node is refused at the first line after the tree.
pub fn walk_tree(
    fields: &[u32],
    header: Header,
    plan_line: u32,
    plan: usize,
    nodes: usize,
    work: &mut [u32],
) -> Result<(), Answer>
    requires { (k : Case) × WalkReady k fields.now header plan_line plan nodes work.old }
    ensures { (k : Case) → WalkReady k fields.now header plan_line plan nodes work.old → TreeTold k work.old (walk_tree k (may_claim k.plan)) result work.new }
{
    let g = Given {
        nodes: header.nodes,
        line: plan_line,
        plan,
    };
    let root = Place { node: 0, at: nodes };
    let goal = [header.goal];
    let walked = walk_subtasks(fields, &g, work, root, &goal, 0)?;
    let next = walked.next.node;
    if next < header.nodes {
        return Err(Answer::SurplusNode {
            line: fit::line_at(g, next),
        });
    }
    Ok(())
}
