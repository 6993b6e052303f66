// A node's line against the task that is expected there (01, "The tree"): "an action leaf for an action; for a compound task one of its
// own methods".
ghost use Rattle.std.specs.Prelude.{◌≡◌, ◌+◌, ◌≤◌, ◌<◌, length, get_or};
ghost use Rattle.rules.specs.Case.{Case};
ghost use Rattle.fields.specs.Directory.{methods_from, node_size};
ghost use Rattle.tree.specs.Fits.{entry_at, method_head, fit_if, fit_of, HeadWithin, MethodWithin, at_level, Follows, line_at};
ghost use Rattle.tree.specs.Standing.{Steady, Judged};

use fields::{METHODS_FROM, node_size};
use rules::Answer;

// What a walk goes by: how many nodes there are, the number of the P line, and where that stands.
#[derive(Clone, Copy)]
pub struct Given {
    pub nodes: u32,
    pub line: u32,
    pub plan: usize,
}

// A node's number, from 0, and where its line stands.
#[derive(Clone, Copy)]
pub struct Place {
    pub node: u32,
    pub at: usize,
}

// How many subtasks a method has, and where they stand.
#[derive(Clone, Copy)]
pub struct Subtasks {
    pub count: u32,
    pub at: usize,
}

// A node's line: "D,m (method m, not empty); E,m,g (empty method m in gap g, 0 to k); L,a,i (action a at position i, 1 to k)".
#[derive(Clone, Copy)]
pub enum Entry {
    Task { method: u32 },
    Empty { method: u32, gap: u32 },
    Leaf { action: u32, position: u32 },
}

// A method's line: its compound task and its subtasks.
#[derive(Clone, Copy)]
pub struct MethodHead {
    pub task: u32,
    pub subtasks: Subtasks,
}

// How a node fits the task expected there, with the place of the node after its line.
#[derive(Clone, Copy)]
pub enum Fit {
    Open {
        subtasks: Subtasks,
        next: Place,
    },
    Empty {
        gap: u32,
        next: Place,
    },
    Leaf {
        action: u32,
        position: u32,
        next: Place,
    },
}

// The letters of a node line, D and E, as the lent fields have them, which are numbers; any other is L.
const TASK: u32 = b'D' as u32;

const EMPTY: u32 = b'E' as u32;

// The node line that stands here, by its letter. A D line has two fields, and may be the last.
fn entry_at(fields: &[u32], at: usize) -> Entry
    requires { at + node_size (get_or fields.now at 0) ≤ length fields.now }
    ensures { result ≡ entry_at fields.now at }
{
    let letter = fields[at];
    let first = fields[at + 1];
    if letter == TASK {
        return Entry::Task { method: first };
    }
    let second = fields[at + 2];
    if letter == EMPTY {
        Entry::Empty {
            method: first,
            gap: second,
        }
    } else {
        Entry::Leaf {
            action: first,
            position: second,
        }
    }
}

// Method m's line, through the directory.
fn method_head(fields: &[u32], work: &[u32], m: u32) -> MethodHead
    requires { HeadWithin fields.now work.now m }
    ensures { result ≡ method_head fields.now (get_or work.now (methods_from + m) 0) }
{
    let i = METHODS_FROM + m as usize;
    let at = work[i] as usize;
    MethodHead {
        task: fields[at + 1],
        subtasks: Subtasks {
            count: fields[at + 2],
            at: at + 3,
        },
    }
}

// A fit, if the node is of the task expected and its letter is right: "6 tried ahead", then "20, a D line with an empty method or an E line with
// one that isn't" (02, Card 7).
fn fit_if(own: bool, letter: bool, fit: Fit, line: u32) -> Result<Fit, Answer>
    ensures { result ≡ fit_if own letter fit line }
{
    if !own {
        return Err(Answer::WrongTask { line });
    }
    if !letter {
        return Err(Answer::WrongLetter { line });
    }
    Ok(fit)
}

// How a node fits the task.
fn fit_of(
    fields: &[u32],
    work: &[u32],
    entry: Entry,
    next: Place,
    task: u32,
    line: u32,
) -> Result<Fit, Answer>
    requires { MethodWithin fields.now work.now entry }
    ensures { result ≡ fit_of fields.now work.now entry next task line }
{
    match entry {
        Entry::Task { method } => {
            let head = method_head(fields, work, method);
            let subtasks = head.subtasks;
            let fit = Fit::Open { subtasks, next };
            fit_if(head.task == task, subtasks.count != 0, fit, line)
        }
        Entry::Empty { method, gap } => {
            let head = method_head(fields, work, method);
            let subtasks = head.subtasks;
            let fit = Fit::Empty { gap, next };
            fit_if(head.task == task, subtasks.count == 0, fit, line)
        }
        Entry::Leaf { action, position } => {
            let fit = Fit::Leaf {
                action,
                position,
                next,
            };
            fit_if(action == task, true, fit, line)
        }
    }
}

// "same node: level 65", for a node that fits.
fn at_level(level: u32, fit: Fit, deep: Answer) -> Result<Fit, Answer>
    ensures { result ≡ at_level level fit deep }
{
    if level < 65 { Ok(fit) } else { Err(deep) }
}

// A node's line in the text: the node lines follow the P line.
pub fn line_at(g: Given, node: u32) -> u32
    requires { g.line + node < 4294967295 }
    ensures { result ≡ line_at g.line node }
{
    g.line + 1 + node
}

// The node here, where `task` is expected at `level`: 22 if there is none; 6, 20, 7.
pub fn judge(
    fields: &[u32],
    g: Given,
    work: &[u32],
    p: Place,
    task: u32,
    level: u32,
) -> Result<Fit, Answer>
    requires { (k : Case) × Steady k fields.now g work.now × Follows k fields.now p }
    ensures { (k : Case) → Steady k fields.now g work.now → Follows k fields.now p → Judged k fields.now p task level result }
{
    let line = line_at(g, p.node);
    if g.nodes <= p.node {
        return Err(Answer::MissingNode { line });
    }
    let at = p.at;
    let entry = entry_at(fields, at);
    let next = Place {
        node: p.node + 1,
        at: at + node_size(fields[at]),
    };
    let fit = fit_of(fields, work, entry, next, task, line)?;
    at_level(level, fit, Answer::TooDeep { line })
}
