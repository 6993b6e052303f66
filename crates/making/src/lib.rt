// The case that a form becomes (02, Card 6), over the fields of the case that came beside it: "a case, whose header k and node count, P and
// node lines are replaced". The form's lines are plain lists: each line's label, its action or method, and the links of its subtasks, which
// stand in one list from the line's start up to the next line's. A link is one more than a line's number; 0 leads to no line: no `Option`,
// since the lists have room for numbers only, and `link` of the definitions counts so. The lists are the caller's, since there is no heap.
#![tactic(auto)]

ghost use Rattle.std.specs.Prelude.{◌≡◌, List, [], ◌∷◌, ℕ, ◌+◌, ◌-◌, ◌*◌, ◌≤◌, ◌<◌, length, get_or, take};
ghost use Rattle.std.proofs.lemmas.List.Edits.{sets};
ghost use Rattle.rules.specs.Case.{Case};
ghost use Rattle.rules.specs.Fields.{line_fields, cues_line, node_line, lines_of};
ghost use Rattle.rules.specs.Form.{FormLine, Form};
ghost use Rattle.rules.specs.Import.{nodes_of, made_case};
ghost use Rattle.fields.specs.Directory.{IsRead, NodesLast};
ghost use Rattle.output.specs.Output.{HasLines};
ghost use Rattle.making.specs.Making.{PlanLast, Makes};
ghost use Rattle.making.specs.Nodes.{node_as, Pushed, Visited, Holds, Room, Stored};

// The letters P, D, E and L, as the fields have them: no enum, since a case's fields are one list of numbers.
const PLAN: u32 = 80;

const TASK: u32 = 68;

const EMPTY: u32 = 69;

const LEAF: u32 = 76;

// The fields of the header that hold k and the node count.
const CUES: usize = 6;

const NODES: usize = 7;

// Node lines that were stored: where they end, and how many there are.
#[derive(Clone, Copy)]
pub struct Put {
    pub end: usize,
    pub nodes: u32,
}

// The same as far as the tree is walked, and how many frames the stack has.
#[derive(Clone, Copy)]
struct Walk {
    end: usize,
    nodes: u32,
    depth: usize,
}

// A line of three fields.
fn put_three(letter: u32, first: u32, second: u32, fields: &mut [u32], at: usize)
    requires { at + 3 ≤ length fields.old }
    ensures { fields.new ≡ sets fields.old at (letter ∷ first ∷ second ∷ []) }
{
    fields[at] = letter;
    fields[at + 1] = first;
    fields[at + 2] = second;
}

// The node line that line d becomes, stored at `at`; answers the place after it. The links of its subtasks stand from `first` up to `past`.
fn put_node(
    d: usize,
    label: u32,
    first: u32,
    past: u32,
    cues: usize,
    fields: &mut [u32],
    at: usize,
) -> usize
    requires { (d < 3000) × (at + 3 ≤ length fields.old) }
    ensures { (fields.new ≡ sets fields.old at (line_fields (node_line (node_as cues d label first past)))) × (result ≡ at + length (line_fields (node_line (node_as cues d label first past)))) }
{
    if d < cues {
        put_three(LEAF, label, d as u32 + 1, fields, at);
        return at + 3;
    }
    if first == past {
        put_three(EMPTY, label, 0, fields, at);
        return at + 3;
    }
    fields[at] = TASK;
    fields[at + 1] = label;
    at + 2
}

// A frame for the links from `first` up to `past`, if there are any, on top of the others; answers how many frames there are.
fn push(first: u32, past: u32, next: &mut [u32], last: &mut [u32], depth: usize) -> usize
    requires { (first ≤ past) × (depth < length next.old) × (depth < length last.old) }
    ensures { Pushed first past next.old last.old depth next.new last.new result }
{
    if first == past {
        return depth;
    }
    next[depth] = first;
    last[depth] = past - 1;
    depth + 1
}

// The line that a link leads to: its node line, and a frame for the links of its subtasks.
fn visit(
    starts: &[u32],
    labels: &[u32],
    cues: usize,
    link: u32,
    fields: &mut [u32],
    w: Walk,
    next: &mut [u32],
    last: &mut [u32],
) -> Walk
    requires link_bound { (link ≤ 3000) × (link < length starts.now) × (link ≤ length labels.now) × (get_or starts.now (link - 1) 0 ≤ get_or starts.now link 0) }
    requires end_in_bounds { (w.end + 3 ≤ length fields.old) × (w.nodes < 3000) × (w.depth < length next.old) × (w.depth < length last.old) }
    ensures { Visited starts.now labels.now cues link fields.old w next.old last.old result fields.new next.new last.new }
{
    if link == 0 {
        return w;
    }
    let past = link as usize;
    let d = past - 1;
    let end = put_node(d, labels[d], starts[d], starts[past], cues, fields, w.end);
    let depth = push(starts[d], starts[past], next, last, w.depth);
    Walk {
        end,
        nodes: w.nodes + 1,
        depth,
    }
}

// The P line, stored at `from`: the actions of the action lines, "action lines plan order"; answers the place after it.
pub fn put_plan(labels: &[u32], cues: usize, fields: &mut [u32], from: usize) -> usize
    requires { (cues ≤ length labels.now) × (from + 1 + cues ≤ length fields.old) }
    ensures { (fields.new ≡ sets fields.old from (line_fields (cues_line (take cues labels.now)))) × (result ≡ from + 1 + cues) }
{
    fields[from] = PLAN;
    let first = from + 1;
    let past = first + cues;
    fields[first..past].copy_from_slice(&labels[..cues]);
    past
}

// The node lines of the tree that hangs from the line that `root` leads to, in preorder, stored from `from` on: "subtask ids follow the
// method's order". Frame t of the stack has the links of a line's subtasks that are still to be walked, from next[t] to last[t]. At most
// `count` links are taken.
pub fn put_nodes(
    starts: &[u32],
    links: &[u16],
    labels: &[u32],
    cues: usize,
    count: usize,
    root: u32,
    fields: &mut [u32],
    from: usize,
    next: &mut [u32],
    last: &mut [u32],
) -> Put
    requires by_index { (es : List FormLine) × (ids : List ℕ) × (id : ℕ) × Holds es ids id starts.now links.now labels.now cues count root }
    requires room { Room count starts.now labels.now next.old last.old fields.old from }
    ensures { (es : List FormLine) (ids : List ℕ) (id : ℕ) → Holds es ids id starts.now links.now labels.now cues count root → Stored fields.old from (nodes_of count es (id ∷ [])) result fields.new }
{
    if count == 0 {
        return Put {
            end: from,
            nodes: 0,
        };
    }
    let begin = Walk {
        end: from,
        nodes: 0,
        depth: 0,
    };
    let mut w = visit(starts, labels, cues, root, fields, begin, next, last);
    for _ in 1..count {
        let depth = w.depth;
        if depth == 0 {
            break;
        }
        let top = depth - 1;
        let at = next[top];
        let end = last[top];
        if at < end {
            next[top] = at + 1;
        } else {
            w.depth = top;
        }
        let link = u32::from(links[at as usize]);
        w = visit(starts, labels, cues, link, fields, w, next, last);
    }
    Put {
        end: w.end,
        nodes: w.nodes,
    }
}

// Where the P line stands among the fields of a case that was read, by the place of its first node line and its own number of cues.
pub fn plan_place(nodes: usize, cues: u32) -> usize
    requires { (k : Case) × IsRead k × NodesLast k nodes × (k.head.cues ≡ cues) }
    ensures { (k : Case) → IsRead k → NodesLast k nodes → k.head.cues ≡ cues → PlanLast k result }
{
    nodes - 1 - cues as usize
}

// The fields of the case that a form becomes, in the place of those of the case that came beside it, whose P line stands at `plan`. Answers
// how many fields there are.
pub fn make(
    starts: &[u32],
    links: &[u16],
    labels: &[u32],
    cues: usize,
    count: usize,
    root: u32,
    fields: &mut [u32],
    plan: usize,
    next: &mut [u32],
    last: &mut [u32],
) -> usize
    requires by_index { (k : Case) × (f : Form) × (es : List FormLine) × (ids : List ℕ) × Makes k f es ids starts.now links.now labels.now cues count root plan fields.old }
    requires room { Room count starts.now labels.now next.old last.old fields.old (plan + 1 + cues) }
    ensures has_lines { (k : Case) (f : Form) (es : List FormLine) (ids : List ℕ) → Makes k f es ids starts.now links.now labels.now cues count root plan fields.old → HasLines cues fields.new result (lines_of (made_case k f)) }
    ensures upper_bound { result ≤ plan + 1 + cues + 3 * count }
{
    let from = put_plan(labels, cues, fields, plan);
    let put = put_nodes(
        starts, links, labels, cues, count, root, fields, from, next, last,
    );
    fields[CUES] = cues as u32;
    fields[NODES] = put.nodes;
    put.end
}
