// Which lines of a form are visited from its root (02, Card 6), over plain lists: a walk breadth first. Each line is taken from the queue once,
// and each of its links is looked at once.
#![tactic(auto)]

ghost use Rattle.std.specs.Prelude.{◌≡◌, ℕ, ◌≤◌, ◌<◌, length, get_or};
ghost use Rattle.reaching.specs.Visited.{Graph, Marked};
ghost use Rattle.reaching.specs.Queued.{Queued, Adds, Names, Among, Follows, Room, Line};

// Marks a line and appends it to the queue, unless it is marked already. The target is the line's number and one more, or 0 for none,
// as the lent lists hold it (`Names`).
fn mark(target: u32, marks: &mut [u32], queue: &mut [u32], tail: usize) -> usize
    requires { Queued marks.old queue.old tail × Room target marks.old queue.old }
    ensures { Adds (Names target) marks.old queue.old tail marks.new queue.new result }
{
    if target == 0 {
        return tail;
    }
    let line = target - 1;
    let d = line as usize;
    if marks[d] != 0 {
        return tail;
    }
    marks[d] = 1;
    queue[tail] = line;
    tail + 1
}

// Marks the lines that the links from one place up to another name.
fn mark_links(
    links: &[u16],
    from: usize,
    to: usize,
    marks: &mut [u32],
    queue: &mut [u32],
    tail: usize,
) -> usize
    requires queued { Queued marks.old queue.old tail }
    requires within { (from ≤ to) × (to ≤ length links.now) }
    requires low { (u : ℕ) → from ≤ u → u < to → Room (get_or links.now u 0) marks.old queue.old }
    ensures { Adds (Among links.now from to) marks.old queue.old tail marks.new queue.new result }
{
    let mut end = tail;
    for i in from..to {
        end = mark(u32::from(links[i]), marks, queue, end);
    }
    end
}

// Marks the lines that follow the line e.
fn follow(
    starts: &[u32],
    links: &[u16],
    twin: &[u32],
    e: usize,
    marks: &mut [u32],
    queue: &mut [u32],
    tail: usize,
) -> usize
    requires { Queued marks.old queue.old tail × Line starts.now links.now twin.now e marks.old queue.old }
    ensures { Adds (Follows starts.now links.now twin.now e) marks.old queue.old tail
        marks.new queue.new result }
{
    let from = starts[e] as usize;
    let to = starts[e + 1] as usize;
    let end = mark_links(links, from, to, marks, queue, tail);
    let next = twin[e];
    mark(next, marks, queue, end)
}

// Marks the lines that are visited from the root. The marks, numbers in a lent list, come in as 0; the queue is room to
// work in. A `while`: the queue grows as lines are taken from it.
pub fn visit(
    starts: &[u32],
    links: &[u16],
    twin: &[u32],
    count: usize,
    root: usize,
    marks: &mut [u32],
    queue: &mut [u32],
)
    requires graph { Graph starts.now links.now twin.now count }
    requires root { (root < count) × (count ≤ 3000) }
    requires room { (count ≤ length marks.old) × (count ≤ length queue.old) }
    requires clear { (d : ℕ) → get_or marks.old d 0 ≡ 0 }
    ensures { Marked starts.now links.now twin.now root marks.new }
{
    let mut head = 0;
    let mut tail = mark(root as u32 + 1, marks, queue, 0);
    while head < tail {
        let e = queue[head] as usize;
        tail = follow(starts, links, twin, e, marks, queue, tail);
        head += 1;
    }
}
