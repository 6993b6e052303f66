// The name list that comes beside a case (02, Card 6): "number and name by comma, for all tasks and then all methods, ascending". One pass over
// the text leaves the place of each name by its number, and a table that finds the number of a name. The answer is that of the definitions of
// `rules`: "17, line missing, surplus [..] or of another shape, first on each line; 18, a name [..] listed again among the tasks or among the
// methods (the later line) [..] next on the line [..] item 1 in the name list".
#![tactic(auto)]

ghost use Rattle.std.specs.Prelude.{◌≡◌, [], ℕ, ◌+◌, ◌<◌, ◌≤◌, ltb, length};
ghost use Rattle.rules.specs.Text.{feed_follows};
ghost use Rattle.rules.specs.Naming.{name_lines, read_names};
ghost use Rattle.naming.specs.Lines.{Told, Entered, earlier_names, one_name, NextName, Left, whole_list};
ghost use Rattle.naming.specs.Listing.{Blank, Listed, NamesLeft};

use rules::{Answer, Header};
use tokens::Plain;

// The bytes of a name that a line lists: from `from` to before `to`, where the line ends.
#[derive(Clone, Copy)]
struct Name {
    from: usize,
    to: usize,
}

// Where a line is: its number, from 1, and its first byte.
#[derive(Clone, Copy)]
struct Spot {
    line: u32,
    at: usize,
}

// The name that the line from here lists for number `number`, which is due; none for another line, or no line. `past` is the place past the
// text's last line feed. Each byte is looked at once.
fn name_line(text: &[u8], past: usize, at: usize, number: usize) -> Option<Name>
    requires { (p : ℕ) → feed_follows text.now p ≡ ltb p past }
    ensures { Told text.now number at result }
{
    if past <= at {
        return None;
    }
    let Plain { value, next } = tokens::number_at(text, at, b',')?;
    if value as usize != number {
        return None;
    }
    if text[next] != b',' {
        return None;
    }
    let from = next + 1;
    let to = tokens::name_end(text, from, b',')?;
    if text[to] != b'\n' {
        return None;
    }
    Some(Name { from, to })
}

// The line at a spot, which lists the name of entry `number`, after those of the entries before it: 17, then 18. Where the next line is.
fn next_name(
    text: &[u8],
    past: usize,
    at: Spot,
    number: usize,
    starts: &mut [usize],
    ends: &mut [usize],
    slots: &mut [u32],
) -> Result<Spot, Answer>
    requires by_index { (p : ℕ) → feed_follows text.now p ≡ ltb p past }
    requires line_bound { (at.line ≤ 4096) × (number < 2048) }
    requires entered { Entered text.now starts.old ends.old slots.old number }
    ensures { Left (NextName text.now starts.old ends.old number starts.new ends.new slots.new) (one_name text.now number (earlier_names text.now starts.old ends.old number) at.line at.at) result }
{
    let line = at.line;
    let Some(Name { from, to }) = name_line(text, past, at.at, number) else {
        return Err(Answer::WrongShape { line, item: 1 });
    };
    starts[number] = from;
    ends[number] = to;
    match names::insert(text, starts, ends, slots, number) {
        Some(_) => Err(Answer::WrongName { line, item: 1 }),
        None => Ok(Spot {
            line: line + 1,
            at: to + 1,
        }),
    }
}

// `count` lines, for the numbers from 0 on: the tasks, or the methods. Where the next line is.
fn lines_of(
    text: &[u8],
    past: usize,
    from: Spot,
    count: usize,
    starts: &mut [usize],
    ends: &mut [usize],
    slots: &mut [u32],
) -> Result<Spot, Answer>
    requires by_index { (p : ℕ) → feed_follows text.now p ≡ ltb p past }
    requires line_bound { (from.line ≤ 2049) × (count ≤ 2048) }
    requires blank { Blank starts.old ends.old slots.old }
    ensures { Left (Listed text.now starts.new ends.new slots.new) (name_lines text.now count 0 [] from.line from.at) result }
{
    probing::clear(slots);
    let mut at = from;
    for i in 0..count {
        at = next_name(text, past, at, i, starts, ends, slots)?;
    }
    Ok(at)
}

// A list whose last due line is read, if nothing comes after it: a further line is "surplus".
fn whole(text: &[u8], end: Spot) -> Result<(), Answer>
    ensures { result ≡ whole_list text.now end }
{
    if end.at < text.len() {
        return Err(Answer::WrongShape {
            line: end.line,
            item: 1,
        });
    }
    Ok(())
}

// The names of the tasks, actions and compound tasks together, and those of the methods: the place of each, and a table for each of the two.
pub fn read_names(
    text: &[u8],
    header: Header,
    task_starts: &mut [usize],
    task_ends: &mut [usize],
    task_slots: &mut [u32],
    method_starts: &mut [usize],
    method_ends: &mut [usize],
    method_slots: &mut [u32],
) -> Result<(), Answer>
    requires compounds_bound { (header.actions + header.compounds ≤ 2048) × (header.methods ≤ 2048) }
    requires blank { Blank task_starts.old task_ends.old task_slots.old }
    requires blank_2 { Blank method_starts.old method_ends.old method_slots.old }
    ensures left { NamesLeft text.now (read_names header text.now) result task_starts.new task_ends.new task_slots.new method_starts.new method_ends.new method_slots.new }
    ensures slots_length { (length task_slots.new ≡ 4096) × (length method_slots.new ≡ 4096) }
{
    let past = text::past_last_feed(text);
    let first = Spot { line: 1, at: 0 };
    let tasks = (header.actions + header.compounds) as usize;
    let next = lines_of(text, past, first, tasks, task_starts, task_ends, task_slots)?;
    let methods = header.methods as usize;
    let end = lines_of(
        text,
        past,
        next,
        methods,
        method_starts,
        method_ends,
        method_slots,
    )?;
    whole(text, end)
}
