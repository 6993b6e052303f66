// Reading a whole case (01, "The case text" and rows 3 and 4 of its table): one pass over the text, line by line, that leaves the fields of the
// case and a directory of its lines. Each group of lines is one function, whose answer is that of the definitions of `rules`.
#![tactic(auto)]

ghost use Rattle.std.specs.Prelude.{◌≡◌, ◌≤◌, ◌<◌, length, drop, get_or};
ghost use Rattle.rules.specs.Table as T;
ghost use Rattle.rules.specs.Fields.{line_fields};
ghost use Rattle.rules.specs.Case.{header_in, one_method, many, read_body, read_case};
ghost use Rattle.rules.proofs.Judgement.Sound.{GoodHeader};
ghost use Rattle.lines.specs.Reading.{role_of};
ghost use Rattle.fields.specs.Directory.{Roomy, methods_from, directory_size};
ghost use Rattle.reading.specs.Groups.{Fits, NoSubtasks, after_line, valued_line, Due, Left, together, method_fields, Placed, whole_case};
ghost use Rattle.reading.specs.Whole.{to_the_end, BodyLeft, ReadsAs};

use fields::METHODS_FROM;
use lines::{Known, Line, LineError, Role};
use rules::{Answer, Header};
use text::Cursor;

// A case that is read: its header, the number of its P line, and where the fields of its I line, its P line and its first node line stand.
#[derive(Clone, Copy)]
pub struct CaseRead {
    pub header: Header,
    pub plan_line: u32,
    pub initial: usize,
    pub plan: usize,
    pub nodes: usize,
}

// Where a line is: its number, from 1, its first byte, and the place of its first field.
#[derive(Clone, Copy)]
struct Spot {
    line: u32,
    start: Cursor,
    from: usize,
}

// What reading line number `line`, whose fields are stored from `from` on, came to: the line after it, or the refusal of one of its fields.
fn after(read: Result<Line, LineError>, line: u32, from: usize) -> Result<Spot, Answer>
    requires { (line ≤ 65536) × Fits from read }
    ensures { result ≡ after_line line from read }
{
    match read {
        Ok(Line { fields, next }) => Ok(Spot {
            line: line + 1,
            start: next,
            from: from + fields,
        }),
        Err(LineError::Bad { field }) => Err(Answer::Unreadable {
            line,
            field: field as u32,
        }),
        Err(LineError::Range { field }) => Err(Answer::OutOfRange {
            line,
            field: field as u32,
        }),
    }
}

// The line of role `due` that is due at a spot, its fields stored. `past` is the place past the text's last line feed.
fn next_line(
    text: &[u8],
    past: usize,
    at: Spot,
    due: Role,
    x: &Known,
    fields: &mut [u32],
) -> Result<Spot, Answer>
    requires due { Due text.now past fields.old at }
    ensures { Left line_fields at.from fields.old (valued_line text.now (header_in x.now.numbers) (role_of due) (get_or x.now.numbers 7 0) at.line at.start.at) result fields.new }
{
    let line = at.line;
    let from = at.from;
    let read = lines::read_line(text, past, at.start, due, x, fields, from);
    after(read, line, from)
}

// `count` lines of one role. The only caller of the line reader, so that this is compiled into the loop.
fn lines_of(
    text: &[u8],
    past: usize,
    from: Spot,
    due: Role,
    x: &Known,
    count: u32,
    fields: &mut [u32],
) -> Result<Spot, Answer>
    requires due { Due text.now past fields.old from }
    ensures { Left (together line_fields) from.from fields.old (many (valued_line text.now (header_in x.now.numbers) (role_of due) (get_or x.now.numbers 7 0)) count from.line from.start.at) result fields.new }
{
    let mut at = from;
    for _i in 0..count {
        at = next_line(text, past, at, due, x, fields)?;
    }
    Ok(at)
}

// The one line of role `due` that is due at a spot.
fn one_line(
    text: &[u8],
    past: usize,
    at: Spot,
    due: Role,
    x: &Known,
    fields: &mut [u32],
) -> Result<Spot, Answer>
    requires due { Due text.now past fields.old at }
    ensures { Left line_fields at.from fields.old (valued_line text.now (header_in x.now.numbers) (role_of due) (get_or x.now.numbers 7 0) at.line at.start.at) result fields.new }
{
    lines_of(text, past, at, due, x, 1, fields)
}

// A method: its M line, and then as many constraint lines as that says, of a method with as many subtasks as that says.
fn one_method(
    text: &[u8],
    past: usize,
    at: Spot,
    x: &Known,
    fields: &mut [u32],
) -> Result<Spot, Answer>
    requires due { Due text.now past fields.old at }
    requires no_subtasks { NoSubtasks x.now.numbers }
    ensures { Left method_fields at.from fields.old (one_method text.now (header_in x.now.numbers) at.line at.start.at) result fields.new }
{
    let from = at.from;
    let next = one_line(text, past, at, Role::Method, x, fields)?;
    // The third field is the number of subtasks, the last the number of constraints.
    let subtasks = fields[from + 2];
    let count = fields[next.from - 1];
    let own = lines::with_subtasks(x, subtasks);
    // Field by field: the three were stored one by one, and a copy of the whole would wait for them.
    let line = next.line;
    let start = next.start;
    let first = Spot {
        line,
        start,
        from: next.from,
    };
    lines_of(text, past, first, Role::Constraint, &own, count, fields)
}

// The A lines, the places of whose fields go to the start of the directory.
fn actions(
    text: &[u8],
    past: usize,
    from: Spot,
    x: &Known,
    fields: &mut [u32],
    directory: &mut [u32],
) -> Result<Spot, Answer>
    requires due { Due text.now past fields.old from }
    requires x_bound { (get_or x.now.numbers 1 0 ≤ 1024) × (directory_size ≤ length directory.old) }
    ensures left { Left (together line_fields) from.from fields.old (many (valued_line text.now (header_in x.now.numbers) T.action (get_or x.now.numbers 7 0)) (get_or x.now.numbers 1 0) from.line from.start.at) result fields.new }
    ensures placed { Placed line_fields from.from 0 directory.old (many (valued_line text.now (header_in x.now.numbers) T.action (get_or x.now.numbers 7 0)) (get_or x.now.numbers 1 0) from.line from.start.at) directory.new }
{
    let count = x.numbers[1] as usize;
    let mut at = from;
    for i in 0..count {
        let place = at.from;
        at = one_line(text, past, at, Role::Action, x, fields)?;
        directory[i] = place as u32;
    }
    Ok(at)
}

// The methods, the places of whose fields go to the directory after those of the A lines. Not one function with that: a method is several
// lines, and the definitions read it, and show its fields, by definitions of their own.
fn methods(
    text: &[u8],
    past: usize,
    from: Spot,
    x: &Known,
    fields: &mut [u32],
    directory: &mut [u32],
) -> Result<Spot, Answer>
    requires due { Due text.now past fields.old from }
    requires x_bound { (get_or x.now.numbers 3 0 ≤ 2048) × (directory_size ≤ length directory.old) × NoSubtasks x.now.numbers }
    ensures left { Left (together method_fields) from.from fields.old (many (one_method text.now (header_in x.now.numbers)) (get_or x.now.numbers 3 0) from.line from.start.at) result fields.new }
    ensures placed { Placed method_fields from.from methods_from directory.old (many (one_method text.now (header_in x.now.numbers)) (get_or x.now.numbers 3 0) from.line from.start.at) directory.new }
{
    let count = x.numbers[3] as usize;
    let mut at = from;
    for i in 0..count {
        let place = at.from;
        at = one_method(text, past, at, x, fields)?;
        directory[METHODS_FROM + i] = place as u32;
    }
    Ok(at)
}

// The numbers of an N line that was read, by their names: they follow its letter.
pub fn header_of(fields: &[u32]) -> Header
    requires { 8 ≤ length fields.now }
    ensures { result ≡ header_in (drop 1 fields.now) }
{
    Header {
        propositions: fields[1],
        actions: fields[2],
        compounds: fields[3],
        methods: fields[4],
        goal: fields[5],
        cues: fields[6],
        nodes: fields[7],
    }
}

// A case whose last due line is read, if nothing comes after it. "surplus line (item 1, ended or not)"
fn whole(
    text: &[u8],
    header: Header,
    initial: Spot,
    plan: Spot,
    node: Spot,
    end: Spot,
) -> Result<CaseRead, Answer>
    ensures { result ≡ whole_case text.now header initial plan node end }
{
    let c = end.start;
    if c.at < text.len() {
        return Err(Answer::Unreadable {
            line: end.line,
            field: 1,
        });
    }
    Ok(CaseRead {
        header,
        plan_line: plan.line,
        initial: initial.from,
        plan: plan.from,
        nodes: node.from,
    })
}

// The lines after the header, in their fixed order, and nothing after them. Each spot is named for the line that is due there.
fn body(
    text: &[u8],
    past: usize,
    first: Spot,
    header: Header,
    fields: &mut [u32],
    directory: &mut [u32],
) -> Result<CaseRead, Answer>
    requires due { Due text.now past fields.old first }
    requires good_header { GoodHeader header × (directory_size ≤ length directory.old) }
    ensures { BodyLeft header first.from fields.old directory.old (to_the_end text.now (read_body text.now header first.line first.start.at)) result fields.new directory.new }
{
    let known = lines::known(header);
    let x = &known;
    let action = one_line(text, past, first, Role::Initial, x, fields)?;
    let method = actions(text, past, action, x, fields, directory)?;
    let plan = methods(text, past, method, x, fields, directory)?;
    let node = one_line(text, past, plan, Role::Plan, x, fields)?;
    let end = lines_of(text, past, node, Role::Node, x, header.nodes, fields)?;
    whole(text, header, first, plan, node, end)
}

// The case that a text holds: its fields, and where those of its A and M lines stand. "reading, line by line": everything of a line before
// anything of the next. No heap: the lists for the fields and for the directory are lent.
pub fn read_case(text: &[u8], fields: &mut [u32], directory: &mut [u32]) -> Result<CaseRead, Answer>
    requires { (length text.now ≤ 65535) × Roomy text.now fields.old × (directory_size ≤ length directory.old) }
    ensures { ReadsAs (read_case text.now) result fields.new directory.new }
{
    let past = text::past_last_feed(text);
    // The ranges of the N line ask for no header.
    let none = Header {
        propositions: 0,
        actions: 0,
        compounds: 0,
        methods: 0,
        goal: 0,
        cues: 0,
        nodes: 0,
    };
    let known = lines::known(none);
    let start = Cursor::new();
    let first = Spot {
        line: 1,
        start,
        from: 0,
    };
    let next = one_line(text, past, first, Role::Header, &known, fields)?;
    let read = header_of(fields);
    body(text, past, next, read, fields, directory)
}
