// A whole line, by the row of its letter.
ghost use Rattle.std.specs.Prelude.{◌≡◌, true, ℕ, ◌+◌, ◌-◌, ◌<◌, ◌≤◌, ◌^◌, [], ltb, get_or};
ghost use Rattle.rules.specs.Text.{ending_at, feed_follows};
ghost use Rattle.rules.specs.Case.{header_in};
ghost use Rattle.rules.specs.Table.{role_number, read_items, read_line};
ghost use Rattle.lines.specs.Shapes.{items_of};
ghost use Rattle.lines.specs.Reading.{role_of, Ready, Room, finish_of, ItemsLeft, LineLeft};

use crate::numbers::Known;
use crate::range::VALUES;
use crate::{item, table};
use text::Cursor;

// The lines of a case, by what is due there, each with the byte of a shape that says so.
#[derive(Clone, Copy)]
pub enum Role {
    Header = 1,
    Initial = 2,
    Action = 3,
    Method = 4,
    Constraint = 5,
    Plan = 6,
    Node = 7,
}

// A line that is read: how many fields it has, and where the next one starts.
#[derive(Clone, Copy)]
pub struct Line {
    pub fields: usize,
    pub next: Cursor,
}

// Why a line, or an item of it, is not read. A field's number is counted from 1 in its line, and 0 is the line itself.
#[derive(Clone, Copy)]
pub enum LineError {
    // The line has no line feed; or the field is the wrong letter, missing, surplus or no plain number.
    Bad { field: usize },
    // The field is outside its range.
    Range { field: usize },
}

// The byte of a shape that says which line is due.
#[tactic(auto, unfolding(rules::specs::Table::role_number))]
fn role_number(role: Role) -> u64
    ensures { result ≡ role_number (role_of role) }
{
    role as u64
}

// The line's end, after its items: anything else is surplus field number `field`.
fn finished(text: &[u8], c: Cursor, field: usize) -> Result<Line, LineError>
    requires { (1 ≤ field) × (feed_follows text.now c.at ≡ true) }
    ensures { result ≡ finish_of (field - 1) field (ending_at text.now c.at) }
{
    let Some(next) = c.line_end(text) else {
        return Err(LineError::Bad { field });
    };
    Ok(Line {
        fields: field - 1,
        next,
    })
}

// The items of a shape's bytes, lowest first, and the line's end. The line's fields are stored from `from` on, the letter first. A `while`: the
// bytes end where no other is set, and each item moves the place on by what it reads. The numbers so far have a fixed place: no heap.
fn items(
    text: &[u8],
    c: Cursor,
    x: &Known,
    letter: u8,
    shape: u64,
    fields: &mut [u32],
    from: usize,
) -> Result<Line, LineError>
    requires shape_bound { shape < 256 ^ 7 }
    requires room { Room text.now fields.old (from + 1) c.at }
    ensures { ItemsLeft (items_of shape) 1 (from + 1) fields.old (read_items text.now (header_in x.now.numbers) (get_or x.now.numbers 7 0) letter (items_of shape) [] 2 c.at) result fields.new }
{
    let mut at = c;
    let mut values = [0u32; VALUES];
    let mut field: usize = 2;
    let mut rest = shape;
    let mut i: usize = 0;
    while rest != 0 {
        let put = from + (field - 1);
        let read = item::read_item(text, at, x, &values, rest % 256, field, fields, put)?;
        values[i] = read.value;
        at = read.next;
        field = read.field;
        rest = rest / 256;
        i += 1;
    }
    finished(text, at, field)
}

// The line that starts at the cursor, where one of role `due` is due: its fields are stored from `from` on. `past` is the place past the
// text's last line feed.
pub fn read_line(
    text: &[u8],
    past: usize,
    c: Cursor,
    due: Role,
    x: &Known,
    fields: &mut [u32],
    from: usize,
) -> Result<Line, LineError>
    requires by_index { (p : ℕ) → feed_follows text.now p ≡ ltb p past }
    requires ready { Ready text.now fields.old from c.at }
    ensures { LineLeft from fields.old (read_line text.now (role_of due) (header_in x.now.numbers) (get_or x.now.numbers 7 0) c.at) result fields.new }
{
    let at = c.at;
    if past <= at {
        return Err(LineError::Bad { field: 0 });
    }
    let shape = table::shape(text[at]);
    if shape % 256 != role_number(due) {
        return Err(LineError::Bad { field: 1 });
    }
    let Some(letter) = c.letter(text) else {
        return Err(LineError::Bad { field: 1 });
    };
    fields[from] = u32::from(letter.byte);
    items(text, letter.next, x, letter.byte, shape / 256, fields, from)
}
