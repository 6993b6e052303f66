// The items of a line: a number, or a list with its members.
ghost use Rattle.std.specs.Prelude.{◌≡◌, true, ◌&&◌, ◌<◌, ◌^◌, leb, eqb};
ghost use Rattle.rules.specs.Text.{number_at, feed_follows};
ghost use Rattle.rules.specs.Table.{one, set, within, least_after, read_members, read_list};
ghost use Rattle.lines.specs.Shapes.{kind_of, item_of};
ghost use Rattle.lines.specs.Reading.{in_kind, read_item_in, as_taken, Room, MembersLeft, ItemLeft};

use crate::line::LineError;
use crate::numbers::Known;
use crate::range;
use crate::range::{
    CUE_ACTION, KINDS, MEMBER_COUNT, PROPOSITION, SUBTASK_COUNT, SUBTASK_TASK, VALUES,
};
use text::{Cursor, Number};

// The lists that a byte stands for: from 22 on it is the cues.
const SET: u64 = 20;

const SUBTASKS: u64 = 21;

// An item that is read: its number, or how many members it has; the number of the field after it, and where that starts.
#[derive(Clone, Copy)]
pub struct ItemRead {
    pub value: u32,
    pub field: usize,
    pub next: Cursor,
}

// Whether v is at least `low`, and in the range of its kind.
fn admits(low: u64, kind: u64, x: &Known, before: &[u32; VALUES], v: u32) -> bool
    requires kind_bound { kind < 20 }
    ensures { result ≡ leb low v && in_kind x.now.numbers before.now kind v }
{
    low <= u64::from(v) && range::in_range(kind, x, before, v)
}

fn take_number(
    text: &[u8],
    c: Cursor,
    x: &Known,
    before: &[u32; VALUES],
    kind: u64,
    low: u64,
    field: usize,
) -> Result<Number, LineError>
    requires at_value { feed_follows text.now c.at ≡ true }
    requires kind_bound { kind < 20 }
    ensures { result ≡ as_taken field (within (λ v. leb low v && in_kind x.now.numbers before.now kind v) (number_at text.now c.at)) }
{
    let Ok(number) = c.number(text) else {
        return Err(LineError::Bad { field });
    };
    if admits(low, kind, x, before, number.value) {
        Ok(number)
    } else {
        Err(LineError::Range { field })
    }
}

// The least that the member after v may be. "Sets are strictly ascending": the members of a set are its propositions, and no other list ascends.
fn least_after(kind: u64, v: u32) -> u64
    ensures { result ≡ least_after (eqb kind 11) v }
{
    if kind == PROPOSITION {
        u64::from(v) + 1
    } else {
        0
    }
}

// `count` members of one kind, each stored as it is read, from `from` on.
fn members(
    text: &[u8],
    c: Cursor,
    x: &Known,
    before: &[u32; VALUES],
    kind: u64,
    count: u32,
    field: usize,
    fields: &mut [u32],
    from: usize,
) -> Result<ItemRead, LineError>
    requires field_bound { field < 2 ^ 41 }
    requires room { Room text.now fields.old from c.at }
    requires kind_bound { kind < 20 }
    ensures { MembersLeft 0 from fields.old (read_members text.now (in_kind x.now.numbers before.now kind) (eqb kind 11) count 0 field c.at) result fields.new }
{
    let mut at = c;
    let mut low: u64 = 0;
    for i in 0..count {
        let member = take_number(text, at, x, before, kind, low, field + i as usize)?;
        fields[from + i as usize] = member.value;
        low = least_after(kind, member.value);
        at = member.next;
    }
    Ok(ItemRead {
        value: count,
        field: field + count as usize,
        next: at,
    })
}

// "A list is its count followed by its members": the count and the members by their kinds.
fn list(
    text: &[u8],
    c: Cursor,
    x: &Known,
    before: &[u32; VALUES],
    counts: u64,
    kind: u64,
    field: usize,
    fields: &mut [u32],
    from: usize,
) -> Result<ItemRead, LineError>
    requires field_bound { field < 2 ^ 40 }
    requires room { Room text.now fields.old from c.at }
    requires counts_bound { (counts < 20) × (kind < 20) }
    ensures { ItemLeft set from fields.old (read_list text.now (in_kind x.now.numbers before.now counts) (in_kind x.now.numbers before.now kind) (eqb kind 11) field c.at) result fields.new }
{
    let count = take_number(text, c, x, before, counts, 0, field)?;
    fields[from] = count.value;
    members(
        text,
        count.next,
        x,
        before,
        kind,
        count.value,
        field + 1,
        fields,
        from + 1,
    )
}

fn single(
    text: &[u8],
    c: Cursor,
    x: &Known,
    before: &[u32; VALUES],
    kind: u64,
    field: usize,
    fields: &mut [u32],
    from: usize,
) -> Result<ItemRead, LineError>
    requires field_bound { field < 2 ^ 40 }
    requires room { Room text.now fields.old from c.at }
    requires kind_bound { kind < 20 }
    ensures { ItemLeft (one (kind_of kind)) from fields.old (read_item_in text.now x.now.numbers before.now (one (kind_of kind)) field c.at) result fields.new }
{
    let number = take_number(text, c, x, before, kind, 0, field)?;
    fields[from] = number.value;
    Ok(ItemRead {
        value: number.value,
        field: field + 1,
        next: number.next,
    })
}

// The item that a shape's byte stands for, after the numbers before it in its line. Its first field is number `field`, and its fields are
// stored from `from` on.
pub fn read_item(
    text: &[u8],
    c: Cursor,
    x: &Known,
    before: &[u32; VALUES],
    item: u64,
    field: usize,
    fields: &mut [u32],
    from: usize,
) -> Result<ItemRead, LineError>
    requires field_bound { field < 2 ^ 40 }
    requires room { Room text.now fields.old from c.at }
    ensures { ItemLeft (item_of item) from fields.old (read_item_in text.now x.now.numbers before.now (item_of item) field c.at) result fields.new }
{
    if item < KINDS {
        return single(text, c, x, before, item, field, fields, from);
    }
    match item {
        SET => list(
            text,
            c,
            x,
            before,
            MEMBER_COUNT,
            PROPOSITION,
            field,
            fields,
            from,
        ),
        SUBTASKS => list(
            text,
            c,
            x,
            before,
            SUBTASK_COUNT,
            SUBTASK_TASK,
            field,
            fields,
            from,
        ),
        _ => members(
            text,
            c,
            x,
            before,
            CUE_ACTION,
            x.numbers[5],
            field,
            fields,
            from,
        ),
    }
}
