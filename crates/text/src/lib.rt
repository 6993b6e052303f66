// The fields of a case (01, "The case text"): "Lines end in a line feed; fields are in fixed order, parted by commas, no quoting."
// Every answer is that of the definitions of `rules`, for any text and any place that a line feed follows: what a scan looks for ends it
// before the text does, so that no byte costs a test of the text's length. Assumes nothing.
#![tactic(auto)]

ghost use Rattle.std.specs.Prelude.{◌≡◌, true, false, ℕ, ◌+◌, ◌-◌, ◌≤◌, ltb, length, drop, get_or};
ghost use Rattle.rules.specs.Text.{is_digit, ends_field, field_of, number_in, number_at, letter_at, ending_at, feed_follows};
ghost use Rattle.text.specs.Cursor.{cursor, as_field, as_letter, as_ending};
ghost use Rattle.text.specs.Scan.{closed, continued};

// A place in the text: "fields are in fixed order, parted by commas, no quoting", so a line is read from left to right, each
// method giving the field that it read with the cursor for the next. It stands at the start of a line, or at the byte that ended
// the field read last: a comma there says that a further field comes, a line feed that the line is over.
#[derive(Clone, Copy)]
pub struct Cursor {
    pub at: usize,
}

// A plain number that stands where one is due, and the byte that ended its field.
#[derive(Clone, Copy)]
pub struct Number {
    pub value: u32,
    pub next: Cursor,
}

// Why no number stands there.
#[derive(Clone, Copy)]
pub enum FieldError {
    // A field that is no plain number.
    NotPlain,
    // The line has no further field.
    Missing,
}

// A line's letter: a field of one byte.
#[derive(Clone, Copy)]
pub struct Letter {
    pub byte: u8,
    pub next: Cursor,
}

fn ends_field(b: u8) -> bool
    ensures { result ≡ ends_field b }
{
    b == b',' || b == b'\n'
}

// The library's test, in the definition's word.
pub fn is_digit(b: u8) -> bool
    ensures { result ≡ is_digit b }
{
    b.is_ascii_digit()
}

pub fn digit_value(b: u8) -> u64
    requires { is_digit b ≡ true }
    ensures { result ≡ b - 48 }
{
    u64::from(b - b'0')
}

// The number `value`, where its field is over here. The refusal goes first: compiled so, a member of a set takes 9 instructions fewer than with an
// `if` of two arms.
fn close(text: &[u8], at: usize, value: u64) -> Result<Number, FieldError>
    requires { (value ≤ 4294967295) × (feed_follows text.now at ≡ true) }
    ensures { result ≡ as_field (closed value at (field_of (drop at text.now))) }
{
    if !ends_field(text[at]) {
        return Err(FieldError::NotPlain);
    }
    Ok(Number {
        value: value as u32,
        next: Cursor { at },
    })
}

// The number whose digits so far are `first`, which is not 0, and go on here. One load and two comparisons a digit. A `while`: the place moves
// on as far as the digits go.
fn digits(text: &[u8], from: usize, first: u64) -> Result<Number, FieldError>
    requires { (first ≤ 4294967295) × (feed_follows text.now from ≡ true) }
    ensures { result ≡ as_field (continued first from (field_of (drop from text.now))) }
{
    let mut at = from;
    let mut value = first;
    while is_digit(text[at]) {
        value = value * 10 + digit_value(text[at]);
        if 4294967295 < value {
            return Err(FieldError::NotPlain);
        }
        at += 1;
    }
    close(text, at, value)
}

// The number whose first two digits stand here. A leading zero is told from the first.
fn longer(text: &[u8], from: usize) -> Result<Number, FieldError>
    requires from_value { (is_digit (get_or text.now from 0) ≡ true) × (is_digit (get_or text.now (from + 1) 0) ≡ true) }
    requires from_value_2 { feed_follows text.now from ≡ true }
    ensures { result ≡ as_field (number_in from (field_of (drop from text.now))) }
{
    let b = text[from];
    if b == b'0' {
        return Err(FieldError::NotPlain);
    }
    let value = digit_value(b) * 10 + digit_value(text[from + 1]);
    digits(text, from + 2, value)
}

// The number that the field from here is: most have one digit or two, which need no test of the limit.
fn plain(text: &[u8], from: usize) -> Result<Number, FieldError>
    requires { feed_follows text.now from ≡ true }
    ensures { result ≡ as_field (number_in from (field_of (drop from text.now))) }
{
    let b = text[from];
    if is_digit(b) {
        if is_digit(text[from + 1]) {
            longer(text, from)
        } else {
            close(text, from + 1, digit_value(b))
        }
    } else {
        Err(FieldError::NotPlain)
    }
}

impl Cursor {
    pub fn new() -> Self
        ensures { result ≡ cursor 0 }
    {
        Cursor { at: 0 }
    }

    // The letter of the line that starts here, with a byte that ends no field: nothing for a field of more bytes.
    pub fn letter(self, text: &[u8]) -> Option<Letter>
        requires { (feed_follows text.now self.at ≡ true) × (ends_field (get_or text.now self.at 0) ≡ false) }
        ensures { result ≡ as_letter (letter_at text.now self.at) }
    {
        let at = self.at;
        if ends_field(text[at + 1]) {
            Some(Letter {
                byte: text[at],
                next: Cursor { at: at + 1 },
            })
        } else {
            None
        }
    }

    // The number after the comma here.
    pub fn number(self, text: &[u8]) -> Result<Number, FieldError>
        requires { feed_follows text.now self.at ≡ true }
        ensures { result ≡ as_field (number_at text.now self.at) }
    {
        let at = self.at;
        if text[at] == b',' {
            plain(text, at + 1)
        } else {
            Err(FieldError::Missing)
        }
    }

    // The start of the next line, past the line feed here: nothing where another field follows.
    pub fn line_end(self, text: &[u8]) -> Option<Cursor>
        requires { feed_follows text.now self.at ≡ true }
        ensures { result ≡ as_ending (ending_at text.now self.at) }
    {
        let at = self.at;
        if text[at] == b'\n' {
            Some(Cursor { at: at + 1 })
        } else {
            None
        }
    }
}

// The place past the last line feed, 0 where there is none: a line feed follows the places before it, and no other. It is found
// once, from the text's end, so that asking for each line whether a line feed follows costs one comparison, not a second pass.
pub fn past_last_feed(text: &[u8]) -> usize
    ensures follows { (p : ℕ) → feed_follows text.now p ≡ ltb p result }
    ensures within { result ≤ length text.now }
{
    for i in (0..text.len()).rev() {
        if text[i] == b'\n' {
            return i + 1;
        }
    }
    0
}
