// The text of a case from its fields (02, Card 2): measured, and put into a lent output. Each byte of the output is stored once.
#![tactic(auto)]

ghost use Rattle.std.specs.Prelude.{◌≡◌, List, ◌+◌, ◌-◌, ◌*◌, ◌≤◌, ◌<◌, length, get_or, replicate};
ghost use Rattle.std.proofs.lemmas.List.Edits.{sets};
ghost use Rattle.std.proofs.Math.Seq.{slice};
ghost use Rattle.rules.specs.Text.{decimal};
ghost use Rattle.rules.specs.Case.{Valued};
ghost use Rattle.rules.specs.Print.{line_text, lines_text};
ghost use Rattle.rules.specs.Verdict.{filled};
ghost use Rattle.output.specs.Output.{HasLines};

// How many digits a number has. By tests in order, and by no logarithm: most numbers have one digit or two, so that the first tests answer.
fn digits(n: u32) -> usize
    ensures { result ≡ length (decimal n) }
{
    if n < 10 {
        return 1;
    }
    if n < 100 {
        return 2;
    }
    if n < 1000 {
        return 3;
    }
    if n < 10000 {
        return 4;
    }
    if n < 100000 {
        return 5;
    }
    if n < 1000000 {
        return 6;
    }
    if n < 10000000 {
        return 7;
    }
    if n < 100000000 {
        return 8;
    }
    if n < 1000000000 { 9 } else { 10 }
}

// A number of any length at a place, its last digit first; answers the place after it. A `while`: it ends where one digit is left.
fn put_long(n: u32, at: usize, out: &mut [u8]) -> usize
    requires { at + length (decimal n) ≤ length out.old }
    ensures { (out.new ≡ sets out.old at (decimal n)) × (result ≡ at + length (decimal n)) }
{
    let end = at + digits(n);
    let mut rest = n;
    let mut i = end;
    while rest >= 10 {
        i -= 1;
        out[i] = b'0' + (rest % 10) as u8;
        rest /= 10;
    }
    out[at] = b'0' + rest as u8;
    end
}

// The same; numbers of up to three digits, which most are, with no loop.
fn put_number(n: u32, at: usize, out: &mut [u8]) -> usize
    requires { at + length (decimal n) ≤ length out.old }
    ensures { (out.new ≡ sets out.old at (decimal n)) × (result ≡ at + length (decimal n)) }
{
    if n < 10 {
        out[at] = b'0' + n as u8;
        return at + 1;
    }
    if n < 100 {
        out[at] = b'0' + (n / 10) as u8;
        out[at + 1] = b'0' + (n % 10) as u8;
        return at + 2;
    }
    if n < 1000 {
        let tens = n / 10;
        out[at] = b'0' + (tens / 10) as u8;
        out[at + 1] = b'0' + (tens % 10) as u8;
        out[at + 2] = b'0' + (n % 10) as u8;
        return at + 3;
    }
    put_long(n, at, out)
}

// The line of the fields from `at` to `end`, at place `to`: the letter, each number after a comma, and a line feed; answers the place
// after it.
fn put_line(fields: &[u32], at: usize, end: usize, to: usize, out: &mut [u8]) -> usize
    requires at_lt_end { (at < end) × (end ≤ length fields.now) × (get_or fields.now at 0 < 256) }
    requires fields_in_bounds { to + length (line_text (slice at end fields.now)) ≤ length out.old }
    ensures { (out.new ≡ sets out.old to (line_text (slice at end fields.now))) × (result ≡ to + length (line_text (slice at end fields.now))) }
{
    out[to] = fields[at] as u8;
    let mut past = to + 1;
    for i in at + 1..end {
        out[past] = b',';
        past = put_number(fields[i], past + 1, out);
    }
    out[past] = b'\n';
    past + 1
}

// How many bytes that line has.
fn measure_line(fields: &[u32], at: usize, end: usize) -> usize
    requires { (at < end) × (end ≤ length fields.now) × (end ≤ 65536) }
    ensures { result ≡ length (line_text (slice at end fields.now)) }
{
    let mut size: usize = 2;
    for i in at + 1..end {
        size += 1 + digits(fields[i]);
    }
    size
}

// How many bytes the text of the first `end` fields has. A `while`: the place moves on by as many fields as a line has.
pub fn measure(fields: &[u32], end: usize, cues: u32) -> usize
    requires has_lines { (xs : List Valued) × HasLines cues fields.now end xs }
    requires end_bound { end ≤ 65536 }
    ensures value { (xs : List Valued) → HasLines cues fields.now end xs → result ≡ length (lines_text xs) }
    ensures upper_bound { result ≤ 12 * end }
{
    let mut at: usize = 0;
    let mut size: usize = 0;
    while at < end {
        let next = at + sizes::line_size(fields, at, cues);
        size += measure_line(fields, at, next);
        at = next;
    }
    size
}

// The text of the first `end` fields, from the output's start on; answers where it ends. A `while`, as in `measure`.
fn put_lines(fields: &[u32], end: usize, cues: u32, out: &mut [u8]) -> usize
    requires { (xs : List Valued) × HasLines cues fields.now end xs × (length (lines_text xs) ≤ length out.old) }
    ensures { (xs : List Valued) → HasLines cues fields.now end xs → (out.new ≡ sets out.old 0 (lines_text xs)) × (result ≡ length (lines_text xs)) }
{
    let mut at: usize = 0;
    let mut to: usize = 0;
    while at < end {
        let next = at + sizes::line_size(fields, at, cues);
        to = put_line(fields, at, next, to, out);
        at = next;
    }
    to
}

// Zero from a place on.
fn clear_from(from: usize, out: &mut [u8])
    requires { from ≤ length out.old }
    ensures { out.new ≡ sets out.old from (replicate (length out.old - from) 0) }
{
    out[from..].fill(0);
}

// The output, zero throughout: `fill` at bytes, as `rows::clear` is at words.
pub fn clear(out: &mut [u8])
    ensures { out.new ≡ replicate (length out.old) 0 }
{
    out.fill(0);
}

// The text of the first `end` fields: "output past the text is zero". Answers its length.
pub fn put_text(fields: &[u32], end: usize, cues: u32, out: &mut [u8]) -> usize
    requires { (xs : List Valued) × HasLines cues fields.now end xs × (length (lines_text xs) ≤ length out.old) }
    ensures { (xs : List Valued) → HasLines cues fields.now end xs → (out.new ≡ filled (length out.old) 0 (lines_text xs)) × (result ≡ length (lines_text xs)) }
{
    let past = put_lines(fields, end, cues, out);
    clear_from(past, out);
    past
}

// The bytes of a text, from the output's start on.
fn copy(text: &[u8], out: &mut [u8])
    requires { length text.now ≤ length out.old }
    ensures { out.new ≡ sets out.old 0 text.now }
{
    out[..text.len()].copy_from_slice(text);
}

// A text as it is, and zero past it.
pub fn put_copy(text: &[u8], out: &mut [u8])
    requires { length text.now ≤ length out.old }
    ensures { out.new ≡ filled (length out.old) 0 text.now }
{
    copy(text, out);
    clear_from(text.len(), out);
}
