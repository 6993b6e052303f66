// Runs the core of the step call on every case of its standard input, in their order: a line `case` and a name, then the lines `state`, `needed`,
// `forbidden`, `added` and `deleted`, each that word, a blank and eight numbers parted by commas. Prints the line of the case; `Y` or `N` and the
// words of the state that is left; and `mask` and the number for the words that were computed. Stops where no whole case stands. What it prints is
// held against the stored expectations, on which two independent renderings agree.
#![tactic(auto)]

ghost use Rattle.std.specs.Prelude.{◌≤◌, length};

use state::{State, Stepped, WORDS};

const STDIN: i32 = 0;

const STDOUT: i32 = 1;

// A number, and the place after its digits.
#[derive(Clone, Copy)]
struct Number {
    value: u64,
    next: usize,
}

// The set of a line, and the place after its numbers.
#[derive(Clone, Copy)]
struct Line {
    set: State,
    next: usize,
}

// What the step of a case gives, the words computed, and the place after its numbers.
#[derive(Clone, Copy)]
struct Case {
    stepped: Stepped,
    computed: u32,
    next: usize,
}

// A number with one digit more, or none that fits 64 bits.
fn with_digit(value: u64, digit: u8) -> Option<u64> {
    value.checked_mul(10)?.checked_add(u64::from(digit))
}

// The number whose digits start at a place: 0 where none stands there.
fn number_at(text: &[u8], from: usize) -> Number
    requires { from ≤ length text.now }
    ensures { result.next ≤ length text.now }
{
    let mut value: u64 = 0;
    for at in from..text.len() {
        let b = text[at];
        if !b.is_ascii_digit() {
            return Number { value, next: at };
        }
        // One that would pass 64 bits stays as it is.
        value = with_digit(value, b - b'0').unwrap_or(value);
    }
    Number {
        value,
        next: text.len(),
    }
}

// The place after the bytes that are due at a place. Where others stand it is the end of the text, at which nothing more is found: so a case is
// whole if its last line feed is there.
fn past(text: &[u8], from: usize, bytes: &[u8]) -> usize
    requires { from ≤ length text.now }
    ensures { result ≤ length text.now }
{
    if text[from..].starts_with(bytes) {
        from + bytes.len()
    } else {
        text.len()
    }
}

// The place of the line feed that ends the line of a place, or the end of the text.
fn line_end(text: &[u8], from: usize) -> usize
    requires { from ≤ length text.now }
    ensures { (from ≤ result) × (result ≤ length text.now) }
{
    let feed = text[from..].iter().position(|b| *b == b'\n');
    feed.map_or(text.len(), |i| from + i)
}

// The set of the line that starts with a word: the place is that of the line feed before it, and the word has that line feed too.
fn set_at(text: &[u8], from: usize, word: &[u8]) -> Line
    requires { from ≤ length text.now }
    ensures { result.next ≤ length text.now }
{
    let first = number_at(text, past(text, from, word));
    let mut words = [0u64; WORDS];
    words[0] = first.value;
    let mut next = first.next;
    for w in 1..WORDS {
        let n = number_at(text, past(text, next, b","));
        words[w] = n.value;
        next = n.next;
    }
    Line {
        set: State { words },
        next,
    }
}

// The words that a step computes: after a no none.
fn computed_by(ok: bool, added: State, deleted: State) -> u32 {
    if ok {
        state::computed(added, deleted)
    } else {
        0
    }
}

// The step of the five sets that follow the line of a case, whose line feed stands at the place.
fn stepped_at(text: &[u8], from: usize) -> Case
    requires { from ≤ length text.now }
    ensures { result.next ≤ length text.now }
{
    let s = set_at(text, from, b"\nstate ");
    let needed = set_at(text, s.next, b"\nneeded ");
    let forbidden = set_at(text, needed.next, b"\nforbidden ");
    let added = set_at(text, forbidden.next, b"\nadded ");
    let deleted = set_at(text, added.next, b"\ndeleted ");
    let stepped = state::step(s.set, needed.set, forbidden.set, added.set, deleted.set);
    Case {
        stepped,
        computed: computed_by(stepped.ok, added.set, deleted.set),
        next: deleted.next,
    }
}

// The words of a state, a comma before each.
fn print_state(s: State) {
    let words = s.words;
    for word in &words {
        io::write_all(STDOUT, b",");
        io::print_decimal(STDOUT, *word);
    }
}

// The two lines of an answer.
fn print_stepped(r: Stepped, computed: u32) {
    let left = r.state;
    if r.ok {
        io::write_all(STDOUT, b"Y");
    } else {
        io::write_all(STDOUT, b"N");
    }
    print_state(left);
    io::write_all(STDOUT, b"\nmask ");
    io::print_decimal(STDOUT, computed as u64);
    io::write_all(STDOUT, b"\n");
}

// Runs the case that starts at a place. Answers where the next one starts, or the same place where no whole case stands.
fn run_case(text: &[u8], from: usize) -> usize
    requires { from ≤ length text.now }
    ensures { result ≤ length text.now }
{
    let name = past(text, from, b"case ");
    let end = line_end(text, name);
    let c = stepped_at(text, end);
    let stepped = c.stepped;
    let computed = c.computed;
    let last = c.next;
    if last == text.len() {
        return from;
    }
    if text[last] != b'\n' {
        return from;
    }
    io::write_all(STDOUT, b"case ");
    io::write_all(STDOUT, &text[name..end]);
    io::write_all(STDOUT, b"\n");
    print_stepped(stepped, computed);
    last + 1
}

// Every case of a text, up to a place where no whole one stands.
fn run_text(text: &[u8]) {
    let mut at: usize = 0;
    // A `while`: each case moves on by its own length.
    while at < text.len() {
        let next = run_case(text, at);
        if next <= at {
            return;
        }
        at = next;
    }
}

// The buffer takes 65,536 bytes; a longer input is cut.
fn main() {
    let mut buffer = io::large_buffer();
    let n = io::read_full(STDIN, &mut buffer);
    run_text(&buffer[..n]);
}
