// The tokens of the two texts that come beside a case (02, Card 6): the piece of a line from a place up to a separator or the line feed, as a
// plain number, as a name or as a given word. Every answer is that of the definitions of `rules`, for any place that a line feed follows: what
// a scan looks for ends it before the text does. Assumes nothing.
#![tactic(auto)]

ghost use Rattle.std.specs.Prelude.{◌≡◌, true, false, ◌+◌, ◌<◌};
ghost use Rattle.rules.specs.Text.{is_digit, number_in, feed_follows};
ghost use Rattle.rules.specs.Tokens.{in_name, same_bytes};
ghost use Rattle.text.specs.Scan.{closed, continued};
ghost use Rattle.tokens.specs.Pieces.{ends_piece, piece_from, NoneEnds, as_plain, name_end};

// A piece that is a plain number, with the place of the byte that ends it.
#[derive(Clone, Copy)]
pub struct Plain {
    pub value: u32,
    pub next: usize,
}

#[tactic(auto, unfolding(crate::specs::Pieces::ends_piece, rules::specs::Text::is_feed))]
fn ends_piece(b: u8, separator: u8) -> bool
    ensures { result ≡ ends_piece separator b }
{
    b == separator || b == b'\n'
}

// The number `value`, where its piece is over here.
fn close(text: &[u8], at: usize, value: u64, separator: u8) -> Option<Plain>
    requires { (value < 4294967296) × (feed_follows text.now at ≡ true) }
    ensures { result ≡ as_plain (closed value at (piece_from separator text.now at)) }
{
    if ends_piece(text[at], separator) {
        Some(Plain {
            value: value as u32,
            next: at,
        })
    } else {
        None
    }
}

// The number of all digits from here, whatever the first is. A `while`: the line feed that follows ends the scan, and no length is given.
fn digits(text: &[u8], from: usize, separator: u8) -> Option<Plain>
    requires { (is_digit separator ≡ false) × (feed_follows text.now from ≡ true) }
    ensures { result ≡ as_plain (continued 0 from (piece_from separator text.now from)) }
{
    let mut at = from;
    let mut value: u64 = 0;
    while text::is_digit(text[at]) {
        value = value * 10 + text::digit_value(text[at]);
        if 4294967295 < value {
            return None;
        }
        at += 1;
    }
    close(text, at, value, separator)
}

// The plain number that the piece from here is: "ids are plain numbers".
pub fn number_at(text: &[u8], from: usize, separator: u8) -> Option<Plain>
    requires { (is_digit separator ≡ false) × (feed_follows text.now from ≡ true) }
    ensures { result ≡ as_plain (number_in from (piece_from separator text.now from)) }
{
    let b = text[from];
    if ends_piece(b, separator) {
        return None;
    }
    if b == b'0' {
        return close(text, from + 1, 0, separator);
    }
    digits(text, from, separator)
}

#[tactic(auto, unfolding(rules::specs::Tokens::in_name, rules::specs::Text::is_comma))]
fn in_name(b: u8) -> bool
    ensures { result ≡ in_name b }
{
    33 <= b && b <= 126 && b != b','
}

// Where the name ends that the piece from here is: "names one or more bytes 33 to 126 but comma". None, if it is no name.
// A `while`: the line feed that follows ends the scan, and no length is given.
pub fn name_end(text: &[u8], from: usize, separator: u8) -> Option<usize>
    requires { (in_name separator ≡ false) × (feed_follows text.now from ≡ true) }
    ensures { result ≡ name_end from (piece_from separator text.now from) }
{
    let mut at = from;
    while in_name(text[at]) {
        at += 1;
    }
    if at == from {
        return None;
    }
    if ends_piece(text[at], separator) {
        Some(at)
    } else {
        None
    }
}

// Whether the piece from here is this word.
pub fn is_word(text: &[u8], from: usize, separator: u8, word: &[u8]) -> bool
    requires { NoneEnds separator word.now × (feed_follows text.now from ≡ true) }
    ensures { result ≡ same_bytes (piece_from separator text.now from) word.now }
{
    text[from..].starts_with(word) && ends_piece(text[from + word.len()], separator)
}
