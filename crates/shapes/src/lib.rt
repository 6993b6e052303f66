// The lines of the competition's plan form (02, Card 6), one at a time: what each says, or that it has another shape. Each byte is looked at
// once, but for the first word of a line that starts with no number, which is then compared with `root` or `<==`. `past` is the place past the text's last line feed.
#![tactic(auto)]

ghost use Rattle.std.specs.Prelude.{◌≡◌, true, ℕ, ltb, get_or};
ghost use Rattle.rules.specs.Text.{feed_follows};
ghost use Rattle.tokens.specs.Pieces.{ends_piece};
ghost use Rattle.shapes.specs.Shapes.{Numbered, NotNumbered, Headed, IdsAre, FrontIs, BackIs, OpeningIs};

// A line up to the root line: an action line, its id and where its name stands; or the root line, its id and where the next line starts.
#[derive(Clone, Copy)]
pub enum Front {
    Action { id: u32, from: usize, to: usize },
    Root { id: u32, next: usize },
}

// A line after the root line: a compound line, its id, where the names of its task and of its method stand, how many subtask ids follow the
// method's name, and where the next line starts; or the last line.
#[derive(Clone, Copy)]
pub enum Back {
    Compound {
        id: u32,
        from: usize,
        to: usize,
        method: usize,
        end: usize,
        count: usize,
        next: usize,
    },
    End {
        next: usize,
    },
}

// The ids that a line goes on with, up to its end: how many, and where the next line starts.
#[derive(Clone, Copy)]
pub struct Ids {
    pub count: usize,
    pub next: usize,
}

// An action line whose id ends here: "one action per line as id and name".
fn action_line(text: &[u8], id: u32, next: usize) -> Option<Front>
    requires { (at : ℕ) × Numbered text.now at id next }
    ensures { (at : ℕ) → Numbered text.now at id next → FrontIs text.now at result }
{
    if text[next] != b' ' {
        return None;
    }
    let from = next + 1;
    let to = tokens::name_end(text, from, b' ')?;
    if text[to] != b'\n' {
        return None;
    }
    Some(Front::Action { id, from, to })
}

// A line that starts with no number: "`root` and one id".
fn root_line(text: &[u8], at: usize) -> Option<Front>
    requires { feed_follows text.now at ≡ true }
    ensures { NotNumbered text.now at → FrontIs text.now at result }
{
    let root = [b'r', b'o', b'o', b't'];
    if !tokens::is_word(text, at, b' ', &root) {
        return None;
    }
    let end = at + 4;
    if text[end] != b' ' {
        return None;
    }
    let id = tokens::number_at(text, end + 1, b' ')?;
    if text[id.next] != b'\n' {
        return None;
    }
    Some(Front::Root {
        id: id.value,
        next: id.next + 1,
    })
}

// The line that starts here, where an action line or the root line is due; none for another line, or none.
pub fn front_line(text: &[u8], past: usize, at: usize) -> Option<Front>
    requires { (p : ℕ) → feed_follows text.now p ≡ ltb p past }
    ensures { FrontIs text.now at result }
{
    if past <= at {
        return None;
    }
    match tokens::number_at(text, at, b' ') {
        Some(id) => action_line(text, id.value, id.next),
        None => root_line(text, at),
    }
}

// The ids that follow the word that ends here, if nothing else does.
fn ids_from(text: &[u8], from: usize) -> Option<Ids>
    requires { (feed_follows text.now from ≡ true) × (ends_piece 32 (get_or text.now from 0) ≡ true) }
    ensures { IdsAre text.now from result }
{
    let mut at = from;
    let mut count: usize = 0;
    // A `while`: the place moves on by as many bytes as an id has.
    while text[at] == b' ' {
        at = tokens::number_at(text, at + 1, b' ')?.next;
        count += 1;
    }
    Some(Ids {
        count,
        next: at + 1,
    })
}

// A compound line whose task's name stands here: "`->`, method name and subtask ids".
fn method_line(text: &[u8], id: u32, from: usize, to: usize) -> Option<Back>
    requires { (at : ℕ) × Headed text.now at id from to }
    ensures { (at : ℕ) → Headed text.now at id from to → BackIs text.now at result }
{
    let arrow = [b'-', b'>'];
    if !tokens::is_word(text, to + 1, b' ', &arrow) {
        return None;
    }
    if text[to + 3] != b' ' {
        return None;
    }
    let method = to + 4;
    let end = tokens::name_end(text, method, b' ')?;
    let ids = ids_from(text, end)?;
    Some(Back::Compound {
        id,
        from,
        to,
        method,
        end,
        count: ids.count,
        next: ids.next,
    })
}

// A compound line whose id ends here: "one compound per line as id, name, `->`, method name and subtask ids".
fn compound_line(text: &[u8], id: u32, next: usize) -> Option<Back>
    requires { (at : ℕ) × Numbered text.now at id next }
    ensures { (at : ℕ) → Numbered text.now at id next → BackIs text.now at result }
{
    if text[next] != b' ' {
        return None;
    }
    let from = next + 1;
    let to = tokens::name_end(text, from, b' ')?;
    if text[to] != b' ' {
        return None;
    }
    method_line(text, id, from, to)
}

// A line that starts with no number: "`<==`".
fn last_line(text: &[u8], at: usize) -> Option<Back>
    requires { feed_follows text.now at ≡ true }
    ensures { NotNumbered text.now at → BackIs text.now at result }
{
    let closing = [b'<', b'=', b'='];
    if !tokens::is_word(text, at, b' ', &closing) {
        return None;
    }
    let end = at + 3;
    if text[end] != b'\n' {
        return None;
    }
    Some(Back::End { next: end + 1 })
}

// The line that starts here, where a compound line or the last line is due; none for another line, or none.
pub fn back_line(text: &[u8], past: usize, at: usize) -> Option<Back>
    requires { (p : ℕ) → feed_follows text.now p ≡ ltb p past }
    ensures { BackIs text.now at result }
{
    if past <= at {
        return None;
    }
    match tokens::number_at(text, at, b' ') {
        Some(id) => compound_line(text, id.value, id.next),
        None => last_line(text, at),
    }
}

// Where the second line starts, if the first is "`==>`".
pub fn past_opening(text: &[u8], past: usize) -> Option<usize>
    requires { (p : ℕ) → feed_follows text.now p ≡ ltb p past }
    ensures { OpeningIs text.now result }
{
    if past == 0 {
        return None;
    }
    let opening = [b'=', b'=', b'>'];
    if !tokens::is_word(text, 0, b' ', &opening) {
        return None;
    }
    if text[3] == b'\n' { Some(4) } else { None }
}
