// The ids of a form's lines (02, Card 6). They may be defined twice, and used before they are defined: so all lines are stored first, and
// linked afterwards. In the lent lists of numbers a link or a twin is a line's number and one more, or 0 for none: `link` and `Twins` say so.
#![tactic(auto)]

ghost use Rattle.std.specs.Prelude.{◌≡◌, Bool, List, [], ◌∷◌, ℕ, suc, ◌+◌, ◌*◌, ◌≤◌, ◌<◌, length, get_or};
ghost use Rattle.rules.specs.Form.{FormLine};
ghost use Rattle.probing.specs.Probing.{first, Kept};
ghost use Rattle.ids.specs.Ids.{same_id, hash_id};
ghost use Rattle.tokens.specs.Pieces.{Spells};
ghost use Rattle.links.specs.Links.{Lines, Spelled, Defined, Twins, Resolved};
ghost use Rattle.links.specs.Steps.{link_in, Paired, Tallied, Stored, FirstOf};

use ids::Table;
use tokens::Plain;

// Line e is the twin of the last line with its id so far, if there is one: `found` is the first.
fn follow(found: Option<usize>, e: usize, twin: &mut [u32], last: &mut [u32])
    requires by_index { (ids : List ℕ) × (found ≡ first (same_id ids (get_or ids e 0)) e) × Paired ids e twin.old last.old }
    requires e_bound { (e < 3000) × (e < length twin.old) × (e < length last.old) }
    ensures { (ids : List ℕ) → found ≡ first (same_id ids (get_or ids e 0)) e → Paired ids e twin.old last.old → Paired ids (suc e) twin.new last.new }
{
    match found {
        Some(f) => {
            let g = last[f] as usize;
            twin[g] = (e + 1) as u32;
            last[f] = e as u32;
        }
        None => {
            last[e] = e as u32;
        }
    }
}

// The table of the lines' ids, and the twin of each line. The table finds the "first line that defines" an id; the others are its twins and
// theirs.
pub fn pair(ids: &[u32], count: usize, slots: &mut [u32], twin: &mut [u32], last: &mut [u32])
    requires count_bound { (count ≤ 3000) × (count ≤ length ids.now) × (length slots.old ≡ 8192) }
    requires count_in_bounds { (count ≤ length twin.old) × (count ≤ length last.old) × ((e : ℕ) → get_or twin.old e 0 ≡ 0) }
    ensures twins { (es : List FormLine) → length es ≡ count → Defined es ids.now → Twins es twin.new }
    ensures low { ((e : ℕ) → get_or twin.new e 0 ≤ count) × (length twin.new ≡ length twin.old) }
    ensures table { Kept (same_id ids.now) hash_id slots.new count }
{
    probing::clear(slots);
    for e in 0..count {
        let found = ids::insert(ids, slots, e);
        follow(found, e, twin, last);
    }
}

// Where the links of a line end, and whether one of them is none. Not an Option: they end there either way, and are stored either way.
#[derive(Clone, Copy)]
struct Row {
    end: usize,
    missing: bool,
}

// Stores the link of an id as link n, and counts it at the line that defines the id. Whether no line does.
fn store_link(table: &Table, id: u32, n: usize, links: &mut [u16], used: &mut [u32]) -> bool
    requires { (table.now.count ≤ 3000) × (table.now.count ≤ length used.old) × (n < 96000) × (n < length links.old) × Tallied table.now.count n links.old used.old }
    ensures { Stored (link_in table.now.ids.now table.now.count) (id ∷ []) n links.old (n + 1) result links.new × Tallied table.now.count (n + 1) links.new used.new }
{
    match ids::find(table, id) {
        Some(d) => {
            links[n] = (d + 1) as u16;
            used[d] += 1;
            false
        }
        None => {
            links[n] = 0;
            true
        }
    }
}

// The links of one line's subtasks, whose ids stand in the text from a place on, after the first `start` links. The ids were read before, so each
// is a plain number. A `while`: the line is over at its line feed, and the place moves on by what a number takes.
fn link_line(
    text: &[u8],
    from: usize,
    table: &Table,
    start: usize,
    links: &mut [u16],
    used: &mut [u32],
) -> Row
    requires by_index { (vs : List ℕ) × Spells text.now from vs × (start + length vs ≤ 96000) × (start + length vs ≤ length links.old) }
    requires count_bound { (table.now.count ≤ 3000) × (table.now.count ≤ length used.old) × Tallied table.now.count start links.old used.old }
    ensures stored { (vs : List ℕ) → Spells text.now from vs → Stored (link_in table.now.ids.now table.now.count) vs start links.old result.end result.missing links.new }
    ensures tallied { Tallied table.now.count result.end links.new used.new }
{
    let mut at = from;
    let mut n = start;
    let mut missing = false;
    while text[at] == b' ' {
        let Some(Plain { value, next }) = tokens::number_at(text, at + 1, b' ') else {
            return Row { end: n, missing };
        };
        missing |= store_link(table, value, n, links, used);
        n += 1;
        at = next;
    }
    Row { end: n, missing }
}

// The first line that fails, of those up to line e: `wrong` is the first of those before it, `count` if there is none. A number in each case:
// lines are compared with it, and every line is before `count`.
fn first_wrong(wrong: usize, count: usize, e: usize, missing: bool) -> usize
    requires { e < count }
    ensures { (fails : ℕ → Bool) → FirstOf fails count e wrong → fails e ≡ missing → FirstOf fails count (suc e) result }
{
    if wrong < count {
        return wrong;
    }
    if missing { e } else { count }
}

// The links of all lines, one line's after the other's, and how often each line is linked to. The answer is the first line that "uses an id
// never defined", the number of lines if there is none. Action lines, the first `cues`, have no links.
pub fn resolve(
    text: &[u8],
    places: &[usize],
    table: &Table,
    cues: usize,
    starts: &mut [u32],
    links: &mut [u16],
    used: &mut [u32],
) -> usize
    requires by_index { (es : List FormLine) × (labels : List ℕ) × Lines es cues table.now.ids.now labels × Spelled text.now places.now es cues × (length es ≡ table.now.count) }
    requires count_in_bounds { (table.now.count ≤ length places.now) × (table.now.count < length starts.old) × (32 * table.now.count ≤ length links.old) × (table.now.count ≤ length used.old) }
    requires by_index_2 { ((u : ℕ) → get_or links.old u 0 ≡ 0) × ((d : ℕ) → get_or used.old d 0 ≡ 0) }
    ensures resolved { (es : List FormLine) (labels : List ℕ) → Lines es cues table.now.ids.now labels → Spelled text.now places.now es cues → length es ≡ table.now.count → Resolved es result starts.new links.new used.new }
    ensures lengths { (length starts.new ≡ length starts.old) × (length links.new ≡ length links.old) }
{
    let count = table.count;
    probing::clear(&mut starts[..cues]);
    let mut n: usize = 0;
    let mut wrong = count;
    for e in cues..count {
        starts[e] = n as u32;
        let row = link_line(text, places[e], table, n, links, used);
        wrong = first_wrong(wrong, count, e, row.missing);
        n = row.end;
    }
    starts[count] = n as u32;
    wrong
}
