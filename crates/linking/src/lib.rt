// The ids of a form that was read (02, Card 6): each line's subtasks as links, and the first line that is wrong: "19, [..] after all lines".
#![tactic(auto)]

ghost use Rattle.std.specs.Prelude.{◌≡◌, List, ℕ, ◌*◌, ◌≤◌, ◌<◌, length, get_or};
ghost use Rattle.rules.specs.Form.{FormLine};
ghost use Rattle.links.specs.Links.{Lines, Spelled};
ghost use Rattle.reaching.specs.Visited.{Graph};
ghost use Rattle.linking.specs.Linking.{Rooted, MarkedFrom, Joined};

use ids::Table;

// The link of the root's id, and the number of the first line that is wrong, if one is. A link is a number and 0 if there is none, as in the
// lent lists.
#[derive(Clone, Copy)]
pub struct Tied {
    pub root: u32,
    pub line: Option<u32>,
}

// The link of an id.
fn link_of(table: &Table, id: u32) -> u32
    requires { table.now.count ≤ 3000 }
    ensures { Rooted table.now.ids.now table.now.count id result }
{
    match ids::find(table, id) {
        Some(e) => e as u32 + 1,
        None => 0,
    }
}

// Marks what is reached from the line that a link leads to.
fn mark_from(
    starts: &[u32],
    links: &[u16],
    twin: &[u32],
    count: usize,
    link: u32,
    marks: &mut [u32],
    queue: &mut [u32],
)
    requires graph { Graph starts.now links.now twin.now count }
    requires link_le_count { (link ≤ count) × (count ≤ 3000) }
    requires count_in_bounds { (count ≤ length marks.old) × (count ≤ length queue.old) }
    requires by_index { (d : ℕ) → get_or marks.old d 0 ≡ 0 }
    ensures { MarkedFrom starts.now links.now twin.now link marks.new }
{
    if link == 0 {
        return;
    }
    reaching::visit(
        starts,
        links,
        twin,
        count,
        (link - 1) as usize,
        marks,
        queue,
    );
}

// The links of the form's lines, and the first wrong line. The lists are zero at first but for `spare`, which serves twice.
pub fn tie(
    form: &[u8],
    places: &[usize],
    ids: &[u32],
    cues: usize,
    count: usize,
    root: u32,
    slots: &mut [u32],
    starts: &mut [u32],
    links: &mut [u16],
    twin: &mut [u32],
    used: &mut [u32],
    marks: &mut [u32],
    spare: &mut [u32],
) -> Tied
    requires by_index { (es : List FormLine) × (labels : List ℕ) × Lines es cues ids.now labels × Spelled form.now places.now es cues × (length es ≡ count) }
    requires count_in_bounds { (count ≤ length ids.now) × (count ≤ length places.now) × (length slots.old ≡ 8192) × (count < length starts.old) × (32 * count ≤ length links.old) }
    requires count_in_bounds_2 { (count ≤ length twin.old) × (count ≤ length used.old) × (count ≤ length marks.old) × (count ≤ length spare.old) }
    requires by_index_2 { ((u : ℕ) → get_or links.old u 0 ≡ 0) × ((e : ℕ) → get_or twin.old e 0 ≡ 0) × ((d : ℕ) → get_or used.old d 0 ≡ 0) × ((d : ℕ) → get_or marks.old d 0 ≡ 0) }
    ensures joined { (es : List FormLine) (labels : List ℕ) → Lines es cues ids.now labels → Spelled form.now places.now es cues → length es ≡ count → Joined es cues root result starts.new links.new }
    ensures starts_len_unchanged { length starts.new ≡ length starts.old }
{
    links::pair(ids, count, slots, twin, spare);
    let table = Table { ids, slots, count };
    let lost = links::resolve(form, places, &table, cues, starts, links, used);
    let link = link_of(&table, root);
    mark_from(starts, links, twin, count, link, marks, spare);
    Tied {
        root: link,
        line: wrongs::wrong_line(twin, used, marks, lost, link, cues, count),
    }
}
