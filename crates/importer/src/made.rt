// The text of the case that a form becomes, from the form's lines as plain lists: 19, the made case, 14.
ghost use Rattle.std.specs.Prelude.{◌≡◌, List, suc, ◌+◌, ◌*◌, ◌≤◌, ◌<◌, length};
ghost use Rattle.rules.specs.Case.{Case, Valued};
ghost use Rattle.rules.specs.Print.{lines_text};
ghost use Rattle.rules.specs.Form.{Form};
ghost use Rattle.output.specs.Output.{HasLines};
ghost use Rattle.importer.specs.Importing.{FormHeld, Unlinked, made_of, MadeIs, PutMade};

use forms::{FormRead, LINES};
use rules::Answer;

// How many lines a small form has; and for so many lines and for all how many starts their links have, with the place past the last, and how
// many links they have, each at most 32.
const FEW_LINES: usize = 256;

const FEW_STARTS: usize = FEW_LINES + 1;

const FEW_LINKS: usize = 32 * FEW_LINES;

const STARTS: usize = LINES + 1;

const LINKS: usize = 32 * LINES;

// The text of the made case whose fields these are, put out: how many bytes it has. "14 after 19": nothing of it is put out if the output is too
// short.
fn put_made(fields: &[u32], end: usize, cues: u32, output: &mut [u8]) -> Result<u32, Answer>
    requires has_lines { (xs : List Valued) × HasLines cues fields.now end xs }
    requires end_bound { end ≤ 65536 }
    ensures { (xs : List Valued) → HasLines cues fields.now end xs → PutMade (lines_text xs) (length output.old) result output.new }
{
    let needed = output::measure(fields, end, cues);
    if output.len() < needed {
        return Err(Answer::ShortOutput {
            needed: needed as u32,
        });
    }
    output::put_text(fields, end, cues, output);
    Ok(needed as u32)
}

// 19, and the made case of a form that was read: its links, its fields in the place of the case's own, its text. The lists for the links come in
// zero.
fn make_with(
    form: &[u8],
    places: &[usize; LINES],
    ids: &[u32; LINES],
    labels: &[u32; LINES],
    read: FormRead,
    work: &mut [u32],
    fields: &mut [u32],
    plan: usize,
    output: &mut [u8],
    starts: &mut [u32],
    links: &mut [u16],
    twin: &mut [u32],
    used: &mut [u32],
    marks: &mut [u32],
    spare: &mut [u32],
) -> Result<u32, Answer>
    requires form_held { (k : Case) × (f : Form) × FormHeld k f form.now places.now ids.now labels.now read.cues read.count read.root fields.old plan }
    requires in_bounds { (8192 ≤ length work.old) × (plan + 12001 ≤ length fields.old) × (plan ≤ 32767) }
    requires unlinked { Unlinked read.count starts.old links.old twin.old used.old marks.old spare.old }
    ensures { (k : Case) (f : Form) → FormHeld k f form.now places.now ids.now labels.now read.cues read.count read.root fields.old plan → MadeIs (made_of (length output.old) k f) (length output.old) result output.new }
{
    let tied = linking::tie(
        form,
        places,
        ids,
        read.cues,
        read.count,
        read.root,
        &mut work[..ids::SLOTS],
        starts,
        links,
        twin,
        used,
        marks,
        spare,
    );
    if let Some(line) = tied.line {
        return Err(Answer::WrongId { line });
    }
    let end = making::make(
        starts, links, labels, read.cues, read.count, tied.root, fields, plan, marks, spare,
    );
    put_made(fields, end, read.cues as u32, output)
}

// The same with lists of its own, so that a small form clears small lists alone: room for so many lines, one start more, and so many links.
fn make_within<const LINES_ROOM: usize, const STARTS_ROOM: usize, const LINKS_ROOM: usize>(
    form: &[u8],
    places: &[usize; LINES],
    ids: &[u32; LINES],
    labels: &[u32; LINES],
    read: FormRead,
    work: &mut [u32],
    fields: &mut [u32],
    plan: usize,
    output: &mut [u8],
) -> Result<u32, Answer>
    requires form_held { (k : Case) × (f : Form) × FormHeld k f form.now places.now ids.now labels.now read.cues read.count read.root fields.old plan }
    requires in_bounds { (8192 ≤ length work.old) × (plan + 12001 ≤ length fields.old) × (plan ≤ 32767) }
    requires few { (LINES_ROOM ≤ LINES) × (LINKS_ROOM ≤ LINKS) }
    requires room { (read.count ≤ LINES_ROOM) × (STARTS_ROOM ≡ suc LINES_ROOM) × (32 * read.count ≤ LINKS_ROOM) }
    ensures { (k : Case) (f : Form) → FormHeld k f form.now places.now ids.now labels.now read.cues read.count read.root fields.old plan → MadeIs (made_of (length output.old) k f) (length output.old) result output.new }
{
    let mut starts = [0u32; STARTS_ROOM];
    let mut links = [0u16; LINKS_ROOM];
    let mut twin = [0u32; LINES_ROOM];
    let mut used = [0u32; LINES_ROOM];
    let mut marks = [0u32; LINES_ROOM];
    let mut spare = [0u32; LINES_ROOM];
    make_with(
        form,
        places,
        ids,
        labels,
        read,
        work,
        fields,
        plan,
        output,
        &mut starts,
        &mut links,
        &mut twin,
        &mut used,
        &mut marks,
        &mut spare,
    )
}

pub fn make_from(
    form: &[u8],
    places: &[usize; LINES],
    ids: &[u32; LINES],
    labels: &[u32; LINES],
    read: FormRead,
    work: &mut [u32],
    fields: &mut [u32],
    plan: usize,
    output: &mut [u8],
) -> Result<u32, Answer>
    requires form_held { (k : Case) × (f : Form) × FormHeld k f form.now places.now ids.now labels.now read.cues read.count read.root fields.old plan }
    requires in_bounds { (8192 ≤ length work.old) × (plan + 12001 ≤ length fields.old) × (plan ≤ 32767) }
    ensures { (k : Case) (f : Form) → FormHeld k f form.now places.now ids.now labels.now read.cues read.count read.root fields.old plan → MadeIs (made_of (length output.old) k f) (length output.old) result output.new }
{
    if read.count <= FEW_LINES {
        return make_within::<FEW_LINES, FEW_STARTS, FEW_LINKS>(
            form, places, ids, labels, read, work, fields, plan, output,
        );
    }
    make_within::<LINES, STARTS, LINKS>(form, places, ids, labels, read, work, fields, plan, output)
}
