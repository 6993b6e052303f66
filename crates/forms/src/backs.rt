// The lines after the root line, compound lines and the last: 17, "first on each line", then 18.
ghost use Rattle.std.specs.Prelude.{◌≡◌, List, ℕ, ◌≤◌, ltb, length};
ghost use Rattle.rules.specs.Text.{feed_follows};
ghost use Rattle.rules.specs.Case.{Case};
ghost use Rattle.rules.specs.Naming.{Names};
ghost use Rattle.rules.specs.Form.{FormLine};
ghost use Rattle.links.specs.Links.{Lines};
ghost use Rattle.forms.specs.Held.{Modelled, AfterIs, BacksAre};

use crate::{LINES, Model, lookups};
use rules::Answer;
use shapes::Back;

// What a line after the root line comes to: a compound line is taken, and where the next line starts; or the last line.
#[derive(Clone, Copy)]
enum After {
    Taken { next: usize },
    End { next: usize },
}

// The line at a place, of which e action and compound lines come ahead: it is line e + 3 of the form.
fn take_after(
    form: &[u8],
    past: usize,
    at: usize,
    e: usize,
    model: &Model,
    ids: &mut [u32],
    labels: &mut [u32],
    places: &mut [usize],
) -> Result<After, Answer>
    requires modelled { (k : Case) × (ns : Names) × Modelled k ns model.now }
    requires by_index { (p : ℕ) → feed_follows form.now p ≡ ltb p past }
    requires e_bound { (e ≤ 3000) × (length ids.old ≡ 3000) × (length labels.old ≡ 3000) × (length places.old ≡ 3000) }
    ensures { (k : Case) (ns : Names) → Modelled k ns model.now → AfterIs k ns form.now e at ids.old labels.old places.old result ids.new labels.new places.new }
{
    let line = e as u32 + 3;
    match shapes::back_line(form, past, at).ok_or(Answer::WrongShape { line, item: 0 })? {
        Back::Compound {
            id,
            from,
            to,
            method,
            end,
            count,
            next,
        } => {
            if e == LINES {
                return Err(Answer::WrongShape { line, item: 0 });
            }
            let m = lookups::both_named(model, form, from, to, method, end, count).ok_or(
                Answer::WrongName { line, item: 0 },
            )?;
            ids[e] = id;
            labels[e] = m as u32;
            places[e] = end;
            Ok(After::Taken { next })
        }
        Back::End { next } => Ok(After::End { next }),
    }
}

// The lines after the root line: how many lines of both sorts there are, and where the text goes on.
#[derive(Clone, Copy)]
pub struct Backs {
    pub count: usize,
    pub next: usize,
}

pub fn read_backs(
    form: &[u8],
    past: usize,
    from: usize,
    cues: usize,
    model: &Model,
    ids: &mut [u32],
    labels: &mut [u32],
    places: &mut [usize],
) -> Result<Backs, Answer>
    requires modelled { (k : Case) × (ns : Names) × Modelled k ns model.now }
    requires by_index { (p : ℕ) → feed_follows form.now p ≡ ltb p past }
    requires cues_bound { (cues ≤ 3000) × (length ids.old ≡ 3000) × (length labels.old ≡ 3000) × (length places.old ≡ 3000) }
    ensures { (k : Case) (ns : Names) → Modelled k ns model.now → (cs : List FormLine) → length cs ≡ cues → Lines cs cues ids.old labels.old → BacksAre k ns form.now cues from cs result ids.new labels.new places.new }
{
    let mut at = from;
    let mut e = cues;
    // A `loop`: the place moves on by as many bytes as a line has, and the line says which is the last.
    loop {
        match take_after(form, past, at, e, model, ids, labels, places)? {
            After::Taken { next } => {
                at = next;
                e += 1;
            }
            After::End { next } => return Ok(Backs { count: e, next }),
        }
    }
}
