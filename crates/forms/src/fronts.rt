// The lines up to the root line, the action lines first: 17, "first on each line", then 18.
ghost use Rattle.std.specs.Prelude.{◌≡◌, ℕ, ◌≤◌, ltb, length};
ghost use Rattle.rules.specs.Text.{feed_follows};
ghost use Rattle.rules.specs.Case.{Case};
ghost use Rattle.rules.specs.Naming.{Names};
ghost use Rattle.forms.specs.Held.{Modelled, AheadIs, FrontsAre};

use crate::{LINES, Model, lookups};
use rules::Answer;
use shapes::Front;

// What a line up to the root line comes to: an action line is taken, and where the next line starts; or the root line.
#[derive(Clone, Copy)]
enum Ahead {
    Taken { next: usize },
    Root { id: u32, next: usize },
}

// The line at a place, of which e action lines come ahead: it is line e + 2 of the form.
fn take_ahead(
    form: &[u8],
    past: usize,
    at: usize,
    e: usize,
    model: &Model,
    ids: &mut [u32],
    labels: &mut [u32],
) -> Result<Ahead, Answer>
    requires modelled { (k : Case) × (ns : Names) × Modelled k ns model.now }
    requires by_index { (p : ℕ) → feed_follows form.now p ≡ ltb p past }
    requires e_bound { (e ≤ 3000) × (length ids.old ≡ 3000) × (length labels.old ≡ 3000) }
    ensures { (k : Case) (ns : Names) → Modelled k ns model.now → AheadIs k ns form.now e at ids.old labels.old result ids.new labels.new }
{
    let line = e as u32 + 2;
    match shapes::front_line(form, past, at).ok_or(Answer::WrongShape { line, item: 0 })? {
        Front::Action { id, from, to } => {
            if e == LINES {
                return Err(Answer::WrongShape { line, item: 0 });
            }
            let a = lookups::action_named(model, form, from, to).ok_or(Answer::WrongName {
                line,
                item: 0,
            })?;
            ids[e] = id;
            labels[e] = a as u32;
            Ok(Ahead::Taken { next: to + 1 })
        }
        Front::Root { id, next } => Ok(Ahead::Root { id, next }),
    }
}

// The lines up to the root line, which come after the first: how many action lines there are, the root's id, and where the next line starts.
#[derive(Clone, Copy)]
pub struct Fronts {
    pub cues: usize,
    pub root: u32,
    pub next: usize,
}

pub fn read_fronts(
    form: &[u8],
    past: usize,
    from: usize,
    model: &Model,
    ids: &mut [u32],
    labels: &mut [u32],
) -> Result<Fronts, Answer>
    requires modelled { (k : Case) × (ns : Names) × Modelled k ns model.now }
    requires by_index { (p : ℕ) → feed_follows form.now p ≡ ltb p past }
    requires ids_len { (length ids.old ≡ 3000) × (length labels.old ≡ 3000) }
    ensures { (k : Case) (ns : Names) → Modelled k ns model.now → FrontsAre k ns form.now from result ids.new labels.new }
{
    let mut at = from;
    let mut e: usize = 0;
    // A `loop`: the place moves on by as many bytes as a line has, and the line says which is the last.
    loop {
        match take_ahead(form, past, at, e, model, ids, labels)? {
            Ahead::Taken { next } => {
                at = next;
                e += 1;
            }
            Ahead::Root { id, next } => {
                return Ok(Fronts {
                    cues: e,
                    root: id,
                    next,
                });
            }
        }
    }
}
