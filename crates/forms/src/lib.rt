// Reading the competition's plan form (02, Card 6), line by line: 17, "first on each line", then 18, "next on the line". What each line defines goes to lists: its id, its
// action or method, and of a compound line where its subtask ids stand. The lists are the caller's, since there is no heap, with room for
// all LINES lines, and line e of the form's lines has the number e in each.
#![tactic(auto)]

ghost use Rattle.std.specs.Prelude.{◌≡◌, length};
ghost use Rattle.rules.specs.Case.{Case};
ghost use Rattle.rules.specs.Naming.{Names};
ghost use Rattle.rules.specs.Form.{read_form};
ghost use Rattle.forms.specs.Held.{Modelled, FormIs};

mod backs;
mod fronts;
mod lookups;

use rules::{Answer, Header};

// "the 3,001st action or compound line, counted together" is surplus.
pub const LINES: usize = 3000;

// The names of one use, in the text of the name list: where each starts and ends, and the slots of their table.
#[derive(Clone, Copy)]
pub struct Table<'a> {
    pub text: &'a [u8],
    pub starts: &'a [usize],
    pub ends: &'a [usize],
    pub slots: &'a [u32],
}

// What a form is read by: of the case beside it the header, and the fields with their directory; and the names of its tasks and its methods.
#[derive(Clone, Copy)]
pub struct Model<'a> {
    pub header: Header,
    pub fields: &'a [u32],
    pub directory: &'a [u32],
    pub tasks: Table<'a>,
    pub methods: Table<'a>,
}

// A form that is read: how many action lines it has, how many lines of both sorts, and the root's id.
#[derive(Clone, Copy)]
pub struct FormRead {
    pub cues: usize,
    pub count: usize,
    pub root: u32,
}

// The whole form, and nothing after it.
pub fn read_form(
    form: &[u8],
    model: &Model,
    ids: &mut [u32],
    labels: &mut [u32],
    places: &mut [usize],
) -> Result<FormRead, Answer>
    requires modelled { (k : Case) × (ns : Names) × Modelled k ns model.now }
    requires ids_len { (length ids.old ≡ 3000) × (length labels.old ≡ 3000) × (length places.old ≡ 3000) }
    ensures { (k : Case) (ns : Names) → Modelled k ns model.now → FormIs form.now (read_form k ns form.now) result ids.new labels.new places.new }
{
    let past = text::past_last_feed(form);
    let second = shapes::past_opening(form, past).ok_or(Answer::WrongShape { line: 1, item: 0 })?;
    let fronts = fronts::read_fronts(form, past, second, model, ids, labels)?;
    let backs = backs::read_backs(
        form,
        past,
        fronts.next,
        fronts.cues,
        model,
        ids,
        labels,
        places,
    )?;
    if backs.next < form.len() {
        return Err(Answer::WrongShape {
            line: backs.count as u32 + 4,
            item: 0,
        });
    }
    Ok(FormRead {
        cues: fronts.cues,
        count: backs.count,
        root: fronts.root,
    })
}
