// From the three texts to the text that is made of them: the case read, the name list and the form beside it, and what they make.
ghost use Rattle.std.specs.Prelude.{◌+◌, ◌*◌, ◌≤◌, ◌<◌, length};
ghost use Rattle.rules.specs.Case.{Case};
ghost use Rattle.rules.specs.Fields.{fields_of};
ghost use Rattle.rules.specs.Form.{Form};
ghost use Rattle.rules.specs.Verdict.{text_most, work_need};
ghost use Rattle.importer.specs.Importing.{ModelHere, BothAre, CaseHere, made_beside, made_text, MadeIs};

use crate::made;
use forms::{FormRead, LINES, Model, Table};
use rules::{Answer, Header};

// Room for the fields of any case, and for the P line and the node lines of any form after them; and for those of a short case, of fewer than
// SHORT bytes.
const FIELDS: usize = 45056;

const FEW_FIELDS: usize = 14336;

const SHORT: usize = 4096;

// How many names of tasks, and of methods, a model may have.
const NAMES: usize = 2048;

// The name list and the form, by the model of a case whose fields these are. The names stand in arrays beside one another, since there is no heap.
fn read_both(
    names: &[u8],
    form: &[u8],
    header: Header,
    fields: &[u32],
    directory: &[u32],
    ids: &mut [u32; LINES],
    labels: &mut [u32; LINES],
    places: &mut [usize; LINES],
) -> Result<FormRead, Answer>
    requires model_here { (k : Case) × ModelHere k header fields.now directory.now }
    ensures { (k : Case) → ModelHere k header fields.now directory.now → BothAre k names.now form.now result ids.new labels.new places.new }
{
    let mut task_starts = [0usize; NAMES];
    let mut task_ends = [0usize; NAMES];
    let mut task_slots = [0u32; names::SLOTS];
    let mut method_starts = [0usize; NAMES];
    let mut method_ends = [0usize; NAMES];
    let mut method_slots = [0u32; names::SLOTS];
    naming::read_names(
        names,
        header,
        &mut task_starts,
        &mut task_ends,
        &mut task_slots,
        &mut method_starts,
        &mut method_ends,
        &mut method_slots,
    )?;
    let model = Model {
        header,
        fields,
        directory,
        tasks: Table {
            text: names,
            starts: &task_starts,
            ends: &task_ends,
            slots: &task_slots,
        },
        methods: Table {
            text: names,
            starts: &method_starts,
            ends: &method_ends,
            slots: &method_slots,
        },
    };
    forms::read_form(form, &model, ids, labels, places)
}

// The rows from the name list on, of a case that was read.
fn make_case(
    names: &[u8],
    form: &[u8],
    header: Header,
    nodes: usize,
    work: &mut [u32],
    fields: &mut [u32],
    output: &mut [u8],
) -> Result<u32, Answer>
    requires case_here { (k : Case) × CaseHere k header nodes fields.old work.old × (length (fields_of k) + 12001 ≤ length fields.old) }
    requires in_bounds { 8192 ≤ length work.old }
    ensures { (k : Case) → CaseHere k header nodes fields.old work.old → MadeIs (made_beside (length output.old) k names.now form.now) (length output.old) result output.new }
{
    let mut ids = [0u32; LINES];
    let mut labels = [0u32; LINES];
    let mut places = [0usize; LINES];
    let read = read_both(
        names,
        form,
        header,
        fields,
        work,
        &mut ids,
        &mut labels,
        &mut places,
    )?;
    let plan = making::plan_place(nodes, header.cues);
    made::make_from(
        form, &places, &ids, &labels, read, work, fields, plan, output,
    )
}

// The rows from reading on, with room for the fields.
fn make_text(
    text: &[u8],
    names: &[u8],
    form: &[u8],
    work: &mut [u32],
    fields: &mut [u32],
    output: &mut [u8],
) -> Result<u32, Answer>
    requires { (length text.now ≤ text_most) × (work_need ≤ length work.old) × (length text.now + 24003 ≤ 2 * length fields.old) }
    ensures { MadeIs (made_text (length output.old) text.now names.now form.now) (length output.old) result output.new }
{
    let case = reading::read_case(text, fields, work)?;
    make_case(names, form, case.header, case.nodes, work, fields, output)
}

// The same with room of its own for so many fields, so that a short case clears a small list alone. Never a part of its caller's frame: the list
// is gone before the find-the-gaps call starts.
#[inline(never)]
fn make_within<const ROOM: usize>(
    text: &[u8],
    names: &[u8],
    form: &[u8],
    work: &mut [u32],
    output: &mut [u8],
) -> Result<u32, Answer>
    requires few { ROOM ≤ FIELDS }
    requires room { (length text.now ≤ text_most) × (work_need ≤ length work.old) × (length text.now + 24003 ≤ 2 * ROOM) }
    ensures { MadeIs (made_text (length output.old) text.now names.now form.now) (length output.old) result output.new }
{
    let mut fields = [0u32; ROOM];
    make_text(text, names, form, work, &mut fields, output)
}

pub fn make_lent(
    text: &[u8],
    names: &[u8],
    form: &[u8],
    work: &mut [u32],
    output: &mut [u8],
) -> Result<u32, Answer>
    requires { (length text.now ≤ text_most) × (work_need ≤ length work.old) }
    ensures { MadeIs (made_text (length output.old) text.now names.now form.now) (length output.old) result output.new }
{
    if text.len() < SHORT {
        return make_within::<FEW_FIELDS>(text, names, form, work, output);
    }
    make_within::<FIELDS>(text, names, form, work, output)
}
