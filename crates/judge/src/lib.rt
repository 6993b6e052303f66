// The core of the check call, over plain lists: the rows of 01's table in their order. What it leaves in the work space are the columns of
// the node records, which the call then gathers into the node list.
#![tactic(auto)]

ghost use Rattle.std.specs.Prelude.{◌≡◌, List, ℕ, ◌*◌, ◌<◌, ◌≤◌, length, replicate};
ghost use Rattle.rules.specs.Case.{Case};
ghost use Rattle.rules.specs.Verdict.{check, check_lists, answer_of, states_after};
ghost use Rattle.rules.proofs.Judgement.Rows.{from_text, from_run, from_tree};
ghost use Rattle.records.specs.Records.{RecordsHeld};
ghost use Rattle.fields.specs.Directory.{Roomy};
ghost use Rattle.columns.specs.Columns.{Blank};
ghost use Rattle.judge.specs.Phases.{Answers, FieldsHeld, Cleared, Admits, HasRead, Ran as HasRun, Walked, Claimed, from_claimed, RowsPass, OpensAs};

use columns::PER_WORD;
use fields::FIELDS;
use rules::{Answer, Header, NODES, STATES, TEXT, WORK};
use running::Stopped;
use state::WORDS;
use tree::{MARKS, SUBTASKS};

// Room for the fields of a text of fewer than twice as many bytes: less to clear than what any text may need.
const SMALL: usize = 2048;

// A case that was read: its header, the number of its P line, and where its P line and its first node line stand among the fields.
#[derive(Clone, Copy)]
pub struct Opened {
    pub header: Header,
    pub plan_line: u32,
    pub plan: usize,
    pub nodes: usize,
}

// A refusal: the state list is zero throughout; the node list is the caller's.
fn refuse(states: &mut [u64], answer: Answer) -> Answer
    ensures answer { result ≡ answer }
    ensures states { states.new ≡ replicate (length states.old) 0 }
{
    rows::clear(states);
    answer
}

// Rows 10 to 13, of a tree whose positions are all claimed, with columns of which none is built; then the records.
fn judge_with(
    fields: &[u32],
    o: Opened,
    states: &mut [u64],
    work: &mut [u32],
    columns: &mut [u64],
    built: &mut [u64],
) -> Answer
    requires claimed { (k : Case) × Claimed k fields.now o states.old work.old }
    requires blank { Blank columns.old built.old }
    ensures { (k : Case) → Claimed k fields.now o states.old work.old → Answers (from_tree k) (length states.old) result states.new work.new }
{
    let header = o.header;
    let line = o.plan_line;
    let nodes = o.nodes;
    let kept = constraints::first_broken(fields, header, line, nodes, states, work, columns, built);
    match kept {
        Ok(()) => {
            records::write_records(fields, header, nodes, work);
            Answer::Accepted {
                cues: header.cues,
                nodes: header.nodes,
            }
        }
        Err(answer) => refuse(states, answer),
    }
}

// How many words of propositions have columns in a small model: to clear those of more would cost more than its tests.
const FEW_WORDS: usize = 1;

// The numbers of the columns of a small model; and of any other.
const FEW_COLUMNS: usize = FEW_WORDS * PER_WORD;

const COLUMNS: usize = WORDS * PER_WORD;

// The rows with columns for `N` words of propositions, which are `M` numbers: a call for a small model clears few.
fn judge_with_columns<const N: usize, const M: usize>(
    fields: &[u32],
    o: Opened,
    states: &mut [u64],
    work: &mut [u32],
) -> Answer
    requires few { N ≤ WORDS }
    requires sized { M ≡ N * PER_WORD }
    requires claimed { (k : Case) × Claimed k fields.now o states.old work.old }
    ensures { (k : Case) → Claimed k fields.now o states.old work.old → Answers (from_tree k) (length states.old) result states.new work.new }
{
    let mut columns = [0u64; M];
    let mut built = [0u64; N];
    judge_with(fields, o, states, work, &mut columns, &mut built)
}

// Rows 10 to 13, of a tree whose positions are all claimed; then the records.
fn judge_constraints(fields: &[u32], o: Opened, states: &mut [u64], work: &mut [u32]) -> Answer
    requires { (k : Case) × Claimed k fields.now o states.old work.old }
    ensures { (k : Case) → Claimed k fields.now o states.old work.old → Answers (from_tree k) (length states.old) result states.new work.new }
{
    let header = o.header;
    let propositions = header.propositions as usize;
    if propositions <= 64 * FEW_WORDS {
        judge_with_columns::<FEW_WORDS, FEW_COLUMNS>(fields, o, states, work)
    } else {
        judge_with_columns::<WORDS, COLUMNS>(fields, o, states, work)
    }
}

// Row 9, of a tree that is right.
fn open_claims(o: Opened, states: &mut [u64], work: &[u32]) -> Result<Opened, Answer>
    requires { (k : Case) × (f : List ℕ) × Walked k f o states.old work.now }
    ensures { (k : Case) (f : List ℕ) → Walked k f o states.old work.now → RowsPass (λ rest. from_claimed rest k) k f (length states.old) result states.new work.now }
{
    let header = o.header;
    match tree::least_unclaimed(work, header.cues) {
        None => Ok(o),
        Some(position) => Err(refuse(
            states,
            Answer::Unclaimed {
                line: o.plan_line,
                position,
            },
        )),
    }
}

// Rows 6 to 8 and 20 to 22, of a plan that runs; then row 9. The walk starts from marks that are zero.
fn open_nodes(
    fields: &[u32],
    o: Opened,
    states: &mut [u64],
    work: &mut [u32],
) -> Result<Opened, Answer>
    requires { (k : Case) × HasRun k fields.now o states.old work.old }
    ensures { (k : Case) → HasRun k fields.now o states.old work.old → RowsPass (λ rest. from_claimed rest k) k fields.now (length states.old) result states.new work.new }
{
    let header = o.header;
    let plan = o.plan;
    let nodes = o.nodes;
    rows::clear_work(&mut work[MARKS..SUBTASKS]);
    match tree::walk_tree(fields, header, o.plan_line, plan, nodes, work) {
        Ok(()) => open_claims(o, states, work),
        Err(answer) => Err(refuse(states, answer)),
    }
}

// Row 5, of a case that was read; then rows 6 to 9 and 20 to 22.
fn open_run(
    fields: &[u32],
    o: Opened,
    initial: usize,
    states: &mut [u64],
    work: &mut [u32],
) -> Result<Opened, Answer>
    requires { (k : Case) × HasRead k fields.now o initial states.old work.old }
    ensures { (k : Case) → HasRead k fields.now o initial states.old work.old → RowsPass (λ rest. from_run (from_claimed rest) k) k fields.now (length states.old) result states.new work.new }
{
    let header = o.header;
    let plan = o.plan;
    match running::run(fields, work, header, initial, plan, states) {
        Ok(()) => open_nodes(fields, o, states, work),
        Err(Stopped { cue }) => Err(refuse(
            states,
            Answer::Inapplicable {
                line: o.plan_line,
                cue,
            },
        )),
    }
}

// Rows 3 and 4, with lists that are long enough and a text that is not too long; then rows 5 to 9. Refused, the state list is still zero; the
// fields and the directory of a case that passes are left to the caller, with the tree's rows.
pub fn open_text(
    text: &[u8],
    states: &mut [u64],
    work: &mut [u32],
    fields: &mut [u32],
) -> Result<Opened, Answer>
    requires { Cleared text.now states.old work.old × Roomy text.now fields.old }
    ensures { OpensAs text.now fields.new (length states.old) result states.new work.new }
{
    let case = reading::read_case(text, fields, work)?;
    let o = Opened {
        header: case.header,
        plan_line: case.plan_line,
        plan: case.plan,
        nodes: case.nodes,
    };
    open_run(fields, o, case.initial, states, work)
}

// Rows 3 to 13, with lists that are long enough and a text that is not too long. Refused, the state list is zero; the fields of an accepted
// case are left to the caller.
pub fn judge_text(text: &[u8], states: &mut [u64], work: &mut [u32], fields: &mut [u32]) -> Answer
    requires { Cleared text.now states.old work.old × Roomy text.now fields.old }
    ensures answers { Answers (from_text from_tree text.now) (length states.old) result states.new work.new }
    ensures fields { FieldsHeld (from_text from_tree text.now) fields.new }
{
    match open_text(text, states, work, fields) {
        Ok(case) => judge_constraints(fields, case, states, work),
        Err(answer) => answer,
    }
}

// The same with room for so many fields, as many as a text of fewer than twice as many bytes may have.
fn judge_with_room<const N: usize>(text: &[u8], states: &mut [u64], work: &mut [u32]) -> Answer
    requires few { N ≤ FIELDS }
    requires room { Cleared text.now states.old work.old × (length text.now < 2 * N) }
    ensures { Answers (from_text from_tree text.now) (length states.old) result states.new work.new }
{
    let mut fields = [0u32; N];
    judge_text(text, states, work, &mut fields)
}

// The same, with as much room for the fields as a text of this length may need.
#[tactic(auto, unfolding(rules::specs::Verdict::text_most))]
pub fn judge_lent(text: &[u8], states: &mut [u64], work: &mut [u32]) -> Answer
    requires { Cleared text.now states.old work.old }
    ensures { Answers (from_text from_tree text.now) (length states.old) result states.new work.new }
{
    if text.len() < 2 * SMALL {
        judge_with_room::<SMALL>(text, states, work)
    } else {
        judge_with_room::<FIELDS>(text, states, work)
    }
}

// Rows 1 and 2: "1 state, 2 node, 3 work; first such", and the text's length.
#[tactic(auto, using(crate::proofs::Verdicts::short_first), unfolding(rules::specs::State::word_count, rules::specs::Verdict::state_need, rules::specs::Verdict::node_need, rules::specs::Verdict::work_need, rules::specs::Verdict::text_most))]
pub fn admit(
    text: &[u8],
    state_room: usize,
    node_room: usize,
    work_room: usize,
) -> Result<(), Answer>
    ensures { Admits state_room node_room work_room text.now result }
{
    if state_room < STATES * WORDS {
        return Err(Answer::ShortList { list: 1 });
    }
    if node_room < NODES {
        return Err(Answer::ShortList { list: 2 });
    }
    if work_room < WORK {
        return Err(Answer::ShortList { list: 3 });
    }
    if TEXT < text.len() {
        return Err(Answer::LongText);
    }
    Ok(())
}

// All rows. The state list is zero before anything is checked.
pub fn judge(text: &[u8], states: &mut [u64], work: &mut [u32], node_room: usize) -> Answer
    ensures value { result ≡ answer_of (check (check_lists (length states.old) node_room (length work.old)) text.now) }
    ensures states_after { states.new ≡ states_after (length states.old) (check (check_lists (length states.old) node_room (length work.old)) text.now) }
    ensures records_held { RecordsHeld (check (check_lists (length states.old) node_room (length work.old)) text.now) work.new }
{
    rows::clear(states);
    match admit(text, states.len(), node_room, work.len()) {
        Ok(()) => judge_lent(text, states, work),
        Err(answer) => answer,
    }
}
