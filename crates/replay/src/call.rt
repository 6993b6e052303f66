// The open call, in the order of the table.
ghost use Rattle.std.specs.Prelude.{◌≡◌, ◌*◌, ◌≤◌, ◌<◌, length, replicate};
ghost use Rattle.rules.specs.Case.{Case};
ghost use Rattle.rules.specs.Verdict.{state_need, work_need, text_most, replay_lists, replay, answer_of, reported};
ghost use Rattle.rules.specs.Demands.{ReplayDemand1};
ghost use Rattle.fields.specs.Directory.{Roomy};
ghost use Rattle.running.specs.Running.{Left};
ghost use Rattle.replay.specs.Running.{replay_run, replay_text, Replayed};

use fields::FIELDS;
use reading::CaseRead;
use rules::{Answer, STATES, TEXT, WORK};
use running::Stopped;
use state::WORDS;

// Row 5, of a case that was read: "running: first cue that doesn't apply". Refused, the state list is zero throughout again.
fn replay_case(fields: &[u32], directory: &[u32], case: CaseRead, states: &mut [u64]) -> Answer
    requires left { (k : Case) × Left k fields.now directory.now case.header case.initial case.plan }
    requires room { state_need ≤ length states.old }
    requires zero { states.old ≡ replicate (length states.old) 0 }
    ensures { (k : Case) → Left k fields.now directory.now case.header case.initial case.plan → case.plan_line ≡ k.plan_line → Replayed (replay_run k) (length states.old) result states.new }
{
    let header = case.header;
    match running::run(fields, directory, header, case.initial, case.plan, states) {
        Ok(()) => Answer::Accepted {
            cues: header.cues,
            nodes: header.nodes,
        },
        Err(Stopped { cue }) => {
            rows::clear(states);
            Answer::Inapplicable {
                line: case.plan_line,
                cue,
            }
        }
    }
}

// Rows 3 to 5, with room for the fields. The work space holds the directory of the lines afterwards.
fn replay_fields(text: &[u8], states: &mut [u64], work: &mut [u32], fields: &mut [u32]) -> Answer
    requires lists { (state_need ≤ length states.old) × (work_need ≤ length work.old) }
    requires short { length text.now ≤ text_most }
    requires zero { states.old ≡ replicate (length states.old) 0 }
    requires roomy { Roomy text.now fields.old }
    ensures { Replayed (replay_text text.now) (length states.old) result states.new }
{
    match reading::read_case(text, fields, work) {
        Ok(case) => replay_case(fields, work, case, states),
        Err(answer) => answer,
    }
}

// How many fields a short text can have: to clear room for all would cost more than to read it.
const SMALL: usize = 2048;

// The same with room for so many fields, as many as a text of fewer than twice as many bytes may have.
fn replay_with_room<const N: usize>(text: &[u8], states: &mut [u64], work: &mut [u32]) -> Answer
    requires few { N ≤ FIELDS }
    requires lists { (state_need ≤ length states.old) × (work_need ≤ length work.old) }
    requires short { (length text.now ≤ text_most) × (length text.now < 2 * N) }
    requires zero { states.old ≡ replicate (length states.old) 0 }
    ensures { Replayed (replay_text text.now) (length states.old) result states.new }
{
    let mut fields = [0u32; N];
    replay_fields(text, states, work, &mut fields)
}

// All rows, with a state list that is zero.
#[tactic(auto, unfolding(rules::specs::Verdict::state_need, rules::specs::Verdict::work_need, rules::specs::Verdict::text_most, rules::specs::State::word_count))]
fn replay_lent(text: &[u8], states: &mut [u64], work: &mut [u32]) -> Answer
    requires zero { states.old ≡ replicate (length states.old) 0 }
    ensures { Replayed (replay (replay_lists (length states.old) (length work.old)) text.now) (length states.old) result states.new }
{
    if states.len() < STATES * WORDS {
        return Answer::ShortList { list: 1 };
    }
    if work.len() < WORK {
        return Answer::ShortList { list: 3 };
    }
    if TEXT < text.len() {
        return Answer::LongText;
    }
    if text.len() < 2 * SMALL {
        replay_with_room::<SMALL>(text, states, work)
    } else {
        replay_with_room::<FIELDS>(text, states, work)
    }
}

// "The replay call borrows no node list and does only the checks down to number 5; it answers k and n and fills its state list likewise, and
// number 1 has no item 2 there." The state list is zero before anything is checked, and the work space after it.
pub fn replay(text: &[u8], states: &mut [u64], work: &mut [u32]) -> Answer
    ensures { ReplayDemand1 text.now states.old work.old (reported result) states.new work.new }
{
    rows::clear(states);
    let r = replay_lent(text, states, work);
    rows::clear_work(work);
    r
}

// The replay call over lists of its own, as long as asked.
pub fn replay_text(text: &[u8]) -> Answer
    ensures { reported result ≡ reported (answer_of (replay (replay_lists state_need work_need) text.now)) }
{
    let mut states = [0u64; STATES * WORDS];
    let mut work = [0u32; WORK];
    replay(text, &mut states, &mut work)
}
