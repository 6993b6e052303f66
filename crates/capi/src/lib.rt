// The calls for C and Rust.
#![tactic(auto)]

ghost use Rattle.std.specs.Prelude.{◌≡◌, length};
ghost use Rattle.rules.specs.State.{step, Traced};
ghost use Rattle.rules.specs.Demands.{borrowed, lent_by, Demand1, Demand2, Demand3, ReplayDemand1};
ghost use Rattle.rules.specs.Writing.{WriteDemand1, WriteAnswers, WriterLaws};
ghost use Rattle.rules.specs.Gaps.{FindDemand1, FindAnswers};
ghost use Rattle.rules.specs.Import.{ImportDemand1};
ghost use Rattle.replies.specs.Replies.{report_of, written_report, found_report, imported_report};
ghost use Rattle.capi.specs.Stepping.{step_reply, lent_action};

use replies::{Found, Imported, Reply, Written};
use rules::Node;
use state::{State, WORDS};

// The check call.
#[unsafe(no_mangle)]
pub extern "C" fn cuecheck_check(
    text: &[u8],
    states: &mut [u64],
    nodes: &mut [Node],
    work: &mut [u32],
) -> Reply
    ensures demand1 { Demand1 text.now (borrowed states.old nodes.old work.old) (report_of result) (borrowed states.new nodes.new work.new) }
    ensures demand2 { Demand2 text.now (lent_by (borrowed states.old nodes.old work.old)) (report_of result) }
    ensures demand3 { Demand3 text.now (lent_by (borrowed states.old nodes.old work.old)) (report_of result) }
{
    replies::as_reply(verdict::check(text, states, nodes, work))
}

// The replay call.
#[unsafe(no_mangle)]
pub extern "C" fn cuecheck_replay(text: &[u8], states: &mut [u64], work: &mut [u32]) -> Reply
    ensures { ReplayDemand1 text.now states.old work.old (report_of result) states.new work.new }
{
    replies::as_reply(replay::replay(text, states, work))
}

// The write call (02, Card 2).
#[unsafe(no_mangle)]
pub extern "C" fn cuecheck_write(
    text: &[u8],
    states: &mut [u64],
    nodes: &mut [Node],
    work: &mut [u32],
    output: &mut [u8],
) -> Written
    ensures demand1 { WriteDemand1 text.now (borrowed states.old nodes.old work.old) output.old (written_report result) result.length (borrowed states.new nodes.new work.new) output.new }
    ensures answers { WriteAnswers text.now (lent_by (borrowed states.old nodes.old work.old)) (length output.old) (written_report result) }
    ensures laws { WriterLaws }
{
    let room = nodes.len();
    let wrote = writer::write(text, states, work, room, output);
    verdict::fill(nodes, work, replies::records_of(wrote));
    rows::clear_work(work);
    replies::as_written(wrote)
}

// The find-the-gaps call (02, Card 4).
#[unsafe(no_mangle)]
pub extern "C" fn cuecheck_find_gaps(
    text: &[u8],
    states: &mut [u64],
    nodes: &mut [Node],
    work: &mut [u32],
) -> Found
    ensures demand1 { FindDemand1 text.now (borrowed states.old nodes.old work.old) (found_report result) result.tried (borrowed states.new nodes.new work.new) }
    ensures answers { FindAnswers text.now (lent_by (borrowed states.old nodes.old work.old)) (found_report result) }
{
    let room = nodes.len();
    let found = finder::find(text, states, work, room);
    verdict::fill(nodes, work, replies::records_found(found));
    rows::clear_work(work);
    replies::as_found(found)
}

// The import call (02, Card 6).
#[unsafe(no_mangle)]
pub extern "C" fn cuecheck_import(
    text: &[u8],
    names: &[u8],
    form: &[u8],
    states: &mut [u64],
    nodes: &mut [Node],
    work: &mut [u32],
    output: &mut [u8],
) -> Imported
    ensures { ImportDemand1 text.now names.now form.now (borrowed states.old nodes.old work.old) output.old (imported_report result) result.tried result.length (borrowed states.new nodes.new work.new) output.new }
{
    let room = nodes.len();
    let outcome = importer::import(text, names, form, states, work, room, output);
    verdict::fill(nodes, work, replies::records_imported(outcome));
    rows::clear_work(work);
    replies::as_imported(outcome)
}

// What the step call returns: 1 if the action applies and 0 if not, and for the trace which words were computed, word w as bit w.
#[repr(C)]
#[derive(Clone, Copy)]
pub struct Stepped {
    pub applied: u32,
    pub computed: u32,
}

// The step call: 1 and the next state in the place of the state; or 0, and the state as it came, with no word computed.
#[unsafe(no_mangle)]
pub extern "C" fn cuecheck_step(
    state: &mut [u64; WORDS],
    needed: &[u64; WORDS],
    forbidden: &[u64; WORDS],
    added: &[u64; WORDS],
    deleted: &[u64; WORDS],
) -> Stepped
    ensures stepped { (result.applied, state.new) ≡ step_reply (step state.old (lent_action needed.now forbidden.now added.now deleted.now)) }
    ensures traced { Traced state.old (lent_action needed.now forbidden.now added.now deleted.now) result.computed state.new }
{
    let words = *state;
    let needs = *needed;
    let forbids = *forbidden;
    let adds = *added;
    let deletes = *deleted;
    let r = state::step(
        State { words },
        State { words: needs },
        State { words: forbids },
        State { words: adds },
        State { words: deletes },
    );
    let next = r.state;
    let words = next.words;
    *state = words;
    if !r.ok {
        return Stepped {
            applied: 0,
            computed: 0,
        };
    }
    // The two sets are loaded anew: the step takes their words together, the number one by one.
    let more = *added;
    let less = *deleted;
    let computed = state::computed(State { words: more }, State { words: less });
    Stepped {
        applied: 1,
        computed,
    }
}
