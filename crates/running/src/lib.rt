// Running the plan of a case over its fields (01, "States and cues" and row 5 of the table).
#![tactic(auto)]

ghost use Rattle.std.specs.Prelude.{◌≡◌, ◌+◌, ◌*◌, ◌≤◌, ◌<◌, length, get_or, replicate};
ghost use Rattle.rules.specs.State.{word_count};
ghost use Rattle.rules.specs.Case.{Case};
ghost use Rattle.running.specs.Running.{Left, RanAs};
ghost use Rattle.running.specs.Sets.{HasAction, IsStep, Holds};

mod sets;
mod table;

use index::StateNumber;
use rules::Header;
use sets::SET_COUNT;
use state::{State, WORDS};

// A run that stops: "running: first cue that doesn't apply".
#[derive(Clone, Copy)]
pub struct Stopped {
    pub cue: u32,
}

// The step of an action past those that the table holds, in the first words of a state: its sets are read from the fields.
fn step_unheld(fields: &[u32], at: usize, s: &mut [u64]) -> bool
    requires few { length s.old ≤ word_count }
    requires here { HasAction (length s.old) fields.now at }
    ensures { IsStep fields.now at s.old result s.new }
{
    let size = SET_COUNT * s.len();
    let mut own = [0u64; SET_COUNT * WORDS];
    sets::decode(fields, at, s.len(), &mut own[0..size]);
    sets::step_with(&own[0..size], s)
}

// One cue: the step of its action, in the first words of a state.
fn take_cue(
    fields: &[u32],
    directory: &[u32],
    table: &[u64],
    held: usize,
    action: u32,
    s: &mut [u64],
) -> bool
    requires few { length s.old ≤ word_count }
    requires listed { action < length directory.now }
    requires here { HasAction (length s.old) fields.now (get_or directory.now action 0) }
    requires holds { Holds fields.now directory.now table.now (length s.old) held }
    ensures { IsStep fields.now (get_or directory.now action 0) s.old result s.new }
{
    let a = action as usize;
    if a < held {
        let stretch = SET_COUNT * s.len();
        let from = stretch * a;
        let to = from + stretch;
        return sets::step_with(&table[from..to], s);
    }
    let at = directory[a] as usize;
    step_unheld(fields, at, s)
}

// Runs the plan of the P line at `plan` from the set of the I line at `initial`, with a table of the first `held` actions: "State 0 is the
// initial one; state i follows cue i." A cue changes the first `size` words of a state alone, those that the model's propositions take. Each state
// is written to its own row; the rows past the last one written are as they were.
fn run_cues(
    fields: &[u32],
    directory: &[u32],
    header: Header,
    initial: usize,
    plan: usize,
    states: &mut [u64],
    table: &[u64],
    size: usize,
    held: usize,
) -> Result<(), Stopped>
    requires left { (k : Case) × Left k fields.now directory.now header initial plan }
    requires room { word_count * header.cues + word_count ≤ length states.old }
    requires sized { (size ≤ word_count) × (header.propositions ≤ 64 * size) }
    requires holds { Holds fields.now directory.now table.now size held }
    ensures { (k : Case) → Left k fields.now directory.now header initial plan → RanAs k result states.old states.new }
{
    let first = sets::read_initial(fields, initial);
    let mut words = first.words;
    let mut l = StateNumber::initial();
    // The cues follow the line's letter.
    let from = plan + 1;
    let end = from + header.cues as usize;
    for action in &fields[from..end] {
        let next = l.next();
        rows::put_row(states, l, State { words });
        if !take_cue(fields, directory, table, held, *action, &mut words[0..size]) {
            return Err(Stopped { cue: next.number() });
        }
        l = next;
    }
    rows::put_row(states, l, State { words });
    Ok(())
}

// The run with a table that is zero: first the sets of as many actions as it has room for.
fn run_with(
    fields: &[u32],
    directory: &[u32],
    header: Header,
    initial: usize,
    plan: usize,
    states: &mut [u64],
    table: &mut [u64],
    size: usize,
) -> Result<(), Stopped>
    requires left { (k : Case) × Left k fields.now directory.now header initial plan }
    requires room { word_count * header.cues + word_count ≤ length states.old }
    requires zero { table.old ≡ replicate (length table.old) 0 }
    requires sized { (1 ≤ size) × (size ≤ word_count) × (header.propositions ≤ 64 * size) }
    ensures { (k : Case) → Left k fields.now directory.now header initial plan → RanAs k result states.old states.new }
{
    let held = table::held(header.actions, size, table.len());
    table::decode_actions(fields, directory, held, size, table);
    run_cues(
        fields, directory, header, initial, plan, states, table, size, held,
    )
}

// How many words the table of a small model has: to clear a larger one would cost more than to run it.
const FEW: usize = 512;

// How many that of any other model has; the sets of an action past those that it holds are read at each of its cues.
const MANY: usize = 8192;

// The run with room for so many words in its table: a call for a small model clears few. No heap: the table is an array of the call's own.
fn run_with_room<const N: usize>(
    fields: &[u32],
    directory: &[u32],
    header: Header,
    initial: usize,
    plan: usize,
    states: &mut [u64],
    size: usize,
) -> Result<(), Stopped>
    requires few { N ≤ MANY }
    requires left { (k : Case) × Left k fields.now directory.now header initial plan }
    requires room { word_count * header.cues + word_count ≤ length states.old }
    requires sized { (1 ≤ size) × (size ≤ word_count) × (header.propositions ≤ 64 * size) }
    ensures { (k : Case) → Left k fields.now directory.now header initial plan → RanAs k result states.old states.new }
{
    let mut table = [0u64; N];
    run_with(
        fields, directory, header, initial, plan, states, &mut table, size,
    )
}

// Runs the plan of the P line at `plan` from the set of the I line at `initial`: "State 0 is the initial one; state i follows cue i." Each
// state is written to its own row; the rows past the last one written are as they were.
pub fn run(
    fields: &[u32],
    directory: &[u32],
    header: Header,
    initial: usize,
    plan: usize,
    states: &mut [u64],
) -> Result<(), Stopped>
    requires left { (k : Case) × Left k fields.now directory.now header initial plan }
    requires room { word_count * header.cues + word_count ≤ length states.old }
    ensures { (k : Case) → Left k fields.now directory.now header initial plan → RanAs k result states.old states.new }
{
    let size = sets::words_of(header.propositions);
    let actions = header.actions;
    if table::held(actions, size, FEW) == actions as usize {
        run_with_room::<FEW>(fields, directory, header, initial, plan, states, size)
    } else {
        run_with_room::<MANY>(fields, directory, header, initial, plan, states, size)
    }
}
