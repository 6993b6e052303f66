// The constraints of the claimed tree's nodes, "nodes in order".
ghost use Rattle.std.specs.Prelude.{◌≡◌, ◌+◌, ◌<◌, length, get_or};
ghost use Rattle.rules.specs.Case.{Case};
ghost use Rattle.rules.specs.Tree.{Tree};
ghost use Rattle.fields.specs.Directory.{methods_from};
ghost use Rattle.columns.specs.Columns.{Columns, Blank};
ghost use Rattle.constraints.specs.Methods.{kept_as};
ghost use Rattle.constraints.specs.Ready.{Ready, Leaves, names_method, NodeReady, broken_of_node, broken_of_tree};

use crate::method::first_broken_of;
use fields::{METHODS_FROM, node_size};
use parts::{span_at, subtask_nodes};
use rules::{Answer, Header};

// The letters D and E, as the fields have them: the lent list is one of numbers.
const D: u32 = b'D' as u32;

const E: u32 = b'E' as u32;

// Whether a node line's letter names a method: "D,m (method m, not empty); E,m,g (empty method m in gap g, 0 to k)".
#[tactic(auto, unfolding(crate::specs::Ready::names_method))]
pub fn names_method(letter: u32) -> bool
    ensures { result ≡ names_method letter }
{
    letter == D || letter == E
}

// A node of the claimed tree: its number, that of its line, and the line's letter and first number.
#[derive(Clone, Copy)]
struct Named {
    n: u32,
    line: u32,
    letter: u32,
    label: u32,
}

// Where the line of a method stands among the fields.
pub fn method_place(directory: &[u32], method: u32) -> u32
    requires { methods_from + method < length directory.now }
    ensures { result ≡ get_or directory.now (methods_from + method) 0 }
{
    let at = METHODS_FROM + method as usize;
    directory[at]
}

// The first broken constraint of a node, of so many states. An empty task has constraints too, at its own span.
fn node_kept(
    fields: &[u32],
    x: Named,
    held: usize,
    states: &[u64],
    work: &mut [u32],
    columns: &mut [u64],
    built: &mut [u64],
) -> Result<(), Answer>
    requires node_ready { (k : Case) × (t : Tree) × NodeReady k t fields.now held states.now work.old x.n x.letter x.label }
    requires columns { Columns states.now held columns.old built.old }
    ensures value { (k : Case) (t : Tree) → NodeReady k t fields.now held states.now work.old x.n x.letter x.label → result ≡ kept_as (broken_of_node k t x.line x.n) }
    ensures leaves { Leaves work.old work.new }
    ensures columns_2 { Columns states.now held columns.new built.new }
{
    if !names_method(x.letter) {
        return Ok(());
    }
    let place = method_place(work, x.label) as usize;
    let subtasks = fields[place + 2];
    let counted = place + 3 + subtasks as usize;
    let count = fields[counted];
    if count == 0 {
        return Ok(());
    }
    // A task with no subtasks has no nodes to note. Two calls: so the loop over the constraints is compiled as a function of its own.
    if subtasks == 0 {
        return first_broken_of(
            fields,
            counted + 1,
            count,
            x.line,
            span_at(work, x.n),
            held,
            states,
            work,
            columns,
            built,
        );
    }
    subtask_nodes(work, x.n, subtasks);
    first_broken_of(
        fields,
        counted + 1,
        count,
        x.line,
        span_at(work, x.n),
        held,
        states,
        work,
        columns,
        built,
    )
}

// The first broken constraint of the claimed tree, "nodes in order, each method's in text order". The caller lends the columns, none built.
pub fn first_broken(
    fields: &[u32],
    header: Header,
    plan_line: u32,
    nodes: usize,
    states: &[u64],
    work: &mut [u32],
    columns: &mut [u64],
    built: &mut [u64],
) -> Result<(), Answer>
    requires ready { (k : Case) × (t : Tree) × Ready k t fields.now header plan_line nodes states.now work.old }
    requires blank { Blank columns.old built.old }
    ensures value { (k : Case) (t : Tree) → Ready k t fields.now header plan_line nodes states.now work.old → result ≡ kept_as (broken_of_tree k t) }
    ensures leaves { Leaves work.old work.new }
{
    let held = header.cues as usize + 1;
    let mut at = nodes;
    for n in 0..header.nodes {
        let letter = fields[at];
        let x = Named {
            n,
            line: plan_line + 1 + n,
            letter,
            label: fields[at + 1],
        };
        node_kept(fields, x, held, states, work, columns, built)?;
        at += node_size(letter);
    }
    Ok(())
}
