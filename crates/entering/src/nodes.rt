// The constraints of the claimed tree's nodes as entries, node by node.
ghost use Rattle.std.specs.Prelude.{◌≡◌, Bool, List, ℕ, ◌+◌, ◌≤◌, length};
ghost use Rattle.rules.specs.Case.{Case};
ghost use Rattle.rules.specs.Tree.{Tree};
ghost use Rattle.rules.specs.Gaps.{empty_count, Within};
ghost use Rattle.rows.specs.Rows.{in_row};
ghost use Rattle.columns.specs.Columns.{Columns};
ghost use Rattle.constraints.specs.Ready.{Ready};
ghost use Rattle.blames.specs.Entries.{PoolFits, PoolSound};
ghost use Rattle.entering.specs.Entering.{BreaksFail};
ghost use Rattle.entering.specs.Visits.{Visiting};

use crate::lines::enter_lines;
use crate::sums::{ABSENT, SUBTASKS, sum_trees};
use blames::{Entry, SLOTS};
use fields::node_size;
use rules::Header;

// A node whose constraints are entered: its number, where its line stands, the line's letter (as the fields have it, which the specs speak of) and
// first number, and how many empty tasks come before it.
#[derive(Clone, Copy)]
struct Visited {
    n: u32,
    at: usize,
    letter: u32,
    label: u32,
    first: u32,
}

// The letter E, as the fields have it.
const EMPTY: u32 = b'E' as u32;

// The entries of one node, of a case with k cues.
fn enter_node(
    fields: &[u32],
    x: Visited,
    k: u32,
    choice: &[u32],
    work: &[u32],
    pool: &mut [Entry; SLOTS],
    counts: &mut [u32],
    states: &[u64],
    columns: &mut [u64],
    built: &mut [u64],
)
    requires visiting { (c : Case) × (t : Tree) × Visiting c t fields.now k (length choice.now) states.now work.now x }
    requires within { Within k choice.now × (length choice.now ≤ 19) }
    requires columns_2 { Columns states.now (k + 1) columns.old built.old }
    requires pool_fits { PoolFits k (length choice.now) pool.old }
    requires counts_len { length counts.old ≡ 19 }
    ensures columns { Columns states.now (k + 1) columns.new built.new }
    ensures fits { PoolFits k (length choice.now) pool.new }
    ensures sound { (c : Case) (t : Tree) → Visiting c t fields.now k (length choice.now) states.now work.now x → (passing : List ℕ → Bool) → BreaksFail c t passing → PoolSound (in_row states.now) passing k (length choice.now) pool.old → PoolSound (in_row states.now) passing k (length choice.now) pool.new }
{
    if !constraints::names_method(x.letter) {
        return;
    }
    let place = constraints::method_place(work, x.label) as usize;
    let subtasks = fields[place + 2];
    let counted = place + 3 + subtasks as usize;
    let count = fields[counted];
    if count == 0 {
        return;
    }
    let mut whole = [ABSENT; 1];
    sum_trees(fields, work, x.n, x.at, x.first, 1, k, &mut whole);
    let own = whole[0];
    let mut sums = [ABSENT; SUBTASKS];
    sum_trees(
        fields,
        work,
        x.n + 1,
        x.at + node_size(x.letter),
        x.first,
        subtasks,
        k,
        &mut sums,
    );
    enter_lines(
        fields,
        counted + 1,
        count,
        own,
        &sums,
        k,
        choice,
        pool,
        counts,
        states,
        columns,
        built,
    );
}

// The entries of all nodes.
pub fn enter_all(
    fields: &[u32],
    header: Header,
    plan_line: u32,
    nodes: usize,
    states: &[u64],
    work: &[u32],
    choice: &[u32],
    pool: &mut [Entry; SLOTS],
    counts: &mut [u32],
    columns: &mut [u64],
    built: &mut [u64],
)
    requires ready { (k : Case) × (t : Tree) × Ready k t fields.now header plan_line nodes states.now work.now × (empty_count k.nodes ≡ length choice.now) }
    requires within { Within header.cues choice.now × (length choice.now ≤ 19) }
    requires columns_2 { Columns states.now (header.cues + 1) columns.old built.old }
    requires pool_fits { PoolFits header.cues (length choice.now) pool.old }
    requires counts_len { length counts.old ≡ 19 }
    ensures columns { Columns states.now (header.cues + 1) columns.new built.new }
    ensures fits { PoolFits header.cues (length choice.now) pool.new }
    ensures sound { (k : Case) (t : Tree) → Ready k t fields.now header plan_line nodes states.now work.now → empty_count k.nodes ≡ length choice.now → (passing : List ℕ → Bool) → BreaksFail k t passing → PoolSound (in_row states.now) passing header.cues (length choice.now) pool.old → PoolSound (in_row states.now) passing header.cues (length choice.now) pool.new }
{
    let mut at = nodes;
    let mut first: u32 = 0;
    for n in 0..header.nodes {
        let letter = fields[at];
        let x = Visited {
            n,
            at,
            letter,
            label: fields[at + 1],
            first,
        };
        enter_node(
            fields,
            x,
            header.cues,
            choice,
            work,
            pool,
            counts,
            states,
            columns,
            built,
        );
        if letter == EMPTY {
            first += 1;
        }
        at += node_size(letter);
    }
}
