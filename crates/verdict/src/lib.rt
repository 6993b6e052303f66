// The check call: the core over plain lists, then the node records gathered from the columns that it leaves, then the work space zero.
#![tactic(auto)]

ghost use Rattle.std.specs.Prelude.{◌≡◌, ℕ, ◌+◌, ◌≤◌, ◌<◌, length, take};
ghost use Rattle.rules.specs.Verdict.{check, answer_of, reported, filled, no_node};
ghost use Rattle.rules.specs.Demands.{borrowed, lent_by, as_asked, Demand1, Demand2, Demand3};
ghost use Rattle.records.specs.Records.{places_from, record_at, up_to};

use records::{ENDS, LABELS, LETTERS, PLACES, STARTS};
use rules::{Answer, NODES, Node, STATES, WORK};
use state::WORDS;

// Record i, gathered from the columns: parallel lists in the work space, since C lends that as one list of numbers.
fn node_at(work: &[u32], i: usize) -> Node
    requires { places_from + i < length work.now }
    ensures { result ≡ record_at work.now i }
{
    Node {
        letter: work[LETTERS + i],
        label: work[LABELS + i],
        place: work[PLACES + i],
        start: work[STARTS + i],
        end: work[ENDS + i],
    }
}

// The zero record from the count on, "the rest is zero": stores of zero alone, which compile to one call of memset.
fn clear_from(nodes: &mut [Node], count: usize)
    ensures { nodes.new ≡ filled (length nodes.old) no_node (take count nodes.old) }
{
    for i in count..nodes.len() {
        nodes[i] = Node {
            letter: 0,
            label: 0,
            place: 0,
            start: 0,
            end: 0,
        };
    }
}

// The node list: the records below the count, which all stand in the columns and all fit, then the rest. No element is stored to twice.
pub fn fill(nodes: &mut [Node], work: &[u32], count: usize)
    requires { (count ≤ length nodes.old) × ((i : ℕ) → i < count → places_from + i < length work.now) }
    ensures { nodes.new ≡ filled (length nodes.old) no_node (up_to (record_at work.now) count) }
{
    for i in 0..count {
        nodes[i] = node_at(work, i);
    }
    clear_from(nodes, count);
}

// How many records an answer comes with: the n of an acceptance, none for a refusal.
pub fn count_of(answer: Answer) -> usize
    ensures { result ≡ (reported answer).nodes }
{
    let Answer::Accepted { nodes, .. } = answer else {
        return 0;
    };
    nodes as usize
}

// The check call, open to every text and to lists of every length.
pub fn check(text: &[u8], states: &mut [u64], nodes: &mut [Node], work: &mut [u32]) -> Answer
    ensures demand1 { Demand1 text.now (borrowed states.old nodes.old work.old) (reported result) (borrowed states.new nodes.new work.new) }
    ensures demand2 { Demand2 text.now (lent_by (borrowed states.old nodes.old work.old)) (reported result) }
    ensures demand3 { Demand3 text.now (lent_by (borrowed states.old nodes.old work.old)) (reported result) }
{
    let room = nodes.len();
    let answer = judge::judge(text, states, work, room);
    fill(nodes, work, count_of(answer));
    rows::clear_work(work);
    answer
}

// The check call over lists of its own, as long as asked: whoever calls it needs no walk.
pub fn check_text(text: &[u8]) -> Answer
    ensures answer { reported result ≡ reported (answer_of (check as_asked text.now)) }
    ensures demand2 { Demand2 text.now as_asked (reported result) }
    ensures demand3 { Demand3 text.now as_asked (reported result) }
{
    let mut states = [0u64; STATES * WORDS];
    let mut nodes = [Node {
        letter: 0,
        label: 0,
        place: 0,
        start: 0,
        end: 0,
    }; NODES];
    let mut work = [0u32; WORK];
    check(text, &mut states, &mut nodes, &mut work)
}
