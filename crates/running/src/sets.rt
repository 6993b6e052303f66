// The sets that stand among the fields: of the initial line, and of an action's line, which become words of a table. An action's sets are
// decoded into as many words as the model's propositions take: the words past them are zero.
ghost use Rattle.std.specs.Prelude.{◌≡◌, ◌*◌, ◌≤◌, length, replicate};
ghost use Rattle.rules.specs.State.{State as Words, word_count, proposition_most, insert_all};
ghost use Rattle.rules.specs.Fields.{line_fields, initial_line};
ghost use Rattle.rules.proofs.Judgement.Sound.{IsSet};
ghost use Rattle.state.specs.Words.{Steps};
ghost use Rattle.fields.specs.Standing.{Stands};
ghost use Rattle.running.specs.Sets.{members_at, past, HasAction, IsAction, set_count, action_in};

use state::{State, WORDS};

// How many sets an action has.
pub const SET_COUNT: usize = 4;

// How many words so many propositions take; at least one, so that an action's sets have a place of their own.
#[tactic(auto, unfolding(rules::specs::State::word_count, rules::specs::State::proposition_most))]
pub fn words_of(propositions: u32) -> usize
    requires { propositions ≤ proposition_most }
    ensures { (1 ≤ result) × (result ≤ word_count) × (propositions ≤ 64 * result) }
{
    (propositions as usize).div_ceil(64).max(1)
}

// The members of the list at `at` go into a set's words, each as it is loaded. Answers the place after the list.
#[tactic(auto, unfolding(crate::specs::Sets::past))]
fn put_members(fields: &[u32], at: usize, words: &mut [u64]) -> usize
    requires { past fields.now at ≤ length fields.now }
    ensures next { result ≡ past fields.now at }
    ensures put { words.new ≡ insert_all words.old (members_at fields.now at) }
{
    let count = fields[at] as usize;
    let end = at + 1 + count;
    for member in &fields[at + 1..end] {
        state::insert(words, *member);
    }
    end
}

// The four sets of the A line at `at`, in their order, into words that are zero: each into its own stretch of `size`, so that no words are
// copied.
pub fn decode(fields: &[u32], at: usize, size: usize, words: &mut [u64])
    requires few { size ≤ word_count }
    requires here { HasAction size fields.now at }
    requires zero { words.old ≡ replicate (set_count * size) 0 }
    ensures { IsAction fields.now at (action_in size words.new) }
{
    let mut place = at + 1;
    for i in 0..SET_COUNT {
        let from = size * i;
        let to = from + size;
        place = put_members(fields, place, &mut words[from..to]);
    }
}

// The step of the action whose sets these words are, in the first words of a state.
pub fn step_with(sets: &[u64], s: &mut [u64]) -> bool
    requires few { length s.old ≤ word_count }
    requires four { length sets.now ≡ set_count * length s.old }
    ensures { Steps s.old (action_in (length s.old) sets.now) result s.new }
{
    let size = s.len();
    let forbidden = size + size;
    let added = forbidden + size;
    let deleted = added + size;
    state::step_words(
        s,
        &sets[0..size],
        &sets[size..forbidden],
        &sets[forbidden..added],
        &sets[added..deleted],
    )
}

// The set of the I line at a place.
pub fn read_initial(fields: &[u32], at: usize) -> State
    requires { (s : Words) × Stands fields.now at (line_fields (initial_line s)) }
    ensures { (s : Words) → IsSet s → Stands fields.now at (line_fields (initial_line s)) → result.words ≡ s }
{
    let mut words = [0u64; WORDS];
    put_members(fields, at + 1, &mut words);
    State { words }
}
