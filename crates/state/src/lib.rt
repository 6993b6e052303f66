// States and the step of an action (01, "States and cues"): "A state is the set of those that are true", as words: "proposition p is bit
// (p mod 64) of word (p div 64)".
#![tactic(auto)]

ghost use Rattle.std.specs.Prelude.{◌≡◌, not, eqb, length};
ghost use Rattle.rules.specs.State.{member, insert, word, without, applies_word, next_word, every, tabulate, step, word_count, quiet, bits_below};
ghost use Rattle.state.specs.Action.{action_of};
ghost use Rattle.state.specs.Words.{widened_action, Steps};

// How many words a state has: the definitions' word_count.
pub const WORDS: usize = 8;

// A state, or a set of propositions.
#[derive(Clone, Copy)]
pub struct State {
    pub words: [u64; WORDS],
}

// What a step gives: whether the action applies, and the next state, or the state as it came. No `Option`: a no gives a state too.
#[derive(Clone, Copy)]
pub struct Stepped {
    pub ok: bool,
    pub state: State,
}

// Whether proposition p is in a set's words, wherever they lie: no for a p past the last word.
pub fn holds(words: &[u64], p: u32) -> bool
    ensures { result ≡ member words.now p }
{
    let i = (p / 64) as usize;
    i < words.len() && (words[i] >> (p % 64)) % 2 == 1
}

// Puts proposition p into a set's words, in their place: reading a set copies no words for a member. A p past the last word changes nothing.
pub fn insert(words: &mut [u64], p: u32)
    ensures { words.new ≡ insert words.old p }
{
    let i = (p / 64) as usize;
    if i < words.len() {
        words[i] |= 1u64 << (p % 64);
    }
}

// The bits of a that are not in b.
#[tactic(auto, unfolding(rules::specs::State::without))]
fn word_without(a: u64, b: u64) -> u64
    ensures { result ≡ without a b }
{
    a ^ (a & b)
}

// The needed propositions of a word that are not true, and the forbidden ones that are.
fn obstacles(w: u64, needed: u64, forbidden: u64) -> u64
    ensures { eqb result 0 ≡ applies_word w needed forbidden }
{
    word_without(needed, w) | (forbidden & w)
}

// Whether nothing is added or deleted in a word.
fn is_quiet(added: u64, deleted: u64) -> bool
    ensures { result ≡ quiet added deleted }
{
    (added | deleted) == 0
}

// A word of the next state: the old one without the deleted, then with the added; a quiet one is passed through, and not computed.
fn word_next(old: u64, added: u64, deleted: u64) -> u64
    ensures { result ≡ next_word old added deleted }
{
    if is_quiet(added, deleted) {
        return old;
    }
    word_without(old, deleted) | added
}

// "It applies if every needed one is true and no forbidden one is." Without a branch at each word, so that several are tested at once.
fn applies(s: &[u64], needed: &[u64], forbidden: &[u64]) -> bool
    requires { (length needed.now ≡ length s.now) × (length forbidden.now ≡ length s.now) }
    ensures { result ≡ every (length s.now) 0 (λ i. applies_word (word s.now i) (word needed.now i) (word forbidden.now i)) }
{
    let mut found: u64 = 0;
    for i in 0..s.len() {
        found |= obstacles(s[i], needed[i], forbidden[i]);
    }
    found == 0
}

// "The next state is the old one without the deleted, then with the added; a proposition in both ends true." In the old one's place.
fn advance(s: &mut [u64], added: &[u64], deleted: &[u64])
    requires { (length added.now ≡ length s.old) × (length deleted.now ≡ length s.old) }
    ensures { s.new ≡ tabulate (length s.old) 0 (λ i. next_word (word s.old i) (word added.now i) (word deleted.now i)) }
{
    for i in 0..s.len() {
        s[i] = word_next(s[i], added[i], deleted[i]);
    }
}

// The step in the first words of a state, in their place: the sets are lent in as many words as their propositions take, so that the words past
// them stay.
pub fn step_words(
    s: &mut [u64],
    needed: &[u64],
    forbidden: &[u64],
    added: &[u64],
    deleted: &[u64],
) -> bool
    requires tests { (length needed.now ≡ length s.old) × (length forbidden.now ≡ length s.old) }
    requires changes { (length added.now ≡ length s.old) × (length deleted.now ≡ length s.old) }
    ensures { Steps s.old (widened_action needed.now forbidden.now added.now deleted.now) result s.new }
{
    if !applies(s, needed, forbidden) {
        return false;
    }
    advance(s, added, deleted);
    true
}

// "The *step* call takes any state and four sets as words and gives yes with the next state, or no with the state as it came."
pub fn step(s: State, needed: State, forbidden: State, added: State, deleted: State) -> Stepped
    ensures { (result.ok, result.state.words) ≡ step s.words (action_of needed forbidden added deleted) }
{
    let mut words = s.words;
    let ok = step_words(
        &mut words,
        &needed.words,
        &forbidden.words,
        &added.words,
        &deleted.words,
    );
    Stepped {
        ok,
        state: State { words },
    }
}

// Which words the step of an action computes where it applies, word w as bit w: "exactly the others" beside the quiet ones.
pub fn computed(added: State, deleted: State) -> u32
    ensures { result ≡ bits_below word_count (λ w. not (quiet (word added.words w) (word deleted.words w))) }
{
    let mut bits: u32 = 0;
    for w in 0..WORDS {
        if !is_quiet(added.words[w], deleted.words[w]) {
            bits |= 1u32 << w;
        }
    }
    bits
}
