// Whether a proposition is in each of several states, or in none (01, "Indexes": between; 02, Card 1), many at a time: the column of p has
// bit l where state l does not have p, 64 to a word, and a last word for each sign that sums up the others. It is built when a long stretch
// of states is first asked about, and serves both signs.
#![tactic(auto)]

ghost use Rattle.std.specs.Prelude.{◌≡◌, true, not, ℕ, ◌+◌, ◌-◌, ◌*◌, ◌/◌, ◌≤◌, ◌<◌, eqb, length};
ghost use Rattle.rules.specs.State.{word_count, bit, member, every};
ghost use Rattle.rules.specs.declared.Sign.TheVariants.{Positive};
ghost use Rattle.rules.specs.Constraint.{signed, holds_from};
ghost use Rattle.index.specs.Spans.{state_of};
ghost use Rattle.rows.specs.Rows.{in_row};
ghost use Rattle.columns.specs.Columns.{state_words, sum_at, column_words, column_at, asked, Summed, Column, Columns};

use index::StateNumber;
use rules::Sign;
use state::WORDS;
use std::marker::Model;

// How many words of a column are of states, and how many it has: the definitions' state_words and column_words.
const STATE_WORDS: usize = 16;

const COLUMN: usize = STATE_WORDS + 2;

// What a caller lends: the set of the propositions whose column is built, and so many numbers for the columns of those in each of its words. A
// proposition past its words has no column.
pub const PER_WORD: usize = 64 * COLUMN;

// Fewer states than this do not pay for a column.
const FEW: usize = 16;

const ONES: u64 = 0xffff_ffff_ffff_ffff;

// Whether the bits of a word from a on, below b, are clear.
fn clear_within(word: u64, a: usize, b: usize) -> bool
    requires a_bound { a < 64 }
    requires a_le_b { a ≤ b }
    requires le_b { (1 ≤ b) × (b ≤ 64) }
    ensures { result ≡ every (b - a) a (λ i. not (bit word i)) }
{
    word & (ONES << a) & (ONES >> (64 - b)) == 0
}

// A word of states as a sign asks: its clear bits are then those that the sign asks for.
fn turned(word: u64, sign: Sign) -> u64
    ensures { (i : ℕ) → i < 64 → not (bit result i) ≡ signed sign (not (bit word i)) }
{
    match sign {
        Sign::Positive => word,
        Sign::Negative => word ^ ONES,
    }
}

// The word that sums up for a sign.
fn sum_at(sign: Sign) -> usize
    ensures { result ≡ sum_at sign }
{
    match sign {
        Sign::Positive => STATE_WORDS,
        Sign::Negative => STATE_WORDS + 1,
    }
}

// Whether each bit l with a ≤ l < b is as the sign asks: those of the first word, the words between it and the last at once, and those of the
// last.
fn all_asked(column: &[u64], sign: Sign, a: usize, b: usize) -> bool
    requires a_lt_b { a < b }
    requires b_bound { b ≤ 64 * state_words }
    requires column_len { length column.now ≡ column_words }
    requires summed { Summed column.now b }
    ensures { result ≡ every (b - a) a (asked sign column.now) }
{
    let i = a / 64;
    let j = (b - 1) / 64;
    let end = (b - 1) % 64 + 1;
    if i == j {
        return clear_within(turned(column[i], sign), a % 64, end);
    }
    if !clear_within(turned(column[i], sign), a % 64, 64) {
        return false;
    }
    if !clear_within(column[sum_at(sign)], i + 1, j) {
        return false;
    }
    clear_within(turned(column[j], sign), 0, end)
}

// The states from the one on, below the other, in which p is: bit i is that of the i-th of them.
fn word_of(states: &[u64], p: u32, from: usize, to: usize) -> u64
    requires p_bound { p / 64 < word_count }
    requires from_le_to { (from ≤ to) × (to ≤ from + 64) }
    requires to_in_bounds { word_count * to ≤ length states.now }
    ensures { (i : ℕ) → from + i < to → bit result i ≡ in_row states.now Positive p (from + i) }
{
    let i = (p / 64) as usize;
    let s = p % 64;
    let mut word: u64 = 0;
    for l in (from..to).rev() {
        word = (word << 1) | ((states[WORDS * l + i] >> s) % 2);
    }
    word
}

// 1 for a word with a bit, 0 for one with none.
fn digit(word: u64) -> u64
    ensures { (result < 2) × (eqb result 1 ≡ not (eqb word 0)) }
{
    u64::from(word != 0)
}

// The word that sums up a column's first words for a sign.
fn summary(column: &[u64], words: usize, sign: Sign) -> u64
    requires { (words ≤ state_words) × (words ≤ length column.now) }
    ensures { (w : ℕ) → w < words → not (bit result w) ≡ every 64 (w * 64) (asked sign column.now) }
{
    let mut sum: u64 = 0;
    for w in (0..words).rev() {
        sum = (sum << 1) | digit(turned(column[w], sign));
    }
    sum
}

// Where the word of states that starts at `from` ends, of n states.
fn word_end(from: usize, n: usize) -> usize
    requires { (from < n) × (n ≤ 64 * state_words) }
    ensures { (from ≤ result) × (result ≤ from + 64) × (result ≤ n) × ((l : ℕ) → l < n → l < from + 64 → l < result) }
{
    n.min(from + 64)
}

// Writes the column of p for the first n states.
fn build(column: &mut [u64], states: &[u64], p: u32, n: usize)
    requires p_bound { p / 64 < word_count }
    requires n_bound { n ≤ 64 * state_words }
    requires column_len { length column.old ≡ column_words }
    requires n_in_bounds { word_count * n ≤ length states.now }
    ensures { Column states.now p n column.new }
{
    let words = n.div_ceil(64);
    for w in 0..words {
        let from = 64 * w;
        column[w] = word_of(states, p, from, word_end(from, n)) ^ ONES;
    }
    column[STATE_WORDS] = summary(column, words, Sign::Positive);
    column[STATE_WORDS + 1] = summary(column, words, Sign::Negative);
}

// Where the column of p starts.
fn column_start(p: u32) -> usize
    ensures { result ≡ column_words * p }
{
    COLUMN * p as usize
}

// Builds the column of p.
fn fill(columns: &mut [u64], built: &mut [u64], states: &[u64], n: usize, p: u32)
    requires columns { Columns states.now n columns.old built.old }
    requires p_in_bounds { p / 64 < length built.old }
    ensures columns_2 { Columns states.now n columns.new built.new }
    ensures p_after { member built.new p ≡ true }
{
    let from = column_start(p);
    let to = from + COLUMN;
    build(&mut columns[from..to], states, p, n);
    state::insert(built, p);
}

// The test by the column of p.
fn by_column(columns: &[u64], sign: Sign, p: u32, first: StateNumber, past: StateNumber) -> bool
    requires column_words_in_bounds { column_words * p + column_words ≤ length columns.now }
    requires first_bound { (state_of first < state_of past) × (state_of past ≤ 64 * state_words) }
    requires summed { Summed (column_at columns.now p) (state_of past) }
    ensures { result ≡ every (state_of past - state_of first) (state_of first) (asked sign (column_at columns.now p)) }
{
    let from = column_start(p);
    let to = from + COLUMN;
    all_asked(
        &columns[from..to],
        sign,
        first.number() as usize,
        past.number() as usize,
    )
}

// The test state by state. A `while`: a state number has a type of its own, which no range counts through.
fn by_states(states: &[u64], sign: Sign, p: u32, first: StateNumber, past: StateNumber) -> bool
    requires { word_count * state_of past ≤ length states.now }
    ensures { result ≡ holds_from (in_row states.now) sign p (state_of first) (state_of past) }
{
    let mut l = first;
    while l < past {
        if !rows::holds_at(states, sign, p, l) {
            return false;
        }
        l = l.next();
    }
    true
}

// Whether a column pays, of the propositions of so many words: for many states, and a proposition that has one.
fn pays(words: usize, p: u32, first: StateNumber, past: StateNumber) -> bool
    ensures { result ≡ true → p / 64 < words }
{
    if (p / 64) as usize >= words {
        return false;
    }
    first.number() as usize + FEW <= past.number() as usize
}

// Whether "p is in each state l with" first ≤ l < past, or whether it is in none; "no such l, then it holds". Over the first n states.
pub fn test(
    columns: &mut [u64],
    built: &mut [u64],
    states: &[u64],
    n: usize,
    sign: Sign,
    p: u32,
    first: StateNumber,
    past: StateNumber,
) -> bool
    requires columns { Columns states.now n columns.old built.old }
    requires past_bound { state_of past ≤ n }
    ensures value { result ≡ holds_from (in_row states.now) sign p (state_of first) (state_of past) }
    ensures columns_2 { Columns states.now n columns.new built.new }
{
    if first >= past {
        return true;
    }
    if first.next() >= past {
        return rows::holds_at(states, sign, p, first);
    }
    if state::holds(built, p) {
        return by_column(columns, sign, p, first, past);
    }
    if !pays(built.len(), p, first, past) {
        return by_states(states, sign, p, first, past);
    }
    fill(columns, built, states, n, p);
    by_column(columns, sign, p, first, past)
}

// Columns, and the set of the propositions whose column is built, as a caller lends them.
#[derive(Drop)]
pub struct Lists<'a> {
    pub columns: &'a mut [u64],
    pub built: &'a mut [u64],
}

// The first states of a run, so many as are held, and the columns that are built of them, for a caller that would carry one value, and no fact
// of it, from test to test. The lists are lent, and stay as they are but for the columns that a test builds. No other crate uses it: a caller
// learns nothing of its own lists behind such a value, and what the tests promise they promise of lists.
#[derive(Drop)]
pub struct StateColumns<'a> {
    states: &'a [u64],
    held: usize,
    columns: &'a mut [u64],
    built: &'a mut [u64],
}

impl<'a> Model for StateColumns<'a> {
    ghost use Rattle.columns.specs.Columns.{FirstStates, Columns};

    ghost Value = { FirstStates };

    ghost view = { λ t. record { states = t.states.now; held = t.held } };

    ghost invariant = { λ t. Columns t.states.now t.held t.columns.now t.built.now };
}

impl<'a> StateColumns<'a> {
    // In lists that a caller lends, with the columns that are built in them.
    pub fn new(
        states: &'a [u64],
        held: usize,
        columns: &'a mut [u64],
        built: &'a mut [u64],
    ) -> StateColumns<'a>
        requires { Columns states.now held columns.old built.old }
        ensures { result ≡ record { states = states.now; held = held } }
    {
        StateColumns {
            states,
            held,
            columns,
            built,
        }
    }

    // The list of the states.
    pub fn states(&self) -> &[u64]
        ensures value { result.now ≡ self.now.states }
        ensures there { word_count * self.now.held ≤ length result.now }
    {
        self.states
    }

    // The lists again, with the columns that the tests have built in them: what holds from test to test holds of them still.
    pub fn into_lists(self) -> Lists<'a>
        ensures { Columns self.entry.states self.entry.held result.columns.now result.built.now }
    {
        let StateColumns {
            states: _,
            held: _,
            columns,
            built,
        } = self;
        Lists { columns, built }
    }

    // Whether "p is in each state l with" first ≤ l < past, or whether it is in none, by the columns that are held.
    pub fn test(&mut self, sign: Sign, p: u32, first: StateNumber, past: StateNumber) -> bool
        requires { state_of past ≤ self.old.held }
        ensures value { result ≡ holds_from (in_row self.old.states) sign p (state_of first) (state_of past) }
        ensures same { self.new ≡ self.old }
    {
        let states = self.states;
        let held = self.held;
        test(self.columns, self.built, states, held, sign, p, first, past)
    }
}
