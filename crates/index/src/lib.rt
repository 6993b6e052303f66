// Indexes and spans (01, "Indexes"): "Doubled indexes and state numbers are counted apart: one becomes the other only through the
// rounding below." So each has a type of its own, and the two roundings are the only functions from one to the other.
#![tactic(auto, unfolding(rules::specs::Index::of_cue, rules::specs::Index::of_gap, rules::specs::Index::at, rules::specs::Index::rounded_up, rules::specs::Index::rounded_down, rules::specs::Index::c, rules::specs::Index::f))]

ghost use Rattle.std.specs.Prelude.{◌≡◌, [], ◌∷◌, ◌+◌, ◌-◌, ◌<◌, ◌≤◌};
ghost use Rattle.rules.specs.Index.{of_cue, of_gap, at, hull, rounded_up, rounded_down, c, f, is_before};
ghost use Rattle.index.specs.Spans.{index_in, doubled, state_of, span_of};

// "The program carries twice the index: cue i is 2i, gap g is 2g + 1."
#[derive(Clone, Copy, PartialEq, Eq, PartialOrd, Ord)]
pub struct Doubled(u32);

// The number of a state: state 0 is the initial one, state i follows cue i.
#[derive(Clone, Copy, PartialEq, Eq, PartialOrd, Ord)]
pub struct StateNumber(u32);

// Where a task starts and ends.
#[derive(Clone, Copy)]
pub struct Span {
    pub start: Doubled,
    pub end: Doubled,
}

impl Doubled {
    pub fn of_cue(i: u32) -> Doubled
        requires { i < 2147483648 }
        ensures { index_in result ≡ of_cue i }
    {
        Doubled(2 * i)
    }

    pub fn of_gap(g: u32) -> Doubled
        requires { g < 2147483648 }
        ensures { index_in result ≡ of_gap g }
    {
        Doubled(2 * g + 1)
    }

    // As a plain number, and again from it: for a row of the work space. Calls with names of their own and no `From`, so that no number turns
    // into an index unseen.
    pub fn number(self) -> u32
        ensures { result ≡ index_in self }
    {
        self.0
    }

    pub fn stored(n: u32) -> Doubled
        ensures { result ≡ doubled n }
    {
        Doubled(n)
    }

    // (index + 1) / 2, in a form that fits for every index.
    pub fn rounded_up(self) -> StateNumber
        ensures { state_of result ≡ rounded_up (index_in self) }
    {
        StateNumber(self.0 / 2 + self.0 % 2)
    }

    pub fn rounded_down(self) -> StateNumber
        ensures { state_of result ≡ rounded_down (index_in self) }
    {
        StateNumber(self.0 / 2)
    }
}

impl StateNumber {
    // "State 0 is the initial one"
    pub fn initial() -> StateNumber
        ensures { state_of result ≡ 0 }
    {
        StateNumber(0)
    }

    // The state after this one, and the state before it.
    pub fn next(self) -> StateNumber
        requires { state_of self < 4294967295 }
        ensures { state_of result ≡ state_of self + 1 }
    {
        StateNumber(self.0 + 1)
    }

    pub fn previous(self) -> StateNumber
        requires { 1 ≤ state_of self }
        ensures { state_of result ≡ state_of self - 1 }
    {
        StateNumber(self.0 - 1)
    }

    // As a plain number: of the state's row, and of the cue that it follows.
    pub fn number(self) -> u32
        ensures { result ≡ state_of self }
    {
        self.0
    }
}

impl Span {
    // A cue, or a task that sits in a gap: it starts and ends at one index.
    pub fn at(d: Doubled) -> Span
        ensures { span_of result ≡ at (index_in d) }
    {
        Span { start: d, end: d }
    }

    // "Any other compound task starts at the least start and ends at the greatest end of its subtasks": of two.
    pub fn join(self, other: Span) -> Span
        ensures { span_of result ≡ hull (span_of self ∷ span_of other ∷ []) }
    {
        Span {
            start: self.start.min(other.start),
            end: self.end.max(other.end),
        }
    }

    // "With c = start rounded up and f = end rounded down"
    pub fn c(self) -> StateNumber
        ensures { state_of result ≡ c (span_of self) }
    {
        self.start.rounded_up()
    }

    pub fn f(self) -> StateNumber
        ensures { state_of result ≡ f (span_of self) }
    {
        self.end.rounded_down()
    }

    // "T before V holds if f(T) < c(V)."
    pub fn is_before(self, other: Span) -> bool
        ensures { result ≡ is_before (span_of self) (span_of other) }
    {
        self.f() < other.c()
    }
}
