// The types that document 01 lends to its callers; what they mean is in specs/.
#![tactic(auto)]

// What 01 asks of the lent lists and of a text: "states 0 to k" of at most 1,000 cues, the node records, the work space, the text's bytes. The
// definitions' state_most, node_need, work_need and text_most.
pub const STATES: usize = 1001;

pub const NODES: usize = 3000;

pub const WORK: usize = 16384;

pub const TEXT: usize = 65535;

// How many propositions a model may have: the definitions' proposition_most.
pub const PROPOSITIONS: u32 = 512;

// The header line's numbers.
#[derive(Clone, Copy)]
pub struct Header {
    pub propositions: u32,
    pub actions: u32,
    pub compounds: u32,
    pub methods: u32,
    pub goal: u32,
    pub cues: u32,
    pub nodes: u32,
}

// What a call answers: acceptance, or the first rule broken.
#[derive(Clone, Copy)]
pub enum Answer {
    Accepted { cues: u32, nodes: u32 },
    ShortList { list: u32 },
    LongText,
    Unreadable { line: u32, field: u32 },
    OutOfRange { line: u32, field: u32 },
    Inapplicable { line: u32, cue: u32 },
    WrongTask { line: u32 },
    TooDeep { line: u32 },
    WrongClaim { line: u32, position: u32 },
    Unclaimed { line: u32, position: u32 },
    OrderBroken { line: u32, constraint: u32 },
    BeforeBroken { line: u32, constraint: u32 },
    AfterBroken { line: u32, constraint: u32 },
    BetweenBroken { line: u32, constraint: u32 },
    ShortOutput { needed: u32 },
    TooManyChoices { empties: u32 },
    NoChoice { tried: u32 },
    WrongShape { line: u32, item: u32 },
    WrongName { line: u32, item: u32 },
    WrongId { line: u32 },
    WrongLetter { line: u32 },
    SurplusNode { line: u32 },
    MissingNode { line: u32 },
}

// What a condition asks of a proposition in a state: that it be true, or that it be false (02, Card 1).
#[derive(Clone, Copy)]
pub enum Sign {
    Positive,
    Negative,
}

// The record of a node that the check call fills.
#[repr(C)]
#[derive(Clone, Copy)]
pub struct Node {
    pub letter: u32,
    pub label: u32,
    pub place: u32,
    pub start: u32,
    pub end: u32,
}
