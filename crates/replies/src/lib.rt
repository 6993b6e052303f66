// What the exported calls return: structs of numbers, since an exported call cannot return an enum.
#![tactic(auto)]

ghost use Rattle.std.specs.Prelude.{◌≡◌};
ghost use Rattle.rules.specs.Verdict.{refusal, reported};
ghost use Rattle.replies.specs.Replies.{report_of, written_report, found_report, imported_report};

use finder::Discovery;
use importer::Outcome;
use rules::Answer;
use writer::Wrote;

// The answer's row of the table: number, line and item, 0 for acceptance; k and n of an acceptance, 0 for a refusal. Numbers, as C gets them;
// inside, an answer is an enum.
#[repr(C)]
#[derive(Clone, Copy)]
pub struct Reply {
    pub number: u32,
    pub line: u32,
    pub item: u32,
    pub cues: u32,
    pub nodes: u32,
}

fn refusal(number: u32, line: u32, item: u32) -> Reply
    ensures { report_of result ≡ refusal number line item }
{
    Reply {
        number,
        line,
        item,
        cues: 0,
        nodes: 0,
    }
}

// The paper's numbers for an answer.
pub fn as_reply(answer: Answer) -> Reply
    ensures { report_of result ≡ reported answer }
{
    match answer {
        Answer::Accepted { cues, nodes } => Reply {
            number: 0,
            line: 0,
            item: 0,
            cues,
            nodes,
        },
        Answer::ShortList { list } => refusal(1, 0, list),
        Answer::LongText => refusal(2, 0, 0),
        Answer::Unreadable { line, field } => refusal(3, line, field),
        Answer::OutOfRange { line, field } => refusal(4, line, field),
        Answer::Inapplicable { line, cue } => refusal(5, line, cue),
        Answer::WrongTask { line } => refusal(6, line, 0),
        Answer::TooDeep { line } => refusal(7, line, 0),
        Answer::WrongClaim { line, position } => refusal(8, line, position),
        Answer::Unclaimed { line, position } => refusal(9, line, position),
        Answer::OrderBroken { line, constraint } => refusal(10, line, constraint),
        Answer::BeforeBroken { line, constraint } => refusal(11, line, constraint),
        Answer::AfterBroken { line, constraint } => refusal(12, line, constraint),
        Answer::BetweenBroken { line, constraint } => refusal(13, line, constraint),
        Answer::ShortOutput { needed } => refusal(14, 0, needed),
        Answer::TooManyChoices { empties } => refusal(15, 0, empties),
        Answer::NoChoice { tried } => refusal(16, 0, tried),
        Answer::WrongShape { line, item } => refusal(17, line, item),
        Answer::WrongName { line, item } => refusal(18, line, item),
        Answer::WrongId { line } => refusal(19, line, 0),
        Answer::WrongLetter { line } => refusal(20, line, 0),
        Answer::SurplusNode { line } => refusal(21, line, 0),
        Answer::MissingNode { line } => refusal(22, line, 0),
    }
}

// The answer's row of the table, as in a reply, and the length of the text that was put out, 0 for a refusal.
#[repr(C)]
#[derive(Clone, Copy)]
pub struct Written {
    pub number: u32,
    pub line: u32,
    pub item: u32,
    pub cues: u32,
    pub nodes: u32,
    pub length: u32,
}

// How many records the write call comes with. One such function for each call's answer: a trait for the three would be longer than they are.
pub fn records_of(w: Wrote) -> usize
    ensures { result ≡ (reported w.answer).nodes }
{
    let answer = w.answer;
    verdict::count_of(answer)
}

// The numbers of what the write call answers.
pub fn as_written(w: Wrote) -> Written
    ensures { (written_report result ≡ reported w.answer) × (result.length ≡ w.length) }
{
    let answer = w.answer;
    let reply = as_reply(answer);
    Written {
        number: reply.number,
        line: reply.line,
        item: reply.item,
        cues: reply.cues,
        nodes: reply.nodes,
        length: w.length,
    }
}

// The answer's row of the table, as in a reply, and how many choices of gaps were tried, 0 for a refusal.
#[repr(C)]
#[derive(Clone, Copy)]
pub struct Found {
    pub number: u32,
    pub line: u32,
    pub item: u32,
    pub cues: u32,
    pub nodes: u32,
    pub tried: u32,
}

// How many records the find-the-gaps call comes with.
pub fn records_found(d: Discovery) -> usize
    ensures { result ≡ (reported d.answer).nodes }
{
    let answer = d.answer;
    verdict::count_of(answer)
}

// The numbers of what the find-the-gaps call answers.
pub fn as_found(d: Discovery) -> Found
    ensures { (found_report result ≡ reported d.answer) × (result.tried ≡ d.tried) }
{
    let answer = d.answer;
    let r = as_reply(answer);
    Found {
        number: r.number,
        line: r.line,
        item: r.item,
        cues: r.cues,
        nodes: r.nodes,
        tried: d.tried,
    }
}

// The answer's row of the table, as in a reply, how many choices of gaps were tried and how long the made text is, both 0 for a refusal.
#[repr(C)]
#[derive(Clone, Copy)]
pub struct Imported {
    pub number: u32,
    pub line: u32,
    pub item: u32,
    pub cues: u32,
    pub nodes: u32,
    pub tried: u32,
    pub length: u32,
}

// How many records the import call comes with.
pub fn records_imported(o: Outcome) -> usize
    ensures { result ≡ (reported o.answer).nodes }
{
    let answer = o.answer;
    verdict::count_of(answer)
}

// The numbers of what the import call answers.
pub fn as_imported(o: Outcome) -> Imported
    ensures { (imported_report result ≡ reported o.answer) × (result.tried ≡ o.tried) × (result.length ≡ o.length) }
{
    let answer = o.answer;
    let numbers = as_reply(answer);
    Imported {
        number: numbers.number,
        line: numbers.line,
        item: numbers.item,
        cues: numbers.cues,
        nodes: numbers.nodes,
        tried: o.tried,
        length: o.length,
    }
}
