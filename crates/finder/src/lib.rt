// The find-the-gaps call (02, Card 4) over plain lists: the rows of the check down to 9, then the choices of gaps in dictionary order, and of the
// first with which the text would be accepted what its check leaves. The columns of the node records are left in the work space.
#![tactic(auto)]

ghost use Rattle.std.specs.Prelude.{◌≡◌, true, List, ◌+◌, ◌*◌, ◌<◌, ◌≤◌, min, length, replicate};
ghost use Rattle.rules.specs.declared.Answer.TheVariants.{NoChoice};
ghost use Rattle.rules.specs.State.{word_count};
ghost use Rattle.rules.specs.Case.{Case, Valued};
ghost use Rattle.rules.specs.Print.{lines_text};
ghost use Rattle.rules.specs.Verdict.{text_most, state_need, work_need, check_lists};
ghost use Rattle.rules.specs.Gaps.{empty_count, power, Within, ChoiceOf, choice_count, choice_most, find_gaps, Limited, before_choices};
ghost use Rattle.rules.proofs.Judgement.Rows.{from_text, from_tree};
ghost use Rattle.rules.proofs.Gaps.Lengths.{surplus};
ghost use Rattle.choices.specs.Reasons.{Known};
ghost use Rattle.fields.specs.Directory.{Roomy};
ghost use Rattle.columns.specs.Columns.{column_words, Blank};
ghost use Rattle.output.specs.Output.{HasLines};
ghost use Rattle.seeking.specs.Seeking.{Sought};
ghost use Rattle.judge.specs.Phases.{Answers, Cleared, Claimed, Passes, from_claimed};
ghost use Rattle.finder.specs.Finding.{checked_with, passing, from_choices, from_count, from_gaps, Finds, Tried, LimitedBy, Printable, BaseOf, SpareOf, digits_most, Spacious, TurnsOut};

use blames::{POSITIONS, SILENT, SLOTS};
use columns::PER_WORD;
use fields::FIELDS;
use judge::Opened;
use rules::{Answer, NODES, TEXT};

// Room for the fields of a text of fewer than twice as many bytes, and for a short text.
const SMALL: usize = 2048;

const SHORT: usize = 4096;

// The most digits that the gaps of a choice have past their first ones, where there are other choices: three of each of 19.
const DIGITS: usize = 57;

// "15, that power is over 1,000,000"
const CHOICES: u32 = 1000000;

// What the call answers, and how many choices it tried, 0 for a refusal: so the definitions' tried_after and the C struct have it.
#[derive(Clone, Copy)]
pub struct Discovery {
    pub answer: Answer,
    pub tried: u32,
}

// What one turn of the search comes to: a choice whose text is accepted; one that is refused; or none is left. Three outcomes, and none of them an
// error: plainer than an Option in an Option.
#[derive(Clone, Copy)]
enum Attempt {
    Accepted { answer: Answer },
    Failed,
    Over,
}

fn refuse(states: &mut [u64], answer: Answer) -> Discovery
    ensures { (result.answer ≡ answer) × (result.tried ≡ 0) × (states.new ≡ replicate (length states.old) 0) }
{
    rows::clear(states);
    Discovery { answer, tried: 0 }
}

// How many digits the gaps of a choice have past their first ones.
fn surplus_of(choice: &[u32], k: u32) -> u32
    requires { (k ≤ 1000) × Within k choice.now × (length choice.now ≤ 3000) }
    ensures { result ≡ surplus choice.now }
{
    let mut digits: u32 = 0;
    for gap in choice {
        digits += gaps::more_digits(*gap);
    }
    digits
}

// The check of the text of the first `end` fields, printed into a lent output. They have had their use then: what the check reads goes in their
// place, which has room for it.
fn check_print(
    fields: &mut [u32],
    end: usize,
    cues: u32,
    output: &mut [u8],
    states: &mut [u64],
    work: &mut [u32],
) -> Answer
    requires has_lines { (xs : List Valued) × HasLines cues fields.old end xs × (length (lines_text xs) ≤ length output.old) × Roomy (lines_text xs) fields.old }
    requires state_need_in_bounds { (state_need ≤ length states.old) × (work_need ≤ length work.old) × (length output.old ≤ text_most) }
    ensures { (xs : List Valued) → HasLines cues fields.old end xs → Answers (from_text from_tree (lines_text xs)) (length states.old) result states.new work.new }
{
    let length = output::put_text(fields, end, cues, output);
    rows::clear(states);
    judge::judge_text(&output[..length], states, work, fields)
}

// The same with an output of its own of so many bytes: of a short text, and of any.
fn check_within<const SIZE: usize>(
    fields: &mut [u32],
    end: usize,
    cues: u32,
    states: &mut [u64],
    work: &mut [u32],
) -> Answer
    requires has_lines { (xs : List Valued) × HasLines cues fields.old end xs × (length (lines_text xs) ≤ SIZE) × Roomy (lines_text xs) fields.old }
    requires state_need_in_bounds { (state_need ≤ length states.old) × (work_need ≤ length work.old) × (SIZE ≤ text_most) }
    ensures { (xs : List Valued) → HasLines cues fields.old end xs → Answers (from_text from_tree (lines_text xs)) (length states.old) result states.new work.new }
{
    let mut output = [0u8; SIZE];
    check_print(fields, end, cues, &mut output, states, work)
}

// The check of the text with the gaps of a choice, of a case whose fields these are: "would be accepted" is the check of that text. `base` is the
// length of the text without the digits of its gaps past their first ones.
fn try_choice(
    fields: &mut [u32],
    o: Opened,
    base: usize,
    choice: &[u32],
    states: &mut [u64],
    work: &mut [u32],
) -> Answer
    requires printable { (k : Case) × Printable k fields.old o × BaseOf k base × ChoiceOf k choice.now }
    requires state_need_in_bounds { (state_need ≤ length states.old) × (work_need ≤ length work.old) }
    requires spacious { Spacious base fields.old × (surplus choice.now ≤ digits_most) }
    ensures { (k : Case) → Printable k fields.old o → BaseOf k base → ChoiceOf k choice.now → Answers (checked_with k choice.now) (length states.old) result states.new work.new }
{
    let header = o.header;
    let nodes = o.nodes;
    let count = header.nodes as usize;
    let cues = header.cues;
    let length = base + surplus_of(choice, cues) as usize;
    if TEXT < length {
        rows::clear(states);
        return Answer::LongText;
    }
    gaps::put_gaps(fields, nodes, count, choice);
    let sum = gaps::sum_lines(fields, nodes, count, cues);
    let end = sum.next;
    if length <= SHORT {
        return check_within::<SHORT>(fields, end, cues, states, work);
    }
    check_within::<TEXT>(fields, end, cues, states, work)
}

// The one choice that there is with no empty task, or with no cue: every gap 0.
fn find_only(
    fields: &mut [u32],
    o: Opened,
    base: usize,
    empties: usize,
    states: &mut [u64],
    work: &mut [u32],
) -> Discovery
    requires printable { (k : Case) × Printable k fields.old o × BaseOf k base × (empty_count k.nodes ≡ empties) × (choice_count k ≡ 1) }
    requires state_need_in_bounds { (state_need ≤ length states.old) × (work_need ≤ length work.old) }
    requires spacious { Spacious base fields.old }
    ensures { (k : Case) → Printable k fields.old o → BaseOf k base → empty_count k.nodes ≡ empties → choice_count k ≡ 1 → Finds (λ n. from_choices n k) (Tried k) (length states.old) result states.new work.new }
{
    let zeros = [0u32; NODES];
    let answer = try_choice(fields, o, base, &zeros[..empties], states, work);
    let Answer::Accepted { .. } = answer else {
        return Discovery {
            answer: Answer::NoChoice { tried: 1 },
            tried: 0,
        };
    };
    Discovery { answer, tried: 1 }
}

// On from a choice to the first that nothing is known against, with columns of which none is built.
fn seek_with(
    fields: &[u32],
    o: Opened,
    spare: u32,
    choice: &mut [u32],
    why: &mut [u32],
    states: &[u64],
    work: &[u32],
    columns: &mut [u64],
    built: &mut [u64],
) -> bool
    requires claimed { (k : Case) × Claimed k fields.now o states.now work.now × ChoiceOf k choice.old }
    requires choice_len_bound { (length choice.old ≤ 19) × (length why.old ≡ length choice.old) × Blank columns.old built.old }
    ensures within { result ≡ true → Within o.header.cues choice.new }
    ensures sought { (k : Case) → Claimed k fields.now o states.now work.now → ChoiceOf k choice.old → SpareOf k spare → Known (passing k) k.head.cues why.old choice.old → Sought (passing k) k.head.cues choice.old result choice.new why.new }
{
    let header = o.header;
    let line = o.plan_line;
    let nodes = o.nodes;
    let mut pool = [SILENT; SLOTS];
    let mut counts = [0u32; POSITIONS];
    let mut order = [0u32; SLOTS];
    blames::in_order(&mut order);
    entering::enter_all(
        fields,
        header,
        line,
        nodes,
        states,
        work,
        choice,
        &mut pool,
        &mut counts,
        columns,
        built,
    );
    seeking::seek(
        choice,
        why,
        &pool,
        &counts,
        &mut order,
        header.cues,
        spare,
        states,
        columns,
        built,
    )
}

// How many words of propositions have columns in a small model.
const FEW_WORDS: usize = 1;

// And in any other: with all of them the call would need more than 512 KiB of stack. A proposition past them is tested state by state.
const MANY_WORDS: usize = 4;

// How many numbers their columns are.
const FEW_COLUMNS: usize = FEW_WORDS * PER_WORD;

const MANY_COLUMNS: usize = MANY_WORDS * PER_WORD;

// The same with columns of its own, for so many words of propositions: of a small model, and of any other.
fn seek_within<const WORDS: usize, const COLUMNS: usize>(
    fields: &[u32],
    o: Opened,
    spare: u32,
    choice: &mut [u32],
    why: &mut [u32],
    states: &[u64],
    work: &[u32],
) -> bool
    requires claimed { (k : Case) × Claimed k fields.now o states.now work.now × ChoiceOf k choice.old }
    requires choice_len_bound { (length choice.old ≤ 19) × (length why.old ≡ length choice.old) }
    requires columns { (WORDS ≤ word_count) × (COLUMNS ≡ 64 * WORDS * column_words) }
    ensures within { result ≡ true → Within o.header.cues choice.new }
    ensures sought { (k : Case) → Claimed k fields.now o states.now work.now → ChoiceOf k choice.old → SpareOf k spare → Known (passing k) k.head.cues why.old choice.old → Sought (passing k) k.head.cues choice.old result choice.new why.new }
{
    let mut columns = [0u64; COLUMNS];
    let mut built = [0u64; WORDS];
    seek_with(
        fields,
        o,
        spare,
        choice,
        why,
        states,
        work,
        &mut columns,
        &mut built,
    )
}

fn seek_on(
    fields: &[u32],
    o: Opened,
    spare: u32,
    choice: &mut [u32],
    why: &mut [u32],
    states: &[u64],
    work: &[u32],
) -> bool
    requires claimed { (k : Case) × Claimed k fields.now o states.now work.now × ChoiceOf k choice.old }
    requires choice_len_bound { (length choice.old ≤ 19) × (length why.old ≡ length choice.old) }
    ensures within { result ≡ true → Within o.header.cues choice.new }
    ensures sought { (k : Case) → Claimed k fields.now o states.now work.now → ChoiceOf k choice.old → SpareOf k spare → Known (passing k) k.head.cues why.old choice.old → Sought (passing k) k.head.cues choice.old result choice.new why.new }
{
    let header = o.header;
    let propositions = header.propositions as usize;
    if propositions <= 64 * FEW_WORDS {
        seek_within::<FEW_WORDS, FEW_COLUMNS>(fields, o, spare, choice, why, states, work)
    } else {
        seek_within::<MANY_WORDS, MANY_COLUMNS>(fields, o, spare, choice, why, states, work)
    }
}

// One turn: on to the first choice that nothing is known against, which is then tried whole.
fn take_turn(
    fields: &mut [u32],
    o: Opened,
    base: usize,
    choice: &mut [u32],
    why: &mut [u32],
    states: &mut [u64],
    work: &mut [u32],
) -> Attempt
    requires claimed { (k : Case) × Claimed k fields.old o states.old work.old × BaseOf k base × ChoiceOf k choice.old }
    requires base_bound { (base ≤ 65535) × (length choice.old ≤ 19) × (length why.old ≡ length choice.old) × Spacious base fields.old }
    ensures { (k : Case) → Claimed k fields.old o states.old work.old → BaseOf k base → ChoiceOf k choice.old → Known (passing k) k.head.cues why.old choice.old → TurnsOut k (length states.old) choice.old result choice.new why.new states.new work.new }
{
    let spare = (TEXT - base) as u32;
    if !seek_on(fields, o, spare, choice, why, states, work) {
        return Attempt::Over;
    }
    let answer = try_choice(fields, o, base, choice, states, work);
    let Answer::Accepted { .. } = answer else {
        return Attempt::Failed;
    };
    Attempt::Accepted { answer }
}

// The search: turn after turn, each from the choice after the one that was tried in vain. The text is read again for it, since the check of another
// text has taken its place in the lent lists.
fn find_first(
    text: &[u8],
    fields: &mut [u32],
    o: Opened,
    base: usize,
    choice: &mut [u32],
    why: &mut [u32],
    states: &mut [u64],
    work: &mut [u32],
) -> Discovery
    requires passes { (k : Case) × Passes text.now fields.old o states.old work.old k × BaseOf k base × ChoiceOf k choice.old × (choice_count k ≤ choice_most) }
    requires spacious { Spacious (length text.now) fields.old × (length text.now ≤ text_most) × (base ≤ length text.now) × (length choice.old ≤ 19) × (length why.old ≡ length choice.old) × (choice.old ≡ replicate (length choice.old) 0) }
    ensures { (k : Case) → Passes text.now fields.old o states.old work.old k → BaseOf k base → ChoiceOf k choice.old → choice_count k ≤ choice_most → Finds (λ n. from_choices n k) (Tried k) (length states.old) result states.new work.new }
{
    let mut at = o;
    // A `loop`: each turn goes on from the choice that the step has come to.
    loop {
        let header = at.header;
        let k = header.cues;
        match take_turn(fields, at, base, choice, why, states, work) {
            Attempt::Accepted { answer } => {
                let place = choices::place_of(choice, k);
                return Discovery {
                    answer,
                    tried: place + 1,
                };
            }
            Attempt::Over => {
                return none_passes(states, k, choice.len());
            }
            Attempt::Failed => {}
        }
        let all = subsets::all(choice.len() as u32);
        if seeking::skip(choice, why, k, all).is_none() {
            return none_passes(states, k, choice.len());
        }
        match judge::open_text(text, states, work, fields) {
            Ok(opened) => at = opened,
            Err(answer) => return Discovery { answer, tried: 0 },
        }
    }
}

// "16, none, given last, item the number tried"
fn none_passes(states: &mut [u64], k: u32, empties: usize) -> Discovery
    requires { k ≤ 1000 }
    ensures { (result.answer ≡ NoChoice (min (power k empties) 1000001)) × (result.tried ≡ 0) × (states.new ≡ replicate (length states.old) 0) }
{
    refuse(
        states,
        Answer::NoChoice {
            tried: choices::count_of(k, empties),
        },
    )
}

// The choices of a case that passes rows 1 to 9: 15, then the search.
fn find_choices(
    text: &[u8],
    fields: &mut [u32],
    o: Opened,
    states: &mut [u64],
    work: &mut [u32],
) -> Discovery
    requires passes { (k : Case) × Passes text.now fields.old o states.old work.old k }
    requires spacious { Spacious (length text.now) fields.old × (length text.now ≤ text_most) }
    ensures { (k : Case) → Passes text.now fields.old o states.old work.old k → Finds (λ n. from_count n k) (Tried k) (length states.old) result states.new work.new }
{
    let header = o.header;
    let nodes = o.nodes;
    let count = header.nodes as usize;
    let empties = gaps::count_empties(fields, nodes, count);
    let choices = choices::count_of(header.cues, empties as usize);
    if CHOICES < choices {
        return refuse(states, Answer::TooManyChoices { empties });
    }
    let base = text.len() - gaps::claimed_surplus(fields, nodes, count) as usize;
    if choices == 1 {
        return find_only(fields, o, base, empties as usize, states, work);
    }
    let mut choice = [0u32; POSITIONS];
    let mut why = [0u32; POSITIONS];
    let e = empties as usize;
    find_first(
        text,
        fields,
        o,
        base,
        &mut choice[..e],
        &mut why[..e],
        states,
        work,
    )
}

// The rows from reading on, with room for the fields of the text, whatever gaps it is given.
fn find_text(text: &[u8], states: &mut [u64], work: &mut [u32], fields: &mut [u32]) -> Discovery
    requires { Cleared text.now states.old work.old × Spacious (length text.now) fields.old }
    ensures { Finds (λ n. from_text (from_claimed (from_gaps n)) text.now) (LimitedBy text.now) (length states.old) result states.new work.new }
{
    match judge::open_text(text, states, work, fields) {
        Ok(opened) => find_choices(text, fields, opened, states, work),
        Err(answer) => Discovery { answer, tried: 0 },
    }
}

// The same with room of its own for so many fields: those of a text that is short with the gaps of any choice, and those of any text.
fn find_within<const SIZE: usize>(text: &[u8], states: &mut [u64], work: &mut [u32]) -> Discovery
    requires cleared { Cleared text.now states.old work.old }
    requires spacious { Spacious (length text.now) (replicate SIZE 0) × (SIZE ≤ FIELDS) }
    ensures { Finds (λ n. from_text (from_claimed (from_gaps n)) text.now) (LimitedBy text.now) (length states.old) result states.new work.new }
{
    let mut fields = [0u32; SIZE];
    find_text(text, states, work, &mut fields)
}

fn find_lent(text: &[u8], states: &mut [u64], work: &mut [u32]) -> Discovery
    requires { Cleared text.now states.old work.old }
    ensures { Finds (λ n. from_text (from_claimed (from_gaps n)) text.now) (LimitedBy text.now) (length states.old) result states.new work.new }
{
    if text.len() < 2 * SMALL - DIGITS {
        return find_within::<SMALL>(text, states, work);
    }
    find_within::<FIELDS>(text, states, work)
}

// All rows. The state list is zero before anything is checked.
pub fn find(text: &[u8], states: &mut [u64], work: &mut [u32], node_room: usize) -> Discovery
    ensures { Finds (λ n. find_gaps n (check_lists (length states.old) node_room (length work.old)) text.now) (Limited (before_choices (check_lists (length states.old) node_room (length work.old)) text.now)) (length states.old) result states.new work.new }
{
    rows::clear(states);
    match judge::admit(text, states.len(), node_room, work.len()) {
        Ok(()) => find_lent(text, states, work),
        Err(answer) => Discovery { answer, tried: 0 },
    }
}
