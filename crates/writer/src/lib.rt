// The write call (02, Card 2) over plain lists: the check, and of an accepted case the tidy text. What it leaves in the work space are the
// columns of the node records, which the call then gathers into the node list.
#![tactic(auto)]

ghost use Rattle.std.specs.Prelude.{◌≡◌, List, ◌*◌, ◌≤◌, ◌<◌, length, replicate};
ghost use Rattle.rules.specs.Case.{Case, Valued};
ghost use Rattle.rules.specs.Fields.{fields_of};
ghost use Rattle.rules.specs.Print.{lines_text, printed};
ghost use Rattle.rules.specs.Verdict.{text_most, check_lists};
ghost use Rattle.rules.specs.Writing.{written, write};
ghost use Rattle.rules.proofs.Judgement.Rows.{from_text, from_tree};
ghost use Rattle.fields.specs.Standing.{Stands};
ghost use Rattle.fields.specs.Directory.{IsRead, Roomy};
ghost use Rattle.judge.specs.Phases.{Cleared};
ghost use Rattle.output.specs.Output.{HasLines};
ghost use Rattle.writer.specs.Writes.{Writes, lacked, PutAs, then_output};

use fields::FIELDS;
use rules::{Answer, Header};

// Room for the fields of a text of fewer than twice as many bytes: less to clear than what any text may need.
const SMALL: usize = 2048;

// What the call answers: the check's answer, or 14; and the length of the text that was put out, 0 for a refusal.
#[derive(Clone, Copy)]
pub struct Wrote {
    pub answer: Answer,
    pub length: u32,
}

// Nothing is put out.
fn refuse(output: &mut [u8], answer: Answer) -> Wrote
    ensures { (result.answer ≡ answer) × (result.length ≡ 0) × (output.new ≡ replicate (length output.old) 0) }
{
    output::clear(output);
    Wrote { answer, length: 0 }
}

// The bytes needed for the text of these fields, of at most `most`, if there is less room. Where there is room for the most nothing is measured.
fn lacking(fields: &[u32], end: usize, cues: u32, most: usize, room: usize) -> Option<usize>
    requires has_lines { (xs : List Valued) × HasLines cues fields.now end xs × (length (lines_text xs) ≤ most) }
    requires end_bound { end ≤ 32768 }
    ensures { (xs : List Valued) → HasLines cues fields.now end xs → length (lines_text xs) ≤ most → result ≡ lacked (length (lines_text xs)) room }
{
    if most <= room {
        return None;
    }
    let needed = output::measure(fields, end, cues);
    if room < needed { Some(needed) } else { None }
}

// The tidy text of the case whose fields these are, of at most `most` bytes. "14, output shorter than needed, checked last": nothing of it is
// put out then. Answers how many bytes are.
fn put_sorted(
    most: usize,
    fields: &mut [u32],
    header: Header,
    output: &mut [u8],
) -> Result<u32, Answer>
    requires { (k : Case) × IsRead k × (k.head ≡ header) × Stands fields.old 0 (fields_of k) × (length (written k) ≤ most) }
    ensures { (k : Case) → IsRead k → k.head ≡ header → Stands fields.old 0 (fields_of k) → length (written k) ≤ most → PutAs (written k) (length output.old) result output.new }
{
    let cues = header.cues;
    let end = tidying::tidy(fields, header);
    if let Some(needed) = lacking(fields, end, cues, most, output.len()) {
        output::clear(output);
        return Err(Answer::ShortOutput {
            needed: needed as u32,
        });
    }
    let bytes = output::put_text(fields, end, cues, output);
    Ok(bytes as u32)
}

// A text as it is.
fn put_same(text: &[u8], output: &mut [u8]) -> Result<u32, Answer>
    requires { length text.now ≤ text_most }
    ensures { PutAs text.now (length output.old) result output.new }
{
    if output.len() < text.len() {
        output::clear(output);
        return Err(Answer::ShortOutput {
            needed: text.len() as u32,
        });
    }
    output::put_copy(text, output);
    Ok(text.len() as u32)
}

// The tidy text of the case that the text holds, and whose fields these are.
fn put_tidy(text: &[u8], fields: &mut [u32], output: &mut [u8]) -> Result<u32, Answer>
    requires { (k : Case) × IsRead k × (text.now ≡ printed k) × Stands fields.old 0 (fields_of k) }
    ensures { (k : Case) → IsRead k → text.now ≡ printed k → Stands fields.old 0 (fields_of k) → PutAs (written k) (length output.old) result output.new }
{
    let header = reading::header_of(fields);
    if tidying::is_tidy(fields, header) {
        return put_same(text, output);
    }
    put_sorted(text.len(), fields, header, output)
}

// The rows from reading on, with room for the fields; then 14.
fn write_text(
    text: &[u8],
    states: &mut [u64],
    work: &mut [u32],
    fields: &mut [u32],
    output: &mut [u8],
) -> Wrote
    requires { Cleared text.now states.old work.old × Roomy text.now fields.old }
    ensures { Writes (then_output (length output.old) (from_text from_tree text.now)) (length states.old) (length output.old) result states.new work.new output.new }
{
    let answer = judge::judge_text(text, states, work, fields);
    let Answer::Accepted { .. } = answer else {
        return refuse(output, answer);
    };
    match put_tidy(text, fields, output) {
        Ok(length) => Wrote { answer, length },
        Err(short) => {
            rows::clear(states);
            Wrote {
                answer: short,
                length: 0,
            }
        }
    }
}

// The same with room for so many fields, as many as a text of fewer than twice as many bytes may have.
fn write_with_room<const N: usize>(
    text: &[u8],
    states: &mut [u64],
    work: &mut [u32],
    output: &mut [u8],
) -> Wrote
    requires few { N ≤ FIELDS }
    requires room { Cleared text.now states.old work.old × (length text.now < 2 * N) }
    ensures { Writes (then_output (length output.old) (from_text from_tree text.now)) (length states.old) (length output.old) result states.new work.new output.new }
{
    let mut fields = [0u32; N];
    write_text(text, states, work, &mut fields, output)
}

// The same, with as much room for the fields as a text of this length may need.
#[tactic(auto, unfolding(rules::specs::Verdict::text_most))]
fn write_lent(text: &[u8], states: &mut [u64], work: &mut [u32], output: &mut [u8]) -> Wrote
    requires { Cleared text.now states.old work.old }
    ensures { Writes (then_output (length output.old) (from_text from_tree text.now)) (length states.old) (length output.old) result states.new work.new output.new }
{
    if text.len() < 2 * SMALL {
        write_with_room::<SMALL>(text, states, work, output)
    } else {
        write_with_room::<FIELDS>(text, states, work, output)
    }
}

// All rows, and 14. The state list is zero before anything is checked.
pub fn write(
    text: &[u8],
    states: &mut [u64],
    work: &mut [u32],
    node_room: usize,
    output: &mut [u8],
) -> Wrote
    ensures { Writes (write (check_lists (length states.old) node_room (length work.old)) (length output.old) text.now) (length states.old) (length output.old) result states.new work.new output.new }
{
    rows::clear(states);
    match judge::admit(text, states.len(), node_room, work.len()) {
        Ok(()) => write_lent(text, states, work, output),
        Err(answer) => refuse(output, answer),
    }
}
