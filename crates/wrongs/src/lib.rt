// Refusal 19 of the competition's plan form (02, Card 6), over plain lists: "first line that defines an id defined twice, twice a subtask, the
// root under a parent or not reached from the root by any lines, or that uses an id never defined". Each line is looked at once.
#![tactic(auto)]

ghost use Rattle.std.specs.Prelude.{◌≡◌, List, ℕ, ◌≤◌, ◌<◌, length};
ghost use Rattle.rules.specs.Form.{FormLine, Form, wrong_line};
ghost use Rattle.wrongs.specs.Wrongs.{fails, FirstFailing, Known, Holds, as_line};

// Whether the line e is wrong, where no line before it is. The line `lost` is the first that uses an id never defined; where none does, it is
// past every line, and so no `Option`.
fn is_wrong(twin: &[u32], used: &[u32], marks: &[u32], lost: usize, root: u32, e: usize) -> bool
    requires { (e < 3000) × (e < length twin.now) × (e < length used.now) × (e < length marks.now) }
    ensures { result ≡ fails twin.now used.now marks.now lost root e }
{
    // An id defined twice.
    if twin[e] > 0 {
        return true;
    }
    // Twice a subtask.
    if used[e] > 1 {
        return true;
    }
    // The root under a parent.
    if root as usize == e + 1 && used[e] > 0 {
        return true;
    }
    // Not reached, or an id never defined.
    marks[e] == 0 || e == lost
}

// The first of these lines that is wrong, or their number: no `Option`, since none is then past every line, which is what `wrong_line` compares.
fn first_wrong(
    twin: &[u32],
    used: &[u32],
    marks: &[u32],
    lost: usize,
    root: u32,
    count: usize,
) -> usize
    requires { (count ≤ 3000) × (count ≤ length twin.now) × (count ≤ length used.now) × (count ≤ length marks.now) }
    ensures { FirstFailing (fails twin.now used.now marks.now lost root) count result }
{
    for e in 0..count {
        if is_wrong(twin, used, marks, lost, root, e) {
            return e;
        }
    }
    count
}

// The number of the first line that is wrong, if one is. The root line uses an id too; it stands between the action lines and the others.
pub fn wrong_line(
    twin: &[u32],
    used: &[u32],
    marks: &[u32],
    lost: usize,
    root: u32,
    cues: usize,
    count: usize,
) -> Option<u32>
    requires few { (cues ≤ count) × (count ≤ 3000) }
    requires room { (count ≤ length twin.now) × (count ≤ length used.now) × (count ≤ length marks.now) }
    ensures { (es : List FormLine) (ids labels starts links : List ℕ) (id : ℕ)
        → Known es cues count ids labels starts links twin.now used.now marks.now lost root id
        → (f : Form) → Holds f es cues id → wrong_line f ≡ as_line result }
{
    let w = first_wrong(twin, used, marks, lost, root, count);
    if w < cues {
        return Some(w as u32 + 2);
    }
    if root == 0 {
        return Some(cues as u32 + 2);
    }
    if w < count {
        return Some(w as u32 + 3);
    }
    None
}
