// What a name on a line of the form stands for: an action; a compound task with one of its methods. The model is the case's: its names by their
// tables, its methods by its fields and their directory.
ghost use Rattle.std.specs.Prelude.{◌≡◌, List, ℕ, ◌≤◌, ◌<◌, length};
ghost use Rattle.rules.specs.Case.{Case, method_at};
ghost use Rattle.rules.specs.Naming.{Names};
ghost use Rattle.rules.specs.Form.{suits, action_named, method_named, both_named};
ghost use Rattle.shapes.specs.Shapes.{bytes};
ghost use Rattle.forms.specs.Held.{named, Modelled};

use crate::Model;
use fields::METHODS_FROM;

// Whether method m is the task's, with so many subtasks.
fn suits(model: &Model, m: usize, task: usize, count: usize) -> bool
    requires { (k : Case) × (ns : Names) × Modelled k ns model.now × (m < k.head.methods) }
    ensures { (k : Case) (ns : Names) → Modelled k ns model.now → m < k.head.methods → result ≡ suits (method_at k.methods m) task count }
{
    let at = model.directory[METHODS_FROM + m] as usize;
    model.fields[at + 1] as usize == task && model.fields[at + 2] as usize == count
}

// The action that form[from..to] names.
pub fn action_named(model: &Model, form: &[u8], from: usize, to: usize) -> Option<usize>
    requires modelled { (k : Case) × (ns : Names) × Modelled k ns model.now }
    requires from_le_to { (from ≤ to) × (to ≤ length form.now) }
    ensures to_value { (k : Case) (ns : Names) → Modelled k ns model.now → (n : ℕ) → action_named k ns n (bytes form.now from to) ≡ named n result }
    ensures by_index { (a : ℕ) → result ≡ Some a → a < model.now.header.actions }
{
    let ts = model.tasks;
    let tasks = (model.header.actions + model.header.compounds) as usize;
    let t = names::find(ts.text, ts.starts, ts.ends, ts.slots, tasks, form, from, to)?;
    if t < model.header.actions as usize {
        return Some(t);
    }
    None
}

// The method that form[from..to] names, if it is the task's, with so many subtasks.
fn method_named(
    model: &Model,
    form: &[u8],
    from: usize,
    to: usize,
    task: usize,
    count: usize,
) -> Option<usize>
    requires modelled { (k : Case) × (ns : Names) × Modelled k ns model.now }
    requires from_le_to { (from ≤ to) × (to ≤ length form.now) }
    ensures ids_value { (k : Case) (ns : Names) → Modelled k ns model.now → (n : ℕ) (ids : List ℕ) → count ≡ length ids → method_named k ns n task (bytes form.now from to) ids ≡ named n result }
    ensures by_index { (m : ℕ) → result ≡ Some m → m < model.now.header.methods }
{
    let ms = model.methods;
    let methods = model.header.methods as usize;
    let m = names::find(
        ms.text, ms.starts, ms.ends, ms.slots, methods, form, from, to,
    )?;
    if suits(model, m, task, count) {
        return Some(m);
    }
    None
}

// The method of a compound line, whose task form[from..to] names and whose method form[method..end].
pub fn both_named(
    model: &Model,
    form: &[u8],
    from: usize,
    to: usize,
    method: usize,
    end: usize,
    count: usize,
) -> Option<usize>
    requires modelled { (k : Case) × (ns : Names) × Modelled k ns model.now }
    requires from_le_to { (from ≤ to) × (to ≤ length form.now) × (method ≤ end) × (end ≤ length form.now) }
    ensures ids_value { (k : Case) (ns : Names) → Modelled k ns model.now → (n : ℕ) (ids : List ℕ) → count ≡ length ids → both_named k ns n (bytes form.now from to) (bytes form.now method end) ids ≡ named n result }
    ensures by_index { (m : ℕ) → result ≡ Some m → m < model.now.header.methods }
{
    let ts = model.tasks;
    let tasks = (model.header.actions + model.header.compounds) as usize;
    let t = names::find(ts.text, ts.starts, ts.ends, ts.slots, tasks, form, from, to)?;
    if t < model.header.actions as usize {
        return None;
    }
    method_named(model, form, method, end, t, count)
}
