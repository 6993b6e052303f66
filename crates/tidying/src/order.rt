// Whether the fields of a case are tidy already (02, Card 2): each method's constraints in order, none twice. Then its text is what is to be
// written.
ghost use Rattle.std.specs.Prelude.{◌≡◌, true, List, ◌↔◌};
ghost use Rattle.rules.specs.Case.{Constraint, Method, Case};
ghost use Rattle.rules.specs.Fields.{fields_of};
ghost use Rattle.rules.specs.Refusals.{Each};
ghost use Rattle.rules.specs.Writing.{tidied, InOrder};
ghost use Rattle.fields.specs.Standing.{Stands};
ghost use Rattle.fields.specs.Directory.{IsRead};
ghost use Rattle.tidying.specs.Tidy.{constraints_fields, method_fields, ConstraintsHere, MethodsHere};
ghost use Rattle.tidying.specs.Order.{Orders};

use crate::{key_at, key_size};
use rules::Header;
use sizes::{line_size, past_lines};
use sorting::less;

// Whether the `count` constraints whose lines start at `from` stand in order, each before the next; if so, where the fields after them are.
fn in_order(fields: &[u32], from: usize, count: usize) -> Option<usize>
    requires { (cs : List Constraint) × ConstraintsHere fields.now from count cs }
    ensures { (cs : List Constraint) → ConstraintsHere fields.now from count cs → Orders cs from (constraints_fields cs) result }
{
    if count == 0 {
        return Some(from);
    }
    let mut last = key_at(fields, from);
    let mut at = from + key_size(last);
    for _i in 1..count {
        let key = key_at(fields, at);
        if !less(last, key) {
            return None;
        }
        last = key;
        at += key_size(key);
    }
    Some(at)
}

// Whether the constraints of the method whose fields stand at `from` do. The last field of its M line is c.
fn method_in_order(fields: &[u32], from: usize, cues: u32) -> Option<usize>
    requires { (m : Method) × Stands fields.now from (method_fields m) }
    ensures { (m : Method) → Stands fields.now from (method_fields m) → Orders m.constraints from (method_fields m) result }
{
    let last = line_size(fields, from, cues) - 1;
    let count = fields[from + last] as usize;
    in_order(fields, from + last + 1, count)
}

// Whether those of the `count` methods whose fields start at `from` do.
fn methods_in_order(fields: &[u32], from: usize, count: usize, cues: u32) -> bool
    requires { (ms : List Method) × MethodsHere fields.now from count ms }
    ensures { (ms : List Method) → MethodsHere fields.now from count ms → result ≡ true ↔ Each InOrder ms }
{
    let mut at = from;
    for _i in 0..count {
        let Some(next) = method_in_order(fields, at, cues) else {
            return false;
        };
        at = next;
    }
    true
}

// Whether the case whose fields these are is tidy: writing it changes nothing.
pub fn is_tidy(fields: &[u32], header: Header) -> bool
    requires { (k : Case) × IsRead k × (k.head ≡ header) × Stands fields.now 0 (fields_of k) }
    ensures { (k : Case) → IsRead k → k.head ≡ header → Stands fields.now 0 (fields_of k) → result ≡ true ↔ (tidied k ≡ k) }
{
    let cues = header.cues;
    let from = past_lines(fields, 0, 2 + header.actions as usize, cues);
    methods_in_order(fields, from, header.methods as usize, cues)
}
