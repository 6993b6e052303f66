// The spans of a task's parts, and the tests of the four kinds of constraint at them (01, "Indexes"; 02, Card 1).
#![tactic(auto)]

mod spans;
mod tests;

pub use spans::{after_at, span_at, subtask_nodes};
pub use tests::{is_either, keeps, keeps_after, keeps_before, keeps_between, sign_of};
