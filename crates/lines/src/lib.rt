// Reading one line of a case by the table of letters (01, "The case text" and rows 3 and 4 of its table): one reader for all letters.
#![tactic(auto)]

mod bounds;
mod item;
mod line;
mod numbers;
mod range;
mod table;

pub use bounds::{known, with_subtasks};
pub use line::{Line, LineError, Role, read_line};
pub use numbers::Known;
pub use table::shape;
