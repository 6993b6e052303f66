// The constraints of a claimed tree (01, rows 10 to 13 of its table): the first broken one, nodes in order, each method's in text order.
#![tactic(auto)]

mod method;
mod node;

pub use method::{Line, line_at};
pub use node::{first_broken, method_place, names_method};
