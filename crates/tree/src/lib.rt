// Walking the claimed tree (01, "The tree" and rows 6 to 9 of its table; 02, Card 7) over the fields of a case and the lent work space.
#![tactic(auto)]

mod fit;
mod layout;
mod marks;
mod rows;
mod walk;

pub use layout::{MARKS, ROWS, SUBTASKS};
pub use marks::least_unclaimed;
pub use walk::walk_tree;
