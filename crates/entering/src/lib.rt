// The constraints of a case entered as entries that tell whatever the gaps are (02, Card 4): of each node's method each constraint, from the cues
// and the empty tasks below the parts that it names.
#![tactic(auto)]

mod lines;
mod nodes;
mod sums;

pub use nodes::enter_all;
