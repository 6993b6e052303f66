// Constraints as entries that tell whatever the gaps are (02, Card 4): each in a bucket of its last position among the empty tasks, so that a
// choice is tested from the position that changed on, and a broken entry names the positions because of which the choice fails.
#![tactic(auto)]

mod entry;
mod pool;

pub use entry::{Entry, SILENT, keeps_entry};
pub use pool::{BUCKET, POSITIONS, SLOTS, fits, in_order, push, test};
