// The replay call (01, "The check and replay calls"): it "borrows no node list and does only the checks down to number 5; it answers k and n
// and fills its state list likewise".
#![tactic(auto)]

mod call;

pub use call::{replay, replay_text};
