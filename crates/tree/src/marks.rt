// Which positions are claimed, once the tree is walked.
ghost use Rattle.std.specs.Prelude.{◌≡◌, ◌≤◌, length};
ghost use Rattle.tree.specs.Layout.{marks_in};
ghost use Rattle.tree.specs.Marks.{as_unclaimed, least_unmarked};

use crate::layout::MARKS;

// "after the walk: least position unclaimed", if there is one.
pub fn least_unclaimed(work: &[u32], cues: u32) -> Option<u32>
    requires { (cues ≤ 1000) × (16384 ≤ length work.now) }
    ensures { result ≡ as_unclaimed (least_unmarked 1 (marks_in cues work.now)) }
{
    for i in 0..cues {
        let mark = MARKS + i as usize;
        if work[mark] == 0 {
            return Some(i + 1);
        }
    }
    None
}
