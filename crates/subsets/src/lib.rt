// Sets of up to 32 subtasks, each as one number: bit j for subtask j. A set is gone through lowest member first: "take its lowest
// subtask, then the rest".
#![tactic(auto)]

ghost use Rattle.std.specs.Prelude.{◌≡◌, ◌-◌, ◌≤◌, ◌^◌, length};
ghost use mathlib.Core.List.{head_d, tail};
ghost use Rattle.subsets.specs.Members.{members_of};

// The lowest member: 32 for the empty set.
pub fn lowest(u: u32) -> u32
    ensures { result ≡ head_d (members_of u) 32 }
{
    u.trailing_zeros()
}

// How many members there are.
pub fn size(u: u32) -> u32
    ensures { result ≡ length (members_of u) }
{
    u.count_ones()
}

// The set without its lowest member: empty for the empty set.
pub fn others(u: u32) -> u32
    ensures { members_of result ≡ tail (members_of u) }
{
    if u == 0 {
        return 0;
    }
    u ^ (1u32 << lowest(u))
}

// The set of all of n subtasks, as a mask. A set has "no bit at or above the count" where it is at most this.
pub fn all(n: u32) -> u32
    requires { n ≤ 32 }
    ensures { result ≡ 2 ^ n - 1 }
{
    ((1u64 << n) - 1) as u32
}
