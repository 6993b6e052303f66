// The choices of gaps in dictionary order (02, Card 4), from one to the next that may be accepted: a choice fails because of the gaps of some
// empty tasks, so all choices with the same gaps there are passed over, and what was learnt of each gap is kept.
#![tactic(auto)]

ghost use Rattle.std.specs.Prelude.{◌≡◌, ◌++◌, ◌-◌, ◌≤◌, min, length, take, replicate};
ghost use Rattle.rules.specs.Gaps.{power, Within};
ghost use Rattle.choices.specs.Searching.{place, next_of, advanced};
ghost use Rattle.choices.specs.Reasons.{Learns};

// How many choices there are of e gaps, each 0 to k; 1,000,001 where there are more than 1,000,000. A number, and no `Option`: the clause says
// the least of two numbers, and callers compare with the most that are tried.
#[tactic(auto, using(crate::proofs::Turns::power_next, crate::proofs::Count::power_zero))]
pub fn count_of(k: u32, e: usize) -> u32
    requires { k ≤ 1000 }
    ensures { result ≡ min (power k e) 1000001 }
{
    let mut n: u32 = 1;
    for _ in 0..e {
        n *= k + 1;
        if n > 1000000 {
            return 1000001;
        }
    }
    n
}

// The place of a choice in dictionary order, from 0.
#[tactic(auto, using(crate::proofs::Turns::place_next))]
pub fn place_of(choice: &[u32], k: u32) -> u32
    requires { Within k choice.now × (power k (length choice.now) ≤ 1000000) }
    ensures { result ≡ place k choice.now }
{
    let mut n: u32 = 0;
    for gap in choice {
        n = n * k + n + *gap;
    }
    n
}

// Zeros from a position on.
pub fn clear_from(list: &mut [u32], from: usize)
    requires { from ≤ length list.old }
    ensures { list.new ≡ take from list.old ++ replicate (length list.old - from) 0 }
{
    list[from..].fill(0);
}

// The next choice that differs within the first b gaps; false where there is none. In place, and with no value in the answer: the choice is a
// lent list (no heap), which the definition `advanced` reads beside the answer.
#[tactic(auto, using(crate::proofs::Turns::carry_on, crate::proofs::Turns::carry_ends))]
pub fn advance(choice: &mut [u32], k: u32, b: usize) -> bool
    requires { (k ≤ 1000) × (b ≤ length choice.old) }
    ensures { next_of k b choice.old ≡ advanced result choice.new }
{
    for i in (0..b).rev() {
        if choice[i] < k {
            choice[i] += 1;
            clear_from(choice, i + 1);
            return true;
        }
    }
    false
}

// From the set m of the gaps because of which a choice fails: how many of its first gaps are to blame. For each gap `why` has the reason why
// every lower number there fails; it is left so for the next choice. 0 is a count too: whatever the gaps, the choice fails.
pub fn learn(choice: &[u32], why: &mut [u32], k: u32, m: u32) -> usize
    requires { (length why.old ≡ length choice.now) × (length choice.now ≤ 32) }
    ensures { Learns k m choice.now why.old result why.new }
{
    let mut set = m;
    for s in (0..choice.len()).rev() {
        if (set >> s) % 2 == 1 {
            let more = set | why[s];
            if choice[s] < k {
                why[s] = more;
                clear_from(why, s + 1);
                return s + 1;
            }
            set = more;
        }
    }
    0
}
