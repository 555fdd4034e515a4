// Check 26: at most 10^18 assignments.
ghost use Rattle.std.specs.Prelude.{◌≡◌, ◌≤◌, ◌^◌, leb};
ghost use Rattle.choices.specs.node_counts.Capped.{count_limit};

use crate::node_counts::sums::COUNT_LIMIT;

// "26 for more than 1,000,000,000,000,000,000 assignments": does k to the power m stay within the limit?
pub fn assignments_fit(k: u64, m: usize) -> bool
    requires { 1 ≤ k }
    ensures { result ≡ leb (k ^ m) count_limit }
{
    let mut p: u64 = 1;
    for i in 0..m {
        if COUNT_LIMIT / k < p {
            return false;
        }
        p *= k;
    }
    true
}
