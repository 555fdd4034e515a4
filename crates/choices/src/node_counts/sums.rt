// Sums and products that stop at the largest number of assignments that is counted.
ghost use Rattle.std.specs.Prelude.{◌≡◌, ◌+◌, ◌*◌, ◌≤◌};
ghost use Rattle.choices.specs.node_counts.Capped.{capped, count_limit};

// "26 for more than 1,000,000,000,000,000,000 assignments"
pub const COUNT_LIMIT: u64 = 1000000000000000000;

// a + b, at most the limit.
pub fn capped_add(a: u64, b: u64) -> u64
    requires a_le_count_limit { a ≤ count_limit }
    requires b_le_count_limit { b ≤ count_limit }
    ensures { result ≡ capped (a + b) }
{
    (a + b).min(COUNT_LIMIT)
}

// a × b, at most the limit.
pub fn capped_times(a: u64, b: u64) -> u64
    ensures { result ≡ capped (a * b) }
{
    // most states have no count: no division for them
    if a == 0 {
        return 0;
    }
    if b == 0 {
        return 0;
    }
    if COUNT_LIMIT / b < a {
        return COUNT_LIMIT;
    }
    a * b
}
