// Tests of lists of numbers. There is no early exit: the loops can be done many numbers at a time.
// Whether all are 0 is decided by one number, the bitwise or of all: testing each would cost more at the ends of lists.
//     below                           all below a bound
//     zeros, zero_bytes, zero_pairs   all 0: numbers, bytes, and both of two lists in one loop
//     rises_to                        rising, up to the last
ghost use Rattle.std.specs.Prelude.{◌≡◌, ◌&&◌, length};
ghost use Rattle.list_laws.specs.Tests.{all_below};
ghost use Rattle.session.specs.Records.{rises_to};

// Whether every number is below the bound.
pub fn below(xs: &[u16], bound: u16) -> bool
    ensures { result ≡ all_below bound xs.now }
{
    let mut ok = true;
    for x in xs {
        ok = ok & (*x < bound);
    }
    ok
}

// Whether every number is 0.
pub fn zeros(xs: &[u16]) -> bool
    ensures { result ≡ all_below 1 xs.now }
{
    let mut all = 0u16;
    for x in xs {
        all = all | *x;
    }
    all == 0
}

// Whether every byte is 0.
pub fn zero_bytes(xs: &[u8]) -> bool
    ensures { result ≡ all_below 1 xs.now }
{
    let mut all = 0u8;
    for x in xs {
        all = all | *x;
    }
    all == 0
}

// Whether every number and every byte of two lists of one length is 0.
pub fn zero_pairs(xs: &[u16], ys: &[u8]) -> bool
    requires { length ys.now ≡ length xs.now }
    ensures { result ≡ (all_below 1 xs.now && all_below 1 ys.now) }
{
    let mut all = 0u16;
    for i in 0..xs.len() {
        all = all | xs[i] | (ys[i] as u16);
    }
    all == 0
}

// Whether the numbers rise strictly up to, and end at, the last.
pub fn rises_to(last: u16, xs: &[u16]) -> bool
    ensures { result ≡ rises_to last xs.now }
{
    if xs.len() == 0 {
        return false;
    }
    let mut ok = true;
    for i in 1..xs.len() {
        ok = ok & (xs[i - 1] < xs[i]);
    }
    ok & (xs[xs.len() - 1] == last)
}
