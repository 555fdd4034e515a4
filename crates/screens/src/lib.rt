// Eight screens on one machine (document 02, S-8): their calls, records and reference models as definitions (specs/),
// and the theorems (proofs/). Of the code only the order of the screens is here, for the calls in place and on record
// bytes.
//     in_place  deal, start, cancel and read over &mut [Session]
#![tactic(auto)]

pub mod in_place;

ghost use Rattle.std.specs.Prelude.{◌≡◌, ◌<◌};
ghost use Rattle.screens.specs.ScreenCalls.{one_past};

// How many screens there are.
pub const SCREENS: usize = 8;

// The last screen's number.
pub const LAST_SCREEN: usize = SCREENS - 1;

// The next screen, 0 after 7.
pub fn one_past(i: usize) -> usize
    ensures { (result ≡ one_past i) × (result < 8) }
{
    if i < LAST_SCREEN {
        return i + 1;
    }
    0
}
