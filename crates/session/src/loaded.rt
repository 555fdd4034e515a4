// The record after a first Load, and that after Cancel: "it equals it in all but that answer".
ghost use Rattle.std.specs.Prelude.{◌≡◌};
ghost use Rattle.session.specs.Records.{session_of, idle_session};
ghost use Rattle.session.specs.declared.state.Phase.TheVariants.{Loaded};
ghost use Rattle.session.specs.inner.Shapes.{loaded_from, Headers};

use crate::state::{Last, Phase, Session, Sizes, idle, no_last};
use formats::bytes::read32;
use formats::layout::LABEL_COUNT_AT;

// A loaded session of N, S and K, with no question, and the last finished answer as given.
pub fn loaded(sizes: Sizes, last: Last) -> Session
    ensures { result ≡ idle_session Loaded sizes last }
{
    idle(Phase::Loaded, sizes, last)
}

// A session that is loaded with a plan and rules that pass their checks.
pub fn loaded_from(plan: &[u8], rules: &[u8]) -> Session
    requires { Headers plan.now rules.now }
    ensures { result ≡ session_of (loaded_from plan.now rules.now) }
{
    let n = read32(plan, 0);
    let s = read32(rules, 0);
    let k = read32(rules, LABEL_COUNT_AT);
    let sizes = Sizes {
        n: n as u16,
        s: s as u8,
        k: k as u8,
    };
    let last = no_last();
    loaded(sizes, last)
}
