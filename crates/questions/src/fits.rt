// Whether what a caller of a part asks for fits; the caller's buffers are check 17 (crate formats, buffers).
ghost use Rattle.std.specs.Prelude.{◌≡◌};
ghost use Rattle.questions.specs.PartAnswers.{asked_fits};

use formats::limits::NODE_LIMIT;

// Is there a root after those that have states, is it one of n nodes, and do both lists have the same length?
pub fn asked_fits(n: usize, roots: &[u16], states: &[u8], nodes: &[u16], labels: &[u8]) -> bool
    ensures { result
        ≡ asked_fits n roots.now states.now nodes.now labels.now }
{
    let i = states.len();
    if roots.len() <= i {
        return false;
    }
    if NODE_LIMIT < roots.len() {
        return false;
    }
    if n <= roots[i] as usize {
        return false;
    }
    if nodes.len() != labels.len() {
        return false;
    }
    nodes.len() <= NODE_LIMIT
}
