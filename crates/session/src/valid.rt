// Whether a struct can be a session's: the conditions of docs/LAYOUT.md, by the state that it is in.
// The record is given as its head and references to its four arrays: arrays, so that their lengths are constants.
// `list_fits` and `parts_fit` test parts of them, and take slices.
//     sizes_fit, no_question, list_fits, parts_fit, question_fits   parts of the conditions
//     is_none, last_fits, last_is_own                               those of the last finished answer
//     fits                                                          all of them
ghost use Rattle.std.specs.Prelude.{◌≡◌, List, ℕ, length};
ghost use Rattle.formats.specs.Limits.{part_limit};
ghost use Rattle.session.specs.Records.{whole, sizes_fit, no_question, list_fits, parts_fit, question_fits, valid};
ghost use Rattle.session.specs.Records.{is_none, last_question_fits, last_is_own};
ghost use Rattle.session.specs.inner.Shapes.{ListShaped, PartsShaped};

use crate::lists::{below, rises_to, zero_bytes, zero_pairs, zeros};
use crate::state::{Head, Last, Phase, Session, Sizes};
use formats::limits::{CHANGE_LIMIT, NODE_LIMIT, PART_LIMIT};
use formats::rules::all_below;

// The most parts of a question, as a number of the record.
const MOST_PARTS: u8 = PART_LIMIT as u8;

// The most nodes that a part passes over, as a number of the record.
const MOST_NODES: u32 = NODE_LIMIT as u32;

// N, S and K in their limits.
fn sizes_fit(z: Sizes) -> bool
    ensures { result ≡ sizes_fit z }
{
    (0 < z.n)
        & (z.n as usize <= Session::NODE_LIMIT)
        & (0 < z.s)
        & (z.s as usize <= Session::STATE_LIMIT)
        & (0 < z.k)
        & (z.k as usize <= Session::LABEL_LIMIT)
}

// Nothing listed, no part, no state, no link, no node passed over, no yes.
fn no_question(
    h: Head,
    nodes: &[u16; CHANGE_LIMIT],
    labels: &[u8; CHANGE_LIMIT],
    roots: &[u16; PART_LIMIT],
    states: &[u8; PART_LIMIT],
) -> bool
    ensures { result
        ≡ no_question (whole h nodes.now labels.now roots.now states.now) }
{
    let counts = !h.yes & (h.m == 0) & (h.parts == 0) & (h.handled == 0);
    let none = counts & (h.links == 0) & (h.passed == 0);
    none & zero_pairs(nodes, labels) & zeros(roots) & zero_bytes(states)
}

// The changes: at most the limit, inside N and K, and zeros behind them.
fn list_fits(h: Head, nodes: &[u16], labels: &[u8]) -> bool
    requires { ListShaped nodes.now labels.now }
    ensures { (rs qs : List ℕ) → result ≡ list_fits (whole h nodes.now labels.now rs qs) }
{
    let m = h.m as usize;
    if Session::CHANGE_LIMIT < m {
        return false;
    }
    let listed = below(&nodes[..m], h.sizes.n) & all_below(&labels[..m], h.sizes.k);
    listed & zero_pairs(&nodes[m..], &labels[m..])
}

// The parts: their roots rise to the root, the states of those handled are states, zeros behind both, no more links than nodes passed
// over, and few of these.
fn parts_fit(h: Head, roots: &[u16], states: &[u8]) -> bool
    requires { PartsShaped h roots.now states.now }
    ensures { (vs bs : List ℕ) → result ≡ parts_fit (whole h vs bs roots.now states.now) }
{
    let p = h.parts as usize;
    let done = h.handled as usize;
    if p < 1 {
        return false;
    }
    if PART_LIMIT < p {
        return false;
    }
    let rooted = rises_to(h.sizes.n - 1, &roots[..p]) & zeros(&roots[p..]);
    let reached = all_below(&states[..done], h.sizes.s) & zero_bytes(&states[done..]);
    rooted & reached & (h.links <= h.passed) & (h.passed <= MOST_NODES * (h.handled as u32))
}

// A question: sizes, changes and parts, and no more parts handled than there are.
fn question_fits(
    h: Head,
    nodes: &[u16; CHANGE_LIMIT],
    labels: &[u8; CHANGE_LIMIT],
    roots: &[u16; PART_LIMIT],
    states: &[u8; PART_LIMIT],
) -> bool
    ensures { result
        ≡ question_fits (whole h nodes.now labels.now roots.now states.now) }
{
    if !sizes_fit(h.sizes) {
        return false;
    }
    if h.parts < h.handled {
        return false;
    }
    list_fits(h, nodes, labels) & parts_fit(h, roots, states)
}

// No finished answer: all of it is zero.
fn is_none(l: Last) -> bool
    ensures { result ≡ is_none l }
{
    let o = l.outcome;
    !l.present & !o.yes & (o.state == 0) & (o.parts == 0) & (o.links == 0) & (o.passed == 0)
}

// The last finished answer: none, or with a state below S, parts in their limits, no more links than nodes passed over,
// and few of these.
fn last_fits(s: u8, l: Last) -> bool
    ensures { result ≡ last_question_fits s l }
{
    if !l.present {
        return is_none(l);
    }
    let o = l.outcome;
    let few = (o.links <= o.passed) & (o.passed <= MOST_NODES * (o.parts as u32));
    (o.state < s) & (0 < o.parts) & (o.parts <= MOST_PARTS) & few
}

// The last finished answer is the record's own, of all its parts.
fn last_is_own(h: Head, states: &[u8]) -> bool
    requires { length states.now ≡ part_limit }
    ensures { (vs bs rs : List ℕ) → result ≡ last_is_own (whole h vs bs rs states.now) }
{
    if h.handled < 1 {
        return false;
    }
    if MOST_PARTS < h.handled {
        return false;
    }
    let o = h.last.outcome;
    let at = h.handled as usize - 1;
    let own = h.last.present & (o.state == states[at]) & (o.yes == h.yes);
    own & (o.parts == h.parts) & (o.links == h.links) & (o.passed == h.passed)
}

// The record is valid, by its state.
pub fn fits<'a>(
    h: Head,
    nodes: &'a [u16; CHANGE_LIMIT],
    labels: &'a [u8; CHANGE_LIMIT],
    roots: &'a [u16; PART_LIMIT],
    states: &'a [u8; PART_LIMIT],
) -> bool
    ensures { result
        ≡ valid (whole h nodes.now labels.now roots.now states.now) }
{
    let phase = h.phase;
    match phase {
        Phase::Empty => {
            let none = (h.sizes.n == 0) & (h.sizes.s == 0) & (h.sizes.k == 0);
            none & is_none(h.last) & no_question(h, nodes, labels, roots, states)
        }
        Phase::Loaded => {
            sizes_fit(h.sizes)
                & last_fits(h.sizes.s, h.last)
                & no_question(h, nodes, labels, roots, states)
        }
        Phase::Running => {
            question_fits(h, nodes, labels, roots, states)
                & last_fits(h.sizes.s, h.last)
                & (h.handled < h.parts)
                & !h.yes
        }
        Phase::Answered => {
            question_fits(h, nodes, labels, roots, states)
                & last_is_own(h, states)
                & (h.handled == h.parts)
        }
    }
}

impl Session {
    // Whether a struct can be a session's.
    pub fn valid(self) -> bool
        ensures { result ≡ valid self }
    {
        let h = self.head;
        fits(h, &self.nodes, &self.labels, &self.roots, &self.states)
    }
}
