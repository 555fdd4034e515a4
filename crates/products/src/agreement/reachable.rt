// The search for the states that the product of two rule tables reaches, by value (document 02, S-13).
//     Search          the lines found so far, the state of each, and which states were found
//     pair_step       one step of the product
//     over_leaves     every label of a leaf
//     over_labels     every label over two lines
//     first_differing the first line whose two marks differ, from a line on
//     over_lines      a line at either side of each line up to it
//     searched        so for every line
// over_lines and searched end where the marks of a line that was found differ: what they would find behind it is not asked.
// Tables are handed on by their runs: leaf states, inner states or marks. What is found has its name in products, specs/agreement/Search.
ghost use Rattle.std.specs.Prelude.{◌≡◌, ◌<◌, ◌-◌};
ghost use Rattle.products.specs.agreement.Lines.{pair_limit};
ghost use Rattle.products.specs.agreement.reachable.SearchRecord.{line_added, empty_search, pair_step, LinesDone, SearchDone};
ghost use Rattle.products.specs.agreement.reachable.SearchRecord.{StepArgs, LabelsArgs, LabelsDone, LinesArgs, SearchArgs};
ghost use Rattle.products.specs.agreement.reachable.SearchRecord.{LeavesArgs, LeavesDone, MarksArgs, differing_from};

use formats::limits::STATE_LIMIT;

// The pairs of states of two rule tables: the product has at most so many states, and a search finds each once.
pub const PAIR_LIMIT: usize = STATE_LIMIT * STATE_LIMIT;

// Line i is a leaf (kind 0) or an inner node (kind 1) over lines lefts[i] and rights[i]; its tree has state codes[i].
#[derive(Clone, Copy)]
pub struct Search {
    pub kinds: [u8; PAIR_LIMIT],
    pub labels: [u8; PAIR_LIMIT],
    pub lefts: [u8; PAIR_LIMIT],
    pub rights: [u8; PAIR_LIMIT],
    pub codes: [u8; PAIR_LIMIT],
    pub seen: [u8; PAIR_LIMIT],
    pub count: usize,
}

// Nothing found yet.
pub fn empty_search() -> Search
    ensures { result ≡ empty_search }
{
    Search {
        kinds: [0u8; PAIR_LIMIT],
        labels: [0u8; PAIR_LIMIT],
        lefts: [0u8; PAIR_LIMIT],
        rights: [0u8; PAIR_LIMIT],
        codes: [0u8; PAIR_LIMIT],
        seen: [0u8; PAIR_LIMIT],
        count: 0,
    }
}

// One line more.
fn with_line(t: &mut Search, kind: u8, label: u8, left: u8, right: u8, code: u8)
    requires { t.old.count < pair_limit }
    ensures { t.new ≡ line_added t.old kind label left right code }
{
    let at = t.count;
    let c = code as usize;
    t.kinds[at] = kind;
    t.labels[at] = label;
    t.lefts[at] = left;
    t.rights[at] = right;
    t.codes[at] = code;
    t.seen[c] = 1;
    t.count = at + 1;
}

// The state of the product for label a over states p1, p2 at the left and q1, q2 at the right.
fn pair_step(
    first: &[u8],
    second: &[u8],
    s1: usize,
    s2: usize,
    k: usize,
    p1: usize,
    p2: usize,
    a: usize,
    q1: usize,
    q2: usize,
) -> u8
    requires { StepArgs first.now second.now s1 s2 k p1 p2 a q1 q2 }
    ensures { result ≡ pair_step first.now second.now s1 s2 k p1 p2 a q1 q2 }
{
    let x = first[(p1 * k + a) * s1 + q1] as usize;
    let y = second[(p2 * k + a) * s2 + q2] as usize;
    (x * s2 + y) as u8
}

// Every label over lines i and j, of states p and q.
fn over_labels(
    first: &[u8],
    second: &[u8],
    s1: usize,
    s2: usize,
    k: usize,
    t: &mut Search,
    i: usize,
    j: usize,
    p: usize,
    q: usize,
)
    requires { LabelsArgs first.now second.now s1 s2 k t.old i j p q }
    ensures { LabelsDone first.now second.now s1 s2 k t.old i j p q t.new }
{
    let p1 = p / s2;
    let p2 = p % s2;
    let q1 = q / s2;
    let q2 = q % s2;
    for a in 0..k {
        let c = pair_step(first, second, s1, s2, k, p1, p2, a, q1, q2);
        let at = c as usize;
        if t.seen[at] == 0 {
            with_line(t, 1, a as u8, i as u8, j as u8, c);
        }
    }
}

// How many lines there are up to the first from line start on whose two marks differ; 0 where none does.
pub fn first_differing(first: &[u8], second: &[u8], s2: usize, s: Search, start: usize) -> usize
    requires { MarksArgs first.now second.now s2 s }
    ensures { result ≡ differing_from first.now second.now s2 s start (s.count - start) }
{
    for i in start..s.count {
        let c = s.codes[i] as usize;
        if first[c / s2] != second[c % s2] {
            return i + 1;
        }
    }
    0
}

// Line n at either side of each line up to it.
fn over_lines(
    first: &[u8],
    second: &[u8],
    marks1: &[u8],
    marks2: &[u8],
    s1: usize,
    s2: usize,
    k: usize,
    t: &mut Search,
    n: usize,
)
    requires { LinesArgs first.now second.now marks1.now marks2.now s1 s2 k t.old n }
    ensures { LinesDone first.now second.now marks1.now marks2.now s1 s2 k t.old n t.new }
{
    for j in 0..n + 1 {
        let p = t.codes[n] as usize;
        let q = t.codes[j] as usize;
        let start = t.count;
        over_labels(first, second, s1, s2, k, t, n, j, p, q);
        over_labels(first, second, s1, s2, k, t, j, n, q, p);
        if first_differing(marks1, marks2, s2, *t, start) != 0 {
            return;
        }
    }
}

// Every line so.
pub fn searched(
    first: &[u8],
    second: &[u8],
    marks1: &[u8],
    marks2: &[u8],
    s1: usize,
    s2: usize,
    k: usize,
    s: Search,
) -> Search
    requires { SearchArgs first.now second.now marks1.now marks2.now s1 s2 k s }
    ensures { SearchDone first.now second.now marks1.now marks2.now s1 s2 k s result }
{
    if first_differing(marks1, marks2, s2, s, 0) != 0 {
        return s;
    }
    let mut t = s;
    let mut n = 0;
    while n < t.count {
        let start = t.count;
        over_lines(first, second, marks1, marks2, s1, s2, k, &mut t, n);
        if first_differing(marks1, marks2, s2, t, start) != 0 {
            return t;
        }
        n += 1;
    }
    t
}

// Every label of a leaf.
pub fn over_leaves(first: &[u8], second: &[u8], s1: usize, s2: usize, k: usize, s: Search) -> Search
    requires { LeavesArgs first.now second.now s1 s2 k s }
    ensures { LeavesDone first.now second.now s1 s2 k s result }
{
    let mut t = s;
    for label in 0..k {
        let x = first[label] as usize;
        let y = second[label] as usize;
        let c = x * s2 + y;
        if t.seen[c] == 0 {
            with_line(&mut t, 0, label as u8, 0, 0, c as u8);
        }
    }
    t
}
