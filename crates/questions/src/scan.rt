// The search of a part in a list of nodes: the last entry in a run of numbers. It goes from the end of the list: the
// entry looked for is often the last one, or near it. Eight entries are tested at a time, with one branch.
//     first_in_run, is_in_run       the run of z numbers that ends at c
//     any_in                        whether an entry is in the run, without an early end
//     without_eights, last_of_few   the search eight entries at a time, and one at a time
//     last_in                       the search
ghost use Rattle.std.specs.Prelude.{◌≡◌, ◌+◌, ◌-◌, ◌≤◌, length};
ghost use Rattle.trees.specs.Numbering.{is_in_subtree};
ghost use Rattle.formats.specs.Limits.{node_limit};
ghost use Rattle.questions.specs.inner.Scans.{last_in, any_in, Shortened};

// The first number of the run of z numbers that ends at c.
fn first_in_run(c: u16, z: u16) -> u16
    requires { 1 ≤ z }
    ensures { result ≡ c + 1 - z }
{
    c.saturating_sub(z - 1)
}

// Whether e is in the run of z numbers that ends at c: by one test, of its distance from the first of them.
fn is_in_run(e: u16, c: u16, z: u16) -> bool
    requires { 1 ≤ z }
    ensures { result ≡ is_in_subtree c z e }
{
    let first = first_in_run(c, z);
    let distance = e.wrapping_sub(first);
    distance <= c - first
}

// Whether an entry is in the run.
fn any_in(list: &[u16], c: u16, z: u16) -> bool
    requires { 1 ≤ z }
    ensures { result ≡ any_in c z list.now }
{
    let mut any = false;
    for e in list {
        any = any | is_in_run(*e, c, z);
    }
    any
}

// How many entries are left without the last eight, and the eight before them, as long as none of the eight is in the
// run.
fn without_eights(list: &[u16], c: u16, z: u16) -> usize
    requires { 1 ≤ z }
    ensures { Shortened c z list.now result }
{
    // by eights: as a for over their number, the place is `list.len() - 8 * k`, and what is left `list.len() % 8`
    let mut i = list.len();
    while 8 <= i {
        if any_in(&list[i - 8..i], c, z) {
            return i;
        }
        i -= 8;
    }
    i
}

// The place, from 1, of the last entry in the run, one entry at a time; 0 where there is none.
fn last_of_few(list: &[u16], c: u16, z: u16) -> usize
    requires { 1 ≤ z }
    ensures { result ≡ last_in c z list.now }
{
    for i in (0..list.len()).rev() {
        if is_in_run(list[i], c, z) {
            return i + 1;
        }
    }
    0
}

// The place, from 1, of the last entry in the run of z numbers that ends at c; 0 where there is none.
pub fn last_in(list: &[u16], c: u16, z: u16) -> u16
    requires { length list.now ≤ node_limit }
    ensures { result ≡ last_in c z list.now }
{
    let count = list.len();
    if count == 0 {
        return 0;
    }
    if z == 0 {
        return 0;
    }
    if is_in_run(list[count - 1], c, z) {
        return count as u16;
    }
    let i = without_eights(list, c, z);
    last_of_few(&list[..i], c, z) as u16
}
