// The root: the least cost over the states whose mark is wanted, and the first state that has it.
ghost use Rattle.std.specs.Prelude.{◌≡◌, ◌<◌, eqb};
ghost use Rattle.fewest.specs.Least.{least_to};
ghost use Rattle.fewest.specs.inner.down.Search.{First};
ghost use Rattle.fewest.specs.inner.down.Root.{root_cost, RootArgs};

use crate::rows::NO_WAY;

// The cost of state j at the root, whose costs stand from `at` on; 65,536 where its mark is another.
fn root_cost(work: &[u32], marks: &[u8], s: usize, at: usize, mark: u8, j: usize) -> u32
    requires { RootArgs work.now marks.now s at × (j < s) }
    ensures { result ≡ root_cost work.now marks.now at mark j }
{
    if marks[j] == mark {
        return work[at + j];
    }
    NO_WAY
}

// The least cost over the states with that mark.
pub fn root_least(work: &[u32], marks: &[u8], s: usize, at: usize, mark: u8) -> u32
    requires { RootArgs work.now marks.now s at }
    ensures { result ≡ least_to 65536 s (root_cost work.now marks.now at mark) }
{
    let mut r: u32 = NO_WAY;
    for j in 0..s {
        let c = root_cost(work, marks, s, at, mark, j);
        r = r.min(c);
    }
    r
}

// The first state with that mark that costs c; s where none does.
pub fn root_state(work: &[u32], marks: &[u8], s: usize, at: usize, mark: u8, c: u32) -> usize
    requires { RootArgs work.now marks.now s at }
    ensures { First s (λ j. eqb (root_cost work.now marks.now at mark j) c) result }
{
    for j in 0..s {
        if root_cost(work, marks, s, at, mark, j) == c {
            return j;
        }
    }
    s
}
