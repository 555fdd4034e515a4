// The nodes of a plan, read from the right, with a stack. The stack is at the low end of the file's label run and count
// run, what is written at their high end; bit 6 of a label on the stack says that the node is the first of its list.
ghost use Rattle.std.specs.Prelude.{◌≡◌, ℕ, ◌+◌, ◌*◌, ◌<◌, ◌≤◌, length};
ghost use Rattle.planner.specs.Siblings.{Siblings};
ghost use Rattle.planner.specs.home.inner.Cells.{marked, PushArgs, CountArgs, ReleaseArgs, NodeArgs, PushDone};
ghost use Rattle.planner.specs.home.inner.Cells.{CountDone, ReleaseDone, NodeDone, ReadArgs, ReadDone};

use formats::layout::PLAN_HEAD;

// How many entries the stack has, how many inner nodes are still to be read, and how many of the list that is being
// read are read.
#[derive(Clone, Copy)]
pub struct Walk {
    pub depth: usize,
    pub left: usize,
    pub run: usize,
}

// A label as it is on the stack.
fn mark(label: u8, run: usize) -> u8
    requires { label < 64 }
    ensures { result ≡ marked label run }
{
    if run == 0 {
        return label + 64;
    }
    label
}

// One entry more.
fn push(file: &mut [u8], n: usize, label: u8, w: Walk)
    requires { PushArgs file.old n label w.depth w.left }
    ensures { PushDone n label w.depth w.left w.run file.old file.new }
{
    file[PLAN_HEAD + w.depth] = mark(label, w.run);
    file[PLAN_HEAD + n + w.depth] = 0;
}

// The count of the list that was read goes to the entry above its nodes.
fn put_count(file: &mut [u8], n: usize, w: Walk)
    requires { CountArgs file.old n w.depth w.left w.run }
    ensures { CountDone n w.depth w.left w.run file.old file.new }
{
    if w.run < w.depth {
        file[PLAN_HEAD + n + (w.depth - 1 - w.run)] = w.run as u8;
    }
}

// The top is written, and with the first of a list the node above it.
fn release(file: &mut [u8], n: usize, depth: usize, left: usize) -> usize
    requires { ReleaseArgs file.old n depth left }
    ensures { ReleaseDone n depth left file.old result file.new }
{
    for top in (0..depth).rev() {
        let label = file[PLAN_HEAD + top];
        let count = file[PLAN_HEAD + n + top];
        file[PLAN_HEAD + top + left] = label % 64;
        file[PLAN_HEAD + n + top + left] = count;
        if label < 64 {
            return top;
        }
    }
    0
}

// Reads one node.
fn read_node(file: &mut [u8], n: usize, label: u8, kind: u8, w: Walk) -> Walk
    requires { NodeArgs file.old n label kind w.depth w.left w.run }
    ensures { NodeDone n label kind w.depth w.left w.run file.old result.depth result.left result.run
        file.new }
{
    if kind != 0 {
        push(file, n, label, w);
        return Walk {
            depth: w.depth + 1,
            left: w.left - 1,
            run: w.run + 1,
        };
    }
    if w.run != 0 {
        put_count(file, n, w);
        return Walk {
            depth: w.depth,
            left: w.left,
            run: 0,
        };
    }
    let d = release(file, n, w.depth, w.left);
    Walk {
        depth: d,
        left: w.left,
        run: 0,
    }
}

// Reads all nodes: the two runs of the file of n nodes.
pub fn read_nodes(labels: &[u8], kinds: &[u8], file: &mut [u8], n: usize)
    requires { (f : Siblings) × ReadArgs f labels.now kinds.now file.old n }
    ensures { (f : Siblings) → ReadArgs f labels.now kinds.now file.old n
        → ReadDone f n file.old file.new }
{
    let mut w = Walk {
        depth: 0,
        left: n,
        run: 0,
    };
    for v in (0..labels.len()).rev() {
        w = read_node(file, n, labels[v], kinds[v], w);
    }
}
