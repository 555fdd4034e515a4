// The roots of the parts of a list of changes: what Start and the rule question by colours begin with.
ghost use Rattle.std.specs.Prelude.{◌*◌, take, drop};
ghost use Rattle.formats.specs.Layout.{plan_head, node_columns};
ghost use Rattle.changes.specs.inner.LastDiffering.{given_differing};
ghost use Rattle.questions.specs.Promises.{RootsDone};
ghost use Rattle.questions.specs.changed_roots.Args.{RootsArgs};

use crate::roots::{Rooted, roots};
use changes::differing::differing;
use formats::layout::{NODE_COLUMNS, PLAN_HEAD};

// The roots of the parts of the listed nodes whose label, after superseding, is not the plan's. The others are no
// change.
pub fn roots_left(n: usize, plan: &[u8], node_table: &[u16], nodes: &[u16], labels: &[u8]) -> Rooted
    requires { RootsArgs n plan.now node_table.now }
    ensures { RootsDone n (take (n * node_columns) node_table.now)
        (given_differing (take n (drop plan_head plan.now)) nodes.now labels.now) result }
{
    let left = differing(&plan[PLAN_HEAD..PLAN_HEAD + n], nodes, labels);
    let m = left.count;
    let kept = left.nodes;
    roots(n, &node_table[..n * NODE_COLUMNS], &kept[..m])
}
