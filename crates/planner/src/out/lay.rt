// The plan of a planner's file, from its labels and the places of its nodes: the header, a leaf everywhere, and then
// the nodes.
ghost use Rattle.std.specs.Prelude.{◌≡◌, ℕ, ◌+◌, ◌*◌, ◌<◌, ◌≤◌, length};
ghost use Rattle.std.proofs.lemmas.List.Edits.{sets};
ghost use Rattle.formats.specs.Layout.{plan_head};
ghost use Rattle.formats.specs.Limits.{node_limit};
ghost use Rattle.planner.specs.Siblings.{Siblings};
ghost use Rattle.planner.specs.out.inner.Laid.{plan_header, LayArgs, Laid, WriteArgs, PlanWritten};

use crate::EMPTY_LABEL;
use formats::layout::PLAN_HEAD;

// The header of a plan of n nodes; a planner's file of n nodes has the same.
pub fn write_header(plan: &mut [u8], n: usize)
    requires { (plan_head ≤ length plan.old) × (n ≤ node_limit) }
    ensures { plan.new ≡ sets plan.old 0 (plan_header n) }
{
    let kinds = PLAN_HEAD + n;
    plan[0] = (n % 256) as u8;
    plan[1] = (n / 256 % 256) as u8;
    plan[2] = (n / 65536 % 256) as u8;
    plan[3] = (n / 16777216 % 256) as u8;
    plan[4] = 12;
    plan[5] = 0;
    plan[6] = 0;
    plan[7] = 0;
    plan[8] = (kinds % 256) as u8;
    plan[9] = (kinds / 256 % 256) as u8;
    plan[10] = (kinds / 65536 % 256) as u8;
    plan[11] = (kinds / 16777216 % 256) as u8;
}

// Label and kind of each node at its place; `size` is the plan's number of nodes.
fn lay_nodes(labels: &[u8], places: &[u16], plan: &mut [u8], size: usize)
    requires { (f : Siblings) × LayArgs f labels.now places.now plan.old size }
    ensures { (f : Siblings) → LayArgs f labels.now places.now plan.old size
        → Laid f size plan.old plan.new }
{
    for (v, label) in labels.iter().enumerate() {
        let place = places[v] as usize;
        plan[PLAN_HEAD + place] = *label;
        plan[PLAN_HEAD + size + place] = 1;
    }
}

// The whole plan.
pub fn write_plan(labels: &[u8], places: &[u16], plan: &mut [u8])
    requires { (f : Siblings) × WriteArgs f labels.now places.now plan.old }
    ensures { (f : Siblings) → WriteArgs f labels.now places.now plan.old
        → PlanWritten f plan.old plan.new }
{
    let size = 2 * labels.len() + 1;
    write_header(plan, size);
    plan[PLAN_HEAD..PLAN_HEAD + size].fill(EMPTY_LABEL);
    plan[PLAN_HEAD + size..PLAN_HEAD + 2 * size].fill(0);
    lay_nodes(labels, places, plan, size);
}
