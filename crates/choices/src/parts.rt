// The counts of all parts, in rising node number, for any inputs.
ghost use Rattle.std.specs.Prelude.{◌≡◌, ℕ, ◌≤◌};
ghost use Rattle.questions.specs.inner.PartArgs.{part_view};
ghost use Rattle.choices.specs.inner.Parts.{PutArgs, RowPut, NextArgs, RowArgs, RowCounted};
ghost use Rattle.choices.specs.inner.Parts.{NextCounted, AllArgs, AllCounted};

use crate::part::part_counts;
use crate::part_steps::carry::Carried;
use formats::limits::STATE_LIMIT;
use formats::lists::is_listed;

// Writes the counts of part i into those of all parts, 16 for each.
fn put_row(table: &mut [u64], i: usize, row: &[u64; STATE_LIMIT])
    requires { PutArgs table.old i row.now }
    ensures { RowPut table.old i row.now table.new }
{
    let at = i * STATE_LIMIT;
    table[at..at + STATE_LIMIT].copy_from_slice(row);
}

// The counts of root v, from those of the earlier roots at the beginning of `table`.
// On the many parameters see docs/DECISIONS.md, "Many parameters".
fn part_row(
    labels: &[u8],
    kinds: &[u8],
    leaves: &[u8],
    inner: &[u8],
    node_table: &[u16],
    state_table: &[u8],
    n: usize,
    s: usize,
    k: usize,
    nodes: &[u16],
    earlier: &[u16],
    table: &[u64],
    v: usize,
    out: &mut [u64; STATE_LIMIT],
) -> Carried
    requires { RowArgs n s k labels.now kinds.now leaves.now inner.now node_table.now state_table.now
        nodes.now earlier.now table.now v out.old }
    ensures { RowCounted (part_view n s k labels.now kinds.now leaves.now
        inner.now node_table.now state_table.now) nodes.now
        earlier.now table.now v result out.new }
{
    let free = is_listed(v as u16, nodes);
    let end = earlier.len() * STATE_LIMIT;
    part_counts(
        labels,
        kinds,
        leaves,
        inner,
        node_table,
        state_table,
        n,
        s,
        k,
        earlier,
        &table[..end],
        free,
        v,
        out,
    )
}

// The same, written into `table` behind those of the earlier roots.
// On the many parameters see docs/DECISIONS.md, "Many parameters".
fn next_part(
    labels: &[u8],
    kinds: &[u8],
    leaves: &[u8],
    inner: &[u8],
    node_table: &[u16],
    state_table: &[u8],
    n: usize,
    s: usize,
    k: usize,
    nodes: &[u16],
    earlier: &[u16],
    v: usize,
    table: &mut [u64],
) -> Carried
    requires { NextArgs n s k labels.now kinds.now leaves.now inner.now node_table.now state_table.now
        nodes.now earlier.now table.old v }
    ensures { NextCounted (part_view n s k labels.now kinds.now leaves.now
        inner.now node_table.now state_table.now) nodes.now
        earlier.now table.old v result table.new }
{
    let mut row = [0u64; STATE_LIMIT];
    let x = part_row(
        labels,
        kinds,
        leaves,
        inner,
        node_table,
        state_table,
        n,
        s,
        k,
        nodes,
        earlier,
        table,
        v,
        &mut row,
    );
    if !x.ok {
        return Carried {
            ok: false,
            links: 0,
        };
    }
    put_row(table, earlier.len(), &row);
    Carried {
        ok: true,
        links: x.links,
    }
}

// The counts of all parts, one after the other, and the links of their climbs.
pub fn all_parts(
    labels: &[u8],
    kinds: &[u8],
    leaves: &[u8],
    inner: &[u8],
    node_table: &[u16],
    state_table: &[u8],
    n: usize,
    s: usize,
    k: usize,
    nodes: &[u16],
    roots: &[u16],
    table: &mut [u64],
) -> Carried
    requires { AllArgs n s k labels.now kinds.now leaves.now inner.now node_table.now state_table.now
        nodes.now roots.now table.old }
    ensures { AllCounted (part_view n s k labels.now kinds.now leaves.now
        inner.now node_table.now state_table.now) nodes.now
        roots.now result table.new }
{
    let mut links: u32 = 0;
    for (i, v) in roots.iter().enumerate() {
        let x = next_part(
            labels,
            kinds,
            leaves,
            inner,
            node_table,
            state_table,
            n,
            s,
            k,
            nodes,
            &roots[..i],
            *v as usize,
            table,
        );
        if !x.ok {
            return Carried {
                ok: false,
                links: 0,
            };
        }
        links = links + x.links;
    }
    Carried { ok: true, links }
}
