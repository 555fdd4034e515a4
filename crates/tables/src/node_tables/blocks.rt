// Blocks of at most 1,024 nodes, and the list of a block's inner nodes, made without a branch on the kind. Passes over
// inner nodes use this list.
ghost use Rattle.std.specs.Prelude.{◌≡◌, ◌+◌, ◌≤◌, ◌<◌, length};
ghost use Rattle.formats.specs.Limits.{node_limit};
ghost use Rattle.tables.specs.node_tables.inner.InnerNodes.{block_length, Listed, ListArgs};

// The nodes of a block.
pub const BLOCK: usize = 1024;

// Where the block from b on ends, of n nodes.
pub fn block_end(b: usize, n: usize) -> usize
    requires { (b < n) × (n ≤ node_limit) }
    ensures { (b < result) × (result ≤ n) × (result ≤ b + block_length) }
{
    (b + BLOCK).min(n)
}

// Lists the inner nodes of b, .. e - 1 in rising order, and returns their number. A leaf is written too, and the next
// node overwrites it.
pub fn list_inner(kinds: &[u8], b: usize, e: usize, list: &mut [u16]) -> usize
    requires { ListArgs kinds.now b e (length list.old) }
    ensures { Listed kinds.now b e result list.new }
{
    let mut c = 0;
    for v in b..e {
        list[c] = v as u16;
        c += kinds[v] as usize;
    }
    c
}

// Room for the inner nodes of a block.
pub fn empty_list() -> [u16; BLOCK]
    ensures { length result ≡ block_length }
{
    [0u16; BLOCK]
}
