// Where things are in the buffers (docs/LAYOUT.md): the lengths of the headers, and the columns of the node table.

// The bytes of a plan's header: N, where the labels begin, where the kinds begin.
pub const PLAN_HEAD: usize = 12;

// The bytes of a rule table's header: S, K, and where leaf states, inner states and marks begin.
pub const RULES_HEAD: usize = 20;

// The bytes of a branch table's header: S, K, and where steps and marks begin.
pub const BRANCH_HEAD: usize = 16;

// Where K is in the header of a rule table and of a branch table; S is at 0.
pub const LABEL_COUNT_AT: usize = 4;

// The numbers of a node in the node table: parent, jump, depth, size. The parent is the first, so node v's parent is at
// v * NODE_COLUMNS.
pub const NODE_COLUMNS: usize = 4;

// The column of the node that the jump leads to.
pub const JUMP: usize = 1;

// The column of the depth; the root's is 0.
pub const DEPTH: usize = 2;

// The column of the subtree's size.
pub const SIZE: usize = 3;
