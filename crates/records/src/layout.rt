// The record's runs of bytes, one after the other, and where each begins (docs/LAYOUT.md, "The record").
use formats::limits::{CHANGE_LIMIT, PART_LIMIT};

// The first bytes: state, yes or no, S, K, N, m, the parts, those handled, and the links so far.
pub const HEAD_BYTES: usize = 13;

// The nodes as listed, two bytes each.
pub const NODES_AT: usize = HEAD_BYTES;

// The labels as listed.
pub const LABELS_AT: usize = NODES_AT + 2 * CHANGE_LIMIT;

// The roots of the parts, two bytes each.
pub const ROOTS_AT: usize = LABELS_AT + CHANGE_LIMIT;

// The states of the parts.
pub const STATES_AT: usize = ROOTS_AT + 2 * PART_LIMIT;

// The last bytes: the finished answer that is kept, and the nodes passed over. The first says whether one is kept.
pub const LAST_AT: usize = STATES_AT + PART_LIMIT;

// The yes or no of the finished answer.
pub const LAST_YES_AT: usize = LAST_AT + 2;

// The nodes passed over so far.
pub const PASSED_AT: usize = LAST_AT + 8;

// The bytes of a record: the last bytes are 16.
pub const RECORD_BYTES: usize = LAST_AT + 16;
