// Sets of at most four states as bits of a byte, and where a step down takes them.
pub mod bits;
pub mod successors;
