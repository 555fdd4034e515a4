// The counts of a node from those of its children and its labels (document 02, S-10): sums and products that stop at
// 10^18, so that nothing overflows for any inputs.
pub mod join;
pub mod sums;
