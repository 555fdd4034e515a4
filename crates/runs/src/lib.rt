// Fresh runs: a plan's run with listed labels changed, worked out without tables.
//     answer    the answer of a fresh run
//     changes   a list of changes, marked node by node
//     pass      the pass over the nodes
//     fresh     the call
#![tactic(auto)]

pub mod answer;
mod changes;
pub mod fresh;
mod pass;
