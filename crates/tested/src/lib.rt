// The tests of a tested opening (document 02, card 1), over everything that the tips and hidden tips reach over the store's parents: each
// commit is readable in the store, the commit-graph file agrees, each pair falls. One pass reads each body once: the line has the slots of all
// commits met, the cells before it the least pair among each commit's children (crate `falling`). Linear in the commits and their parents.
// Every function is total and safe on any bytes and numbers.
#![tactic(auto)]

mod ahead;
mod along;
mod step;
mod whole;

pub use whole::test;
