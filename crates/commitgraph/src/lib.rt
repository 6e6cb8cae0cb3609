// The commit-graph file (gix_commitgraph).
#![tactic(auto)]

mod chunks;
pub mod parents;
pub mod rows;

pub use chunks::{count, has_header, is_good, parse};

// What is found of a file once: the starts of OIDF, OIDL, CDAT and EDGE, the number of u32s in EDGE, N, and whether its levels are used.
#[derive(Clone, Copy)]
pub struct Layout {
    pub fan: usize,
    pub ids: usize,
    pub rows: usize,
    pub edge: usize,
    pub edges: usize,
    pub count: usize,
    pub levels: bool,
}

// Document 01's level. Compared only with levels, never with seconds.
#[derive(Clone, Copy, PartialEq, Eq, PartialOrd, Ord)]
pub struct Level(pub u32);
