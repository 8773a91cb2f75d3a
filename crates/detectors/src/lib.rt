// What the pass asks of a few texels: the two detectors, and the pair that an edge crosses.
#![tactic(auto)]

pub mod diagonal;
pub mod edge;
pub mod linear;
pub mod orders;
mod pairs;
pub mod texel;
pub mod verdict;
