// The number helpers below the pass: what the Rust takes from the machine's floats, worked out from bits and proved against IEEE 754.
#![tactic(auto)]

pub mod constants;
pub mod equation_solver;
pub mod rounding;
pub mod scalar;
pub mod square_root;
