// What every crate stands on: bytes as numbers and floats, with the definitions and laws of lists that the others share.
#![tactic(auto)]

pub mod bytes;
