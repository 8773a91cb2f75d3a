// What both detectors stand on: the settings, the constants of the pass and the range test.
#![tactic(auto)]

pub mod classifier;
pub mod config;
pub mod constants;
