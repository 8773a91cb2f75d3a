// The pass once more, written to be read: for every texel all neighbours, pairs, roots and range tests are worked out, nothing stops early, and the flags are gathered at the end.
// No function of it is shared with the first engine, so a wrong one in either shows: what looks like a twin of the first engine's is meant to be one.
#![tactic(auto)]

mod checks;
mod classifier;
mod collapse;
mod corners;
mod diagonal;
mod edges;
mod errors;
mod linear;
pub mod pass;
mod texels;
