// The SDF-only error-correction pass of msdfgen: `correction/mod.rs` of bymsdfgen, section by section.
#![tactic(auto)]

mod bitmap;
mod cells;
mod collapse;
mod corners;
mod edges;
mod engine;
mod errors;
mod orders;
pub mod pass;
pub mod refusal;
pub mod sheet;
pub mod view;
mod window;
