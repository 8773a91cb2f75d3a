// The correction of signs: `raster/rasterization.rs` with the filled texels lent, so that nothing is scanned.
#![tactic(auto)]

pub mod checks;
pub mod rasterization;
pub mod refusal;
