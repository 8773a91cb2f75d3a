// A field as bytes: each channel as the byte nearest to 255 times its value, and back.
#![tactic(auto)]

pub mod conversion;
pub mod refusal;
