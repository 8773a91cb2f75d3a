// What comes in: a bitmap's sizes, the stencil's bytes, the room, and the checks.
#![tactic(auto)]

pub mod checks;
pub mod outline;
pub mod refusal;
pub mod room;
pub mod sizes;
pub mod stencil;
