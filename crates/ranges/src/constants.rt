// The constants of the pass. `specs/Constants.antt` has their bit patterns.

// Where a field crosses the outline.
pub const HALF: f32 = 0.5;

// The same as an f64: a constant takes no type parameter.
pub const HALF_WIDE: f64 = 0.5;

// A crossing lies strictly between this and 1 less this.
pub const ARTIFACT_T_EPSILON: f64 = 0.01;

pub const ONE_LESS_EPSILON: f64 = 0.99;

// How many times a length the radius of edge protection is.
pub const PROTECTION_RADIUS_TOLERANCE: f64 = 1.001;

// The largest size of a sample, a length, a ratio and a coordinate.
pub const LIMIT: f32 = 1048576.0;

// The same as an f64.
pub const LIMIT_WIDE: f64 = 1048576.0;
