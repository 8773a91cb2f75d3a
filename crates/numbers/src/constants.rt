// The constants of the number rules. `specs/Constants.antt` has their bit patterns.

// b dominates a quadratic's a where |b| is more than that many times |a|.
pub const DOMINANCE: f64 = 1e12;
