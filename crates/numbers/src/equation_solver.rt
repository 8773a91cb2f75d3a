// Closed-form roots of a quadratic: the part of `geometry/equation_solver.rs` that the pass uses.
ghost use Rattle.std.specs.Prelude.{◌≡◌, [], ◌∷◌, if◌then◌else◌, get_or};
ghost use Rattle.std.specs.Iterator.{YieldsFirst, item_count};
ghost use Rattle.std.specs.Float.{binary64};
ghost use Rattle.std.specs.Float.Ieee.{lt, eq, div, neg, mul};
ghost use Rattle.numbers.specs.Constants.{zero_of, two};
ghost use Rattle.numbers.specs.EquationSolver as EquationSolver;
ghost use Rattle.numbers.specs.EquationSolver.{linear_roots, upper_root, lower_root, roots_of, normal_roots_of, listed};

use crate::{constants, scalar, square_root};

// Up to two roots, in the order in which they are tried.
#[derive(Clone, Copy)]
pub enum Roots {
    None,
    One(f64),
    Two(f64, f64),
}

impl Roots {
    // Both roots, 0 for one that is not there.
    pub fn or_zero(self) -> [f64; 2]
        ensures { result ≡ get_or (listed self) 0 (zero_of binary64) ∷ get_or (listed self) 1 (zero_of binary64) ∷ [] }
    {
        match self {
            Roots::None => [0.0, 0.0],
            Roots::One(x) => [x, 0.0],
            Roots::Two(x, y) => [x, y],
        }
    }
}

impl Iterator for Roots {
    type Item = f64;

    ghost next_gives = { YieldsFirst listed };

    ghost remaining = { item_count listed };

    fn next(&mut self) -> Option<f64> {
        match *self {
            Roots::None => None,
            Roots::One(x) => {
                *self = Roots::None;
                Some(x)
            }
            Roots::Two(x, y) => {
                *self = Roots::One(y);
                Some(x)
            }
        }
    }
}

// a is 0, or b dominates it.
fn is_linear(a: f64, b: f64) -> bool
    ensures { result ≡ EquationSolver.is_linear a b }
{
    a == 0.0 || scalar::abs64(b) > constants::DOMINANCE * scalar::abs64(a)
}

// The root of b * x + c, if b is not 0.
fn solve_linear(b: f64, c: f64) -> Roots
    ensures { listed result ≡ linear_roots b c }
{
    if b == 0.0 {
        return Roots::None;
    }
    Roots::One(-c / b)
}

// D, whose sign tells whether there are two roots, one or none.
fn discriminant(a: f64, b: f64, c: f64) -> f64
    ensures { result ≡ EquationSolver.discriminant a b c }
{
    b * b - 4.0 * a * c
}

// Two roots, where d is the discriminant.
fn is_positive(d: f64) -> bool
    ensures { result ≡ lt (zero_of binary64) d }
{
    d > 0.0
}

// The roots where the discriminant is positive and s is its root.
fn two_roots(a: f64, b: f64, s: f64) -> Roots
    ensures { listed result ≡ upper_root a b s ∷ lower_root a b s ∷ [] }
{
    Roots::Two((-b + s) / (2.0 * a), (-b - s) / (2.0 * a))
}

// The roots where the discriminant d is not positive.
fn at_most_one_root(a: f64, b: f64, d: f64) -> Roots
    ensures { listed result ≡ (if eq d (zero_of binary64) then div binary64 (neg b) (mul binary64 two a) ∷ [] else []) }
{
    if d == 0.0 {
        return Roots::One(-b / (2.0 * a));
    }
    Roots::None
}

// The roots of a * x * x + b * x + c; where a is 0, or b dominates it, those of b * x + c.
pub fn solve_quadratic(a: f64, b: f64, c: f64) -> Roots
    ensures { listed result ≡ roots_of a b c }
{
    if is_linear(a, b) {
        return solve_linear(b, c);
    }
    let d = discriminant(a, b, c);
    if is_positive(d) {
        return two_roots(a, b, square_root::sqrt(d));
    }
    at_most_one_root(a, b, d)
}

// The same, with a positive discriminant taken for a normal number: that of three finite values of f32 always is. The steps are shared and not the sequence: as
// an argument the root would need a clause for what it asks and one for what it gives.
pub fn solve_normal_quadratic(a: f64, b: f64, c: f64) -> Roots
    ensures { listed result ≡ normal_roots_of a b c }
{
    if is_linear(a, b) {
        return solve_linear(b, c);
    }
    let d = discriminant(a, b, c);
    if is_positive(d) {
        return two_roots(a, b, square_root::normal_root(f64::to_bits(d)));
    }
    at_most_one_root(a, b, d)
}
