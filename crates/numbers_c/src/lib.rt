// The functions of `numbers` for C and Rust to call.
#![tactic(auto)]

ghost use Rattle.std.specs.Prelude.{◌≡◌, length, get_or};
ghost use Rattle.std.specs.Float.{binary64};
ghost use Rattle.numbers.specs.Constants.{zero_of};
ghost use Rattle.numbers.specs.Scalar.{min_of, max_of, median_of, middle_of, abs_of, mix_of};
ghost use Rattle.numbers.specs.Rounding.{narrow_of, floor_of};
ghost use Rattle.numbers.specs.SquareRoot.{sqrt_of, normal_root};
ghost use Rattle.numbers.specs.EquationSolver.{roots_of, normal_roots_of, listed};

use numbers::equation_solver::Roots;
use numbers::{equation_solver, rounding, scalar, square_root};

#[unsafe(no_mangle)]
pub extern "C" fn rungtwine_min(x: f32, y: f32) -> f32
    ensures { result ≡ min_of x y }
{
    scalar::min(x, y)
}

#[unsafe(no_mangle)]
pub extern "C" fn rungtwine_max(x: f32, y: f32) -> f32
    ensures { result ≡ max_of x y }
{
    scalar::max(x, y)
}

#[unsafe(no_mangle)]
pub extern "C" fn rungtwine_median(a: f32, b: f32, c: f32) -> f32
    ensures { result ≡ median_of a b c }
{
    scalar::median_value(a, b, c)
}

// The lowest of the channels 0, 1 and 2, with these values, whose value compares equal to the median, 0 for three NaNs.
#[unsafe(no_mangle)]
pub extern "C" fn rungtwine_median_channel(a: f32, b: f32, c: f32) -> usize
    ensures { result ≡ (middle_of a b c).channel }
{
    scalar::median(a, b, c).channel
}

#[unsafe(no_mangle)]
pub extern "C" fn rungtwine_abs32(x: f32) -> f32
    ensures { result ≡ abs_of x }
{
    scalar::abs32(x)
}

#[unsafe(no_mangle)]
pub extern "C" fn rungtwine_abs64(x: f64) -> f64
    ensures { result ≡ abs_of x }
{
    scalar::abs64(x)
}

#[unsafe(no_mangle)]
pub extern "C" fn rungtwine_mix(a: f32, b: f32, w: f64) -> f32
    ensures { result ≡ mix_of a b w }
{
    scalar::mix(a, b, w)
}

#[unsafe(no_mangle)]
pub extern "C" fn rungtwine_narrow(x: f64) -> f32
    ensures { result ≡ narrow_of x }
{
    rounding::narrow(x)
}

#[unsafe(no_mangle)]
pub extern "C" fn rungtwine_sqrt(x: f64) -> f64
    ensures { result ≡ sqrt_of x }
{
    square_root::sqrt(x)
}

// The square root of the normal number that the fields of a pattern stand for, whatever the pattern.
#[unsafe(no_mangle)]
pub extern "C" fn rungtwine_normal_root(b: u64) -> f64
    ensures { result ≡ normal_root b }
{
    square_root::normal_root(b)
}

#[unsafe(no_mangle)]
pub extern "C" fn rungtwine_floor(x: f64) -> i64
    ensures { result ≡ floor_of x }
{
    rounding::floor_to_i64(x)
}

// How many roots an answer has, by its case: the iterator's `count` takes them one by one, which makes a call up to twice as long.
fn counted(r: Roots) -> usize
    ensures { result ≡ length (listed r) }
{
    match r {
        Roots::None => 0,
        Roots::One(_) => 1,
        Roots::Two(_, _) => 2,
    }
}

// How many roots there are, and each of up to two, 0 where there is none.
#[unsafe(no_mangle)]
pub extern "C" fn rungtwine_root_count(a: f64, b: f64, c: f64) -> usize
    ensures { result ≡ length (roots_of a b c) }
{
    counted(equation_solver::solve_quadratic(a, b, c))
}

#[unsafe(no_mangle)]
pub extern "C" fn rungtwine_first_root(a: f64, b: f64, c: f64) -> f64
    ensures { result ≡ get_or (roots_of a b c) 0 (zero_of binary64) }
{
    equation_solver::solve_quadratic(a, b, c).or_zero()[0]
}

#[unsafe(no_mangle)]
pub extern "C" fn rungtwine_second_root(a: f64, b: f64, c: f64) -> f64
    ensures { result ≡ get_or (roots_of a b c) 1 (zero_of binary64) }
{
    equation_solver::solve_quadratic(a, b, c).or_zero()[1]
}

// The same by the solver that takes a positive discriminant for a normal number.
#[unsafe(no_mangle)]
pub extern "C" fn rungtwine_normal_root_count(a: f64, b: f64, c: f64) -> usize
    ensures { result ≡ length (normal_roots_of a b c) }
{
    counted(equation_solver::solve_normal_quadratic(a, b, c))
}

#[unsafe(no_mangle)]
pub extern "C" fn rungtwine_normal_first_root(a: f64, b: f64, c: f64) -> f64
    ensures { result ≡ get_or (normal_roots_of a b c) 0 (zero_of binary64) }
{
    equation_solver::solve_normal_quadratic(a, b, c).or_zero()[0]
}

#[unsafe(no_mangle)]
pub extern "C" fn rungtwine_normal_second_root(a: f64, b: f64, c: f64) -> f64
    ensures { result ≡ get_or (normal_roots_of a b c) 1 (zero_of binary64) }
{
    equation_solver::solve_normal_quadratic(a, b, c).or_zero()[1]
}
