// A texel against all eight neighbours.
ghost use Rattle.std.specs.Prelude.{◌≡◌, ◌<◌, true, false};
ghost use Rattle.ranges.specs.Config.{side_span, diagonal_span};
ghost use Rattle.detectors.specs.Texel.{texel_median};
ghost use Rattle.correction.specs.Errors as Errors;
ghost use Rattle.plain.specs.Inner as Inner;
ghost use Rattle.plain.specs.Read.{read};

use crate::texels::Texel;
use crate::{diagonal, linear, texels};
use ranges::classifier::Classifier;
use ranges::config::Settings;

// The texel nx, ny beside it, where there is one.
fn towards_side(t: &Texel, k: Classifier, nx: usize, ny: usize) -> bool
    ensures { result ≡ Inner.towards_side (read t.now.of) t.now.of.bitmap.width t.now.of.bitmap.height k.span k.protected t.now.x t.now.y nx ny }
{
    let a = t.channels();
    match t.of.texel(nx, ny) {
        Some(b) => linear::side_artifact(k, a, b),
        None => false,
    }
}

// The texel nx, ny across, where there is one. No twin of the one above: the two texels between them are read too.
fn towards_across(t: &Texel, k: Classifier, nx: usize, ny: usize) -> bool
    ensures { result ≡ Inner.towards_across (read t.now.of) t.now.of.bitmap.width t.now.of.bitmap.height k.span k.protected t.now.x t.now.y nx ny }
{
    let Some(d) = t.of.texel(nx, ny) else {
        return false;
    };
    let b = Texel {
        of: t.of,
        x: nx,
        y: t.y,
    };
    let c = Texel {
        of: t.of,
        x: t.x,
        y: ny,
    };
    diagonal::across_artifact(k, [t.channels(), b.channels(), c.channels(), d])
}

// The four texels beside it.
fn some_side(t: &Texel, s: Settings, protected: bool) -> bool
    ensures { result ≡ Errors.some_side (read t.now.of) t.now.of.bitmap.width t.now.of.bitmap.height (side_span s false) (side_span s true) protected (texel_median (read t.now.of t.now.x t.now.y)) (read t.now.of t.now.x t.now.y) t.now.x t.now.y }
{
    let row = Classifier {
        span: s.ratio * s.horizontal,
        protected,
    };
    let column = Classifier {
        span: s.ratio * s.vertical,
        protected,
    };
    let left = towards_side(t, row, texels::previous(t.x), t.y);
    let below = towards_side(t, column, t.x, texels::previous(t.y));
    let right = towards_side(t, row, t.x + 1, t.y);
    let above = towards_side(t, column, t.x, t.y + 1);
    left | below | right | above
}

// The four texels across.
fn some_across(t: &Texel, s: Settings, protected: bool) -> bool
    ensures { result ≡ Errors.some_diagonal (read t.now.of) t.now.of.bitmap.width t.now.of.bitmap.height (diagonal_span s) protected (texel_median (read t.now.of t.now.x t.now.y)) (read t.now.of t.now.x t.now.y) t.now.x t.now.y }
{
    let k = Classifier {
        span: s.ratio * s.diagonal,
        protected,
    };
    let left = texels::previous(t.x);
    let below = texels::previous(t.y);
    let right = t.x + 1;
    let above = t.y + 1;
    let lower_left = towards_across(t, k, left, below);
    let lower_right = towards_across(t, k, right, below);
    let upper_left = towards_across(t, k, left, above);
    let upper_right = towards_across(t, k, right, above);
    lower_left | lower_right | upper_left | upper_right
}

// All eight.
pub fn has_artifact(t: &Texel, s: Settings, protected: bool) -> bool
    ensures { result ≡ Errors.has_artifact (read t.now.of) t.now.of.bitmap.width t.now.of.bitmap.height s protected t.now.x t.now.y }
{
    let sides = some_side(t, s, protected);
    let across = some_across(t, s, protected);
    sides | across
}
