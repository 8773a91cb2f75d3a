// The first three channels of each flagged texel become their median.
ghost use Rattle.std.specs.Prelude.{◌≡◌, ◌+◌, ◌<◌, length, if◌then◌else◌, slice_index};
ghost use Rattle.inputs.specs.Stencil.{is_error};
ghost use Rattle.correction.specs.Collapse as Collapse;
ghost use Rattle.correction.specs.Numbered.{collapsed_at};
ghost use Rattle.plain.specs.Inner.{Collapsible};

use numbers::scalar;

// The texel whose samples stand from a place on.
fn collapse_texel(xs: &mut [f32], at: usize, flagged: bool)
    requires { at + 2 < length xs.old }
    ensures { xs.new ≡ (if flagged then collapsed_at xs.old at else xs.old) }
{
    if flagged {
        let m = scalar::median_value(xs[at], xs[at + 1], xs[at + 2]);
        xs[at] = m;
        xs[at + 1] = m;
        xs[at + 2] = m;
    }
}

// The error bit of a cell.
fn is_flagged(v: u8) -> bool
    ensures { result ≡ is_error v }
{
    v % 2 == 1
}

// All texels.
pub fn collapse(stencil: &[u8], xs: &mut [f32], channels: usize)
    requires { Collapsible channels (length xs.old) (length stencil.now) }
    ensures { xs.new ≡ Collapse.collapsed xs.old channels (λ k. is_error (slice_index stencil.now k)) }
{
    for (k, v) in stencil.iter().enumerate() {
        collapse_texel(xs, k * channels, is_flagged(*v));
    }
}
