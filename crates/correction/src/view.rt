// The texel view: a texel's channels, of the corrected bitmap where its error flag is set and of the original elsewhere.
ghost use Rattle.std.specs.Prelude.{◌≡◌};
ghost use Rattle.correction.specs.View as View;

use crate::bitmap;
use inputs::sizes::Bitmap;
use inputs::{checks, stencil};

pub fn texel_view<'a>(
    original: &'a [f32],
    corrected: &'a [f32],
    stencil: &[u8],
    width: usize,
    height: usize,
    channels: usize,
    x: usize,
    y: usize,
) -> &'a [f32]
    ensures holds { result.now ≡ View.view_of original.now corrected.now stencil.now width height channels x y }
    ensures lies { result.ref_ptr ≡ View.view_place original.entry corrected.entry stencil.now width height channels x y }
{
    // An empty slice and no Option: `View.view_of` promises it, and C is given its length.
    let none = &original[0..0];
    let b = Bitmap {
        width,
        height,
        channels,
    };
    if checks::check_size(b, original.len(), stencil.len()).is_err() {
        return none;
    }
    if checks::check_size(b, corrected.len(), stencil.len()).is_err() {
        return none;
    }
    if x >= width {
        return none;
    }
    if y >= height {
        return none;
    }
    let g = bitmap::whole(b);
    let k = bitmap::cell(g, x, y);
    let at = bitmap::place(g, x, y);
    let end = at + channels;
    if stencil::is_error(stencil[k]) {
        return &corrected[at..end];
    }
    &original[at..end]
}
