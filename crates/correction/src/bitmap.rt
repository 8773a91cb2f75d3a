// Bitmaps: where their texels, cells and samples lie, as `bitmap.rs` has it, and in a window of a sheet. No other module works out a place.
ghost use Rattle.std.specs.Prelude.{◌≡◌, ◌+◌, ◌-◌, ◌*◌, ◌<◌, ◌≤◌, true, length};
ghost use Rattle.correction.specs.Bitmap as Rules;
ghost use Rattle.correction.specs.Inner.{samples_at, centre_of};
ghost use Rattle.inputs.specs.Inner.{Fits, Sampled};
ghost use Rattle.inputs.specs.Bounds.{in_bounds};
ghost use Rattle.inputs.specs.Window as Windows;

use detectors::texel;
use inputs::sizes::{Bitmap, Window};

// A texel among its neighbours: its first three channels, their median's value, its column and its row.
#[derive(Clone, Copy)]
pub struct Centre {
    pub texel: [f32; 3],
    pub median: f32,
    pub x: usize,
    pub y: usize,
}

// The window that is the whole of a bitmap.
pub fn whole(b: Bitmap) -> Window
    ensures { result ≡ Windows.whole b.width b.height b.channels }
{
    Window {
        width: b.width,
        height: b.height,
        channels: b.channels,
        origin: 0,
        stride: b.width,
    }
}

// The number of the cell of texel x, y.
pub fn cell(b: Window, x: usize, y: usize) -> usize
    requires fits { Fits b }
    requires x_lt_width { (x < b.width) × (y < b.height) }
    ensures { result ≡ Windows.cell_in b x y }
{
    b.origin + (y * b.stride + x)
}

// Where the first sample of texel x, y stands.
pub fn place(b: Window, x: usize, y: usize) -> usize
    requires fits { Fits b }
    requires x_lt_width { (x < b.width) × (y < b.height) × (b.channels ≤ 4) }
    ensures { result ≡ Windows.cell_in b x y * b.channels }
{
    cell(b, x, y) * b.channels
}

// The three samples from a place on.
pub fn samples_at(xs: &[f32], at: usize) -> [f32; 3]
    requires { at + 2 < length xs.now }
    ensures { result ≡ samples_at xs.now at }
{
    [xs[at], xs[at + 1], xs[at + 2]]
}

// The first three channels of texel x, y.
pub fn texel(xs: &[f32], b: Window, x: usize, y: usize) -> [f32; 3]
    requires sampled { Sampled b xs.now }
    requires x_lt_width { (x < b.width) × (y < b.height) }
    ensures { result ≡ Rules.texel (Windows.cut_samples b xs.now) b.width b.channels x y }
{
    samples_at(xs, place(b, x, y))
}

// Texel x, y as the centre of its neighbours.
pub fn centre_at(xs: &[f32], b: Window, x: usize, y: usize) -> Centre
    requires sampled { Sampled b xs.now }
    requires x_lt_width { (x < b.width) × (y < b.height) }
    ensures { result ≡ centre_of (Windows.cut_samples b xs.now) b.width b.channels x y }
{
    let a = texel(xs, b, x, y);
    let m = texel::median(a);
    Centre {
        texel: a,
        median: m.value,
        x,
        y,
    }
}

// Column nx and row ny, counted from 1, are inside.
pub fn in_bounds(b: Window, nx: usize, ny: usize) -> bool
    ensures { result ≡ in_bounds b.width b.height nx ny }
{
    0 < nx && nx <= b.width && 0 < ny && ny <= b.height
}

// The texel at column nx and row ny, counted from 1.
pub fn neighbour(xs: &[f32], b: Window, nx: usize, ny: usize) -> [f32; 3]
    requires sampled { Sampled b xs.now }
    requires ny_value { in_bounds b.width b.height nx ny ≡ true }
    ensures { result ≡ Rules.texel (Windows.cut_samples b xs.now) b.width b.channels (nx - 1) (ny - 1) }
{
    texel(xs, b, nx - 1, ny - 1)
}
