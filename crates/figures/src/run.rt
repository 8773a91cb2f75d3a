// A figure is run through the public pass and printed.
use crate::show;
use correction::pass;
use inputs::sizes::Bitmap;
use ranges::config::Settings;
use std::io;

// Ratio 1 and three equal lengths.
pub fn all(l: f64) -> Settings {
    Settings {
        ratio: 1.0,
        horizontal: l,
        vertical: l,
        diagonal: l,
    }
}

// What a figure is run with, beside its samples and its outlines.
#[derive(Clone, Copy)]
pub struct Task {
    pub sizes: Bitmap,
    pub mode: u8,
    pub settings: Settings,
}

impl Task {
    pub fn new(width: usize, height: usize, channels: usize, mode: u8, settings: Settings) -> Task {
        let sizes = Bitmap {
            width,
            height,
            channels,
        };
        Task {
            sizes,
            mode,
            settings,
        }
    }
}

// In a room of any length.
pub fn lent(
    rt: &impl Print,
    name: &str,
    t: Task,
    xs: &mut [f32],
    stencil: &mut [u8],
    room: &mut [f32],
    colours: &[u8],
    coords: &[f64],
    ends: &[usize],
) -> io::Result<()> {
    let b = t.sizes;
    let a = pass::msdf_error_correction(
        b.width, b.height, b.channels, xs, stencil, room, t.mode, t.settings, colours, coords, ends,
    );
    show::line(rt, name, a, stencil, xs, b)
}

// In a room for two rows of four texels, the most that a figure has in a row.
pub fn figure(
    rt: &impl Print,
    name: &str,
    t: Task,
    xs: &mut [f32],
    stencil: &mut [u8],
    colours: &[u8],
    coords: &[f64],
    ends: &[usize],
) -> io::Result<()> {
    let mut room = [1.0f32; 8];
    lent(rt, name, t, xs, stencil, &mut room, colours, coords, ends)
}

// No outlines.
pub fn plain(
    rt: &impl Print,
    name: &str,
    t: Task,
    xs: &mut [f32],
    stencil: &mut [u8],
) -> io::Result<()> {
    let colours = [0u8; 0];
    let coords = [0.0f64; 0];
    let ends = [0usize; 0];
    figure(rt, name, t, xs, stencil, &colours, &coords, &ends)
}

// Two texels side by side, in any mode.
pub fn pair(
    rt: &impl Print,
    name: &str,
    texels: [f32; 6],
    mode: u8,
    s: Settings,
) -> io::Result<()> {
    let mut xs = texels;
    let mut stencil = [255u8; 2];
    plain(rt, name, Task::new(2, 1, 3, mode, s), &mut xs, &mut stencil)
}

// The same one above the other.
pub fn upright(
    rt: &impl Print,
    name: &str,
    texels: [f32; 6],
    mode: u8,
    s: Settings,
) -> io::Result<()> {
    let mut xs = texels;
    let mut stencil = [255u8; 2];
    plain(rt, name, Task::new(1, 2, 3, mode, s), &mut xs, &mut stencil)
}

// Two rows of two texels.
pub fn square(
    rt: &impl Print,
    name: &str,
    texels: [f32; 12],
    mode: u8,
    s: Settings,
) -> io::Result<()> {
    let mut xs = texels;
    let mut stencil = [255u8; 4];
    plain(rt, name, Task::new(2, 2, 3, mode, s), &mut xs, &mut stencil)
}

// Outlines over two rows of two texels with nothing else to protect or to flag, in EdgePriority.
pub fn outlines(
    rt: &impl Print,
    name: &str,
    colours: &[u8],
    coords: &[f64],
    ends: &[usize],
) -> io::Result<()> {
    let mut xs = [0.0f32; 12];
    let mut stencil = [255u8; 4];
    let t = Task::new(2, 2, 3, 2, all(0.0));
    figure(rt, name, t, &mut xs, &mut stencil, colours, coords, ends)
}

// One segment, which is its own predecessor and shares one colour bit with itself.
pub fn point(rt: &impl Print, name: &str, x: f64, y: f64) -> io::Result<()> {
    let colours = [1u8];
    let coords = [x, y];
    let ends = [1usize];
    outlines(rt, name, &colours, &coords, &ends)
}

// A contour of two segments, one at the lower left corner of the bitmap and one at the upper right.
pub fn two(rt: &impl Print, name: &str, first: u8, second: u8) -> io::Result<()> {
    let colours = [first, second];
    let coords = [0.0f64, 0.0, 2.0, 2.0];
    let ends = [2usize];
    outlines(rt, name, &colours, &coords, &ends)
}

// The same two, of colours 3 and 6, with any ends.
pub fn ending(rt: &impl Print, name: &str, ends: &[usize]) -> io::Result<()> {
    let colours = [3u8, 6];
    let coords = [0.0f64, 0.0, 2.0, 2.0];
    outlines(rt, name, &colours, &coords, ends)
}
