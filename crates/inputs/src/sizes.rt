// The sizes of a bitmap, and of a window of a sheet.
ghost use Rattle.std.specs.Prelude.{◌≡◌};
ghost use Rattle.inputs.specs.Bounds.{in_bounds};

#[derive(Clone, Copy)]
pub struct Bitmap {
    pub width: usize,
    pub height: usize,
    pub channels: usize,
}

// A window of a sheet: its sizes, the number of its first cell in the sheet, and how many cells a row of the sheet has.
// A bitmap alone is the window that is the whole. The sizes are fields of its own, since the definitions of windows read them there.
#[derive(Clone, Copy)]
pub struct Window {
    pub width: usize,
    pub height: usize,
    pub channels: usize,
    pub origin: usize,
    pub stride: usize,
}

// Column nx and row ny, counted from 1, are inside.
pub fn in_bounds(width: usize, height: usize, nx: usize, ny: usize) -> bool
    ensures { result ≡ in_bounds width height nx ny }
{
    0 < nx && nx <= width && 0 < ny && ny <= height
}
