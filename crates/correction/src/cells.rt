// The cells of a sheet: how their numbers are laid out, and checks 1, 50 to 53 and 60. A cell has ten numbers: x, y, width, height, and of the colours, of the
// coordinates and of the ends where its run starts and how many it takes; and four settings: the ratio and the three lengths.
ghost use Rattle.std.specs.Prelude.{◌≡◌, ◌+◌, ◌*◌, ◌<◌, ◌≤◌, cond, ltb, length};
ghost use Rattle.inputs.specs.Checks.{bad_channels, bad_room};
ghost use Rattle.correction.specs.Sheet as Sheet;
ghost use Rattle.correction.specs.Sheet.{failure_in, of_sheet};
ghost use Rattle.correction.specs.Cells.{AreaInside, AreasInside, Found, cell_at};

use crate::refusal::Refusal;
use inputs::checks;
use inputs::outline::Outline;
use inputs::sizes::{Bitmap, Window};
use ranges::config::Settings;

// Where a cell lies: the column and the row of its first texel, its width and its height.
#[derive(Clone, Copy)]
pub struct Area {
    pub x: usize,
    pub y: usize,
    pub width: usize,
    pub height: usize,
}

// A run of a list.
#[derive(Clone, Copy)]
pub struct Run {
    pub from: usize,
    pub count: usize,
}

impl Run {
    // What it takes of its list.
    pub fn of<T>(self, xs: &[T]) -> &[T]
        requires { self.from + self.count ≤ length xs.now }
        ensures { result.now ≡ Sheet.taken self xs.now }
    {
        &xs[self.from..self.from + self.count]
    }
}

// A cell: its window, its settings and its runs of the three lists.
#[derive(Clone, Copy)]
pub struct Cell {
    pub window: Window,
    pub settings: Settings,
    pub colours: Run,
    pub coords: Run,
    pub ends: Run,
}

impl Cell {
    // What its runs take of the sheet's outlines.
    pub fn outline<'a>(self, all: Outline<'a>) -> Outline<'a>
        requires colours { self.colours.from + self.colours.count ≤ length all.colours.now }
        requires coords { self.coords.from + self.coords.count ≤ length all.coords.now }
        requires ends { self.ends.from + self.ends.count ≤ length all.ends.now }
        ensures colours { result.colours.now ≡ Sheet.taken self.colours all.entry.colours.now }
        ensures coords { result.coords.now ≡ Sheet.taken self.coords all.entry.coords.now }
        ensures ends { result.ends.now ≡ Sheet.taken self.ends all.entry.ends.now }
    {
        Outline {
            colours: self.colours.of(all.colours),
            coords: self.coords.of(all.coords),
            ends: self.ends.of(all.ends),
        }
    }
}

// The lengths of what is handed over.
#[derive(Clone, Copy)]
pub struct Lengths {
    pub samples: usize,
    pub stencil: usize,
    pub room: usize,
    pub cells: usize,
    pub modes: usize,
    pub settings: usize,
}

// Where cell c lies.
fn area_at(cells: &[usize], c: usize) -> Area
    requires { 10 * c + 10 ≤ length cells.now }
    ensures { result ≡ Sheet.area_at cells.now c }
{
    let at = 10 * c;
    Area {
        x: cells[at],
        y: cells[at + 1],
        width: cells[at + 2],
        height: cells[at + 3],
    }
}

// The run of which two numbers say where it starts and how many it takes.
fn run_at(cells: &[usize], at: usize) -> Run
    requires { at + 1 < length cells.now }
    ensures { result ≡ Sheet.run_at cells.now at }
{
    Run {
        from: cells[at],
        count: cells[at + 1],
    }
}

// The settings of cell c.
fn settings_at(settings: &[f64], c: usize) -> Settings
    requires { 4 * c + 4 ≤ length settings.now }
    ensures { result ≡ Sheet.settings_at settings.now c }
{
    let at = 4 * c;
    Settings {
        ratio: settings[at],
        horizontal: settings[at + 1],
        vertical: settings[at + 2],
        diagonal: settings[at + 3],
    }
}

// The window that an area of a sheet is.
fn window_of(b: Bitmap, a: Area) -> Window
    requires { AreaInside b.width b.height a × (b.width ≤ 4096) × (b.height ≤ 4096) }
    ensures { result ≡ Sheet.window_of b.width b.channels a }
{
    Window {
        width: a.width,
        height: a.height,
        channels: b.channels,
        origin: a.y * b.width + a.x,
        stride: b.width,
    }
}

// Cell c of a sheet.
pub fn cell_at(b: Bitmap, cells: &[usize], settings: &[f64], c: usize) -> Cell
    requires c_in_bounds { (10 * c + 10 ≤ length cells.now) × (4 * c + 4 ≤ length settings.now) }
    requires area_inside { AreaInside b.width b.height (Sheet.area_at cells.now c) × (b.width ≤ 4096) × (b.height ≤ 4096) }
    ensures { result ≡ cell_at b.width b.channels cells.now settings.now c }
{
    let at = 10 * c;
    let window = window_of(b, area_at(cells, c));
    let s = settings_at(settings, c);
    let colours = run_at(cells, at + 4);
    let coords = run_at(cells, at + 6);
    let ends = run_at(cells, at + 8);
    Cell {
        window,
        settings: s,
        colours,
        coords,
        ends,
    }
}

// Checks 1, 50 and 60.
pub fn check_sheet(b: Bitmap, n: Lengths) -> Result<(), Refusal>
    ensures { failure_in result ≡ cond (bad_channels b.channels) (of_sheet 1) (cond (Sheet.bad_sheet b.width b.height b.channels n.samples n.stencil n.cells n.modes n.settings) (of_sheet 50) (cond (bad_room b.width n.room) (of_sheet 60) (of_sheet 0))) }
{
    if checks::bad_channels(b.channels) {
        return Err(Refusal::Channels);
    }
    if checks::check_size(b, n.samples, n.stencil).is_err() {
        return Err(Refusal::Sheet);
    }
    if n.modes > 4096 {
        return Err(Refusal::Sheet);
    }
    if n.cells != 10 * n.modes {
        return Err(Refusal::Sheet);
    }
    if n.settings != 4 * n.modes {
        return Err(Refusal::Sheet);
    }
    if checks::bad_room(b.width, n.room) {
        return Err(Refusal::Room);
    }
    Ok(())
}

// So many from a start on go beyond the end.
fn beyond(from: usize, count: usize, end: usize) -> bool
    ensures { result ≡ ltb end (from + count) }
{
    if count > end {
        return true;
    }
    from > end - count
}

// A cell that is empty or not inside the sheet.
fn bad_area(b: Bitmap, a: Area) -> bool
    ensures { result ≡ Sheet.bad_area b.width b.height a }
{
    a.width == 0
        || a.height == 0
        || beyond(a.x, a.width, b.width)
        || beyond(a.y, a.height, b.height)
}

// Check 51: the first such cell.
pub fn first_outside(b: Bitmap, cells: &[usize], n: usize) -> Option<usize>
    requires { (length cells.now ≡ 10 * n) × (n ≤ 4096) }
    ensures { Found (Sheet.first_outside b.width b.height cells.now n) n result }
{
    (0..n).find(|&c| bad_area(b, area_at(cells, c)))
}

// Two cells share a texel.
fn overlap(a: Area, b: Area) -> bool
    requires { AreaInside 4096 4096 a × AreaInside 4096 4096 b }
    ensures { result ≡ Sheet.overlap a b }
{
    a.x < b.x + b.width && b.x < a.x + a.width && a.y < b.y + b.height && b.y < a.y + a.height
}

// Cell c shares one with an earlier cell.
fn overlaps_earlier(cells: &[usize], c: usize) -> bool
    requires c_in_bounds { (10 * c + 10 ≤ length cells.now) × (c < 4096) }
    requires areas_inside { AreasInside 4096 4096 cells.now (c + 1) }
    ensures { result ≡ Sheet.overlaps_earlier cells.now c }
{
    let a = area_at(cells, c);
    for d in 0..c {
        if overlap(area_at(cells, d), a) {
            return true;
        }
    }
    false
}

// Check 52: the first such cell. All pairs of cells are compared, and no texels.
pub fn first_overlap(cells: &[usize], n: usize) -> Option<usize>
    requires cells_len { (length cells.now ≡ 10 * n) × (n ≤ 4096) }
    requires areas_inside { AreasInside 4096 4096 cells.now n }
    ensures { Found (Sheet.first_overlap cells.now n) n result }
{
    (0..n).find(|&c| overlaps_earlier(cells, c))
}

// A run that is not inside its list of n.
fn bad_run(r: Run, n: usize) -> bool
    ensures { result ≡ Sheet.bad_run r n }
{
    beyond(r.from, r.count, n)
}

// One of cell c's runs is bad.
fn bad_runs(cells: &[usize], c: usize, all: Outline) -> bool
    requires { (10 * c + 10 ≤ length cells.now) × (c < 4096) }
    ensures { result ≡ Sheet.bad_runs cells.now (length all.entry.colours.now) (length all.entry.coords.now) (length all.entry.ends.now) c }
{
    let at = 10 * c;
    bad_run(run_at(cells, at + 4), all.colours.len())
        || bad_run(run_at(cells, at + 6), all.coords.len())
        || bad_run(run_at(cells, at + 8), all.ends.len())
}

// Check 53: the first such cell.
pub fn first_bad_run(cells: &[usize], n: usize, all: Outline) -> Option<usize>
    requires { (length cells.now ≡ 10 * n) × (n ≤ 4096) }
    ensures { Found (Sheet.first_bad_run cells.now n (length all.entry.colours.now) (length all.entry.coords.now) (length all.entry.ends.now)) n result }
{
    (0..n).find(|&c| bad_runs(cells, c, all))
}
