// Each refusal with its place. A stencil that is left as it was shows as `?`.
use crate::run;
use crate::run::Task;
use ranges::config::Settings;
use std::io;

fn sized(
    rt: &impl Print,
    name: &str,
    w: usize,
    h: usize,
    ch: usize,
    stencil: &mut [u8],
) -> io::Result<()> {
    let mut xs = [0.0f32; 6];
    run::plain(
        rt,
        name,
        Task::new(w, h, ch, 1, run::all(0.25)),
        &mut xs,
        stencil,
    )
}

pub fn sizes(rt: &impl Print) -> io::Result<()> {
    let mut two = [255u8; 2];
    sized(rt, "channels 2", 2, 1, 2, &mut two)?;
    sized(rt, "channels 5", 2, 1, 5, &mut two)?;
    sized(rt, "channels 0, width 0", 0, 1, 0, &mut two)?;
    sized(rt, "width 0", 0, 1, 3, &mut two)?;
    sized(rt, "height 0", 2, 0, 3, &mut two)?;
    sized(rt, "width 4097", 4097, 1, 3, &mut two)?;
    sized(rt, "height 4097", 2, 4097, 3, &mut two)?;
    sized(rt, "samples too few", 2, 2, 3, &mut two)?;
    sized(rt, "samples too many", 1, 1, 3, &mut two)?;
    let mut three = [255u8; 3];
    sized(rt, "stencil too long", 2, 1, 3, &mut three)?;
    let mut one = [255u8; 1];
    sized(rt, "stencil too short", 2, 1, 3, &mut one)?;
    sized(rt, "width 1", 1, 2, 3, &mut two)
}

// One row, in a room of any length.
fn lent(rt: &impl Print, name: &str, w: usize, mode: u8, room: &mut [f32]) -> io::Result<()> {
    let mut xs = [0.0f32; 6];
    let mut stencil = [255u8; 2];
    let t = Task::new(w, 1, 3, mode, run::all(0.25));
    run::lent(rt, name, t, &mut xs, &mut stencil, room, &[], &[], &[])
}

pub fn rooms(rt: &impl Print) -> io::Result<()> {
    let mut three = [1.0f32; 3];
    lent(rt, "room too short", 2, 1, &mut three)?;
    lent(rt, "room too short, samples too many", 1, 1, &mut three)?;
    lent(rt, "room too short, mode 4", 2, 4, &mut three)?;
    let mut none = [1.0f32; 0];
    lent(rt, "no room, disabled", 2, 0, &mut none)?;
    let mut four = [1.0f32; 4];
    lent(rt, "room for two rows", 2, 1, &mut four)
}

fn set(
    rt: &impl Print,
    name: &str,
    mode: u8,
    ratio: f64,
    horizontal: f64,
    vertical: f64,
    diagonal: f64,
) -> io::Result<()> {
    let s = Settings {
        ratio,
        horizontal,
        vertical,
        diagonal,
    };
    run::pair(rt, name, [0.0; 6], mode, s)
}

pub fn settings(rt: &impl Print) -> io::Result<()> {
    let nan = f64::NAN;
    let infinity = f64::INFINITY;
    set(rt, "mode 4", 4, nan, 1.0, 1.0, 1.0)?;
    set(rt, "ratio NaN", 1, nan, -1.0, 1.0, 1.0)?;
    set(rt, "horizontal below 0", 1, 1.0, -0.5, 1.0, 1.0)?;
    set(rt, "vertical above the limit", 1, 1.0, 1.0, 1048576.5, 1.0)?;
    set(rt, "diagonal infinite", 1, 1.0, 1.0, 1.0, infinity)?;
    set(
        rt,
        "disabled, diagonal infinite",
        0,
        1.0,
        1.0,
        1.0,
        infinity,
    )
}

pub fn samples(rt: &impl Print) -> io::Result<()> {
    let nan = f32::NAN;
    let infinity = f32::INFINITY;
    run::pair(
        rt,
        "sample 4 NaN",
        [0.0, 0.0, 0.0, 0.0, nan, nan],
        1,
        run::all(0.0),
    )?;
    run::pair(
        rt,
        "sample 0 infinite",
        [infinity, 0.0, 0.0, 0.0, 0.0, 0.0],
        1,
        run::all(0.0),
    )?;
    run::pair(
        rt,
        "sample 5 above the limit",
        [1048576.0, 0.0, 0.0, 0.0, 0.0, 1048576.125],
        1,
        run::all(0.0),
    )?;
    run::pair(
        rt,
        "sample 2 below the limit",
        [0.0, 0.0, -1048576.125, 0.0, 0.0, 0.0],
        1,
        run::all(0.0),
    )?;
    run::pair(
        rt,
        "samples at the limit",
        [1048576.0, -1048576.0, 0.0, 0.0, 0.0, 0.0],
        0,
        run::all(0.0),
    )
}

pub fn outlines(rt: &impl Print) -> io::Result<()> {
    let nan = f64::NAN;
    let infinity = f64::INFINITY;
    run::outlines(rt, "coordinates too few", &[1, 1], &[0.0, 0.0, 1.0], &[2])?;
    run::outlines(
        rt,
        "coordinates too many",
        &[1],
        &[0.0, 0.0, 1.0, 1.0],
        &[1],
    )?;
    run::ending(rt, "first end too far", &[3, 2])?;
    run::ending(rt, "second end below the first", &[1, 0])?;
    run::ending(rt, "last end too near", &[0, 1])?;
    run::ending(rt, "no ends", &[])?;
    run::outlines(rt, "colour 8", &[1, 8], &[0.0, 0.0, nan, 0.0], &[2])?;
    run::outlines(
        rt,
        "coordinate NaN",
        &[1, 1, 1],
        &[0.0, 0.0, 1.0, nan, nan, 0.0],
        &[3],
    )?;
    run::point(rt, "coordinate infinite", 1.0, -infinity)?;
    run::point(rt, "point (1048576.5,1)", 1048576.5, 1.0)?;
    run::point(rt, "point (1,-1048576.5)", 1.0, -1048576.5)
}

// As many segments as check 7 lets through, and one more.
pub fn many(rt: &impl Print) -> io::Result<()> {
    let colours = [0u8; 65537];
    let coords = [0.0f64; 131074];
    run::outlines(
        rt,
        "65536 segments",
        &colours[..65536],
        &coords[..131072],
        &[65536],
    )?;
    run::outlines(rt, "65537 segments", &colours, &coords, &[65537])
}
