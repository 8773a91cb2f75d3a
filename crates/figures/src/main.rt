// The figures of docs/RULES.md and small bitmaps beside them, through the public pass.
#![tactic(auto)]

mod refusals;
mod run;
mod show;

use ranges::config::Settings;
use run::Task;
use std::io;

fn case_p() -> [f32; 6] {
    [1.0, 0.0, 0.75, 0.0, 1.0, 0.75]
}

fn case_c2() -> [f32; 6] {
    [1.0, 0.625, 0.75, 0.625, 1.0, 0.75]
}

fn case_c5() -> [f32; 6] {
    [0.75, 0.25, 0.625, 0.25, 0.75, 0.375]
}

fn sides(rt: &impl Print) -> io::Result<()> {
    run::pair(rt, "P", case_p(), 1, run::all(0.25))?;
    run::pair(rt, "P disabled", case_p(), 0, run::all(0.25))?;
    run::pair(rt, "C1", case_p(), 3, run::all(0.25))?;
    run::pair(rt, "C2", case_c2(), 1, run::all(0.0625))?;
    run::pair(rt, "C3", case_c2(), 1, run::all(0.125))?;
    run::pair(rt, "C4", case_c2(), 3, run::all(0.0625))?;
    run::upright(rt, "C2 upright", case_c2(), 1, run::all(0.0625))?;
    run::upright(rt, "C3 upright", case_c2(), 1, run::all(0.125))?;
    run::pair(rt, "C5", case_c5(), 2, run::all(0.25))?;
    run::pair(rt, "C6", case_c5(), 2, run::all(0.249))?;
    run::upright(rt, "C5 upright", case_c5(), 2, run::all(0.25))?;
    run::upright(rt, "C6 upright", case_c5(), 2, run::all(0.249))
}

fn spans(
    rt: &impl Print,
    name: &str,
    ratio: f64,
    horizontal: f64,
    vertical: f64,
) -> io::Result<()> {
    let s = Settings {
        ratio,
        horizontal,
        vertical,
        diagonal: 0.0,
    };
    run::pair(rt, name, case_c2(), 1, s)
}

fn spans_apart(rt: &impl Print) -> io::Result<()> {
    spans(rt, "C2 by the horizontal length", 1.0, 0.0625, 1.0)?;
    spans(rt, "C3 by the horizontal length", 1.0, 0.125, 0.0)?;
    spans(rt, "C3 by the ratio", 2.0, 0.0625, 0.0)?;
    spans(rt, "C2 by a ratio of minus zero", -0.0, 0.125, 1.0)?;
    spans(rt, "C3 by the limits", 1048576.0, 1048576.0, 1048576.0)
}

// Two rows of two texels.
fn four(a: [f32; 3], b: [f32; 3], c: [f32; 3], d: [f32; 3]) -> [f32; 12] {
    [
        a[0], a[1], a[2], b[0], b[1], b[2], c[0], c[1], c[2], d[0], d[1], d[2],
    ]
}

fn squares(rt: &impl Print) -> io::Result<()> {
    let red = [1.0f32, 0.0, 0.75];
    let green = [0.0f32, 1.0, 0.75];
    let even = [0.5f32, 0.5, 0.75];
    let c7 = four(red, even, even, green);
    run::square(rt, "C7", c7, 1, run::all(0.25))?;
    run::square(rt, "C7 disabled", c7, 0, run::all(0.25))?;
    run::square(rt, "C7 edge only", c7, 3, run::all(0.25))?;
    let mirrored = four(even, red, green, even);
    run::square(rt, "C7 mirrored", mirrored, 1, run::all(0.25))?;
    let black = [0.0f32; 3];
    let c5 = four([0.75, 0.25, 0.625], black, black, [0.25, 0.75, 0.375]);
    let s = Settings {
        ratio: 1.0,
        horizontal: 0.0,
        vertical: 0.0,
        diagonal: 0.25,
    };
    run::square(rt, "C5 diagonal", c5, 2, s)
}

// Quotients 1/100 and 99/100 are excluded; 1/99 and 98/99 are not.
fn quotients(rt: &impl Print) -> io::Result<()> {
    run::pair(rt, "C8", [0.0, 1.0, 0.0, 99.0, 0.0, 0.0], 1, run::all(0.0))?;
    run::pair(
        rt,
        "C8 inside",
        [0.0, 1.0, 0.0, 98.0, 0.0, 0.0],
        1,
        run::all(0.0),
    )?;
    run::pair(
        rt,
        "zeros",
        [-0.0, 0.0, 5.0, 0.0, 0.25, 0.0],
        1,
        run::all(0.0),
    )?;
    run::pair(
        rt,
        "zeros, blue first",
        [5.0, 0.0, -0.0, 0.0, 0.25, 0.0],
        1,
        run::all(0.0),
    )?;
    run::pair(
        rt,
        "zeros, above",
        [-0.0, 0.0, -5.0, 0.0, -0.25, 0.0],
        1,
        run::all(0.0),
    )
}

fn four_channels(rt: &impl Print) -> io::Result<()> {
    let mut xs = [1.0f32, 0.0, 0.75, 0.125, 0.0, 1.0, 0.75, 0.875];
    let mut stencil = [255u8; 2];
    let t = Task::new(2, 1, 4, 1, run::all(0.25));
    run::plain(rt, "P of four channels", t, &mut xs, &mut stencil)
}

fn one_texel(rt: &impl Print) -> io::Result<()> {
    let mut xs = [1.0f32, 0.0, 0.75];
    let mut stencil = [255u8; 1];
    let t = Task::new(1, 1, 3, 2, run::all(0.25));
    run::plain(rt, "one texel", t, &mut xs, &mut stencil)
}

fn points(rt: &impl Print) -> io::Result<()> {
    run::point(rt, "point (0,0)", 0.0, 0.0)?;
    run::point(rt, "point (1,1)", 1.0, 1.0)?;
    run::point(rt, "point (2.5,0.5)", 2.5, 0.5)?;
    run::point(rt, "point (2.25,1)", 2.25, 1.0)?;
    run::point(rt, "point (2.5,1)", 2.5, 1.0)?;
    run::point(rt, "point (-0.5,1)", -0.5, 1.0)?;
    run::point(rt, "point (-0.75,1)", -0.75, 1.0)?;
    run::point(rt, "point (1,2.25)", 1.0, 2.25)?;
    run::point(rt, "point (1,2.5)", 1.0, 2.5)?;
    run::point(rt, "point (1,-0.5)", 1.0, -0.5)?;
    run::point(rt, "point (1,-0.75)", 1.0, -0.75)?;
    run::point(rt, "point (1048576,1)", 1048576.0, 1.0)?;
    run::point(rt, "point (-1048576,1)", -1048576.0, 1.0)?;
    run::point(rt, "point (1,1048576)", 1.0, 1048576.0)?;
    run::point(rt, "point (1,-1048576)", 1.0, -1048576.0)
}

fn colours(rt: &impl Print) -> io::Result<()> {
    run::two(rt, "C9 colours 3 and 6", 3, 6)?;
    run::two(rt, "C9 colours 7 and 3", 7, 3)?;
    run::two(rt, "colours 7 and 7", 7, 7)?;
    run::two(rt, "colours 1 and 2", 1, 2)?;
    run::two(rt, "colours 0 and 7", 0, 7)?;
    run::ending(rt, "one contour", &[2])?;
    run::ending(rt, "empty contours around it", &[0, 2, 2])?;
    run::ending(rt, "two contours with empty ones", &[0, 1, 1, 2])
}

// Outlines over two texels side by side, in EdgePriority.
fn over(
    rt: &impl Print,
    name: &str,
    texels: [f32; 6],
    l: f64,
    colours: &[u8],
    coords: &[f64],
    ends: &[usize],
) -> io::Result<()> {
    let mut xs = texels;
    let mut stencil = [255u8; 2];
    let t = Task::new(2, 1, 3, 2, run::all(l));
    run::figure(rt, name, t, &mut xs, &mut stencil, colours, coords, ends)
}

// C5's two texels and two of (0, 0, 0) in a row, with a corner between the second and the third, in any mode.
fn beside(rt: &impl Print, name: &str, mode: u8) -> io::Result<()> {
    let mut xs = [
        0.75f32, 0.25, 0.625, 0.25, 0.75, 0.375, 0.0, 0.0, 0.0, 0.0, 0.0, 0.0,
    ];
    let mut stencil = [255u8; 4];
    let t = Task::new(4, 1, 3, mode, run::all(0.25));
    run::figure(
        rt,
        name,
        t,
        &mut xs,
        &mut stencil,
        &[3, 6],
        &[2.0, 0.5, 9.0, 9.0],
        &[2],
    )
}

fn corners_apart(rt: &impl Print) -> io::Result<()> {
    beside(rt, "C12", 2)?;
    beside(rt, "C12 edge only", 3)?;
    beside(rt, "C12 indiscriminate", 1)?;
    beside(rt, "C12 disabled", 0)
}

// 3 x 3 texels of two kinds by turns, in any mode: in Indiscriminate the middle one takes 84 range tests, the most that a texel can.
fn by_turns(rt: &impl Print, name: &str, mode: u8) -> io::Result<()> {
    let mut xs = [
        0.5f32, 1.0, 1.5, 2.5, 0.75, -0.5, 0.5, 1.0, 1.5, 2.5, 0.75, -0.5, 0.5, 1.0, 1.5, 2.5,
        0.75, -0.5, 0.5, 1.0, 1.5, 2.5, 0.75, -0.5, 0.5, 1.0, 1.5,
    ];
    let mut stencil = [255u8; 9];
    let t = Task::new(3, 3, 3, mode, run::all(16.0));
    run::plain(rt, name, t, &mut xs, &mut stencil)
}

fn all_tests(rt: &impl Print) -> io::Result<()> {
    by_turns(rt, "C13", 1)?;
    by_turns(rt, "C13 disabled", 0)
}

fn protected_texels(rt: &impl Print) -> io::Result<()> {
    over(
        rt,
        "P, left texel protected",
        case_p(),
        0.25,
        &[1],
        &[-0.25, 0.5],
        &[1],
    )?;
    over(
        rt,
        "C2, left texel protected",
        case_c2(),
        0.0625,
        &[1],
        &[-0.25, 0.5],
        &[1],
    )?;
    over(
        rt,
        "C2, both protected",
        case_c2(),
        0.0625,
        &[3, 6],
        &[1.0, 0.5, 9.0, 9.0],
        &[2],
    )?;
    over(
        rt,
        "C2, no corner any more",
        case_c2(),
        0.0625,
        &[3, 6, 7],
        &[1.0, 0.5, 9.0, 9.0, 9.0, 9.0],
        &[3],
    )
}

fn main(rt: HostRuntime) -> io::Result<()> {
    sides(&rt)?;
    spans_apart(&rt)?;
    squares(&rt)?;
    quotients(&rt)?;
    four_channels(&rt)?;
    one_texel(&rt)?;
    points(&rt)?;
    colours(&rt)?;
    protected_texels(&rt)?;
    corners_apart(&rt)?;
    all_tests(&rt)?;
    refusals::sizes(&rt)?;
    refusals::rooms(&rt)?;
    refusals::settings(&rt)?;
    refusals::samples(&rt)?;
    refusals::outlines(&rt)?;
    refusals::many(&rt)
}
