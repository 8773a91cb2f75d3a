// The order of a texel's channels as one number: between texels of one order no pair of channels crosses.
ghost use Rattle.std.specs.Prelude.{◌≡◌, ◌≤◌};
ghost use Rattle.detectors.specs.Orders as Orders;

use crate::pairs::difference;

// The least size of a difference whose sign is beyond doubt, and the largest of a channel.
const LEAST_DIFFERENCE: f32 = 0.015625;

const LARGEST_CHANNEL: f32 = 2048.0;

// A difference that is zero or large enough.
fn clear(d: f32) -> bool
    ensures { result ≡ Orders.clear d }
{
    (d == 0.0) | ((d >= LEAST_DIFFERENCE) | (d <= -LEAST_DIFFERENCE))
}

// A channel that is small enough.
fn moderate(v: f32) -> bool
    ensures { result ≡ Orders.moderate v }
{
    (v >= -LARGEST_CHANNEL) & (v <= LARGEST_CHANNEL)
}

// All channels are moderate and all differences clear. No test waits for another.
fn ordered(a: [f32; 3]) -> bool
    ensures { result ≡ Orders.ordered a }
{
    moderate(a[0])
        & (moderate(a[1])
            & (moderate(a[2])
                & (clear(difference(a, 0)) & (clear(difference(a, 1)) & clear(difference(a, 2))))))
}

// n where a difference is below zero, else 0.
fn sign(d: f32, n: u8) -> u8
    ensures { (result ≡ Orders.sign d n) × (result ≤ n) }
{
    if d < 0.0 { n } else { 0 }
}

// Which of the differences are below zero, as bits beside that of 8; 0 where the order is not beyond doubt.
// A number, since it is kept in a cell's byte beside the cell's bits, and three tests compare four of them at once.
pub fn order_code(a: [f32; 3]) -> u8
    ensures { (result ≡ Orders.order_code a) × (result ≤ 15) }
{
    if ordered(a) {
        8 + sign(difference(a, 0), 1) + sign(difference(a, 1), 2) + sign(difference(a, 2), 4)
    } else {
        0
    }
}

// The pairs of channels, as bits, whose signs four texels of these orders do not share: all three where an order is not beyond doubt.
pub fn doubt(a: u8, b: u8, c: u8, d: u8) -> u8
    ensures { (result ≡ Orders.doubt a b c d) × (result ≤ 7) }
{
    let x = (a ^ b) | ((a ^ c) | (a ^ d));
    if (a > 0) & (x < 8) { x } else { 7 }
}
