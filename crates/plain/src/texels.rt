// Where texels lie: row 0 at the bottom, channels interleaved.
ghost use Rattle.std.specs.Prelude.{◌≡◌, ◌<◌, Some, None, if◌then◌else◌};
ghost use Rattle.inputs.specs.Inner.{Sized};
ghost use Rattle.correction.specs.Bitmap as Rules;
ghost use Rattle.plain.specs.Inner as Inner;

use inputs::sizes::Bitmap;

// The column or row before x; 4,096, which no bitmap has, before the first.
pub fn previous(x: usize) -> usize
    ensures { result ≡ Inner.previous x }
{
    if x == 0 { 4096 } else { x - 1 }
}

// A bitmap that is read: its samples and its sizes, which fit each other.
#[derive(Clone, Copy)]
pub struct Texels<'a> {
    pub samples: &'a [f32],
    pub bitmap: Bitmap,
    ghost sized: { Sized bitmap.width bitmap.height bitmap.channels samples.now },
}

impl<'a> Texels<'a> {
    // The first three channels of texel x, y, where there is one.
    pub fn texel(&self, x: usize, y: usize) -> Option<[f32; 3]>
        ensures { result ≡ (if Inner.is_texel self.now.bitmap.width self.now.bitmap.height x y then Some (Rules.texel self.now.samples.now self.now.bitmap.width self.now.bitmap.channels x y) else None) }
    {
        if (x < self.bitmap.width) & (y < self.bitmap.height) {
            let texel = Texel { of: *self, x, y };
            return Some(texel.channels());
        }
        None
    }
}

// A texel of such a bitmap: its column and its row.
#[derive(Clone, Copy)]
pub struct Texel<'a> {
    pub of: Texels<'a>,
    pub x: usize,
    pub y: usize,
    ghost inside: { (x < of.bitmap.width) × (y < of.bitmap.height) },
}

impl<'a> Texel<'a> {
    // Its first three channels.
    pub fn channels(&self) -> [f32; 3]
        ensures { result ≡ Rules.texel self.now.of.samples.now self.now.of.bitmap.width self.now.of.bitmap.channels self.now.x self.now.y }
    {
        let xs = self.of.samples;
        let at = (self.y * self.of.bitmap.width + self.x) * self.of.bitmap.channels;
        [xs[at], xs[at + 1], xs[at + 2]]
    }
}
