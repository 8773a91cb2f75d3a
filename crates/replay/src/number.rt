// Slices filled from the list's numbers: big-endian, a float as its bits. Beyond the list's end every byte is 0.
ghost use Rattle.std.specs.Prelude.{ℕ, ◌<◌, length};

// Fills a slice with the number at each index.
pub fn fill<T: Copy, F: Fn(usize) -> T>(to: &mut [T], number: F)
    requires { (k : ℕ) → k < length to.old → F.pre number k }
{
    for (i, x) in to.iter_mut().enumerate() {
        *x = number(i);
    }
}
