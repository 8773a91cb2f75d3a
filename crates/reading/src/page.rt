// A page: a lent slice that is written from the front on, and the place that is written next. No Vec: nothing here needs a heap, and no text outgrows its page.
ghost use Rattle.std.specs.Prelude.{◌+◌, ◌≤◌, ◌<◌, [], ◌∷◌, length};
ghost use Rattle.reading.specs.Inner.{Put};

#[derive(Drop)]
pub struct Page<'a, T> {
    pub out: &'a mut [T],
    pub at: usize,
}

impl<'a, T: Copy> Page<'a, T> {
    pub fn put(&mut self, x: T)
        requires { self.old.at < length self.old.out.now }
        ensures { Put self.old (x ∷ []) self.new }
    {
        self.out[self.at] = x;
        self.at += 1;
    }

    pub fn put_all(&mut self, xs: &[T])
        requires { self.old.at + length xs.now ≤ length self.old.out.now }
        ensures { Put self.old xs.now self.new }
    {
        let end = self.at + xs.len();
        self.out[self.at..end].copy_from_slice(xs);
        self.at = end;
    }
}
