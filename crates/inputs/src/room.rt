// The room that is lent for two rows of medians: what a pass leaves in it.
ghost use Rattle.std.specs.Prelude.{◌≡◌, length};
ghost use Rattle.std.specs.Float.{binary32};
ghost use Rattle.numbers.specs.Constants.{zero_of};
ghost use Rattle.ground.specs.Lists.{tab};

// Zero in every element.
pub fn clear(room: &mut [f32])
    ensures { room.new ≡ tab (length room.old) (λ k. zero_of binary32) }
{
    room.fill(0.0);
}
