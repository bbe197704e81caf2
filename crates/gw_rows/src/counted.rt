ghost use Rattle.std.specs.Prelude.{◌≡◌, cond};

/// One for a match that counts: an earlier one of the same name makes it count nothing.
pub fn one_unless(is_repeated: bool) -> usize
    ensures { result ≡ cond is_repeated 0 1 }
{
    if is_repeated { 0 } else { 1 }
}
