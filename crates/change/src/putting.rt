// Putting a record's values that were judged.
ghost use Rattle.std.specs.Prelude.{◌≡◌};
ghost use Rattle.format.specs.Correcting.{put_in};
ghost use Rattle.format.specs.Fmt.{pad};

// Fill from bit `at` up to a whole byte.
pub fn fill(buf: &mut [u8], at: usize)
    ensures { buf.new ≡ put_in buf.old at (pad at) 0 }
{
    let width = (8 - at % 8) % 8;
    bits::put(buf, at, width, 0);
}
