// Numbers in two's complement.
ghost use Rattle.std.specs.Prelude.{◌≡◌};
ghost use Rattle.std.specs.Int.Signed.{mag};
ghost use Rattle.walk.specs.Sign.{int_of, spell_of};

// The number that v spells in two's complement with `full` values; 0 where there is none in 31 bits.
pub fn int(v: u64, full: u64) -> i32
    ensures { result ≡ int_of full v }
{
    if full > 2_147_483_648 {
        return 0;
    }
    if v >= full {
        return 0;
    }
    if v < full / 2 {
        v as i32
    } else {
        -((full - v) as i32)
    }
}

// What spells x in two's complement with `full` values: `full` itself, which is too wide, where nothing does.
pub fn spelled(x: i32, full: u64) -> u64
    ensures { result ≡ spell_of full x }
{
    let n = magnitude(x);
    if n >= full / 2 {
        return full;
    }
    if x >= 0 {
        return n;
    }
    full - n - 1
}

// n of n, and n of -(n + 1).
fn magnitude(x: i32) -> u64
    ensures { result ≡ mag x }
{
    if x >= 0 {
        return x as u64;
    }
    let up = x + 1;
    let n = -up;
    n as u64
}
