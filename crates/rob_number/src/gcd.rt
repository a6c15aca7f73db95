//! The greatest common divisor, by Euclid's algorithm. (Knuth, The Art of Computer Programming, volume 2, section
//! 4.5.2.)

ghost use Rattle.std.specs.Prelude.{◌≡◌};
ghost use Rattle.rob_algebra.specs.Gcd.{gcd};

/// The greatest common divisor. That of 0 and 0 is 0, that of 0 and a number the number.
pub fn gcd128(a: u128, b: u128) -> u128
    ensures divisor { result ≡ gcd a b }
{
    let mut x = a;
    let mut y = b;
    while y > u64::MAX as u128 {
        let rest = x % y;
        x = y;
        y = rest;
    }
    if y == 0 {
        return x;
    }
    let rest = x % y;
    gcd64(y as u64, rest as u64) as u128
}

/// The same in 64 bits, where a division is several times as fast.
pub fn gcd64(a: u64, b: u64) -> u64
    ensures divisor { result ≡ gcd a b }
{
    let mut x = a;
    let mut y = b;
    while y != 0 {
        let rest = x % y;
        x = y;
        y = rest;
    }
    x
}
