//! Powers up to a limit.

ghost use Rattle.std.specs.Prelude.{◌≡◌, suc, ◌<◌, ◌≤◌, ◌^◌};
ghost use Rattle.std.specs.Option.{MatchOption};

/// `factor ^ (exponent + 1)`, or nothing where that is over the limit. It stops at the first product that is.
pub fn power(factor: u128, exponent: usize, limit: u64) -> Option<u64>
    requires positive { 0 < factor }
    ensures power { MatchOption result (limit < factor ^ suc exponent)
        (λ power. (power ≡ factor ^ suc exponent) × (power ≤ limit)) }
{
    let limit = limit as u128;
    if factor > limit {
        return None;
    }
    let mut product = factor;
    for _ in 0..exponent {
        product *= factor;
        if product > limit {
            return None;
        }
    }
    Some(product as u64)
}
