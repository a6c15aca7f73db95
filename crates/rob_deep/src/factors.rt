//! The two factors of a combination, over their greatest common divisor.

ghost use Rattle.std.specs.Prelude.{◌^◌, ◌<◌, nat_abs};
ghost use Rattle.rob_rows.specs.Factors.{IsMultiple};
ghost use Rattle.rob_deep.specs.Factors.{AreLowest};

use rob_number::gcd128;

/// Two factors of a combination of rows: `p` times one row less `q` times another.
#[derive(Clone, Copy, Drop)]
pub struct Factors {
    pub p: i128,
    pub q: i128,
}

/// The factors over their greatest common divisor; two zeros stay. The row that they combine to keeps its direction.
pub fn lowest(p: i128, q: i128) -> Factors
    requires p_size { nat_abs p < 2 ^ 126 }
    requires q_size { nat_abs q < 2 ^ 126 }
    ensures multiple { IsMultiple p q result.p result.q }
    ensures lowest { AreLowest result }
{
    let common = gcd128(p.unsigned_abs(), q.unsigned_abs());
    if common <= 1 {
        return Factors { p, q };
    }
    Factors {
        p: p / common as i128,
        q: q / common as i128,
    }
}
