//! The two factors of a combination, over their greatest common divisor.

ghost use Rattle.std.specs.Prelude.{◌^◌, ◌<◌, ◌≤◌, nat_abs};
ghost use Rattle.rob_algebra.specs.Gcd.{gcd};
ghost use Rattle.rob_rows.specs.Factors.{IsMultiple};

use rob_number::gcd64;

/// Two factors of a combination of rows: `p` times one row less `q` times another.
#[derive(Clone, Copy, Drop)]
pub struct Factors {
    pub p: i64,
    pub q: i64,
}

/// The factors over their greatest common divisor; two zeros stay. The row that they combine to keeps its direction.
pub fn lowest(p: i64, q: i64) -> Factors
    requires p_size { nat_abs p < 2 ^ 62 }
    requires q_size { nat_abs q < 2 ^ 62 }
    ensures multiple { IsMultiple p q result.p result.q }
    ensures p_size { nat_abs result.p < 2 ^ 62 }
    ensures q_size { nat_abs result.q < 2 ^ 62 }
    ensures lowest { gcd (nat_abs result.p) (nat_abs result.q) ≤ 1 }
{
    let common = gcd64(p.unsigned_abs(), q.unsigned_abs());
    if common <= 1 {
        return Factors { p, q };
    }
    Factors {
        p: p / common as i64,
        q: q / common as i64,
    }
}
