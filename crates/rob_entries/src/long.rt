//! Numbers of 128 bits as the entries of rows: each call is one of rows of such numbers.

use crate::entry::Entry;
use rob_deep::Factors;
use rob_number::Wide;
use std::cmp::Ordering;

impl Entry for i128 {
    ghost use Rattle.std.specs.Prelude.{◌-◌, ◌^◌, refl};
    ghost use Rattle.rob_entries.specs.Entries.{long_low, long_high};

    ghost value = { λ number. number };

    ghost top = { 2 ^ 126 - 1 };

    ghost TOP = { 2 ^ 126 - 1 };

    ghost top_told = { refl };

    ghost top_low = { long_low };

    ghost top_high = { long_high };

    ghost injective = { λ x y e. e };

    ghost clones = { λ x y e. e };

    const TOP: u128 = (1 << 126) - 1;

    fn of(number: i64) -> i128 {
        number as i128
    }

    fn whole(self) -> Option<i64> {
        if self.unsigned_abs() < 1 << 62 {
            Some(self as i64)
        } else {
            None
        }
    }

    fn minus(self) -> i128 {
        -self
    }

    fn size(self) -> u128 {
        self.unsigned_abs()
    }

    fn sign(self) -> Ordering {
        self.cmp(&0)
    }

    fn order(a: i128, p: i128, b: i128, q: i128) -> Ordering {
        rob_deep::product_order(a, q, b, p)
    }

    fn lowest(p: i128, q: i128) -> (i128, i128) {
        let parts = rob_deep::lowest(p, q);
        (parts.p, parts.q)
    }

    fn bound_of(p: i128, bound: u128, q: i128, other: u128, limit: u128) -> Option<u128> {
        rob_deep::bound_of(Factors { p, q }, bound, other, limit)
    }

    fn fused(p: i128, a: i128, q: i128, b: i128) -> i128 {
        rob_deep::fused(Factors { p, q }, a, b)
    }

    fn combine(
        out: &mut [i128],
        p: i128,
        upper: &[i128],
        q: i128,
        low: &[i128],
        limit: u128,
    ) -> Result<(), Wide> {
        let own = out.len() - 1;
        rob_deep::combine_deep(out, Factors { p, q }, upper, low, own, limit)
    }

    fn largest(row: &[i128]) -> u128 {
        rob_deep::largest(row)
    }

    fn reduce(row: &mut [i128], limit: u128) {
        rob_deep::to_lowest_terms(row, limit)
    }
}
