//! Numbers of 64 bits as the entries of rows: each call is one of rows of such numbers.

use crate::entry::Entry;
use rob_number::Wide;
use rob_rows::{Factors, bound_of, combine_lowest, lowest, product};
use std::cmp::Ordering;

impl Entry for i64 {
    ghost use Rattle.std.specs.Prelude.{◌-◌, ◌^◌, refl};
    ghost use Rattle.rob_entries.specs.Entries.{short_low, short_high};

    ghost value = { λ number. number };

    ghost top = { 2 ^ 62 - 1 };

    ghost TOP = { 2 ^ 62 - 1 };

    ghost top_told = { refl };

    ghost top_low = { short_low };

    ghost top_high = { short_high };

    ghost injective = { λ x y e. e };

    ghost clones = { λ x y e. e };

    const TOP: u128 = (1 << 62) - 1;

    fn of(number: i64) -> i64 {
        number
    }

    fn whole(self) -> Option<i64> {
        if self.unsigned_abs() < 1 << 62 {
            Some(self)
        } else {
            None
        }
    }

    fn minus(self) -> i64 {
        -self
    }

    fn size(self) -> u128 {
        self.unsigned_abs() as u128
    }

    fn sign(self) -> Ordering {
        self.cmp(&0)
    }

    fn order(a: i64, p: i64, b: i64, q: i64) -> Ordering {
        product(a, q).cmp(&product(b, p))
    }

    fn lowest(p: i64, q: i64) -> (i64, i64) {
        let parts = lowest(p, q);
        (parts.p, parts.q)
    }

    fn bound_of(p: i64, bound: u128, q: i64, other: u128, limit: u128) -> Option<u128> {
        match bound_of(Factors { p, q }, bound as u64, other as u64, limit as u64) {
            Some(sum) => Some(sum as u128),
            None => None,
        }
    }

    fn fused(p: i64, a: i64, q: i64, b: i64) -> i64 {
        p * a - q * b
    }

    fn combine(
        out: &mut [i64],
        p: i64,
        upper: &[i64],
        q: i64,
        low: &[i64],
        limit: u128,
    ) -> Result<(), Wide> {
        combine_lowest(out, Factors { p, q }, upper, low, limit as u64)
    }

    fn largest(row: &[i64]) -> u128 {
        rob_rows::largest(row) as u128
    }

    fn reduce(row: &mut [i64], limit: u128) {
        rob_rows::to_lowest_terms(row, limit as u64)
    }
}
