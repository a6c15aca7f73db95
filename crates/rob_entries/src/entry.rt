//! The entries of rows: whole numbers of one type, up to a size that the type allows.

ghost use Rattle.std.specs.Prelude.{◌≡◌, ◌≢◌, ◌+◌, ◌-◌, ◌*◌, ◌^◌, ◌<◌, ◌≤◌, ◌↔◌, ◌*ℤ◌, ◌-ℤ◌, ◌<ℤ◌, ℕ, ℤ, pos, neg_ℤ, nat_abs, map, length, Any, IsTrue, IfSome, IfNone, OnOk, OnErr};
ghost use Rattle.std.specs.Ordering.{MatchOrdering, int_cmp};
ghost use Rattle.rob_algebra.specs.Gcd.{gcd};
ghost use Rattle.rob_linear.specs.Vectors.{at};
ghost use Rattle.rob_rows.specs.PrimitiveParts.{combination, content, IsPrimitivePart, IsWithin, HasWidePart};
ghost use Rattle.rob_entries.specs.Entries.{AreFactors, ArePartsOf};

use rob_number::Wide;
use std::cmp::Ordering;

/// Whole numbers that rows are made of. A row's entries are within a limit that the type allows; how they are added and
/// multiplied is the type's own secret. No call takes memory.
pub trait Entry: Copy + Drop {
    /// The number that an entry is.
    ghost value: { Self → ℤ };

    /// The greatest limit that rows may have.
    ghost top: { ℕ };

    /// The same, as the constant that code reads.
    ghost TOP: { ℕ };

    /// The greatest limit that rows may have, from 2^62 - 1 to 2^126 - 1.
    const TOP: u128;

    /// A number of 62 bits as an entry.
    fn of(number: i64) -> Self
        requires small { nat_abs number < 2 ^ 62 }
        ensures value { value result ≡ number };

    /// The number, where it has 62 bits.
    fn whole(self) -> Option<i64>
        ensures same { IfSome result (λ number. number ≡ value self) }
        ensures small { IfSome result (λ number. nat_abs number < 2 ^ 62) }
        ensures wide { IfNone result (2 ^ 62 ≤ nat_abs (value self)) };

    /// The number with the other sign.
    fn minus(self) -> Self
        requires within { nat_abs (value self) ≤ top }
        ensures value { value result ≡ neg_ℤ (value self) };

    /// Its size.
    fn size(self) -> u128
        ensures size { result ≡ nat_abs (value self) };

    /// Whether it is below 0, 0, or above 0.
    fn sign(self) -> Ordering
        ensures sign { MatchOrdering result (value self <ℤ pos 0) (value self ≡ pos 0)
            (pos 0 <ℤ value self) };

    /// Whether it is 0.
    final fn is_zero(self) -> bool
        ensures zero { IsTrue result ↔ (value self ≡ pos 0) }
    {
        self.sign().is_eq()
    }

    /// Whether it is below 0.
    final fn is_negative(self) -> bool
        ensures negative { IsTrue result ↔ (value self <ℤ pos 0) }
    {
        self.sign().is_lt()
    }

    /// The order of `a` over `p` and `b` over `q`, for divisors above 0: that of the products a * q and b * p. The
    /// numbers may have any size.
    fn order(a: Self, p: Self, b: Self, q: Self) -> Ordering
        ensures order { result ≡ int_cmp (value a *ℤ value q) (value b *ℤ value p) };

    /// Two factors over their greatest common divisor; two zeros stay.
    fn lowest(p: Self, q: Self) -> (Self, Self)
        requires p_size { nat_abs (value p) ≤ top }
        requires q_size { nat_abs (value q) ≤ top }
        ensures parts { ArePartsOf (value p) (value q) (value result.0) (value result.1) }
        ensures lowest { gcd (nat_abs (value result.0)) (nat_abs (value result.1)) ≤ 1 };

    /// A bound on the entries of p times one row less q times another, from one on the entries of each; nothing exactly
    /// where it is over the limit.
    fn bound_of(p: Self, bound: u128, q: Self, other: u128, limit: u128) -> Option<u128>
        requires p_size { nat_abs (value p) ≤ top }
        requires q_size { nat_abs (value q) ≤ top }
        requires limit { limit ≤ top }
        requires bound_in { bound ≤ limit }
        requires other_in { other ≤ limit }
        ensures bound { IfSome result (λ sum. sum
            ≡ nat_abs (value p) * bound + nat_abs (value q) * other) }
        ensures within { IfSome result (λ sum. sum ≤ limit) }
        ensures wide { IfNone result (limit < nat_abs (value p) * bound + nat_abs
            (value q) * other) };

    /// p * a - q * b, where the sizes of both products together are within what the type allows.
    fn fused(p: Self, a: Self, q: Self, b: Self) -> Self
        requires narrow { nat_abs (value p) * nat_abs (value a) + nat_abs (value q) * nat_abs
            (value b) ≤ top }
        ensures value { value result ≡ (value p *ℤ value a) -ℤ (value q *ℤ value b) };

    /// Writes p times `upper` less q times `low`, divided by the greatest common divisor of its entries, to `out`.
    /// `Wide` where an entry of that row is over the limit; after it the entries of `out` are open.
    ///
    /// Both factors and `low` are in lowest terms, and the last number of each row is its own: `low` has 0 there, and
    /// `upper` has not.
    fn combine(
        out: &mut [Self],
        p: Self,
        upper: &[Self],
        q: Self,
        low: &[Self],
        limit: u128,
    ) -> Result<(), Wide>
        requires factors { AreFactors top limit (value p) (value q) }
        requires lengths { (length upper.now ≡ length out.old) × (length low.now ≡ length out.old) }
        requires within { IsWithin limit (map value upper.now)
            × IsWithin limit (map value low.now) }
        requires primitive { content (map value low.now) ≡ 1 }
        requires own { (0 < length out.old) × (at (map value low.now) (length out.old - 1) ≡ pos 0)
            × (at (map value upper.now) (length out.old - 1) ≢ pos 0) }
        ensures part { OnOk result (IsPrimitivePart (map value out.new)
            (combination (value p) (map value upper.now) (value q) (map value low.now))) }
        ensures bounded { OnOk result (IsWithin limit (map value out.new)) }
        ensures wide { OnErr result (HasWidePart limit
            (combination (value p) (map value upper.now) (value q) (map value low.now))) };

    /// The greatest size of a row's entries, 0 where there is none.
    fn largest(row: &[Self]) -> u128
        ensures bound { IsWithin result (map value row.now) }
        ensures reached { 0 < result → Any (λ entry. nat_abs entry ≡ result) (map value row.now) };

    /// Puts a row within the limit in lowest terms, in its place.
    fn reduce(row: &mut [Self], limit: u128)
        requires limit { limit ≤ top }
        requires within { IsWithin limit (map value row.old) }
        ensures part { IsPrimitivePart (map value row.new) (map value row.old) }
        ensures bounded { IsWithin limit (map value row.new) };

    // ---- laws
    /// The constant is the greatest limit.
    ghost top_told: { TOP ≡ top };
    /// Numbers of 62 bits are allowed.
    ghost top_low: { 2 ^ 62 ≤ top + 1 };
    /// Two products of allowed numbers have 253 bits together.
    ghost top_high: { top < 2 ^ 126 };
    /// Entries are told apart by their numbers.
    ghost injective: { (x y : Self) → value x ≡ value y → x ≡ y };
    /// A clone is the entry itself.
    ghost clones: { (x y : Self) → Self.is_clone x y → y ≡ x };
}
