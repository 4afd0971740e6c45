//! Sums of deltas.

ghost use Rattle.std.specs.Prelude.{◌≡◌, ◌↔◌, ◌≤◌, ◌+◌, ◌^◌, ◌+ℤ◌, ◌*ℤ◌, pos, unsigned_abs, IsSome};
ghost use Rattle.std.specs.Prelude.{IfSome, option_map};
ghost use Rattle.font_base.specs.Wrap.{wrap, FitsBits};
ghost use Rattle.font_fixed.specs.{Operations.WrapsTo, Fixed.fixed_bits, F48Dot16.f48dot16_bits};
ghost use Rattle.font_ids.specs.FWord.{fword_number};
ghost use Rattle.font_types.specs.Delta.{exact_sum, sum_in_range, term_product, varied};
ghost use Rattle.font_types.specs.DeltaSum.{steps_of};

use font_fixed::{F48Dot16, Fixed};
use font_ids::FWord;
use std::ops::AddAssign;

/// An accumulator for products of scalars and deltas.
///
/// The sum is a 16.16 raw value in 128 bits, enough for any `2^65 - 1` terms in any order. A larger
/// one, as `+=` of sums can make it, is taken modulo `2^128`.
///
/// ```
/// use font_types::{DeltaSum, Fixed};
/// let mut sum = DeltaSum::new();
/// sum.add_product(Fixed::from_bits(0x8000), 3);
/// sum.add_product(Fixed::NEG_ONE, 2);
/// assert_eq!(sum.finish().to_string(), "-0.5");
/// ```
#[derive(Clone, Copy, Debug, PartialEq, Eq, Drop)]
pub struct DeltaSum {
    steps: i128,
}

impl DeltaSum {
    /// Creates an empty sum, 0.
    pub const fn new() -> DeltaSum
        ensures { steps_of result ≡ pos 0 }
    {
        DeltaSum { steps: 0 }
    }

    /// Adds the product of a scalar and a delta in font units.
    #[tactic(auto, using(crate::proofs::SumCalls::delta_sum_calls))]
    pub fn add_product(&mut self, scalar: Fixed, delta: i32)
        ensures wrapped { steps_of self.new
            ≡ wrap 128 (steps_of self.old +ℤ fixed_bits scalar *ℤ delta) }
        ensures exact { FitsBits 128 (steps_of self.old +ℤ fixed_bits scalar *ℤ delta)
            → steps_of self.new ≡ (steps_of self.old +ℤ fixed_bits scalar *ℤ delta) }
        ensures small { unsigned_abs (steps_of self.old) ≤ 2 ^ 126
            → (steps_of self.new ≡ (steps_of self.old +ℤ fixed_bits scalar *ℤ delta))
            × (unsigned_abs (steps_of self.new) ≤ unsigned_abs (steps_of self.old) + 2 ^ 62) }
    {
        let product = scalar.mul_i32(delta);
        self.steps = self.steps.wrapping_add(i128::from(product.to_bits()));
    }

    // Adds the product of a term.
    fn add_term(&mut self, term: &(Fixed, i32))
        ensures wrapped { steps_of self.new
            ≡ wrap 128 (steps_of self.old +ℤ term_product term.now) }
        ensures small { unsigned_abs (steps_of self.old) ≤ 2 ^ 126
            → (steps_of self.new ≡ (steps_of self.old +ℤ term_product term.now))
            × (unsigned_abs (steps_of self.new) ≤ unsigned_abs (steps_of self.old) + 2 ^ 62) }
    {
        let (scalar, delta) = *term;
        self.add_product(scalar, delta);
    }

    /// Returns the sum, wrapped to 64 bits.
    pub const fn finish(self) -> F48Dot16
        ensures { f48dot16_bits result ≡ wrap 64 (steps_of self) }
    {
        // In Rattle, `as` may lose no bit.
        F48Dot16::from_bits(((self.steps << 64) >> 64) as i64)
    }

    /// Returns the sum, as it is modulo `2^128`, or `None` if that does not fit in 64 bits.
    pub fn checked_finish(self) -> Option<F48Dot16>
        ensures variant { IsSome result ↔ FitsBits 64 (steps_of self) }
        ensures value { IfSome result (λ sum. f48dot16_bits sum ≡ steps_of self) }
    {
        let bits = i64::try_from(self.steps).ok()?;
        Some(F48Dot16::from_bits(bits))
    }
}

/// Adds the sum of other terms, modulo `2^128`.
impl AddAssign for DeltaSum {
    ghost add_assign_gives = { λ x y sum. WrapsTo 128 (steps_of x +ℤ steps_of y) (steps_of sum) };

    #[tactic(auto, using(crate::proofs::SumCalls::delta_sum_calls))]
    fn add_assign(&mut self, other: DeltaSum) {
        self.steps = self.steps.wrapping_add(other.steps);
    }
}

/// Adds a sum in 48.16, or a delta with a fraction, modulo `2^128`.
///
/// ```
/// use font_types::{DeltaSum, F48Dot16, Fixed};
/// let mut sum = DeltaSum::new();
/// sum.add_product(Fixed::ONE, 3);
/// sum += F48Dot16::from_bits(0x8000);
/// assert_eq!(sum.finish().to_string(), "3.5");
/// ```
impl AddAssign<F48Dot16> for DeltaSum {
    ghost add_assign_gives = { λ x y sum. WrapsTo 128 (steps_of x +ℤ f48dot16_bits y)
        (steps_of sum) };

    #[tactic(auto, using(crate::proofs::SumCalls::delta_sum_calls))]
    fn add_assign(&mut self, other: F48Dot16) {
        self.steps = self.steps.wrapping_add(i128::from(other.to_bits()));
    }
}

impl Default for DeltaSum {
    ghost is_default = { λ sum. steps_of sum ≡ pos 0 };

    fn default() -> DeltaSum {
        DeltaSum::new()
    }
}

// Returns the sum of the products of all terms.
#[tactic(auto, using(crate::proofs::SumCalls::delta_sum_calls))]
pub(crate) fn sum_of(terms: &[(Fixed, i32)]) -> DeltaSum
    ensures { steps_of result ≡ wrap 128 (exact_sum terms.now) }
{
    let mut sum = DeltaSum::new();
    for term in terms {
        sum.add_term(term);
    }
    sum
}

/// Returns the sum of scalar times delta over all terms, in font units, wrapped to 64 bits.
///
/// The sum is exact if it fits in 64 bits, even if partial sums do not. The empty list gives zero.
///
/// ```
/// use font_types::{Fixed, delta_sum};
/// let half = Fixed::from_bits(0x8000);
/// assert_eq!(delta_sum(&[(half, 3), (Fixed::NEG_ONE, 2)]).to_string(), "-0.5");
/// ```
#[tactic(auto, using(crate::proofs::SumCalls::delta_sum_calls))]
pub fn delta_sum(terms: &[(Fixed, i32)]) -> F48Dot16
    ensures { f48dot16_bits result ≡ wrap 64 (exact_sum terms.now) }
{
    sum_of(terms).finish()
}

/// Returns the exact sum of scalar times delta over all terms, in font units, or `None` if it does
/// not fit in 64 bits.
///
/// Partial sums may have any size. The empty list gives zero. Half of 3 font units is 1.5:
///
/// ```
/// use font_types::{Fixed, checked_delta_sum};
/// let sum = checked_delta_sum(&[(Fixed::from_bits(0x8000), 3)]).unwrap();
/// assert_eq!(sum.to_bits(), 98304);
/// ```
pub fn checked_delta_sum(terms: &[(Fixed, i32)]) -> Option<F48Dot16>
    ensures variant { IsSome result ↔ FitsBits 64 (exact_sum terms.now) }
    ensures value { IfSome result (λ sum. f48dot16_bits sum ≡ exact_sum terms.now) }
    // For proofs.
    ensures gives { option_map f48dot16_bits result ≡ sum_in_range terms.now }
{
    // A list has fewer than 2^64 terms, so every partial sum fits in 128 bits.
    let mut exact = DeltaSum::new();
    for term in terms {
        exact.add_term(term);
    }
    exact.checked_finish()
}

/// Adds the exact sum of deltas to a quantity in font units, and returns the 16.16 raw value, or
/// `None` if `checked_delta_sum` does.
///
/// To round the result to a font unit, pass `checked_delta_sum(terms)?` to `checked_add_delta` of
/// the quantity instead. 100 font units and half of 3 are 101.5:
///
/// ```
/// use font_types::{FWord, Fixed, vary};
/// assert_eq!(vary(FWord::new(100), &[(Fixed::from_bits(0x8000), 3)]), Some(6651904));
/// ```
pub fn vary(base: FWord, terms: &[(Fixed, i32)]) -> Option<i128>
    ensures variant { IsSome result ↔ FitsBits 64 (exact_sum terms.now) }
    ensures value { IfSome result (λ units.
        units ≡ (fword_number base *ℤ pos 65536 +ℤ exact_sum terms.now)) }
    // For proofs.
    ensures gives { result ≡ varied (fword_number base) terms.now }
{
    let sum = checked_delta_sum(terms)?;
    Some(base.apply_delta(sum))
}
