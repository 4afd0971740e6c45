//! Laws, as contracts of functions.

ghost use Rattle.std.specs.Prelude.{◌≡◌, ◌++◌, ◌+◌, ◌*◌, ◌≤◌, ◌-ℤ◌, ◌<ℤ◌, pos, length};
ghost use Rattle.std.specs.Prelude.{unsigned_abs};
ghost use Rattle.font_base.specs.Wrap.{wrap, FitsBits};
ghost use Rattle.font_fixed.specs.Operations.{IsMulDiv, rounded_mul_div};
ghost use Rattle.font_fixed.specs.{Fixed.fixed_bits, F48Dot16.f48dot16_bits};
ghost use Rattle.font_types.specs.{Delta.exact_sum, Delta.total, Delta.scaled, DeltaSum.steps_of};

use crate::delta::sum_of;
pub use crate::json::round_trip;
use crate::{DeltaSum, delta_sum};
pub use font_decimal::laws::{printed_again, prints_in_order, reads_in_order};
pub use font_fixed::laws::{f26dot6, fixed};
use font_fixed::{F48Dot16, Fixed};
pub use font_geom::laws::{
    action, associative, checked_composed, checked_in_turn, composed, fixed_identity,
    identity_neutral, image, in_turn, scaled, step_and_halves,
};

/// Returns the sum of two lists of terms, each summed apart, by `delta_sum` and by `DeltaSum`. Both
/// are the sum of the joined list.
#[tactic(auto, using(crate::proofs::SumCalls::joined_sums))]
pub fn sum_in_parts(first: &[(Fixed, i32)], second: &[(Fixed, i32)]) -> (F48Dot16, DeltaSum)
    ensures wrapped { f48dot16_bits result.0 ≡ wrap 64 (exact_sum (first.now ++ second.now)) }
    ensures accumulated { steps_of result.1 ≡ wrap 128 (exact_sum (first.now ++ second.now)) }
{
    let mut sum = sum_of(first);
    sum += sum_of(second);
    (delta_sum(first) + delta_sum(second), sum)
}

/// Returns the sum of numbers that are each scaled by `mul_div(a, c)`, and their sum scaled once.
/// If `c` is positive, and neither the sums nor the second result overflow, the two differ by at
/// most `(n + 1) / 2` raw units, for `n` numbers.
pub fn scaled_in_parts(numbers: &[Fixed], a: Fixed, c: Fixed) -> (Fixed, Fixed)
    ensures first { fixed_bits result.0
        ≡ wrap 32 (total (scaled (fixed_bits a) (fixed_bits c)) numbers.now) }
    ensures second { IsMulDiv 32 (wrap 32 (total fixed_bits numbers.now)) (fixed_bits a)
        (fixed_bits c) (fixed_bits result.1) }
    ensures close { pos 0 <ℤ fixed_bits c
        → FitsBits 32 (total (scaled (fixed_bits a) (fixed_bits c)) numbers.now)
        → FitsBits 32 (total fixed_bits numbers.now)
        → FitsBits 32
        (rounded_mul_div (total fixed_bits numbers.now) (fixed_bits a) (fixed_bits c))
        → 2 * unsigned_abs (fixed_bits result.0 -ℤ fixed_bits result.1)
        ≤ length numbers.now + 1 }
{
    (scaled_sum(numbers, a, c), plain_sum(numbers).mul_div(a, c))
}

// Returns the sum of numbers that are each scaled.
#[tactic(auto, using(crate::proofs::SumCalls::none_32))]
fn scaled_sum(numbers: &[Fixed], a: Fixed, c: Fixed) -> Fixed
    ensures { fixed_bits result
        ≡ wrap 32 (total (scaled (fixed_bits a) (fixed_bits c)) numbers.now) }
{
    let mut sum = Fixed::ZERO;
    for number in numbers {
        sum += number.mul_div(a, c);
    }
    sum
}

// Returns the sum of numbers.
#[tactic(auto, using(crate::proofs::SumCalls::running_sum, crate::proofs::SumCalls::none_32))]
fn plain_sum(numbers: &[Fixed]) -> Fixed
    ensures { fixed_bits result ≡ wrap 32 (total fixed_bits numbers.now) }
{
    let mut sum = Fixed::ZERO;
    for number in numbers {
        sum += *number;
    }
    sum
}
