//! Sums of deltas, and what they move.

ghost use Rattle.std.specs.Prelude.{◌≡◌, ◌≢◌, ◌↔◌, IsSome, IfSome, length, pos, ◌+ℤ◌, ◌*ℤ◌, neg_ℤ};
ghost use Rattle.std.specs.Prelude.{◌≤ℤ◌, ◌<ℤ◌};
ghost use Rattle.font_types.specs.{F48Dot16.f48dot16_bits, Wrap.FitsBits};
ghost use Rattle.font_c.specs.Sums.{moved_by, StoresSum, sum_of_products};
ghost use Rattle.font_c.specs.Status.{out_of_range};

use crate::status::{COUNT_MISMATCH, OK, OUT_OF_RANGE};
use font_types::{DeltaSum, F48Dot16, FWord, Fixed, UfWord};

/// Adds up the products of 16.16 scalars and deltas, item by item, in 48.16.
#[unsafe(no_mangle)]
pub extern "C" fn fty_abi_delta_sum(scalars: &[i32], deltas: &[i32], sum: &mut i64) -> u32
    ensures { StoresSum scalars.now deltas.now result sum.old sum.new }
{
    if scalars.len() != deltas.len() {
        return COUNT_MISMATCH;
    }
    let Some(exact) = sum_in_range(scalars, deltas) else {
        return OUT_OF_RANGE;
    };
    *sum = exact.to_bits();
    OK
}

/// Adds a 48.16 delta to signed font units in place, and rounds to the nearest font unit, half up.
#[unsafe(no_mangle)]
pub extern "C" fn fty_checked_add_delta_i16(delta: i64, units: &mut i16) -> u32
    ensures fits { (result ≡ 0) ↔ ((neg_ℤ (pos 32768) ≤ℤ moved_by units.old delta)
        × (moved_by units.old delta <ℤ pos 32768)) }
    ensures stored { result ≡ 0 → units.new ≡ moved_by units.old delta }
    ensures known { result ≢ 0 → result ≡ out_of_range }
    ensures kept { result ≢ 0 → units.new ≡ units.old }
{
    let delta = F48Dot16::from_bits(delta);
    let Some(moved) = FWord::new(*units).checked_add_delta(delta) else {
        return OUT_OF_RANGE;
    };
    *units = moved.to_i16();
    OK
}

/// Adds a 48.16 delta to unsigned font units, as advances are, in place, and rounds to the nearest
/// font unit, half up.
#[unsafe(no_mangle)]
pub extern "C" fn fty_checked_add_delta_u16(delta: i64, units: &mut u16) -> u32
    ensures fits { (result ≡ 0) ↔ ((pos 0 ≤ℤ moved_by (pos units.old) delta)
        × (moved_by (pos units.old) delta <ℤ pos 65536)) }
    ensures stored { result ≡ 0 → pos units.new ≡ moved_by (pos units.old) delta }
    ensures known { result ≢ 0 → result ≡ out_of_range }
    ensures kept { result ≢ 0 → units.new ≡ units.old }
{
    let delta = F48Dot16::from_bits(delta);
    let Some(moved) = UfWord::new(*units).checked_add_delta(delta) else {
        return OUT_OF_RANGE;
    };
    *units = moved.to_u16();
    OK
}

// Returns the exact sum of the products, item by item, or `None` if it does not fit in 64 bits.
fn sum_in_range(scalars: &[i32], deltas: &[i32]) -> Option<F48Dot16>
    requires { length scalars.now ≡ length deltas.now }
    ensures variant { IsSome result ↔ FitsBits 64 (sum_of_products scalars.now deltas.now) }
    ensures value { IfSome result (λ sum.
        f48dot16_bits sum ≡ sum_of_products scalars.now deltas.now) }
{
    let mut sum = DeltaSum::new();
    for i in 0..scalars.len() {
        sum.add_product(Fixed::from_bits(scalars[i]), deltas[i]);
    }
    sum.checked_finish()
}
