//! Rounding the raw bits of fixed-point numbers to integers.

ghost use Rattle.std.specs.Prelude.{◌≡◌, ◌↔◌, ◌+◌, ◌-◌, ◌^◌, ◌≤◌, IsSome, IfSome};
ghost use Rattle.font_base.specs.Wrap.{FitsBits};
ghost use Rattle.font_decimal.specs.Near.{up};
ghost use Rattle.font_fixed.specs.{Operations.IsFloor, Rounding.rounded};

/// Returns the raw value of the largest integer less than or equal to a 16-bit value with `f`
/// fraction bits.
#[inline(always)]
pub const fn floor_bits_16(bits: i16, f: u32) -> i16
    requires { f + 2 ≤ 16 }
    ensures { IsFloor f bits result }
{
    (bits >> f) << f
}

/// Returns the raw value of the largest integer less than or equal to a 32-bit value with `f`
/// fraction bits.
#[inline(always)]
pub const fn floor_bits_32(bits: i32, f: u32) -> i32
    requires { f + 2 ≤ 32 }
    ensures { IsFloor f bits result }
{
    (bits >> f) << f
}

/// Returns the raw value of the largest integer less than or equal to a 64-bit value with `f`
/// fraction bits.
#[inline(always)]
pub const fn floor_bits_64(bits: i64, f: u32) -> i64
    requires { f + 2 ≤ 64 }
    ensures { IsFloor f bits result }
{
    (bits >> f) << f
}

/// Returns the raw value of the integer nearest to a 16-bit value with `f` fraction bits, half up,
/// or `None` if it does not fit in 16 bits.
#[inline(always)]
pub const fn round_bits_16(bits: i16, f: u32) -> Option<i16>
    requires { (6 ≤ f) × (f + 2 ≤ 16) }
    ensures variant { IsSome result ↔ FitsBits 16 (rounded f bits) }
    ensures value { IfSome result (λ whole. whole ≡ rounded f bits) }
{
    match bits.checked_add(1 << (f - 1)) {
        Some(moved) => Some(floor_bits_16(moved, f)),
        None => None,
    }
}

/// Returns the raw value of the integer nearest to a 32-bit value with `f` fraction bits, half up,
/// or `None` if it does not fit in 32 bits.
#[inline(always)]
pub const fn round_bits_32(bits: i32, f: u32) -> Option<i32>
    requires { (6 ≤ f) × (f + 2 ≤ 32) }
    ensures variant { IsSome result ↔ FitsBits 32 (rounded f bits) }
    ensures value { IfSome result (λ whole. whole ≡ rounded f bits) }
{
    match bits.checked_add(1 << (f - 1)) {
        Some(moved) => Some(floor_bits_32(moved, f)),
        None => None,
    }
}

/// Returns the raw value of the integer nearest to a 64-bit value with `f` fraction bits, half up,
/// or `None` if it does not fit in 64 bits.
#[inline(always)]
pub const fn round_bits_64(bits: i64, f: u32) -> Option<i64>
    requires { (6 ≤ f) × (f + 2 ≤ 64) }
    ensures variant { IsSome result ↔ FitsBits 64 (rounded f bits) }
    ensures value { IfSome result (λ whole. whole ≡ rounded f bits) }
{
    match bits.checked_add(1 << (f - 1)) {
        Some(moved) => Some(floor_bits_64(moved, f)),
        None => None,
    }
}

/// Returns `n / 2^f`, rounded half up.
#[inline(always)]
#[tactic(auto, using(crate::proofs::Shifts::half_up))]
pub(crate) const fn half_up_32(n: i32, f: u32) -> i32
    requires { (2 ≤ f) × (f ≤ 30) }
    ensures { result ≡ up n (2 ^ f) }
{
    ((n >> (f - 1)) + 1) >> 1
}

/// Returns `bits / 2^f`, rounded half up, or `None` if it does not fit in `32 - f` bits.
#[inline(always)]
pub(crate) const fn narrow_32(bits: i32, f: u32) -> Option<i32>
    requires { (6 ≤ f) × (f + 2 ≤ 32) }
    ensures variant { IsSome result ↔ FitsBits (32 - f) (up bits (2 ^ f)) }
    ensures value { IfSome result (λ number. number ≡ up bits (2 ^ f)) }
{
    match round_bits_32(bits, f) {
        Some(whole) => Some(whole >> f),
        None => None,
    }
}

/// Returns `bits / 2^f`, rounded half up, or `None` if it does not fit in `64 - f` bits.
#[inline(always)]
pub(crate) const fn narrow_64(bits: i64, f: u32) -> Option<i64>
    requires { (6 ≤ f) × (f + 2 ≤ 64) }
    ensures variant { IsSome result ↔ FitsBits (64 - f) (up bits (2 ^ f)) }
    ensures value { IfSome result (λ number. number ≡ up bits (2 ^ f)) }
{
    match round_bits_64(bits, f) {
        Some(whole) => Some(whole >> f),
        None => None,
    }
}

/// Returns `n / 2^f`, rounded half up.
#[inline(always)]
#[tactic(auto, using(crate::proofs::Shifts::half_up))]
pub(crate) const fn half_up_64(n: i64, f: u32) -> i64
    requires { (2 ≤ f) × (f ≤ 30) }
    ensures { result ≡ up n (2 ^ f) }
{
    ((n >> (f - 1)) + 1) >> 1
}

/// Returns the number, or `None` if it does not fit in 16 bits.
#[inline(always)]
pub const fn fitting_16(n: i64) -> Option<i16>
    ensures variant { IsSome result ↔ FitsBits 16 n }
    ensures value { IfSome result (λ number. number ≡ n) }
{
    if n < -0x8000 || n > 0x7FFF {
        None
    } else {
        Some(n as i16)
    }
}

/// Returns the number, or `None` if it does not fit in 32 bits.
#[inline(always)]
pub(crate) const fn fitting_32(n: i64) -> Option<i32>
    ensures variant { IsSome result ↔ FitsBits 32 n }
    ensures value { IfSome result (λ number. number ≡ n) }
{
    if n < -0x8000_0000 || n > 0x7FFF_FFFF {
        None
    } else {
        Some(n as i32)
    }
}
