//! Products and quotients of 16.16 and 26.6 raw values.

ghost use Rattle.font_types.specs.Operations.{IsMulDiv, IsProduct, IsQuotient};

use font_types::{F26Dot6, Fixed};

/// Multiplies 16.16 values, rounding half away from zero and wrapping on overflow.
#[unsafe(no_mangle)]
pub extern "C" fn fty_fixed_mul(x: i32, y: i32) -> i32
    ensures { IsProduct 32 16 x y result }
{
    (Fixed::from_bits(x) * Fixed::from_bits(y)).to_bits()
}

/// Divides 16.16 values, rounding half away from zero and wrapping on overflow. Division by zero
/// gives the largest value, negated if `x` is negative.
#[unsafe(no_mangle)]
pub extern "C" fn fty_fixed_div(x: i32, y: i32) -> i32
    ensures { IsQuotient 32 16 x y result }
{
    (Fixed::from_bits(x) / Fixed::from_bits(y)).to_bits()
}

/// Returns `x * a / c`, rounded once, half away from zero, wrapping on overflow. If `c` is zero,
/// the result is the largest value, negated if exactly one of `x` and `a` is negative.
#[unsafe(no_mangle)]
pub extern "C" fn fty_fixed_mul_div(x: i32, a: i32, c: i32) -> i32
    ensures { IsMulDiv 32 x a c result }
{
    Fixed::from_bits(x)
        .mul_div(Fixed::from_bits(a), Fixed::from_bits(c))
        .to_bits()
}

/// Multiplies 26.6 values, rounding half away from zero and wrapping on overflow.
#[unsafe(no_mangle)]
pub extern "C" fn fty_f26dot6_mul(x: i32, y: i32) -> i32
    ensures { IsProduct 32 6 x y result }
{
    (F26Dot6::from_bits(x) * F26Dot6::from_bits(y)).to_bits()
}

/// Divides 26.6 values, rounding half away from zero and wrapping on overflow. Division by zero
/// gives the largest value, negated if `x` is negative.
#[unsafe(no_mangle)]
pub extern "C" fn fty_f26dot6_div(x: i32, y: i32) -> i32
    ensures { IsQuotient 32 6 x y result }
{
    (F26Dot6::from_bits(x) / F26Dot6::from_bits(y)).to_bits()
}
