//! Fixed-point numbers: [`FixedI16`], [`FixedI32`] and [`FixedI64`] over any number of fraction
//! bits, and seven formats, which are names for some of them.
//!
//! ```text
//! let half = Fixed::from_decimal("0.5")?;
//! half * half                           // 0.25
//! half.to_f2dot14().to_be_bytes()       // [0x20, 0x00]
//! ```
#![tactic(auto)]

mod fixed_i16;
mod fixed_i32;
mod fixed_i64;
mod formats;
pub mod laws;
mod products;
mod reading;
mod rounding;

pub use fixed_i16::{F2Dot14, F4Dot12, F6Dot10, FixedI16};
pub use fixed_i32::{F2Dot30, F26Dot6, Fixed, FixedI32, nearest_step, nearest_sum};
pub use fixed_i64::{F48Dot16, FixedI64};
pub use formats::Format;
use products::nearest_mul_div;
pub use products::{low_bits, mul_div, nearest_product, product};
pub use reading::{read_bits_16, read_bits_32, read_bits_64};
use rounding::{fitting_32, half_up_32, half_up_64, narrow_32, narrow_64};
pub use rounding::{
    fitting_16, floor_bits_16, floor_bits_32, floor_bits_64, round_bits_16, round_bits_32,
    round_bits_64,
};
