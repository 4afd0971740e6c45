//! JSON forms of scalars.

ghost use Rattle.std.specs.Prelude.{◌≡◌, Ok, Bool, IsTrue, Some, IfOk, IfErr, Option, Result};
ghost use Rattle.std.specs.Prelude.{MatchResult, pos, List, None, ◌≤◌, ◌≤ℤ◌, ◌^◌};
ghost use Rattle.std.specs.Result.{result_map_both};
ghost use Rattle.serde_json.specs.{Data.Data, Find.as_str, View.view};
ghost use Rattle.font_types.specs.Json.{JsonForm, number_within};
ghost use Rattle.font_types.specs.declared.json.JsonFault.{JsonFault};
ghost use Rattle.font_types.specs.declared.json.JsonFault.TheVariants.{Memory};

mod fixed;
mod number;
mod tag;
mod version;

use font_decimal::DecimalFault;
use serde_json::Value;
use std::alloc::{AllocError, Global};
use thiserror::Error;

/// Why a conversion to or from JSON failed.
#[derive(Clone, Debug, PartialEq, Eq, Drop, Error)]
pub enum JsonFault {
    /// Out of memory.
    #[error("out of memory")]
    Memory = 1,
    /// The JSON value is of the wrong kind.
    #[error("wrong kind of value")]
    WrongKind = 2,
    /// The number is out of range.
    #[error("number out of range")]
    OutOfRange = 3,
    /// The text is not a decimal.
    #[error("not a decimal number")]
    Syntax = 4,
    /// The bytes of the tag are not UTF-8.
    #[error("tag is not UTF-8")]
    NotUtf8 = 5,
    /// The text is not a valid tag.
    #[error("invalid tag")]
    InvalidTag = 6,
    /// A member of the object is missing.
    #[error("missing member")]
    MissingMember = 7,
}

impl From<AllocError> for JsonFault {
    ghost from_gives = { λ _ fault. fault ≡ Memory };

    fn from(_fault: AllocError) -> JsonFault {
        JsonFault::Memory
    }
}

impl From<DecimalFault> for JsonFault {
    ghost use Rattle.font_types.specs.Json.{json_fault};

    ghost from_gives = { λ fault json. json ≡ json_fault fault };

    fn from(fault: DecimalFault) -> JsonFault {
        match fault {
            DecimalFault::Syntax => JsonFault::Syntax,
            DecimalFault::OutOfRange => JsonFault::OutOfRange,
        }
    }
}

/// A type with a JSON form.
///
/// Fixed-point numbers and tags are strings, integers are numbers, and a `MajorMinor` is an object.
pub trait JsonScalar: Sized {
    // which JSON a value has, and what JSON is read as
    ghost form: { JsonForm Self };

    /// Converts to JSON.
    fn to_json(self, alloc: Global) -> Result<Value, JsonFault>
        ensures shown { IfOk result (λ value. form.shows self (view value)) }
        ensures refused { IfErr result (λ fault. form.refuses self fault) }
        ensures value { IsTrue (form.is_value self) };

    /// Converts from JSON.
    fn from_json(value: &Value) -> Result<Self, JsonFault>
        ensures read { form.reads (view value.now) result }
        ensures back { (v : Self) → IsTrue (form.is_value v) → form.shows v (view value.now)
            → form.comes_back v result };
}

// Returns the string, or `WrongKind`.
fn text_or_fault(value: &Value) -> Result<&str, JsonFault>
    ensures { MatchResult result (λ text. as_str (view value.now) ≡ Some text.now)
        (λ fault. (as_str (view value.now) ≡ None) × (fault ≡ JsonFault.WrongKind)) }
{
    value.as_str().ok_or(JsonFault::WrongKind)
}

// Returns the integer if it is from `min` to `max`.
fn number_within(value: &Value, min: i64, max: i64) -> Result<i64, JsonFault>
    ensures number { result ≡ number_within min max (view value.now) }
    ensures within { IfOk result (λ z. (min ≤ℤ z) × (z ≤ℤ max)) }
{
    let number = value.as_number().ok_or(JsonFault::WrongKind)?;
    let whole = number.as_i128().ok_or(JsonFault::WrongKind)?;
    if whole < i128::from(min) || whole > i128::from(max) {
        return Err(JsonFault::OutOfRange);
    }
    Ok(whole as i64)
}

// Returns the integer if it is from 0 to `max`.
fn natural(value: &Value, max: u32) -> Result<u32, JsonFault>
    ensures number { result_map_both (λ n. pos n) (λ fault. fault) result
        ≡ number_within (pos 0) (pos max) (view value.now) }
    ensures within { IfOk result (λ n. n ≤ max) }
{
    Ok(number_within(value, 0, i64::from(max))? as u32)
}

/// Converts a value to JSON and back: the result is the value, except that an invalid tag is an
/// error.
///
/// The outer result is that of `to_json`, the inner one that of `from_json`.
pub fn round_trip<T: JsonScalar>(value: T, alloc: Global) -> Result<Result<T, JsonFault>, JsonFault>
    ensures back { IfOk result (λ read. T.form.comes_back value read) }
    ensures refused { IfErr result (λ fault. T.form.refuses value fault) }
{
    let shown = value.to_json(alloc)?;
    Ok(T::from_json(&shown))
}
