//! Fixed-point numbers as strings, their shortest decimals.

ghost use Rattle.std.specs.Prelude.{Ok, refl};
ghost use Rattle.std.proofs.Common.{lit≤};
ghost use Rattle.font_types.specs.Json.Laws.{fixed_form};

use super::{JsonFault, JsonScalar, text_or_fault};
use font_fixed::{FixedI16, FixedI32, FixedI64, Format};
use serde_json::Value;
use std::alloc::Global;

impl<const F: u32> JsonScalar for FixedI16<F>
where
    Self: Format<16, F>,
{
    ghost use Rattle.font_fixed.specs.FixedI16.{bits_of, of_bits};

    ghost form = { fixed_form 16 F bits_of of_bits (λ _. refl) (lit≤ tt) };

    fn to_json(self, alloc: Global) -> Result<Value, JsonFault> {
        Ok(Value::String(format!(in alloc; "{self}")?))
    }

    fn from_json(value: &Value) -> Result<Self, JsonFault> {
        Ok(Self::from_decimal(text_or_fault(value)?)?)
    }
}

impl<const F: u32> JsonScalar for FixedI32<F>
where
    Self: Format<32, F>,
{
    ghost use Rattle.font_fixed.specs.FixedI32.{bits_of, of_bits};

    ghost form = { fixed_form 32 F bits_of of_bits (λ _. refl) (lit≤ tt) };

    fn to_json(self, alloc: Global) -> Result<Value, JsonFault> {
        Ok(Value::String(format!(in alloc; "{self}")?))
    }

    fn from_json(value: &Value) -> Result<Self, JsonFault> {
        Ok(Self::from_decimal(text_or_fault(value)?)?)
    }
}

impl<const F: u32> JsonScalar for FixedI64<F>
where
    Self: Format<64, F>,
{
    ghost use Rattle.font_fixed.specs.FixedI64.{bits_of, of_bits};

    ghost form = { fixed_form 64 F bits_of of_bits (λ _. refl) (lit≤ tt) };

    fn to_json(self, alloc: Global) -> Result<Value, JsonFault> {
        Ok(Value::String(format!(in alloc; "{self}")?))
    }

    fn from_json(value: &Value) -> Result<Self, JsonFault> {
        Ok(Self::from_decimal(text_or_fault(value)?)?)
    }
}
