//! Integers as numbers. Their `to_json` never fails.

ghost use Rattle.std.specs.Prelude.{Ok};
ghost use Rattle.std.proofs.Common.{ap};
ghost use Rattle.font_base.specs.{Uint24.uint24_number, Uint24.Laws.same_uint24};
ghost use Rattle.font_base.specs.{Int24.int24_number, Int24.Laws.same_int24};
ghost use Rattle.font_tags.specs.LongDateTime.{date_seconds, date_of};
ghost use Rattle.font_tags.specs.Version.{version_bits, version_of};
ghost use Rattle.font_ids.specs.FWord.{fword_number, fword_of, ufword_number, ufword_of};
ghost use Rattle.font_ids.specs.GlyphId.{glyph16_number, glyph16_of, glyph24_number, glyph24_of};
ghost use Rattle.font_ids.specs.GlyphId.{glyph_number};
ghost use Rattle.font_ids.specs.NameId.{name_number, name_id_of};
ghost use Rattle.font_ids.specs.Offset.{offset16_number, offset16_of, offset24_number, offset24_of};
ghost use Rattle.font_ids.specs.Offset.{offset32_number, offset32_of};
ghost use Rattle.font_types.specs.Json.Laws.{unsigned_form, signed_form};

use super::{JsonFault, JsonScalar, natural, number_within};
use font_base::{Int24, Scalar, Uint24};
use font_ids::{
    FWord, GlyphId, GlyphId16, GlyphId24, NameId, Offset16, Offset24, Offset32, UfWord,
};
use font_tags::{LongDateTime, Version16Dot16};
use serde_json::Value;
use std::alloc::Global;

impl JsonScalar for Uint24 {
    ghost form = { unsigned_form 24 uint24_number same_uint24 };

    fn to_json(self, _alloc: Global) -> Result<Value, JsonFault> {
        Ok(Value::from(self.to_u32()))
    }

    fn from_json(value: &Value) -> Result<Uint24, JsonFault> {
        Ok(Uint24::new(natural(value, 0xFF_FFFF)?))
    }
}

impl JsonScalar for Int24 {
    ghost form = { signed_form 24 int24_number same_int24 };

    fn to_json(self, _alloc: Global) -> Result<Value, JsonFault> {
        Ok(Value::from(self.to_i32()))
    }

    fn from_json(value: &Value) -> Result<Int24, JsonFault> {
        Ok(Int24::new(number_within(value, -0x80_0000, 0x7F_FFFF)? as i32))
    }
}

impl JsonScalar for FWord {
    ghost form = { signed_form 16 fword_number (λ _ _ same. ap fword_of same) };

    fn to_json(self, _alloc: Global) -> Result<Value, JsonFault> {
        Ok(Value::from(self.to_i16()))
    }

    fn from_json(value: &Value) -> Result<FWord, JsonFault> {
        Ok(FWord::new(number_within(value, -0x8000, 0x7FFF)? as i16))
    }
}

impl JsonScalar for UfWord {
    ghost form = { unsigned_form 16 ufword_number (λ _ _ same. ap ufword_of same) };

    fn to_json(self, _alloc: Global) -> Result<Value, JsonFault> {
        Ok(Value::from(self.to_u16()))
    }

    fn from_json(value: &Value) -> Result<UfWord, JsonFault> {
        Ok(UfWord::new(natural(value, 0xFFFF)? as u16))
    }
}

impl JsonScalar for GlyphId16 {
    ghost form = { unsigned_form 16 glyph16_number (λ _ _ same. ap glyph16_of same) };

    fn to_json(self, _alloc: Global) -> Result<Value, JsonFault> {
        Ok(Value::from(self.to_u16()))
    }

    fn from_json(value: &Value) -> Result<GlyphId16, JsonFault> {
        Ok(GlyphId16::new(natural(value, 0xFFFF)? as u16))
    }
}

impl JsonScalar for GlyphId24 {
    ghost form = { unsigned_form 24 glyph24_number
        (λ x y same. ap glyph24_of (same_uint24 x.0 y.0 same)) };

    fn to_json(self, _alloc: Global) -> Result<Value, JsonFault> {
        Ok(Value::from(self.to_u32()))
    }

    fn from_json(value: &Value) -> Result<GlyphId24, JsonFault> {
        Ok(GlyphId24::new(natural(value, 0xFF_FFFF)?))
    }
}

impl JsonScalar for GlyphId {
    ghost form = { unsigned_form 32 glyph_number (λ _ _ same. ap (λ n. record { 0 = n }) same) };

    fn to_json(self, _alloc: Global) -> Result<Value, JsonFault> {
        Ok(Value::from(self.to_u32()))
    }

    fn from_json(value: &Value) -> Result<GlyphId, JsonFault> {
        Ok(GlyphId::new(natural(value, u32::MAX)?))
    }
}

impl JsonScalar for LongDateTime {
    ghost form = { signed_form 64 date_seconds (λ _ _ same. ap date_of same) };

    fn to_json(self, _alloc: Global) -> Result<Value, JsonFault> {
        Ok(Value::from(self.as_secs()))
    }

    fn from_json(value: &Value) -> Result<LongDateTime, JsonFault> {
        Ok(LongDateTime::new(number_within(value, i64::MIN, i64::MAX)?))
    }
}

impl JsonScalar for NameId {
    ghost form = { unsigned_form 16 name_number (λ _ _ same. ap name_id_of same) };

    fn to_json(self, _alloc: Global) -> Result<Value, JsonFault> {
        Ok(Value::from(self.to_u16()))
    }

    fn from_json(value: &Value) -> Result<NameId, JsonFault> {
        Ok(NameId::new(natural(value, 0xFFFF)? as u16))
    }
}

impl JsonScalar for Offset16 {
    ghost form = { unsigned_form 16 offset16_number (λ _ _ same. ap offset16_of same) };

    fn to_json(self, _alloc: Global) -> Result<Value, JsonFault> {
        Ok(Value::from(self.to_u32()))
    }

    fn from_json(value: &Value) -> Result<Offset16, JsonFault> {
        Ok(Offset16::new(natural(value, 0xFFFF)? as u16))
    }
}

impl JsonScalar for Offset24 {
    ghost form = { unsigned_form 24 offset24_number
        (λ x y same. ap offset24_of (same_uint24 x.0 y.0 same)) };

    fn to_json(self, _alloc: Global) -> Result<Value, JsonFault> {
        Ok(Value::from(self.to_u32()))
    }

    fn from_json(value: &Value) -> Result<Offset24, JsonFault> {
        Ok(Offset24::new(Uint24::new(natural(value, 0xFF_FFFF)?)))
    }
}

impl JsonScalar for Offset32 {
    ghost form = { unsigned_form 32 offset32_number (λ _ _ same. ap offset32_of same) };

    fn to_json(self, _alloc: Global) -> Result<Value, JsonFault> {
        Ok(Value::from(self.to_u32()))
    }

    fn from_json(value: &Value) -> Result<Offset32, JsonFault> {
        Ok(Offset32::new(natural(value, u32::MAX)?))
    }
}

#[tactic(auto, using(crate::proofs::ArrayNumbers::numeral_of_4))]
impl JsonScalar for Version16Dot16 {
    ghost form = { unsigned_form 32 version_bits (λ _ _ same. ap version_of same) };

    fn to_json(self, _alloc: Global) -> Result<Value, JsonFault> {
        Ok(Value::from(u32::from_raw(self.to_raw())))
    }

    fn from_json(value: &Value) -> Result<Version16Dot16, JsonFault> {
        Ok(Version16Dot16::from_raw(natural(value, u32::MAX)?.to_raw()))
    }
}
