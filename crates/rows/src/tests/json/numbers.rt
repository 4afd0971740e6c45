//! Integers as JSON numbers: cargo compiles no JSON.

use font_base::Scalar;
use font_types::{
    FWord, GlyphId, GlyphId16, GlyphId24, Int24, JsonFault, JsonScalar, LongDateTime, NameId,
    Offset16, Offset24, Offset32, UfWord, Uint24, Version16Dot16,
};
use serde_json::{Value, json};
use std::alloc::Global;
use std::test::Fail;

// Returns the first number that its value does not convert to and from, or the first number beyond
// the range that is not an error.
fn unexpected<T: JsonScalar + Copy + PartialEq>(
    alloc: Global,
    rows: &[(T, i64)],
    beyond: &[i64],
) -> Option<i64> {
    for &(value, number) in rows {
        let Ok(shown) = value.to_json(alloc) else {
            return Some(number);
        };
        if shown.as_i64() != Some(number) || T::from_json(&shown) != Ok(value) {
            return Some(number);
        }
    }
    for &number in beyond {
        if T::from_json(&Value::from(number)) != Err(JsonFault::OutOfRange) {
            return Some(number);
        }
    }
    None
}

#[test]
fn range_of_24_bits(rt: HostRuntime) {
    let unsigned = [(Uint24::new(0), 0), (Uint24::MAX, 16777215)];
    let signed = [(Int24::MIN, -8388608), (Int24::MAX, 8388607)];
    assert_eq!(rt; unexpected(rt.alloc(), &unsigned, &[-1, 16777216]), None);
    assert_eq!(rt; unexpected(rt.alloc(), &signed, &[-8388609, 8388608]), None);
}

#[test]
fn range_of_font_units(rt: HostRuntime) {
    let signed = [(FWord::new(-32768), -32768), (FWord::new(32767), 32767)];
    let unsigned = [(UfWord::new(0), 0), (UfWord::new(65535), 65535)];
    assert_eq!(rt; unexpected(rt.alloc(), &signed, &[-32769, 32768]), None);
    assert_eq!(rt; unexpected(rt.alloc(), &unsigned, &[-1, 65536]), None);
}

#[test]
fn range_of_glyph_ids(rt: HostRuntime) {
    let short = [(GlyphId16::NOTDEF, 0), (GlyphId16::new(65535), 65535)];
    let middle = [(GlyphId24::NOTDEF, 0), (GlyphId24::new(16777215), 16777215)];
    let long = [(GlyphId::NOTDEF, 0), (GlyphId::new(4294967295), 4294967295)];
    assert_eq!(rt; unexpected(rt.alloc(), &short, &[-1, 65536]), None);
    assert_eq!(rt; unexpected(rt.alloc(), &middle, &[-1, 16777216]), None);
    assert_eq!(rt; unexpected(rt.alloc(), &long, &[-1, 4294967296]), None);
}

#[test]
fn range_of_offsets(rt: HostRuntime) {
    let (least, greatest) = (Offset24::new(Uint24::MIN), Offset24::new(Uint24::MAX));
    let short = [(Offset16::new(0), 0), (Offset16::new(65535), 65535)];
    let middle = [(least, 0), (greatest, 16777215)];
    let long = [(Offset32::new(0), 0), (Offset32::new(u32::MAX), 4294967295)];
    assert_eq!(rt; unexpected(rt.alloc(), &short, &[-1, 65536]), None);
    assert_eq!(rt; unexpected(rt.alloc(), &middle, &[-1, 16777216]), None);
    assert_eq!(rt; unexpected(rt.alloc(), &long, &[-1, 4294967296]), None);
}

#[test]
fn range_of_names_and_versions(rt: HostRuntime) {
    let names = [(NameId::COPYRIGHT_NOTICE, 0), (NameId::new(65535), 65535)];
    let (version, greatest) = (Version16Dot16::VERSION_2_5, Version16Dot16::new(65535, 9));
    let no_version = Version16Dot16::from_raw([255; 4]);
    let versions = [
        (version, 151552),
        (greatest, 4294938624),
        (no_version, 4294967295),
    ];
    assert_eq!(rt; unexpected(rt.alloc(), &names, &[-1, 65536]), None);
    assert_eq!(rt; unexpected(rt.alloc(), &versions, &[-1, 4294967296]), None);
}

#[test]
fn range_of_dates(rt: HostRuntime) {
    let [date, least, greatest] = [1234569101, i64::MIN, i64::MAX].map(LongDateTime::new);
    let above = Value::from(9223372036854775808u64);
    let dates = [(date, 1234569101), (least, i64::MIN), (greatest, i64::MAX)];
    assert_eq!(rt; unexpected(rt.alloc(), &dates, &[]), None);
    assert!(rt; LongDateTime::from_json(&above) == Err(JsonFault::OutOfRange));
}

#[test]
fn wrong_kinds(rt: HostRuntime) -> Result<(), Fail> {
    let fraction = Value::from_str(rt.alloc(), "1.0")?;
    assert!(rt; Uint24::from_json(&fraction) == Err(JsonFault::WrongKind));
    assert!(rt; Int24::from_json(&json!(in rt.alloc(); "1")?) == Err(JsonFault::WrongKind));
    assert!(rt; NameId::from_json(&Value::Null) == Err(JsonFault::WrongKind));
    Ok(())
}
