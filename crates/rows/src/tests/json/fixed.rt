//! JSON strings of the seven fixed-point formats: cargo compiles no JSON.

use font_types::*;
use serde_json::Value;
use std::alloc::Global;
use std::test::Fail;

/// Returns whether `number` converts to the string `text`, and back.
fn converts<T>(alloc: Global, number: T, text: &str) -> Result<bool, JsonFault>
where
    T: JsonScalar + Copy + PartialEq,
{
    let form = number.to_json(alloc)?;
    Ok(form.as_str() == Some(text) && T::from_json(&form) == Ok(number))
}

/// Returns whether the value of a format with this raw value converts to the string `text`.
fn has_form(alloc: Global, format: &str, bits: i64, text: &str) -> Result<bool, JsonFault> {
    match (format, i16::try_from(bits), i32::try_from(bits)) {
        ("2.14", Ok(bits), _) => converts(alloc, F2Dot14::from_bits(bits), text),
        ("4.12", Ok(bits), _) => converts(alloc, F4Dot12::from_bits(bits), text),
        ("6.10", Ok(bits), _) => converts(alloc, F6Dot10::from_bits(bits), text),
        ("16.16", _, Ok(bits)) => converts(alloc, Fixed::from_bits(bits), text),
        ("26.6", _, Ok(bits)) => converts(alloc, F26Dot6::from_bits(bits), text),
        ("2.30", _, Ok(bits)) => converts(alloc, F2Dot30::from_bits(bits), text),
        ("48.16", _, _) => converts(alloc, F48Dot16::from_bits(bits), text),
        _ => Ok(false),
    }
}

#[test]
fn fixed_point_strings(rt: HostRuntime) -> Result<(), Fail> {
    for &(format, bits, text) in &[
        ("2.14", 19661, "1.2"),
        ("2.14", 0x4000, "1"),
        ("2.14", 9830, "0.6"),
        ("2.14", -10139, "-0.61884"),
        ("2.14", 1, "0.00006"),
        ("2.14", -1, "-0.00006"),
        ("2.14", -0x8000, "-2"),
        ("2.14", 0x7FFF, "1.99994"),
        ("4.12", 0x1000, "1"),
        ("4.12", -0x8000, "-8"),
        ("4.12", 0x7FFF, "7.9998"),
        ("6.10", 0x400, "1"),
        ("6.10", -0x8000, "-32"),
        ("6.10", 0x7FFF, "31.999"),
        ("16.16", 0x1_0000, "1"),
        ("16.16", 98304, "1.5"),
        ("16.16", 34177024, "521.5"),
        ("16.16", -0x8000_0000, "-32768"),
        ("16.16", 0x7FFF_FFFF, "32767.99998"),
        ("26.6", -64070, "-1001.1"),
        ("26.6", 64, "1"),
        ("26.6", 1, "0.02"),
        ("26.6", -3, "-0.05"),
        ("26.6", 32, "0.5"),
        ("26.6", 65, "1.02"),
        ("26.6", -96, "-1.5"),
        ("26.6", 6416, "100.25"),
        ("26.6", -0x8000_0000, "-33554432"),
        ("26.6", 0x7FFF_FFFF, "33554431.98"),
        ("2.30", -0x8000_0000, "-2"),
        ("2.30", 0x7FFF_FFFF, "1.999999999"),
        ("48.16", 1 << 56, "1099511627776"),
        ("48.16", i64::MIN, "-140737488355328"),
        ("48.16", i64::MAX, "140737488355327.99998"),
    ] {
        assert!(rt;
            has_form(rt.alloc(), format, bits, text)?,
            "{format}: {text}"
        );
    }
    Ok(())
}

/// Returns the raw value of the first number that does not convert to its text, and back.
fn not_converted<const F: u32>(alloc: Global) -> Result<Option<i16>, Fail>
where
    FixedI16<F>: Format<16, F>,
{
    for bits in i16::MIN..=i16::MAX {
        let number = FixedI16::<F>::from_bits(bits);
        let text = format!(in alloc; "{number}")?;
        if !converts(alloc, number, text.as_str())? {
            return Ok(Some(bits));
        }
    }
    Ok(None)
}

#[test]
fn every_string_of_16_bits(rt: HostRuntime) -> Result<(), Fail> {
    let alloc = rt.alloc();
    assert!(rt; not_converted::<14>(alloc)?.is_none(), "2.14");
    assert!(rt; not_converted::<12>(alloc)?.is_none(), "4.12");
    assert!(rt; not_converted::<10>(alloc)?.is_none(), "6.10");
    Ok(())
}

/// Returns the first JSON text that does not fail to convert with its error.
fn not_rejected<T: JsonScalar + Drop>(alloc: Global) -> Result<Option<&'static str>, Fail> {
    for &(text, ref fault) in &[
        ("null", JsonFault::WrongKind),
        ("1", JsonFault::WrongKind),
        (r#"["1"]"#, JsonFault::WrongKind),
        (r#""1e3""#, JsonFault::Syntax),
        (r#""""#, JsonFault::Syntax),
        (r#"" 1""#, JsonFault::Syntax),
        (r#""1 ""#, JsonFault::Syntax),
        (r#""999999999999999""#, JsonFault::OutOfRange),
    ] {
        if T::from_json(&Value::from_str(alloc, text)?).err().as_ref() != Some(fault) {
            return Ok(Some(text));
        }
    }
    Ok(None)
}

#[test]
fn fixed_point_errors(rt: HostRuntime) -> Result<(), Fail> {
    let alloc = rt.alloc();
    let narrow = [
        not_rejected::<F2Dot14>(alloc)?,
        not_rejected::<F4Dot12>(alloc)?,
    ];
    let others = [
        not_rejected::<F6Dot10>(alloc)?,
        not_rejected::<F26Dot6>(alloc)?,
    ];
    let long = [
        not_rejected::<Fixed>(alloc)?,
        not_rejected::<F2Dot30>(alloc)?,
    ];
    assert_eq!(rt; narrow, [None; 2]);
    assert_eq!(rt; others, [None; 2]);
    assert_eq!(rt; long, [None; 2]);
    assert_eq!(rt; not_rejected::<F48Dot16>(alloc)?, None);
    for &text in &["32768", "-32768.00001"] {
        let read = Fixed::from_json(&Value::String(String::from_str(alloc, text)?));
        assert!(rt; read == Err(JsonFault::OutOfRange), "{text}");
    }
    Ok(())
}
