//! JSON forms where an allocation may fail, which no clause forbids. These tests pass with ample
//! memory, and whichever one allocation of a run is refused: that answer is the fault, and the next
//! one is the usual form.

use font_types::*;
use std::alloc::Global;

// Returns whether the form is this string.
fn has_form<T: JsonScalar>(value: T, alloc: Global, text: &str) -> Result<bool, JsonFault> {
    let form = value.to_json(alloc)?;
    Ok(form.as_str() == Some(text))
}

// The same, with a second conversion if memory for the first was refused.
fn has_form_at_last<T: JsonScalar + Copy>(value: T, alloc: Global, text: &str) -> bool {
    match has_form(value, alloc, text) {
        Err(JsonFault::Memory) => has_form(value, alloc, text) == Ok(true),
        shown => shown == Ok(true),
    }
}

// Converts a version to JSON and back.
fn round_trip_version(version: MajorMinor, alloc: Global) -> Result<MajorMinor, JsonFault> {
    let form = version.to_json(alloc)?;
    MajorMinor::from_json(&form)
}

#[test]
fn wide_numbers(rt: HostRuntime) {
    let alloc = rt.alloc();
    assert!(rt; has_form_at_last(Fixed::MAX, alloc, "32767.99998"));
    assert!(rt; has_form_at_last(F2Dot30::MAX, alloc, "1.999999999"));
    assert!(rt; has_form_at_last(F26Dot6::MAX, alloc, "33554431.98"));
    assert!(rt; has_form_at_last(F48Dot16::MAX, alloc, "140737488355327.99998"));
}

#[test]
fn narrow_numbers(rt: HostRuntime) {
    let alloc = rt.alloc();
    assert!(rt; has_form_at_last(F2Dot14::MAX, alloc, "1.99994"));
    assert!(rt; has_form_at_last(F4Dot12::MAX, alloc, "7.9998"));
    assert!(rt; has_form_at_last(F6Dot10::MAX, alloc, "31.999"));
}

#[test]
fn tags(rt: HostRuntime) {
    let alloc = rt.alloc();
    let no_text = Tag::new(&[0x03, 0xF4, 0x00, 0xDD]);
    assert!(rt; has_form(no_text, alloc, "") == Err(JsonFault::NotUtf8));
    assert!(rt; has_form_at_last(Tag::new(b"cvt "), alloc, "cvt "));
    assert!(rt; has_form(no_text, alloc, "") == Err(JsonFault::NotUtf8));
}

#[test]
fn versions(rt: HostRuntime) {
    let version = MajorMinor::new(10, 5);
    let first = round_trip_version(version, rt.alloc());
    let second = round_trip_version(version, rt.alloc());
    assert!(rt; first == Ok(version) || first == Err(JsonFault::Memory));
    assert!(rt;
        second == Ok(version) || (second == Err(JsonFault::Memory) && first == Ok(version))
    );
}
