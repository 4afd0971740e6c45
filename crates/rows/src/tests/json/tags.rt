//! Tags as JSON strings, and versions as objects: cargo compiles no JSON.

use font_types::laws::round_trip;
use font_types::{JsonFault, JsonScalar, MajorMinor, Tag};
use serde_json::{Value, json};
use std::test::Fail;

#[test]
fn tag_strings(rt: HostRuntime) -> Result<(), Fail> {
    let alloc = rt.alloc();
    for &(bytes, text) in &[(b"head", "head"), (b"cvt ", "cvt ")] {
        let tag = Tag::new(bytes);
        let value = tag.to_json(alloc)?;
        assert!(rt;
            value.as_str() == Some(text) && Tag::from_json(&value) == Ok(tag),
            "{text}"
        );
    }
    assert!(rt; Tag::from_json(&json!(in alloc; "ab")?) == Ok(Tag::new(b"ab  ")));
    Ok(())
}

#[test]
fn invalid_tag_strings(rt: HostRuntime) -> Result<(), Fail> {
    let alloc = rt.alloc();
    for &text in &["", "abcde", "abcd ", " abc", "b cc", "\u{7F}abc"] {
        let read = Tag::from_json(&Value::String(String::from_str(alloc, text)?));
        assert!(rt; read == Err(JsonFault::InvalidTag), "{text}");
    }
    assert!(rt; Tag::from_json(&json!(in alloc; 1)?) == Err(JsonFault::WrongKind));
    Ok(())
}

#[test]
fn tags_without_a_form(rt: HostRuntime) -> Result<(), Fail> {
    let alloc = rt.alloc();
    let no_text = Tag::new(&[0x03, 0xF4, 0x00, 0xDD]);
    assert!(rt; matches!(no_text.to_json(alloc), Err(JsonFault::NotUtf8)));
    let no_tag = Tag::new(&[0x19, 0x7A, 0x40, 0x7F]);
    assert!(rt; round_trip(no_tag, alloc)? == Err(JsonFault::InvalidTag));
    assert!(rt; round_trip(Tag::new(b"glyf"), alloc)? == Ok(Tag::new(b"glyf")));
    Ok(())
}

#[test]
fn version_objects(rt: HostRuntime) -> Result<(), Fail> {
    let version = MajorMinor::new(10, 5);
    let value = version.to_json(rt.alloc())?;
    let text = value.to_string(rt.alloc())?;
    assert!(rt; text.as_str() == r#"{"major":10,"minor":5}"#);
    assert!(rt; MajorMinor::from_json(&value) == Ok(version));
    let greatest = MajorMinor::new(65535, 65535);
    assert!(rt; round_trip(greatest, rt.alloc())? == Ok(greatest));
    Ok(())
}

#[test]
fn invalid_version_objects(rt: HostRuntime) -> Result<(), Fail> {
    let alloc = rt.alloc();
    for &(text, ref fault) in &[
        ("[1,0]", JsonFault::WrongKind),
        (r#"{"major":10}"#, JsonFault::MissingMember),
        (r#"{"minor":5}"#, JsonFault::MissingMember),
        (r#"{"minor":70000,"major":"x"}"#, JsonFault::WrongKind),
        (r#"{"minor":70000,"major":1}"#, JsonFault::OutOfRange),
        (r#"{"major":70000}"#, JsonFault::OutOfRange),
        (r#"{"major":null,"minor":5}"#, JsonFault::WrongKind),
        (r#"{"major":10,"minor":null}"#, JsonFault::WrongKind),
        (r#"{"major":null}"#, JsonFault::WrongKind),
        ("null", JsonFault::WrongKind),
    ] {
        let read = MajorMinor::from_json(&Value::from_str(alloc, text)?);
        assert!(rt; read.err().as_ref() == Some(fault), "{text}");
    }
    let more = Value::from_str(alloc, r#"{"name":null,"minor":2,"major":1}"#)?;
    assert!(rt; MajorMinor::from_json(&more) == Ok(MajorMinor::VERSION_1_2));
    Ok(())
}
