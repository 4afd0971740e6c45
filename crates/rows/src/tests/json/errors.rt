//! What no clause says: texts, discriminants and traits of `JsonFault`.

use font_types::JsonFault;
use std::error::Error;
use std::fmt;
use std::test::Fail;

#[test]
fn error_texts(rt: HostRuntime) -> Result<(), Fail> {
    for (fault, text) in &[
        (JsonFault::Memory, "out of memory Memory"),
        (JsonFault::WrongKind, "wrong kind of value WrongKind"),
        (JsonFault::OutOfRange, "number out of range OutOfRange"),
        (JsonFault::Syntax, "not a decimal number Syntax"),
        (JsonFault::NotUtf8, "tag is not UTF-8 NotUtf8"),
        (JsonFault::InvalidTag, "invalid tag InvalidTag"),
        (JsonFault::MissingMember, "missing member MissingMember"),
    ] {
        assert!(rt;
            format!(in rt.alloc(); "{fault} {fault:?}")?.as_str() == *text,
            "{text}"
        );
    }
    Ok(())
}

#[test]
fn error_discriminants(rt: HostRuntime) {
    assert!(rt; JsonFault::Memory as u8 == 1 && JsonFault::WrongKind as u8 == 2);
    assert!(rt; JsonFault::OutOfRange as u8 == 3 && JsonFault::Syntax as u8 == 4);
    assert!(rt; JsonFault::NotUtf8 as u8 == 5 && JsonFault::InvalidTag as u8 == 6);
    assert!(rt; JsonFault::MissingMember as u8 == 7);
}

// A fault is `Clone`, `Eq`, `Debug`, `Display` and an `Error`, and has no order, hash or default.
fn is_error<F: Clone + Eq + fmt::Debug + Error + Drop>(fault: F, other: F) -> bool {
    match fault.clone() {
        Ok(copy) => copy == fault && fault != other,
        Err(_) => false,
    }
}

#[test]
fn error_traits(rt: HostRuntime) {
    assert!(rt; is_error(JsonFault::NotUtf8, JsonFault::InvalidTag));
    assert!(rt; is_error(JsonFault::WrongKind, JsonFault::OutOfRange));
}
