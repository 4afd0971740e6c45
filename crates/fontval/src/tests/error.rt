//! What no clause says: the texts and numbers of the errors of lines.

use font_lines::error::{CommandError, LineError};
use std::alloc::AllocError;
use std::test::Fail;

#[test]
fn error_texts(rt: HostRuntime) -> Result<(), Fail> {
    for &(error, number, text) in &[
        (LineError::UnknownCommand, 1, "unknown command"),
        (LineError::WordCount, 2, "wrong number of words"),
        (
            LineError::NotHexadecimal,
            3,
            "not hexadecimal bytes of the type",
        ),
        (LineError::NotDecimal, 4, "not a decimal number"),
        (LineError::OutOfRange, 5, "number out of range"),
        (LineError::NotInteger, 6, "not an integer"),
    ] {
        let command = CommandError::Line(error).to_string(rt.alloc())?;
        assert!(rt; command.as_str() == text, "{text}");
        assert!(rt;
            error as u8 == number && error.to_string(rt.alloc())?.as_str() == text,
            "{number}: {text}"
        );
    }
    let memory = CommandError::Memory(AllocError);
    assert!(rt; memory.to_string(rt.alloc())?.as_str() == "memory");
    Ok(())
}
