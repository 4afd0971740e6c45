//! What the prover knows of a slice of bytes: each is below 256.
#![tactic(auto)]

ghost use Rattle.std.specs.Prelude.{IsTrue, length};
ghost use Rattle.font_base.specs.Bytes.{are_bytes};

// A fact, which a caller's proof cites.
pub(crate) fn each_is_byte(slice: &[u8])
    ensures { IsTrue (are_bytes (length slice.now) slice.now) }
{}
