//! A dumper of font values: columns, lines in a buffer, and JSON.

ghost use Rattle.std.specs.Prelude.{◌≡◌, ◌≤◌, ◌<◌, Some, None, Ok, IfOk, IfErr, MatchResult};
ghost use Rattle.std.specs.Prelude.{◌+◌, ◌++◌, length, take, drop, FitsSigned};
ghost use Rattle.std.specs.Int.{w32};
ghost use Rattle.std.specs.List.{flat_map};
ghost use lib.Chars.{codes};
ghost use Rattle.serde_json.specs.{Data.object, Data.member, Data.no_members, Find.get, View.view};
ghost use Rattle.font_types.specs.Tag.{tag_bytes, IsGood};
ghost use Rattle.font_types.specs.{Fixed.fixed_text, Padding.padded_text};
ghost use Rattle.font_types.specs.{Fixed.Fixed, Fixed.fixed_bits, Operations.ReadsBits};
ghost use Rattle.font_types.specs.NumberReading.{ParsesFixedPoint};
ghost use Rattle.callers.specs.declared.dumper.Axis.{Axis};
ghost use Rattle.callers.specs.Dumper.{column, IsAxis, axis_form, ConvertsMember, ConvertsAxis};

use font_types::{DecimalFault, Fixed, JsonFault, JsonScalar, NameId, Pad, Tag};
use serde_json::{Value, json};
use std::alloc::{AllocError, Global};

// ---- columns

/// Prints columns: numbers in columns of one width, aligned to the right; a longer number is wider.
///
/// `write_padded` always succeeds with 32 bytes, since no `Fixed` is longer than 12.
pub fn row(numbers: &[Fixed], width: usize, alloc: Global) -> Result<Vec<u8>, AllocError>
    requires { width ≤ 32 }
    ensures { IfOk result (λ row.
        row.items ≡ flat_map (λ number. padded_text (fixed_text number) (column width))
        numbers.now) }
{
    let mut row = Vec::new(alloc);
    for number in numbers {
        let mut cell = [b' '; 32];
        let len = number.write_padded(&mut cell, &Pad::new(width)).unwrap();
        row.extend_from_slice(&cell[..len])?;
    }
    Ok(row)
}

// ---- lines in a buffer

/// Writes a part of a line into a buffer, at an offset: the offset after it.
///
/// States a text of several parts, written by `put` one after another: `a ++ b ++ c`, which groups
/// to the left. State the text that `format!` writes by `a ++ (b ++ c)`.
pub fn put(out: &mut [u8], at: usize, part: &[u8]) -> usize
    requires { at + length part.now ≤ length out.old }
    ensures offset { result ≡ at + length part.now }
    ensures len { length out.new ≡ length out.old }
    ensures bytes { take result out.new ≡ take at out.old ++ part.now }
{
    let end = at + part.len();
    out[at..end].copy_from_slice(part);
    end
}

/// Writes a line, part by part: a tag, `=` and a number; the length.
///
/// In a function of its own: the write of a part.
pub fn labeled(out: &mut [u8; 32], tag: Tag, value: Fixed) -> usize
    ensures bytes { take result out.new ≡ tag_bytes tag ++ codes "=" ++ fixed_text value }
    ensures room { result ≤ 32 }
{
    let end = put(out, 0, tag.as_bytes());
    let end = put(out, end, b"=");
    put(out, end, value.to_decimal().as_str().as_bytes())
}

/// Reads a line: the number after a label of five bytes, which is the one that was printed there.
///
/// A reader of what another function prints has two clauses: `reads` says which value an `Ok` has,
/// and `printed` when the result is `Ok`.
pub fn value_of(line: &[u8]) -> Result<Fixed, DecimalFault>
    ensures reads { IfOk result (λ x. ReadsBits 32 16 (drop 5 line.now) (fixed_bits x)) }
    ensures printed { (x : Fixed) → FitsSigned w32 (fixed_bits x)
        → drop 5 line.now ≡ fixed_text x → result ≡ Ok x }
{
    let text = if line.len() < 5 { &[] } else { &line[5..] };
    Fixed::from_decimal_bytes(text)
}

/// Parses the rest of a line: the number after a label of five bytes, or why it is none.
///
/// The text of `&line[5..]` is stated by a length. The answer in `proofs/dumper/parsed_after` takes
/// that away by std's `take_rest`. It is for a clause with a definition of the rest of a slice.
pub fn parsed_after(line: &[u8]) -> Result<Fixed, DecimalFault>
    requires { 5 ≤ length line.now }
    ensures { ParsesFixedPoint w32 16 fixed_bits (drop 5 line.now) result }
{
    Fixed::from_decimal_bytes(&line[5..])
}

/// Writes a line and reads it back: the value.
///
/// The answer in `proofs/dumper/line_round_trip` says where the label ends.
pub fn line_round_trip(tag: Tag, value: Fixed) -> Result<Fixed, DecimalFault>
    ensures { result ≡ Ok value }
{
    let mut out = [0; 32];
    let end = labeled(&mut out, tag, value);
    value_of(&out[..end])
}

// ---- JSON

/// The fields of an axis that a dump shows.
#[derive(Clone, Copy, PartialEq, Debug)]
pub struct Axis {
    pub tag: Tag,
    pub default: Fixed,
    pub name: NameId,
}

impl Axis {
    /// Writes JSON: an object with a member for each field. `json!` is in a separate function.
    ///
    /// # Errors
    ///
    /// Returns an error if out of memory, or if the bytes of the tag are not UTF-8.
    pub fn to_json(self, alloc: Global) -> Result<Value, JsonFault>
        ensures form { IfOk result (λ value. view value ≡ axis_form self) }
        ensures refused { IsGood (tag_bytes self.tag)
            → IfErr result (λ fault. fault ≡ JsonFault.Memory) }
        ensures value { IfOk result (λ _. IsAxis self) }
    {
        let tag = self.tag.to_json(alloc)?;
        let default = self.default.to_json(alloc)?;
        let name = self.name.to_json(alloc)?;
        Ok(object_of(&tag, &default, &name, alloc)?)
    }

    /// Reads JSON: the members of an object.
    ///
    /// # Errors
    ///
    /// Returns the first error in the order of the fields; further members are ignored.
    pub fn from_json(value: &Value) -> Result<Axis, JsonFault>
        ensures back { (axis : Axis) → IsAxis axis → IsGood (tag_bytes axis.tag)
            → view value.now ≡ axis_form axis → result ≡ Ok axis }
        ensures read { ConvertsAxis
            (ConvertsMember ⟦<Tag as JsonScalar>⟧.form.reads (codes "tag") (view value.now))
            (ConvertsMember ⟦<Fixed as JsonScalar>⟧.form.reads (codes "default") (view value.now))
            (ConvertsMember ⟦<NameId as JsonScalar>⟧.form.reads (codes "name") (view value.now))
            result }
    {
        Ok(Axis {
            tag: Tag::from_json(member_of(value, "tag")?)?,
            default: Fixed::from_json(member_of(value, "default")?)?,
            name: NameId::from_json(member_of(value, "name")?)?,
        })
    }
}

// Returns the object of these members.
fn object_of(tag: &Value, default: &Value, name: &Value, alloc: Global) -> Result<Value, AllocError>
    ensures { IfOk result (λ value. view value ≡ object (member (codes "default") (view default.now)
        (member (codes "name") (view name.now)
        (member (codes "tag") (view tag.now) no_members)))) }
{
    json!(in alloc; { "tag": tag, "default": default, "name": name })
}

// Returns the member of that name.
fn member_of<'a>(value: &'a Value, name: &str) -> Result<&'a Value, JsonFault>
    ensures { MatchResult result
        (λ member. get name.now (view value.now) ≡ Some (view member.now))
        (λ fault. (get name.now (view value.now) ≡ None) × (fault ≡ JsonFault.MissingMember)) }
{
    value.get(name).ok_or(JsonFault::MissingMember)
}

/// Converts to JSON and back: an axis with a valid tag, unless out of memory.
pub fn round_trip(axis: Axis, alloc: Global) -> Result<Axis, JsonFault>
    ensures back { IsGood (tag_bytes axis.tag) → IfOk result (λ back. back ≡ axis) }
    ensures refused { IsGood (tag_bytes axis.tag)
        → IfErr result (λ fault. fault ≡ JsonFault.Memory) }
{
    let value = axis.to_json(alloc)?;
    Axis::from_json(&value)
}
