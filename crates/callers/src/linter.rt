//! A linter of tags and of the records of a table directory.
//!
//! This is a file of bytes, so it names `tables` in place of `calls`.
#![tactic(auto, using(font_types::proofs::Callers::tables))]

ghost use Rattle.std.specs.List.Sorted.{IsPermutation, IsSortedByKey};
ghost use Rattle.std.specs.List.{AllAdjacentBelow, sum_by};
ghost use Rattle.std.specs.Prelude.{◌≡◌, ◌↔◌, ◌≤◌, ◌<◌, ◌+◌, ◌*◌, ◌/◌, ◌%◌, ◌^◌, All, IsTrue};
ghost use Rattle.std.specs.Prelude.{IsSome, IfSome, IfNone, MatchOption, MatchResult, length};
ghost use Rattle.std.specs.Prelude.{take, drop, pos, ℕ};
ghost use Rattle.font_types.specs.{Array.array_elements, Bytes.numeral, Bytes.bytes_of};
ghost use Rattle.font_types.specs.Tag.{tag_bytes, IsGood};
ghost use Rattle.callers.specs.Linter.{IsFirstBad, IsInOrder, IsFirstUnordered};

use font_types::{Fixed, InvalidTag, Offset32, Scalar, ScalarArray, Tag};
use std::cmp::Ordering;
use thiserror::Error;

// ---- tags

/// The first invalid tag of a list.
#[derive(Clone, Debug, PartialEq, Eq, Drop, Error)]
#[error("tag {index}: {error}")]
pub struct BadTag {
    pub index: usize,
    pub error: InvalidTag,
}

/// Checks each element: tags, up to the first invalid one.
///
/// The invariant of its loop says of the tags so far what the clause says of all, by `AllWithin`.
pub fn validate(tags: &[Tag]) -> Result<(), BadTag>
    ensures { MatchResult result (λ _. All (λ tag. IsGood (tag_bytes tag)) tags.now)
        (λ bad. IsFirstBad tags.now bad) }
{
    for (index, tag) in tags.iter().enumerate() {
        if let Err(error) = tag.validate() {
            return Err(BadTag { index, error });
        }
    }
    Ok(())
}

/// Checks each record for what has several parts: the index of the first axis of `fvar` whose
/// values are not in order, or `None`.
///
/// `IsInOrder` is `unfoldable`, and `is_in_order` alone unfolds it. If it is an `abbrev` or a
/// record in place of that, the loop stays open.
pub fn first_unordered(axes: &[u8]) -> Option<usize>
    ensures { MatchOption result
        ((k : ℕ) → k < length axes.now / 20 → IsInOrder axes.now (k * 20))
        (λ index. IsFirstUnordered axes.now index) }
{
    for index in 0..axes.len() / 20 {
        if !is_in_order(axes, index * 20) {
            return Some(index);
        }
    }
    None
}

// Returns whether the values of the axis at an offset are in order.
#[tactic(auto, unfolding(crate::specs::Linter::IsInOrder))]
fn is_in_order(axes: &[u8], at: usize) -> bool
    requires { at + 20 ≤ length axes.now }
    ensures { IsTrue result ↔ IsInOrder axes.now at }
{
    let min = Fixed::read_at(axes, at + 4).unwrap();
    let default = Fixed::read_at(axes, at + 8).unwrap();
    let max = Fixed::read_at(axes, at + 12).unwrap();
    min <= default && default <= max
}

/// Checks every two neighbors: whether tags are strictly ascending.
///
/// The invariant compares their bytes by `slice_cmp nat_cmp`, which is the order of tags.
///
/// Compares tags in the order of the clause: if it has `cmp a b`, write `a >= b`, and not `b <= a`.
/// A loop that compares tags by `==` proves with `a.eq_bytes(b.as_bytes())`.
pub fn is_ascending(tags: &[Tag]) -> bool
    ensures { IsTrue result ↔ AllAdjacentBelow
        (λ a b. ⟦<Tag as Ord>⟧.cmp a b ≡ Ordering.Less) tags.now (length tags.now) }
{
    for index in 1..tags.len() {
        if tags[index - 1] >= tags[index] {
            return false;
        }
    }
    true
}

// ---- records of a table directory

/// A record of a table directory.
#[derive(Clone, Copy, PartialEq, Eq)]
pub struct TableRecord {
    pub tag: Tag,
    pub checksum: u32,
    pub offset: Offset32,
    pub length: u32,
}

/// Sorts by a key: records by tag, as a table directory stores them.
///
/// The clause of a sort by a closure is for each key that the closure gives; the answer names it.
pub fn sort_by_tag(records: &mut [TableRecord])
    ensures same { IsPermutation records.old records.new }
    ensures sorted { IsSortedByKey (λ r. r.tag) ⟦<Tag as Ord>⟧.cmp records.new }
{
    records.sort_unstable_by_key(|record| record.tag);
}

/// Adds the elements of an array: the checksum of a table, modulo 2^32.
///
/// The invariant of its loop says that the sum so far and the words that are left make the sum.
pub fn checksum(words: ScalarArray<'_, u32>) -> u32
    ensures { result ≡ sum_by numeral (array_elements words.entry) % 2 ^ 32 }
{
    let mut total = 0u32;
    for word in words {
        total = total.wrapping_add(word);
    }
    total
}

/// Writes two fields at an offset: the checksum and the offset of a table into its record, or
/// returns `None` if the directory ends before them.
///
/// The last field is written first: if it has no room, nothing has been written.
pub fn mend_record(directory: &mut [u8], at: usize, checksum: u32, offset: u32) -> Option<()>
    ensures variant { IsSome result ↔ (at + 12 ≤ length directory.old) }
    ensures before { take (at + 4) directory.new ≡ take (at + 4) directory.old }
    ensures checksum { IfSome result (λ _.
        take 4 (drop (at + 4) directory.new) ≡ bytes_of 4 (pos checksum)) }
    ensures offset { IfSome result (λ _.
        take 4 (drop (at + 8) directory.new) ≡ bytes_of 4 (pos offset)) }
    ensures after { drop (at + 12) directory.new ≡ drop (at + 12) directory.old }
    ensures kept { IfNone result (directory.new ≡ directory.old) }
{
    offset.write_at(directory, at.checked_add(8)?)?;
    checksum.write_at(directory, at + 4)
}
