//! Records whose size is a field of their table.

ghost use Rattle.std.specs.Prelude.{◌≡◌, ◌↔◌, ◌+◌, ◌*◌, ◌<◌, ◌≤◌, IsSome, IfSome, length, take};
ghost use Rattle.std.specs.Prelude.{drop, []};
ghost use Rattle.std.specs.Slice.Iter.{chunks_exact_rest, chunks_exact_size};
ghost use Rattle.std.specs.Slice.Iter.{chunks_exact_remainder};

use std::slice::ChunksExact;

/// Where a table has records whose size is one of its fields: `count` records of `size` bytes each,
/// one after another from `offset`.
///
/// Tables store records this way so that later versions can lengthen them: the axes and the
/// instances of `fvar`, the axes of `STAT`, the values of `MVAR`. Read the fields of each record
/// from its own bytes.
///
/// ```
/// use font_types::{ByteRecords, Scalar, Tag};
/// // Two records of a tag and a byte that a later version has added.
/// let table = *b"\0\0wght\x01wdth\x02";
/// let axes = ByteRecords { offset: 2, count: 2, size: 5 };
/// let mut tags = axes.of(&table).unwrap().map(|axis| Tag::read_at(axis, 0));
/// assert_eq!(tags.next(), Some(Some(Tag::new(b"wght"))));
/// assert_eq!(tags.next(), Some(Some(Tag::new(b"wdth"))));
/// assert!(ByteRecords { count: 3, ..axes }.of(&table).is_none());
/// ```
#[derive(Clone, Copy, PartialEq, Eq, Hash, Debug)]
pub struct ByteRecords {
    /// The index of the first byte of the first record.
    pub offset: usize,
    /// The number of records.
    pub count: usize,
    /// The number of bytes of a record.
    pub size: usize,
}

impl ByteRecords {
    /// Returns the bytes of each record, or `None` if `size` is 0 or `offset + count * size` is
    /// greater than the number of bytes.
    pub fn of(self, bytes: &[u8]) -> Option<ChunksExact<'_, u8>>
        ensures variant { IsSome result
            ↔ ((0 < self.size) × (self.offset + self.count * self.size ≤ length bytes.now)) }
        ensures bytes { IfSome result (λ records. chunks_exact_rest records
            ≡ take (self.count * self.size) (drop self.offset bytes.now)) }
        ensures size { IfSome result (λ records. chunks_exact_size records ≡ self.size) }
        ensures remainder { IfSome result (λ records. chunks_exact_remainder records ≡ []) }
    {
        let Self {
            offset,
            count,
            size,
        } = self;
        if size == 0 {
            return None;
        }
        let end = offset.checked_add(count.checked_mul(size)?)?;
        Some(bytes.get(offset..end)?.chunks_exact(size))
    }
}
