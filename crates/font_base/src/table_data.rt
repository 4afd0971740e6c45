//! Table data with a fixed-size header.

ghost use Rattle.std.specs.Prelude.{◌≡◌, ⊤, ℕ, List, IsSome, IfSome, ◌↔◌, ◌≤◌, length, take, drop};

use crate::big_endian::BigEndian;
use std::alloc::AllocError;
use std::marker::PhantomData;

/// A fixed-size header at the start of a table.
///
/// # Laws
///
/// Rattle proves this of every implementation; rustc does not check it.
///
/// - `decode` returns a header for any `BYTE_LEN` bytes: it does not panic.
///
/// ```
/// use font_types::{Scalar, TableDataRef, TableHeader, Version16Dot16};
///
/// /// The header of the table `maxp`.
/// struct MaxpHeader {
///     version: Version16Dot16,
///     glyph_count: u16,
/// }
///
/// impl TableHeader for MaxpHeader {
///     const BYTE_LEN: usize = 6;
///
///     fn decode(bytes: &[u8]) -> Self {
///         Self {
///             version: Scalar::read(&bytes[..4]).expect("four bytes"),
///             glyph_count: Scalar::read(&bytes[4..]).expect("two bytes"),
///         }
///     }
/// }
///
/// let maxp = TableDataRef::<MaxpHeader>::new(&[0, 0, 0x50, 0, 1, 4]).unwrap();
/// assert_eq!(maxp.header().version, Version16Dot16::VERSION_0_5);
/// assert_eq!(maxp.header().glyph_count, 260);
/// assert!(TableDataRef::<MaxpHeader>::new(&[0, 0, 0x50, 0, 1]).is_none());
/// ```
pub trait TableHeader: Sized {
    /// The size of the header, in bytes.
    const BYTE_LEN: usize;

    ghost BYTE_LEN: { ℕ };

    // these bytes are the encoded header
    ghost decodes: { List ℕ → Self → Type 0 };

    /// Decodes a header from exactly `BYTE_LEN` bytes.
    ///
    /// # Panics
    ///
    /// May panic if there are fewer or more.
    fn decode(bytes: &[u8]) -> Self
        requires { length bytes.now ≡ BYTE_LEN }
        ensures { decodes bytes.now result };
}

/// The bytes of a table that starts with a header of type `H`.
///
/// The length is checked once, by `new`.
///
/// ```
/// use font_types::{Scalar, TableDataRef, TableHeader};
///
/// /// The number of glyphs, in the table `maxp` after its version.
/// struct GlyphCount(u16);
///
/// impl TableHeader for GlyphCount {
///     const BYTE_LEN: usize = 6;
///
///     fn decode(bytes: &[u8]) -> Self {
///         Self(Scalar::read(&bytes[4..]).expect("two bytes"))
///     }
/// }
///
/// let maxp = TableDataRef::<GlyphCount>::new(&[0, 1, 0, 0, 1, 4, 0, 9]).unwrap();
/// assert_eq!(maxp.header().0, 260);
/// assert_eq!(maxp.rest(), [0, 9]);
/// ```
pub struct TableDataRef<'a, H: TableHeader> {
    data: &'a [u8],
    header: PhantomData<H>,
    ghost long: { H.BYTE_LEN ≤ length «data».now },
}

impl<'a, H: TableHeader> TableDataRef<'a, H> {
    ghost use Rattle.font_base.specs.TableData.{table_bytes};

    /// Creates a table over `data`, or returns `None` if it is too short for the header.
    #[inline(always)]
    pub const fn new(data: &'a [u8]) -> Option<TableDataRef<'a, H>>
        ensures variant { IsSome result ↔ (H.BYTE_LEN ≤ length «data».now) }
        ensures bytes { IfSome result (λ table. table_bytes table ≡ «data».now) }
    {
        if data.len() < H::BYTE_LEN {
            return None;
        }
        Some(TableDataRef {
            data,
            header: PhantomData,
        })
    }

    /// Decodes the header from the first `BYTE_LEN` bytes.
    #[inline(always)]
    pub fn header(&self) -> H
        ensures { H.decodes (take H.BYTE_LEN (table_bytes self.now)) result }
    {
        H::decode(&self.data[..H::BYTE_LEN])
    }

    /// Returns all the bytes, including the header.
    #[inline(always)]
    pub const fn data(&self) -> &'a [u8]
        ensures { result.now ≡ table_bytes self.now }
    {
        self.data
    }

    /// Returns the bytes after the header.
    pub fn rest(&self) -> &'a [u8]
        ensures { result.now ≡ drop H.BYTE_LEN (table_bytes self.now) }
    {
        &self.data[H::BYTE_LEN..]
    }

    /// Returns the header and the bytes after it.
    pub fn split(&self) -> (H, &'a [u8])
        ensures header { H.decodes (take H.BYTE_LEN (table_bytes self.now)) result.0 }
        ensures rest { result.1.now ≡ drop H.BYTE_LEN (table_bytes self.now) }
    {
        (self.header(), self.rest())
    }
}

impl<'a, H: TableHeader> Clone for TableDataRef<'a, H> {
    ghost use Rattle.font_base.specs.TableData.{table_bytes};

    ghost is_clone = { λ table copy. table_bytes copy ≡ table_bytes table };

    ghost is_infallible = { λ _. ⊤ };

    fn clone(&self) -> Result<TableDataRef<'a, H>, AllocError> {
        Ok(TableDataRef {
            data: self.data,
            header: PhantomData,
        })
    }
}

impl<'a, H: TableHeader> Copy for TableDataRef<'a, H> {}

/// An example of a header, with two fields.
#[doc(hidden)]
#[derive(Drop)]
pub struct SampleHeader {
    /// Bytes 0 and 1.
    pub a: BigEndian<u16>,
    /// Bytes 2 to 5.
    pub b: BigEndian<u32>,
}

impl TableHeader for SampleHeader {
    ghost use Rattle.font_base.specs.TableData.{IsSampleHeader};

    const BYTE_LEN: usize = 6;

    ghost BYTE_LEN = { 6 };

    ghost decodes = { IsSampleHeader };

    fn decode(bytes: &[u8]) -> SampleHeader {
        SampleHeader {
            a: BigEndian::from_slice(&bytes[..2]).unwrap(),
            b: BigEndian::from_slice(&bytes[2..]).unwrap(),
        }
    }
}
