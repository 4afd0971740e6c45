//! Offsets to tables.

ghost use Rattle.std.specs.Prelude.{◌≡◌, ◌^◌, ◌↔◌, ℕ, pos, nat_lt, true, IsTrue, refl, IsNone};
ghost use Rattle.std.specs.Prelude.{IsSome, IfSome, ◌<◌, ◌≤◌, length, drop};
ghost use Rattle.std.proofs.Common.{lit<};
ghost use Rattle.font_base.specs.Uint24.{uint24_number, uint24_of, uint24_of_bytes};
ghost use Rattle.font_base.specs.Uint24.{bytes_of_uint24};
ghost use Rattle.font_base.specs.Uint24.Laws.{uint24_laws, uint24_identity, uint24_number-of};
ghost use Rattle.font_base.specs.Bytes.{bytes_of, numeral};
ghost use Rattle.font_base.specs.Scalar.Laws.{unsigned_newtype, unsigned_identity};
ghost use Rattle.font_ids.specs.Newtype.{newtype_laws, newtype_identity};
ghost use Rattle.font_ids.specs.Offset.{offset16_number, offset16_of, offset24_number, offset24_of};
ghost use Rattle.font_ids.specs.Offset.{offset32_number, offset32_of, nullable_offset, nullable_of};

use font_base::{FixedSize, IdentityEq, Scalar, Uint24};

/// A 16-bit offset to a table. Zero means null, that is, no table, if the field allows that.
///
/// ```
/// use font_types::Offset16;
/// let offset = Offset16::new(7);
/// assert!(!offset.is_null() && offset.to_u32() == 7);
/// ```
#[derive(Clone, Copy, Debug, PartialEq, Eq, PartialOrd, Ord)]
pub struct Offset16(u16);

impl Offset16 {
    /// Creates an offset.
    pub const fn new(raw: u16) -> Self
        ensures { offset16_number result ≡ raw }
    {
        Self(raw)
    }

    /// Returns `true` if the offset is zero.
    pub const fn is_null(self) -> bool
        ensures { IsTrue result ↔ (offset16_number self ≡ 0) }
    {
        self.0 == 0
    }

    /// Returns the number.
    pub const fn to_u32(self) -> u32
        ensures { result ≡ offset16_number self }
    {
        self.0 as u32
    }

    /// Returns the number as an index.
    pub const fn to_usize(self) -> usize
        ensures { result ≡ offset16_number self }
    {
        self.0 as usize
    }
}

/// The named form of `==` across types, which Rattle needs.
#[doc(hidden)]
impl Offset16 {
    /// Returns `true` if the offset is this number, as `==` does.
    pub const fn eq_u32(&self, other: &u32) -> bool
        ensures { IsTrue result ↔ (offset16_number self.now ≡ other.now) }
    {
        self.to_u32() == *other
    }
}

impl From<Offset16> for usize {
    ghost from_gives = { λ offset number. number ≡ offset16_number offset };

    fn from(offset: Offset16) -> usize {
        usize::from(offset.0)
    }
}

impl FixedSize for Offset16 {
    const RAW_BYTE_LEN: usize = 2;

    ghost RAW_BYTE_LEN = { 2 };
}

impl Scalar for Offset16 {
    type Raw = [u8; 2];

    ghost is_scalar = { λ offset. nat_lt (offset16_number offset) (2 ^ 16) };

    ghost of_raw = { λ raw. offset16_of (numeral raw) };

    ghost raw_of = { λ offset. bytes_of 2 (pos (offset16_number offset)) };

    ghost laws = { unsigned_newtype 2 offset16_number offset16_of (λ _. refl) (λ _. refl) };

    fn from_raw(raw: [u8; 2]) -> Offset16 {
        Offset16(u16::from_raw(raw))
    }

    fn to_raw(self) -> [u8; 2] {
        self.0.to_raw()
    }
}

impl IdentityEq for Offset16 {
    ghost identity = { unsigned_identity offset16_number offset16_of (λ _. refl) };
}

/// A 24-bit offset to a table. Zero means null, that is, no table, if the field allows that.
///
/// ```
/// use font_types::{Offset24, Uint24};
/// let offset = Offset24::new(Uint24::new(7));
/// assert!(!offset.is_null() && offset.to_u32() == 7);
/// ```
#[derive(Clone, Copy, Debug, PartialEq, Eq, PartialOrd, Ord)]
pub struct Offset24(Uint24);

impl Offset24 {
    /// Creates an offset.
    pub const fn new(raw: Uint24) -> Self
        ensures { offset24_number result ≡ uint24_number raw }
    {
        Self(raw)
    }

    /// Returns `true` if the offset is zero.
    pub const fn is_null(self) -> bool
        ensures { IsTrue result ↔ (offset24_number self ≡ 0) }
    {
        self.0.to_u32() == 0
    }

    /// Returns the number.
    pub const fn to_u32(self) -> u32
        ensures { result ≡ offset24_number self }
    {
        self.0.to_u32()
    }

    /// Returns the number as an index.
    pub const fn to_usize(self) -> usize
        ensures { result ≡ offset24_number self }
    {
        self.to_u32() as usize
    }
}

/// The named form of `==` across types, which Rattle needs.
#[doc(hidden)]
impl Offset24 {
    /// Returns `true` if the offset is this number, as `==` does.
    pub const fn eq_u32(&self, other: &u32) -> bool
        ensures { IsTrue result ↔ (offset24_number self.now ≡ other.now) }
    {
        self.to_u32() == *other
    }
}

impl From<Offset24> for usize {
    ghost from_gives = { λ offset number. number ≡ offset24_number offset };

    fn from(offset: Offset24) -> usize {
        usize::from(offset.0)
    }
}

impl FixedSize for Offset24 {
    const RAW_BYTE_LEN: usize = 3;

    ghost RAW_BYTE_LEN = { 3 };
}

impl Scalar for Offset24 {
    type Raw = [u8; 3];

    ghost is_scalar = { λ _. true };

    ghost of_raw = { λ raw. offset24_of (uint24_of_bytes raw) };

    ghost raw_of = { λ offset. bytes_of_uint24 offset.0 };

    ghost laws = { newtype_laws (λ offset. offset.0) offset24_of (λ _. refl)
        (λ _. refl) uint24_laws };

    fn from_raw(raw: [u8; 3]) -> Offset24 {
        Offset24(Uint24::from_raw(raw))
    }

    fn to_raw(self) -> [u8; 3] {
        self.0.to_raw()
    }
}

impl IdentityEq for Offset24 {
    ghost identity = { newtype_identity (λ offset. offset.0) offset24_of
        (λ _. refl) uint24_identity };
}

/// A 32-bit offset to a table. Zero means null, that is, no table, if the field allows that.
///
/// ```
/// use font_types::Offset32;
/// let offset = Offset32::new(7);
/// assert!(!offset.is_null() && offset.to_u32() == 7);
/// ```
#[derive(Clone, Copy, Debug, PartialEq, Eq, PartialOrd, Ord)]
pub struct Offset32(u32);

impl Offset32 {
    /// Creates an offset.
    pub const fn new(raw: u32) -> Self
        ensures { offset32_number result ≡ raw }
    {
        Self(raw)
    }

    /// Returns `true` if the offset is zero.
    pub const fn is_null(self) -> bool
        ensures { IsTrue result ↔ (offset32_number self ≡ 0) }
    {
        self.to_u32() == 0
    }

    /// Returns the number.
    pub const fn to_u32(self) -> u32
        ensures { result ≡ offset32_number self }
    {
        self.0
    }

    /// Returns the number as an index.
    pub const fn to_usize(self) -> usize
        ensures { result ≡ offset32_number self }
    {
        self.0 as usize
    }
}

/// The named form of `==` across types, which Rattle needs.
#[doc(hidden)]
impl Offset32 {
    /// Returns `true` if the offset is this number, as `==` does.
    pub const fn eq_u32(&self, other: &u32) -> bool
        ensures { IsTrue result ↔ (offset32_number self.now ≡ other.now) }
    {
        self.to_u32() == *other
    }
}

impl FixedSize for Offset32 {
    const RAW_BYTE_LEN: usize = 4;

    ghost RAW_BYTE_LEN = { 4 };
}

impl Scalar for Offset32 {
    type Raw = [u8; 4];

    ghost is_scalar = { λ offset. nat_lt (offset32_number offset) (2 ^ 32) };

    ghost of_raw = { λ raw. offset32_of (numeral raw) };

    ghost raw_of = { λ offset. bytes_of 4 (pos (offset32_number offset)) };

    ghost laws = { unsigned_newtype 4 offset32_number offset32_of (λ _. refl) (λ _. refl) };

    fn from_raw(raw: [u8; 4]) -> Offset32 {
        Offset32(u32::from_raw(raw))
    }

    fn to_raw(self) -> [u8; 4] {
        self.0.to_raw()
    }
}

impl IdentityEq for Offset32 {
    ghost identity = { unsigned_identity offset32_number offset32_of (λ _. refl) };
}

/// An offset that can be [`Nullable`].
///
/// ```
/// use font_types::{Offset16, Offset32, OffsetValue};
/// fn is_before<T: OffsetValue, U: OffsetValue>(a: T, b: U) -> bool {
///     a.value_u32() < b.value_u32()
/// }
/// assert!(is_before(Offset32::NULL, Offset16::new(8)));
/// ```
///
/// # Laws
///
/// Rattle proves this of every implementation; rustc does not check it.
///
/// - `NULL.value_u32()` is 0.
pub trait OffsetValue: Copy {
    /// The null offset, 0.
    const NULL: Self;

    ghost NULL: { Self };

    // the number of the offset
    ghost number_of: { Self → ℕ };

    /// Returns the number.
    fn value_u32(&self) -> u32
        ensures { result ≡ number_of self.now };

    /// Returns the number as an index.
    ///
    /// ```
    /// use font_types::{OffsetValue, Scalar};
    /// fn rest<T: Scalar + OffsetValue>(table: &[u8]) -> Option<&[u8]> {
    ///     table.get(T::read_at(table, 0)?.to_usize()..)
    /// }
    /// assert_eq!(rest::<font_types::Offset16>(&[0, 3, 9, 8]), Some(&[8][..]));
    /// ```
    fn to_usize(self) -> usize
        ensures { result ≡ number_of self }
    {
        self.value_u32() as usize
    }

    /// Returns the bytes from where the offset points, to the end of the table, or `None` if the
    /// offset is null or past the end. A field that may be null is a [`Nullable`], whose `get` is
    /// `None` if it is: of what `get` returns, `None` here means past the end.
    ///
    /// The offset of a string in `name`, or of a glyph in `loca` or `gvar`, is not null if it is 0.
    /// There, call `get` of the slice. (An [`Offset16`] of `loca` or `gvar` counts in units of 2
    /// bytes.)
    ///
    /// ```
    /// use font_types::{Offset16, OffsetValue};
    /// let table = [0, 4, 9, 9, 1, 2];
    /// assert_eq!(Offset16::new(4).follow(&table), Some(&[1, 2][..]));
    /// assert_eq!(Offset16::new(0).follow(&table), None);
    /// assert_eq!(table.get(Offset16::new(0).to_usize()..), Some(&table[..]));
    /// assert_eq!(Offset16::new(7).follow(&table), None);
    /// ```
    fn follow(self, table: &[u8]) -> Option<&[u8]>
        ensures variant { IsSome result
            ↔ ((0 < number_of self) × (number_of self ≤ length table.now)) }
        ensures bytes { IfSome result (λ bytes. bytes.now ≡ drop (number_of self) table.now) }
    {
        match self.to_usize() {
            0 => None,
            start => table.get(start..),
        }
    }

    // Null is zero.
    ghost null_is_zero: { number_of NULL ≡ 0 };
}

impl OffsetValue for Offset16 {
    const NULL: Offset16 = Offset16(0);

    ghost NULL = { offset16_of 0 };

    ghost number_of = { offset16_number };

    ghost null_is_zero = { refl };

    fn value_u32(&self) -> u32 {
        self.to_u32()
    }
}

impl OffsetValue for Offset24 {
    const NULL: Offset24 = Offset24(Uint24::MIN);

    ghost NULL = { offset24_of (uint24_of 0) };

    ghost number_of = { offset24_number };

    ghost null_is_zero = { uint24_number-of 0 (lit< tt) };

    fn value_u32(&self) -> u32 {
        self.to_u32()
    }
}

impl OffsetValue for Offset32 {
    const NULL: Offset32 = Offset32(0);

    ghost NULL = { offset32_of 0 };

    ghost number_of = { offset32_number };

    ghost null_is_zero = { refl };

    fn value_u32(&self) -> u32 {
        self.to_u32()
    }
}

/// An offset that may be null, that is, refer to no table.
///
/// ```
/// use font_types::{Nullable, Offset16, Scalar};
/// assert!(Nullable::<Offset16>::read(&[0, 0]).unwrap().is_null());
/// ```
#[derive(Clone, Copy, Debug, PartialEq, Eq)]
pub struct Nullable<T>(T);

impl<T> Nullable<T> {
    /// Returns the offset, whether null or not.
    pub const fn offset(&self) -> &T
        ensures { result.now ≡ nullable_offset self.now }
    {
        &self.0
    }
}

impl<T: OffsetValue> Nullable<T> {
    /// Returns `true` if the offset is zero.
    pub fn is_null(&self) -> bool
        ensures { IsTrue result ↔ (T.number_of (nullable_offset self.now) ≡ 0) }
    {
        self.0.value_u32() == 0
    }

    /// Returns the offset, or `None` if it is null.
    pub fn get(self) -> Option<T>
        ensures variant { IsNone result ↔ (T.number_of (nullable_offset self) ≡ 0) }
        ensures value { IfSome result (λ offset. offset ≡ nullable_offset self) }
    {
        if self.is_null() { None } else { Some(self.0) }
    }
}

/// The named form of `==` across types, which Rattle needs.
#[doc(hidden)]
impl<T: OffsetValue> Nullable<T> {
    /// Returns `true` if the offset is this number, as `==` does.
    pub fn eq_u32(&self, other: &u32) -> bool
        ensures { IsTrue result ↔ (T.number_of (nullable_offset self.now) ≡ other.now) }
    {
        self.0.value_u32() == *other
    }
}

/// Null.
impl<T: OffsetValue> Default for Nullable<T> {
    ghost is_default = { λ nullable. nullable_offset nullable ≡ T.NULL };

    fn default() -> Nullable<T> {
        Nullable(T::NULL)
    }
}

impl<T: FixedSize> FixedSize for Nullable<T> {
    const RAW_BYTE_LEN: usize = T::RAW_BYTE_LEN;

    ghost RAW_BYTE_LEN = { T.RAW_BYTE_LEN };
}

impl<T: Scalar> Scalar for Nullable<T> {
    type Raw = T::Raw;

    ghost is_scalar = { λ nullable. T.is_scalar (nullable_offset nullable) };

    ghost of_raw = { λ raw. nullable_of (T.of_raw raw) };

    ghost raw_of = { λ nullable. T.raw_of (nullable_offset nullable) };

    ghost laws = { newtype_laws nullable_offset nullable_of (λ _. refl) (λ _. refl) T.Scalar.laws };

    fn from_raw(raw: T::Raw) -> Nullable<T> {
        Nullable(T::from_raw(raw))
    }

    fn to_raw(self) -> T::Raw {
        T::to_raw(self.0)
    }
}
