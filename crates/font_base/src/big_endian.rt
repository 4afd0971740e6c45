//! Big-endian fields.

ghost use Rattle.std.specs.Prelude.{◌≡◌, ⊤, nat_eq, Some, IsTrue, IsSome, IfSome, IfNone, ◌↔◌, ◌+◌};
ghost use Rattle.std.specs.Prelude.{◌≤◌, length, take, drop, refl};
ghost use Rattle.std.specs.{Ordering.on, Cmp.on_per, Cmp.on_equiv, Cmp.on_total};
ghost use Rattle.std.specs.{Cmp.partial_equiv_from_equiv, Cmp.partial_order_from_agreeing_total};
ghost use Rattle.std.specs.{Cmp.Lexicographic.nat_list_eq_equiv, Cmp.Lexicographic.pointwise};
ghost use Rattle.std.proofs.Common.{rules, ap, sym, ◌∙◌};
ghost use Rattle.std.specs.Hash as fed;
ghost use Rattle.std.specs.Cmp.Rules.{hashing};

use crate::raw::{BeByteArray, FixedSize, IdentityEq, Scalar};
use std::alloc::AllocError;
use std::cmp::Ordering;
use std::fmt;
use std::hash::{Hash, Hasher};
use std::marker::PhantomData;

/// A scalar as stored in a font file: its raw big-endian bytes.
///
/// Two fields are equal if their bytes are, and are ordered by their values. The second parameter
/// is the byte array and is always left out: `BigEndian<u16>` holds a `[u8; 2]`.
///
/// ```
/// use font_types::{BigEndian, FWord};
/// let field = BigEndian::<FWord>::from_slice(&[0xFF, 0xFE]).unwrap();
/// assert_eq!(field.get(), FWord::new(-2));
/// ```
pub struct BigEndian<T: Scalar, R: BeByteArray = <T as Scalar>::Raw> {
    raw: R,
    scalar: PhantomData<T>,
    ghost value: { IsTrue (R.is_value raw) },
}

impl<T: Scalar> BigEndian<T> {
    ghost use Rattle.font_base.specs.BigEndian.{raw_value};

    /// Creates a field from its raw bytes.
    pub fn new(raw: T::Raw) -> BigEndian<T>
        ensures { raw_value result ≡ raw }
    {
        prove!(T::RAW_BYTE_LEN == <T::Raw as BeByteArray>::LEN);
        // Its contract says that the array is a value, which the field keeps.
        let _bytes = raw.as_slice();
        BigEndian {
            raw,
            scalar: PhantomData,
        }
    }

    /// Creates a field from a slice, or returns `None` unless its length is `RAW_BYTE_LEN`.
    pub fn from_slice(slice: &[u8]) -> Option<BigEndian<T>>
        ensures variant { IsSome result ↔ (length slice.now ≡ T.RAW_BYTE_LEN) }
        ensures bytes { IfSome result (λ field. T.Raw.bytes (raw_value field) ≡ slice.now) }
    {
        prove!(T::RAW_BYTE_LEN == <T::Raw as BeByteArray>::LEN);
        let raw = T::Raw::from_slice(slice)?;
        Some(BigEndian {
            raw,
            scalar: PhantomData,
        })
    }

    /// Reads the field at `offset`, or returns `None` if fewer than `RAW_BYTE_LEN` bytes are left
    /// there.
    ///
    /// ```
    /// use font_types::BigEndian;
    /// let field = BigEndian::<u16>::read_at(&[9, 1, 2], 1).unwrap();
    /// assert_eq!(field.get(), 0x0102);
    /// assert!(BigEndian::<u16>::read_at(&[9, 1, 2], 2).is_none());
    /// ```
    pub fn read_at(bytes: &[u8], offset: usize) -> Option<BigEndian<T>>
        ensures variant { IsSome result ↔ (offset + T.RAW_BYTE_LEN ≤ length bytes.now) }
        ensures bytes { IfSome result (λ field.
            T.Raw.bytes (raw_value field) ≡ take T.RAW_BYTE_LEN (drop offset bytes.now)) }
    {
        BigEndian::from_slice(bytes.get(offset..offset.checked_add(T::RAW_BYTE_LEN)?)?)
    }

    /// Writes the field's bytes at `offset`, or returns `None` and writes nothing if fewer than
    /// `RAW_BYTE_LEN` bytes are left there.
    ///
    /// ```
    /// use font_types::BigEndian;
    /// let (field, mut bytes) = (BigEndian::<u16>::from(0x0102), [9; 3]);
    /// assert_eq!(field.write_at(&mut bytes, 1), Some(()));
    /// assert_eq!(bytes, [9, 1, 2]);
    /// assert_eq!(field.write_at(&mut bytes, 2), None);
    /// ```
    pub fn write_at(&self, bytes: &mut [u8], offset: usize) -> Option<()>
        ensures variant { IsSome result ↔ (offset + T.RAW_BYTE_LEN ≤ length bytes.old) }
        ensures before { take offset bytes.new ≡ take offset bytes.old }
        ensures bytes { IfSome result (λ _. take T.RAW_BYTE_LEN (drop offset bytes.new)
            ≡ T.Raw.bytes (raw_value self.now)) }
        ensures after { drop (offset + T.RAW_BYTE_LEN) bytes.new
            ≡ drop (offset + T.RAW_BYTE_LEN) bytes.old }
        ensures kept { IfNone result (bytes.new ≡ bytes.old) }
    {
        self.get().write_at(bytes, offset)
    }

    /// Decodes the value.
    #[inline(always)]
    pub fn get(&self) -> T
        ensures value { result ≡ T.of_raw (raw_value self.now) }
        ensures back { T.raw_of result ≡ raw_value self.now }
    {
        T::from_raw(self.raw)
    }

    /// Overwrites the field with the bytes of `value`.
    pub fn set(&mut self, value: T)
        ensures bytes { raw_value self.new ≡ T.raw_of value }
        ensures back { T.of_raw (raw_value self.new) ≡ value }
    {
        self.raw = value.to_raw();
    }

    /// Returns the raw big-endian bytes.
    pub fn be_bytes(&self) -> &[u8]
        ensures { result.now ≡ T.Raw.bytes (raw_value self.now) }
    {
        self.raw.as_slice()
    }
}

/// The named form of `==` across types, which Rattle needs.
#[doc(hidden)]
impl<T: Scalar> BigEndian<T> {
    ghost use Rattle.font_base.specs.BigEndian.{raw_value};

    /// Returns `true` if the decoded value equals `other`, as `==` does.
    pub fn eq_value(&self, other: &T) -> bool
    where
        T: Copy + PartialEq,
        ensures { result ≡ T.eq (T.of_raw (raw_value self.now)) other.now }
    {
        self.get() == *other
    }
}

impl<T: Scalar, R: BeByteArray> Clone for BigEndian<T, R> {
    ghost is_clone = { λ field copy. copy ≡ field };

    ghost is_infallible = { λ _. ⊤ };

    fn clone(&self) -> Result<BigEndian<T, R>, AllocError> {
        Ok(BigEndian {
            raw: self.raw,
            scalar: PhantomData,
        })
    }
}

impl<T: Scalar, R: BeByteArray> Copy for BigEndian<T, R> {}

impl<T: Scalar> FixedSize for BigEndian<T> {
    const RAW_BYTE_LEN: usize = T::RAW_BYTE_LEN;

    ghost RAW_BYTE_LEN = { T.RAW_BYTE_LEN };
}

impl<T: Scalar> From<T> for BigEndian<T> {
    ghost use Rattle.font_base.specs.BigEndian.{raw_value};

    ghost from_gives = { λ value field. (raw_value field ≡ T.raw_of value)
        × (T.of_raw (raw_value field) ≡ value) };

    fn from(value: T) -> BigEndian<T> {
        BigEndian::new(value.to_raw())
    }
}

impl<T: Scalar> PartialEq for BigEndian<T> {
    ghost use Rattle.font_base.specs.BigEndian.{raw_value};

    ghost eq = { on (λ field. T.Raw.bytes (raw_value field)) (pointwise nat_eq) };

    ghost laws = { on_per
        (λ field. T.Raw.bytes (raw_value field)) (partial_equiv_from_equiv nat_list_eq_equiv) };

    fn eq(&self, other: &BigEndian<T>) -> bool {
        self.raw.eq_array(&other.raw)
    }
}

impl<T: Scalar> Eq for BigEndian<T> {
    ghost use Rattle.font_base.specs.BigEndian.{raw_value};

    ghost laws = { on_equiv (λ field. T.Raw.bytes (raw_value field)) nat_list_eq_equiv };
}

impl<T: Scalar> Hash for BigEndian<T> {
    ghost use Rattle.font_base.specs.BigEndian.{raw_value};

    ghost hash_input = { λ field. fed.slice fed.u8 (T.Raw.bytes (raw_value field)) };

    ghost respects_eq = { Prim.search (hashing, rules) };

    fn hash<H: Hasher>(&self, state: &mut H) {
        self.be_bytes().hash(state);
    }
}

impl<T: Scalar + Copy + Ord + IdentityEq> PartialOrd for BigEndian<T> {
    ghost use Rattle.font_base.specs.{BigEndian.raw_value, BigEndian.Laws.same_answer};

    ghost partial_cmp = { λ a b. Some (T.cmp (T.of_raw (raw_value a)) (T.of_raw (raw_value b))) };

    ghost laws = { partial_order_from_agreeing_total
        (on (λ field. T.of_raw (raw_value field)) T.cmp)
        (on_total (λ field. T.of_raw (raw_value field)) T.total)
        (λ a b. refl)
        (λ a b. same_answer T.cmp T.eq T.matches_eq T.identity (T.of_raw (raw_value a))
        (T.of_raw (raw_value b))
        (T.Raw.bytes (raw_value a)) (T.Raw.bytes (raw_value b))
        (λ same. ap T.of_raw (T.Raw.same_bytes (raw_value a) (raw_value b) a.value b.value same))
        (λ same. ap T.Raw.bytes (sym (T.Scalar.laws.forth (raw_value a) a.value) ∙ ap T.raw_of same
        ∙ T.Scalar.laws.forth (raw_value b) b.value))) };

    fn partial_cmp(&self, other: &BigEndian<T>) -> Option<Ordering> {
        Some(self.cmp(other))
    }
}

impl<T: Scalar + Copy + Ord + IdentityEq> Ord for BigEndian<T> {
    ghost use Rattle.font_base.specs.{BigEndian.raw_value, BigEndian.Laws.same_answer};

    ghost cmp = { on (λ field. T.of_raw (raw_value field)) T.cmp };

    ghost total = { on_total (λ field. T.of_raw (raw_value field)) T.total };

    ghost matches_partial_cmp = { λ a b. refl };

    ghost matches_eq = { λ a b. same_answer T.cmp T.eq T.matches_eq T.identity
        (T.of_raw (raw_value a)) (T.of_raw (raw_value b))
        (T.Raw.bytes (raw_value a)) (T.Raw.bytes (raw_value b))
        (λ same. ap T.of_raw (T.Raw.same_bytes (raw_value a) (raw_value b) a.value b.value same))
        (λ same. ap T.Raw.bytes (sym (T.Scalar.laws.forth (raw_value a) a.value) ∙ ap T.raw_of same
        ∙ T.Scalar.laws.forth (raw_value b) b.value)) };

    fn cmp(&self, other: &BigEndian<T>) -> Ordering {
        self.get().cmp(&other.get())
    }
}

impl<T: Scalar + Default> Default for BigEndian<T> {
    ghost use Rattle.font_base.specs.BigEndian.{raw_value};

    ghost is_default = { λ field. T.is_default (T.of_raw (raw_value field)) };

    fn default() -> BigEndian<T> {
        BigEndian::from(T::default())
    }
}

impl<T: Scalar + Copy + fmt::Display> fmt::Display for BigEndian<T> {
    ghost use Rattle.font_base.specs.BigEndian.{raw_value};

    ghost output = { λ field. T.output (T.of_raw (raw_value field)) };

    ghost styled_output = { λ field. T.styled_output (T.of_raw (raw_value field)) };

    fn fmt<W: fmt::Write>(&self, f: &mut fmt::Formatter<W>) -> fmt::Result {
        fmt::Display::fmt(&self.get(), f)
    }
}

impl<T: Scalar + Copy + fmt::Debug> fmt::Debug for BigEndian<T> {
    ghost use Rattle.font_base.specs.BigEndian.{raw_value};

    ghost debug_output = { λ field. T.debug_output (T.of_raw (raw_value field)) };

    fn fmt<W: fmt::Write>(&self, f: &mut fmt::Formatter<W>) -> fmt::Result {
        fmt::Debug::fmt(&self.get(), f)
    }
}
