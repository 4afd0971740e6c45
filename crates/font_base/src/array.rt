//! Borrowed arrays of big-endian scalars.

ghost use Rattle.std.specs.Prelude.{◌≡◌, ⊤, ◌↔◌, ◌+◌, ◌-◌, ◌*◌, ◌%◌, ◌<◌, ◌≤◌, Bool, IsTrue};
ghost use Rattle.std.specs.Prelude.{IsSome, IfSome, IfNone, IfOk, IfErr, [], length, take, drop};
ghost use Rattle.std.specs.Prelude.{map, nat_eq, ℕ};
ghost use Rattle.std.specs.Cmp.{on_per, on_equiv, partial_equiv_from_equiv};
ghost use Rattle.std.specs.Cmp.Lexicographic.{nat_list_eq_equiv, pointwise};
ghost use Rattle.std.specs.Iterator.{YieldsFirstBy, YieldsLastBy, UpTo, item_count};
ghost use Rattle.std.specs.{Ordering.on, Iterator.SizeHint.IsWithinCount, Slice.Iter.iter_rest};
ghost use Rattle.font_base.specs.{Scalar.IsValueOf, Elements.AreRaw};

use crate::facts::each_is_byte;
use crate::raw::{BeByteArray, ByteChunks, Scalar};
use std::alloc::AllocError;
use std::cmp::Ordering;
use std::iter::FusedIterator;
use std::ops::Range;
use std::slice::Iter;

/// A borrowed, big-endian array of scalars.
///
/// Elements are decoded on access. A record type that implements [`Scalar`] can be an element too,
/// if its raw bytes are a `[u8; N]`.
///
/// ```
/// use font_types::ScalarArray;
/// let ends = ScalarArray::<u16>::new(&[0x00, 0x5A, 0x00, 0x7A, 0xFF, 0xFF]).unwrap();
/// assert_eq!((ends.len(), ends.get(1)), (3, Some(0x7A)));
/// assert_eq!(ends.binary_search(&0x60), Err(1));
/// assert_eq!(ends.into_iter().next_back(), Some(0xFFFF));
/// assert!(ScalarArray::<u16>::new(&[0x00]).is_none());
/// ```
pub struct ScalarArray<'a, T: Scalar> {
    raw: &'a [T::Raw],
    ghost are_raw: { AreRaw T.Raw.is_value T.Raw.bytes T.RAW_BYTE_LEN raw.now },
}

impl<'a, T: Scalar> ScalarArray<'a, T> {
    ghost use Rattle.font_base.specs.Array.{array_bytes, array_len, element_bytes, array_elements};
    ghost use Rattle.font_base.specs.Array.{elements_left};

    /// Creates an array over `data`, or returns `None` if its length is not a multiple of
    /// `RAW_BYTE_LEN`.
    ///
    /// If `RAW_BYTE_LEN` is 0, only empty data is an array, and it is empty.
    pub fn new(data: &'a [u8]) -> Option<ScalarArray<'a, T>>
    where
        T::Raw: ByteChunks,
        ensures variant { IsSome result ↔ (length «data».now % T.RAW_BYTE_LEN ≡ 0) }
        ensures bytes { IfSome result (λ array. array_bytes array ≡ «data».now) }
    {
        prove!(T::RAW_BYTE_LEN == <T::Raw as BeByteArray>::LEN);
        let (raw, left) = T::Raw::as_chunks(data);
        if !left.is_empty() {
            return None;
        }
        Some(ScalarArray { raw })
    }

    /// Reads an array of `count` elements at `offset`, or returns `None` if the bytes end before it
    /// does.
    ///
    /// If `RAW_BYTE_LEN` is 0, the array is empty.
    ///
    /// ```
    /// use font_types::ScalarArray;
    /// let table = [0, 2, 0x00, 0x5A, 0x00, 0x7A, 0xFF];
    /// let ends = ScalarArray::<u16>::read_at(&table, 2, 2).unwrap();
    /// assert_eq!((ends.len(), ends.last()), (2, Some(0x7A)));
    /// assert!(ScalarArray::<u16>::read_at(&table, 2, 3).is_none());
    /// ```
    #[tactic(auto, using(crate::proofs::Elements::part_rules))]
    pub fn read_at(bytes: &'a [u8], offset: usize, count: usize) -> Option<ScalarArray<'a, T>>
    where
        T::Raw: ByteChunks,
        ensures variant { IsSome result ↔ (offset + count * T.RAW_BYTE_LEN ≤ length bytes.now) }
        ensures bytes { IfSome result (λ array.
            array_bytes array ≡ take (count * T.RAW_BYTE_LEN) (drop offset bytes.now)) }
        ensures len { 0 < T.RAW_BYTE_LEN → IfSome result (λ array. array_len array ≡ count) }
        ensures elements { IfSome result (λ array. (i : ℕ) → i < count → element_bytes array i
            ≡ take T.RAW_BYTE_LEN (drop (offset + i * T.RAW_BYTE_LEN) bytes.now)) }
    {
        prove!(T::RAW_BYTE_LEN == <T::Raw as BeByteArray>::LEN);
        let (raw, _) = T::Raw::as_chunks(bytes.get(offset..)?);
        // Scalars of no bytes make an empty array, whatever their number.
        if T::RAW_BYTE_LEN == 0 {
            return Some(ScalarArray { raw });
        }
        Some(ScalarArray {
            raw: raw.get(..count)?,
        })
    }

    /// Reads an array of `count` elements from the start of `bytes`, and moves `bytes` to what is
    /// after it, or returns `None` and moves nothing if the bytes end before it does.
    ///
    /// If `RAW_BYTE_LEN` is 0, the array is empty.
    ///
    /// ```
    /// use font_types::{Scalar, ScalarArray};
    /// let mut rest = &[0, 2, 0x00, 0x5A, 0x00, 0x7A, 0xFF][..];
    /// let count = u16::take_from(&mut rest).unwrap();
    /// let ends = ScalarArray::<u16>::take_from(&mut rest, count.into()).unwrap();
    /// assert_eq!((ends.len(), ends.last(), rest), (2, Some(0x7A), &[0xFF][..]));
    /// assert!(ScalarArray::<u16>::take_from(&mut rest, 1).is_none());
    /// assert_eq!(rest, [0xFF]);
    /// ```
    pub fn take_from(bytes: &mut &'a [u8], count: usize) -> Option<ScalarArray<'a, T>>
    where
        T::Raw: ByteChunks,
        ensures variant { IsSome result ↔ (count * T.RAW_BYTE_LEN ≤ length bytes.old.now) }
        ensures bytes { IfSome result (λ array.
            array_bytes array ≡ take (count * T.RAW_BYTE_LEN) bytes.old.now) }
        ensures len { 0 < T.RAW_BYTE_LEN → IfSome result (λ array. array_len array ≡ count) }
        ensures elements { IfSome result (λ array. (i : ℕ) → i < count → element_bytes array i
            ≡ take T.RAW_BYTE_LEN (drop (i * T.RAW_BYTE_LEN) bytes.old.now)) }
        ensures rest { IfSome result (λ _.
            bytes.new.now ≡ drop (count * T.RAW_BYTE_LEN) bytes.old.now) }
        ensures kept { IfNone result (bytes.new ≡ bytes.old) }
    {
        let array = ScalarArray::read_at(bytes, 0, count)?;
        *bytes = &bytes[count * T::RAW_BYTE_LEN..];
        Some(array)
    }

    /// Returns the number of elements.
    #[tactic(auto, using(crate::proofs::Elements::len_rules))]
    pub const fn len(&self) -> usize
        ensures value { result ≡ array_len self.now }
        ensures bytes { result * T.RAW_BYTE_LEN ≡ length (array_bytes self.now) }
    {
        self.raw.len()
    }

    /// Returns `true` if the array has no elements.
    pub fn is_empty(&self) -> bool
        ensures { IsTrue result ↔ (array_len self.now ≡ 0) }
    {
        self.len() == 0
    }

    /// Returns the underlying bytes.
    pub fn as_bytes(&self) -> &'a [u8]
    where
        T::Raw: ByteChunks,
        ensures { result.now ≡ array_bytes self.now }
    {
        T::Raw::as_flattened(self.raw)
    }

    /// Returns the raw bytes of each element, as a slice, which has the iterators and searches of
    /// std.
    ///
    /// ```
    /// use font_types::{Scalar, ScalarArray};
    /// let ends = ScalarArray::<u16>::new(&[0x00, 0x5A, 0x00, 0x7A, 0xFF, 0xFF]).unwrap();
    /// assert_eq!(ends.as_raw()[1], [0x00, 0x7A]);
    /// let ends = ends.as_raw().iter().map(|raw| u16::from_raw(*raw));
    /// assert!(ends.rev().eq([0xFFFF, 0x7A, 0x5A]));
    /// ```
    #[tactic(auto, using(crate::proofs::Elements::iter_rules))]
    pub const fn as_raw(&self) -> &'a [T::Raw]
        ensures { map T.Raw.bytes result.now ≡ array_elements self.now }
    {
        self.raw
    }

    /// Returns the element at `index`, or `None` if out of bounds.
    #[tactic(auto, using(crate::proofs::Elements::element_rules))]
    pub fn get(&self, index: usize) -> Option<T>
        ensures variant { IsSome result ↔ (index < array_len self.now) }
        ensures stored { IfSome result (λ v.
            T.Raw.bytes (T.raw_of v) ≡ element_bytes self.now index) }
        // For proofs.
        ensures reads { IfSome result (λ v.
            IsValueOf T.Raw.bytes T.of_raw (element_bytes self.now index) v) }
        // For proofs.
        ensures value { IfSome result (λ v. IsTrue (T.is_scalar v)) }
    {
        let raw = self.raw.get(index)?;
        let _bytes = each_is_byte(raw.as_slice());
        Some(T::from_raw(*raw))
    }

    /// Returns the first element, or `None` if there is none.
    pub fn first(&self) -> Option<T>
        ensures variant { IsSome result ↔ (0 < array_len self.now) }
        ensures stored { IfSome result (λ v.
            T.Raw.bytes (T.raw_of v) ≡ element_bytes self.now 0) }
        // For proofs.
        ensures reads { IfSome result (λ v.
            IsValueOf T.Raw.bytes T.of_raw (element_bytes self.now 0) v) }
        // For proofs.
        ensures value { IfSome result (λ v. IsTrue (T.is_scalar v)) }
    {
        self.get(0)
    }

    /// Returns the last element, or `None` if there is none.
    pub fn last(&self) -> Option<T>
        ensures variant { IsSome result ↔ (0 < array_len self.now) }
        ensures stored { IfSome result (λ v.
            T.Raw.bytes (T.raw_of v) ≡ element_bytes self.now (array_len self.now - 1)) }
        // For proofs.
        ensures reads { IfSome result (λ v. IsValueOf T.Raw.bytes T.of_raw
            (element_bytes self.now (array_len self.now - 1)) v) }
        // For proofs.
        ensures value { IfSome result (λ v. IsTrue (T.is_scalar v)) }
    {
        self.get(self.len().checked_sub(1)?)
    }

    /// Returns the elements of a range of indices, as an array, or `None` unless
    /// `range.start <= range.end` and `range.end <= len()`.
    ///
    /// ```
    /// use font_types::ScalarArray;
    /// let array = ScalarArray::<u16>::new(&[0, 1, 0, 2, 0, 3]).unwrap();
    /// assert_eq!(array.slice(1..3).unwrap().as_bytes(), [0, 2, 0, 3]);
    /// assert!(array.slice(1..4).is_none());
    /// ```
    #[tactic(auto, using(crate::proofs::Elements::slice_rules))]
    pub fn slice(&self, range: Range<usize>) -> Option<ScalarArray<'a, T>>
        ensures variant { IsSome result
            ↔ ((range.start ≤ range.end) × (range.end ≤ array_len self.now)) }
        ensures elements { IfSome result (λ part. array_elements part
            ≡ take (range.end - range.start) (drop range.start (array_elements self.now))) }
        ensures bytes { IfSome result (λ part. array_bytes part
            ≡ take ((range.end - range.start) * T.RAW_BYTE_LEN)
            (drop (range.start * T.RAW_BYTE_LEN) (array_bytes self.now))) }
    {
        Some(ScalarArray {
            raw: self.raw.get(range)?,
        })
    }

    // Returns the named iterator over the elements.
    #[tactic(auto, using(crate::proofs::Elements::iter_rules))]
    fn elements(&self) -> ScalarArrayIter<'a, T>
        ensures { elements_left result ≡ array_elements self.now }
    {
        ScalarArrayIter {
            rest: self.raw.iter(),
        }
    }
}

impl<'a, T: Scalar> Clone for ScalarArray<'a, T> {
    ghost use Rattle.font_base.specs.Array.{array_bytes};

    ghost is_clone = { λ array copy. array_bytes copy ≡ array_bytes array };

    ghost is_infallible = { λ _. ⊤ };

    fn clone(&self) -> Result<ScalarArray<'a, T>, AllocError> {
        Ok(ScalarArray { raw: self.raw })
    }
}

impl<'a, T: Scalar> Copy for ScalarArray<'a, T> {}

/// Returns an empty array.
impl<'a, T: Scalar> Default for ScalarArray<'a, T> {
    ghost use Rattle.font_base.specs.Array.{array_bytes};

    ghost is_default = { λ array. array_bytes array ≡ [] };

    fn default() -> ScalarArray<'a, T> {
        prove!(T::RAW_BYTE_LEN == <T::Raw as BeByteArray>::LEN);
        ScalarArray { raw: &[] }
    }
}

/// Two arrays are equal if their bytes are.
impl<'a, T: Scalar> PartialEq for ScalarArray<'a, T>
where
    T::Raw: ByteChunks,
{
    ghost use Rattle.font_base.specs.Array.{array_bytes};

    ghost eq = { on array_bytes (pointwise nat_eq) };

    ghost laws = { on_per array_bytes (partial_equiv_from_equiv nat_list_eq_equiv) };

    fn eq(&self, other: &ScalarArray<'a, T>) -> bool {
        self.as_bytes() == other.as_bytes()
    }
}

impl<'a, T: Scalar> Eq for ScalarArray<'a, T>
where
    T::Raw: ByteChunks,
{
    ghost use Rattle.font_base.specs.Array.{array_bytes};

    ghost laws = { on_equiv array_bytes nat_list_eq_equiv };
}

impl<'a, T: Scalar> ScalarArray<'a, T> {
    ghost use Rattle.font_base.specs.Array.{array_len, IsSearched, IsPartitionPoint};

    /// Searches an array by a comparison of each element with the wanted place: elements that
    /// compare as `Less` come first, then those that compare as `Equal`, then those that compare as
    /// `Greater`. Returns the index of an element that compares as `Equal`. If there are several,
    /// any of them may be returned. If the closure changes what it captures, search
    /// [`as_raw`](Self::as_raw).
    ///
    /// ```
    /// use font_types::ScalarArray;
    /// let ends = ScalarArray::<u16>::new(&[0x00, 0x5A, 0x00, 0x7A, 0xFF, 0xFF]).unwrap();
    /// assert_eq!(ends.binary_search_by(|end| end.cmp(&0x7A)), Ok(1));
    /// assert_eq!(ends.binary_search_by(|end| end.cmp(&0x60)), Err(1));
    /// ```
    ///
    /// # Errors
    ///
    /// If there is none, returns the index at which it could be inserted.
    ///
    /// # Panics
    ///
    /// Panics if the closure does.
    pub fn binary_search_by<F: Fn(T) -> Ordering>(&self, compare: F) -> Result<usize, usize>
        requires { F.IsAlwaysCallable compare }
        ensures found { IfOk result (λ i. i < array_len self.now) }
        ensures absent { IfErr result (λ i. i ≤ array_len self.now) }
        ensures place { (answer : T → Ordering)
            → ((v : T) (o : Ordering) → F.post compare v o → o ≡ answer v)
            → IsSearched self.now answer result }
    {
        self.raw.binary_search_by(|raw| compare(T::from_raw(*raw)))
    }

    /// Searches an array that is sorted by a key, and returns the index of an element with that
    /// key. If there are several, any of them may be returned.
    ///
    /// # Errors
    ///
    /// If there is none, returns the index at which it could be inserted.
    ///
    /// # Panics
    ///
    /// Panics if the closure does.
    ///
    /// ```
    /// use font_types::ScalarArray;
    /// let ends = ScalarArray::<u16>::new(&[0, 9, 0, 5, 0, 1]).unwrap();
    /// assert_eq!(ends.binary_search_by_key(&-5, |end| -i32::from(end)), Ok(1));
    /// ```
    pub fn binary_search_by_key<K: Ord + Drop, F: Fn(T) -> K>(
        &self,
        key: &K,
        key_of: F,
    ) -> Result<usize, usize>
        requires { F.IsAlwaysCallable key_of }
        ensures found { IfOk result (λ i. i < array_len self.now) }
        ensures absent { IfErr result (λ i. i ≤ array_len self.now) }
        ensures place { (of : T → K) → ((v : T) (k : K) → F.post key_of v k → k ≡ of v)
            → IsSearched self.now (λ v. K.cmp (of v) key.now) result }
    {
        self.raw
            .binary_search_by_key(key, |raw| key_of(T::from_raw(*raw)))
    }

    /// Returns the number of elements at the front for which `is_before` returns `true`. The array
    /// must have all of them before the others, as if sorted by it.
    ///
    /// ```
    /// use font_types::ScalarArray;
    /// let ends = ScalarArray::<u16>::new(&[0x00, 0x5A, 0x00, 0x7A, 0xFF, 0xFF]).unwrap();
    /// assert_eq!(ends.partition_point(|end| end < 0x7A), 1);
    /// ```
    ///
    /// # Panics
    ///
    /// Panics if the closure does.
    #[tactic(auto, using(crate::proofs::Elements::len_rules))]
    pub fn partition_point<F: Fn(T) -> bool>(&self, is_before: F) -> usize
        requires { F.IsAlwaysCallable is_before }
        ensures within { result ≤ array_len self.now }
        ensures place { (before : T → Bool)
            → ((v : T) (b : Bool) → F.post is_before v b → b ≡ before v)
            → IsPartitionPoint self.now before result }
    {
        self.raw.partition_point(|raw| is_before(T::from_raw(*raw)))
    }

    /// Searches a sorted array, and returns the index of an element equal to `key`. If there are
    /// several, any of them may be returned.
    ///
    /// # Errors
    ///
    /// If there is none, returns the index at which it could be inserted.
    pub fn binary_search(&self, key: &T) -> Result<usize, usize>
    where
        T: Ord + Copy,
        ensures { IsSearched self.now (λ v. T.cmp v key.now) result }
    {
        self.binary_search_by_key(key, |value| value)
    }
}

/// An iterator over the elements of a [`ScalarArray`].
///
/// `nth`, `skip` and `step_by` decode each element that they pass: [`slice`](ScalarArray::slice)
/// the array first. To fill a `Vec` in Rust, collect [`ScalarArray::iter`] instead.
///
/// ```
/// use font_types::ScalarArray;
/// let mut words = ScalarArray::<u16>::new(&[0, 1, 0, 4, 0, 9]).unwrap().into_iter();
/// assert_eq!([words.next(), words.next_back()], [Some(1), Some(9)]);
/// assert_eq!(words.as_array().as_bytes(), [0, 4]);
/// ```
#[derive(Drop)]
pub struct ScalarArrayIter<'a, T: Scalar> {
    rest: Iter<'a, T::Raw>,
    ghost are_raw: { AreRaw T.Raw.is_value T.Raw.bytes T.RAW_BYTE_LEN (iter_rest rest) },
}

impl<'a, T: Scalar> ScalarArrayIter<'a, T> {
    ghost use Rattle.font_base.specs.Array.{array_elements, elements_left};

    /// Returns the elements that are left, as an array.
    #[tactic(auto, using(crate::proofs::Elements::iter_rules))]
    pub fn as_array(&self) -> ScalarArray<'a, T>
        ensures { array_elements result ≡ elements_left self.now }
    {
        ScalarArray {
            raw: self.rest.as_slice(),
        }
    }
}

impl<'a, T: Scalar> Iterator for ScalarArrayIter<'a, T> {
    ghost use Rattle.font_base.specs.Array.{elements_left};

    type Item = T;

    ghost next_gives = { YieldsFirstBy (λ v. T.Raw.bytes (T.raw_of v)) elements_left };

    ghost remaining = { item_count elements_left };

    fn next(&mut self) -> Option<T> {
        match self.rest.next() {
            Some(raw) => Some(T::from_raw(*raw)),
            None => None,
        }
    }

    fn size_hint(&self) -> (usize, Option<usize>)
        ensures lower { IsWithinCount result.0 (item_count elements_left self.now) }
        ensures upper { IfSome result.1 (UpTo (item_count elements_left self.now)) }
        ensures exact { let left = length (elements_left self.now) in result ≡ (left, Some left) }
    {
        let left = self.rest.len();
        (left, Some(left))
    }
}

impl<'a, T: Scalar> DoubleEndedIterator for ScalarArrayIter<'a, T> {
    ghost use Rattle.font_base.specs.Array.{elements_left};

    ghost next_back_gives = { YieldsLastBy (λ v. T.Raw.bytes (T.raw_of v)) elements_left };

    fn next_back(&mut self) -> Option<T> {
        match self.rest.next_back() {
            Some(raw) => Some(T::from_raw(*raw)),
            None => None,
        }
    }
}

impl<'a, T: Scalar> ExactSizeIterator for ScalarArrayIter<'a, T> {
    fn len(&self) -> usize {
        self.rest.len()
    }
}

impl<'a, T: Scalar> FusedIterator for ScalarArrayIter<'a, T> {}

impl<'a, T: Scalar> Clone for ScalarArrayIter<'a, T> {
    ghost use Rattle.font_base.specs.Array.{elements_left};

    ghost is_clone = { λ iter copy. elements_left copy ≡ elements_left iter };

    ghost is_infallible = { λ _. ⊤ };

    fn clone(&self) -> Result<ScalarArrayIter<'a, T>, AllocError> {
        Ok(ScalarArrayIter {
            rest: self.rest.as_slice().iter(),
        })
    }
}

impl<'a, T: Scalar> IntoIterator for ScalarArray<'a, T> {
    ghost use Rattle.font_base.specs.Array.{array_elements, elements_left};

    type Item = T;

    type IntoIter = ScalarArrayIter<'a, T>;

    ghost into_iter_gives = { λ array iter. elements_left iter ≡ array_elements array };

    fn into_iter(self) -> ScalarArrayIter<'a, T> {
        self.elements()
    }
}

impl<'a, T: Scalar> IntoIterator for &ScalarArray<'a, T> {
    ghost use Rattle.font_base.specs.Array.{array_elements, elements_left};

    type Item = T;

    type IntoIter = ScalarArrayIter<'a, T>;

    ghost into_iter_gives = { λ array iter. elements_left iter ≡ array_elements array.now };

    fn into_iter(self) -> ScalarArrayIter<'a, T> {
        self.elements()
    }
}
