//! Item variation stores at the coordinates of an instance.

ghost use Rattle.std.specs.Prelude.{ℕ, ◌≡◌, ◌↔◌, ◌⊎◌, ◌+◌, ◌*◌, ◌<◌, ◌≤◌, ◌^◌, pos, ◌≤ℤ◌, Some};
ghost use Rattle.std.specs.Prelude.{IsSome, IfSome, MatchOption, length};
ghost use Rattle.std.specs.Prelude.{unsigned_abs};
ghost use Rattle.std.specs.Option.{ForSome};
ghost use Rattle.font_types.specs.Fixed;
ghost use Rattle.font_types.specs.{Fixed.fixed_bits, F48Dot16.f48dot16_bits, FWord.ufword_number};
ghost use Rattle.variations.specs.Advances.{HasTarget, HasRegionList, HasData, regions_of};
ghost use Rattle.variations.specs.Advances.{subtable_of};
ghost use Rattle.variations.specs.Variations.{HasRegion, IsRegionScalar, region_index_count};
ghost use Rattle.variations.specs.Variations.{IsNoVariation};
ghost use Rattle.variations.specs.Variations.{HasNoVaried, HasSet, IsVaried, HasTerm, IsTerm};
ghost use Rattle.variations.specs.Variations.{IsSetSum, IsNearSetSum, IsNearAdvance, AreScalars};
ghost use Rattle.variations.specs.Variations.{region_count, IsNearRegionScalar};

use crate::advances::at_offset;
use crate::delta_sets::Row;
use crate::maps::DeltaSetIndex;
use crate::regions::{region_scalar, region_scalars};
use font_types::{F2Dot14, F48Dot16, Fixed, Scalar, UfWord};

/// An item variation store of format 1, such as those of `HVAR`, `MVAR`, `VVAR`, `COLR` and `GDEF`.
///
/// ```
/// use font_variations_proved::{DeltaSetIndex, F2Dot14, ItemVariationStore, UfWord};
/// // A region from 0 by 1 to 1, and a subtable of one set, whose delta is 40.
/// let store = [
///     0, 1, 0, 0, 0, 12, 0, 1, 0, 0, 0, 22, // The offsets of the list and the subtable.
///     0, 1, 0, 1, 0, 0, 0x40, 0, 0x40, 0, //
///     0, 1, 0, 1, 0, 1, 0, 0, 0, 40,
/// ];
/// let store = ItemVariationStore::new(&store).unwrap();
/// let half = [F2Dot14::from_decimal("0.5").unwrap()];
/// let set = DeltaSetIndex { outer: 0, inner: 0 };
/// assert_eq!(store.vary_advance(UfWord::new(500), set, &half), Some(UfWord::new(520)));
/// ```
#[derive(Clone, Copy, PartialEq, Eq, Hash, Debug)]
pub struct ItemVariationStore<'a> {
    bytes: &'a [u8],
    regions: &'a [u8],
    ghost list: { HasRegionList bytes.now },
    ghost are_regions: { regions.now ≡ regions_of bytes.now },
}

impl<'a> ItemVariationStore<'a> {
    /// Returns the store that begins at these bytes, or `None` if its format is not 1, or it has no
    /// list of regions.
    #[must_use]
    pub fn new(bytes: &'a [u8]) -> Option<ItemVariationStore<'a>>
        ensures variant { IsSome result ↔ HasRegionList bytes.now }
        ensures bytes { IfSome result (λ store. store.bytes.now ≡ bytes.now) }
    {
        if u16::read_at(bytes, 0)? != 1 {
            return None;
        }
        let regions = at_offset(bytes, 2)?;
        Some(ItemVariationStore { bytes, regions })
    }

    /// Returns the count that the list of regions has, or 0 if the list ends before it.
    /// [`instance`](ItemVariationStore::instance) needs at most as many scalars.
    #[must_use]
    pub fn region_count(&self) -> u16
        ensures value { 4 ≤ length (regions_of self.now.bytes.now)
            → result ≡ region_count (regions_of self.now.bytes.now) }
        ensures short { length (regions_of self.now.bytes.now) < 4 → result ≡ 0 }
        ensures enough { (region : ℕ)
            → HasRegion (regions_of self.now.bytes.now) region → region < result }
    {
        u16::read_at(self.regions, 2).unwrap_or(0)
    }

    /// Computes the scalars of all regions at these coordinates into the first places of `scalars`,
    /// and keeps the rest. Axes beyond the coordinates are at their default, and with `&[]` all are.
    /// Returns `None` if there are more regions than `scalars` holds; then `scalars` is as before.
    #[must_use]
    pub fn instance(
        &self,
        coordinates: &'a [F2Dot14],
        scalars: &'a mut [Fixed],
    ) -> Option<StoreInstance<'a>>
        ensures variant { IsSome result
            ↔ (¬ HasRegion (regions_of self.now.bytes.now) (length scalars.old)) }
        ensures store { IfSome result (λ instance.
            instance.store.bytes.now ≡ self.now.bytes.now) }
        ensures coordinates { IfSome result (λ instance.
            instance.coordinates.now ≡ coordinates.now) }
    {
        let count = region_scalars(self.regions, coordinates, scalars)?;
        let scalars: &'a [Fixed] = scalars;
        Some(StoreInstance {
            store: *self,
            coordinates,
            scalars: Some(scalars.get(..count)?),
        })
    }

    /// Varies an advance by a set at these coordinates, as [`StoreInstance::vary_advance`] does, but
    /// without a buffer. Axes beyond the coordinates are at their default, and with `&[]` all are.
    ///
    /// It walks the axes of the region of each column of the set, up to one that makes the scalar 0.
    /// So the time can be that of all axes times all columns, whatever the number of coordinates.
    /// For more than one advance, and for an untrusted font, use
    /// [`instance`](ItemVariationStore::instance).
    #[must_use]
    pub fn vary_advance(
        &self,
        advance: UfWord,
        set: DeltaSetIndex,
        coordinates: &'a [F2Dot14],
    ) -> Option<UfWord>
        ensures unvaried { IsNoVariation set.outer set.inner → result ≡ Some advance }
        ensures value { ¬ IsNoVariation set.outer set.inner → MatchOption result
            ((¬ HasData self.now.bytes.now set.outer set.inner) ⊎ HasNoVaried
            (regions_of self.now.bytes.now) (subtable_of self.now.bytes.now set.outer)
            coordinates.now set.inner (ufword_number advance))
            (λ varied. HasData self.now.bytes.now set.outer set.inner
            × HasSet (regions_of self.now.bytes.now) (subtable_of self.now.bytes.now set.outer)
            set.inner
            × IsVaried (regions_of self.now.bytes.now) (subtable_of self.now.bytes.now set.outer)
            coordinates.now set.inner (ufword_number advance) (pos (ufword_number varied))) }
        ensures near { ¬ IsNoVariation set.outer set.inner → IfSome result (λ varied.
            IsNearAdvance (regions_of self.now.bytes.now)
            (subtable_of self.now.bytes.now set.outer) coordinates.now set.inner
            (ufword_number advance) (pos (ufword_number varied))) }
    {
        let instance = StoreInstance {
            store: *self,
            coordinates,
            scalars: None,
        };
        instance.vary_advance(advance, set)
    }

    // Finds the subtable of a set, and the index of the set in it.
    fn data(&self, set: DeltaSetIndex) -> Option<(&'a [u8], u16)>
        ensures variant { IsSome result ↔ HasData self.now.bytes.now set.outer set.inner }
        ensures subtable { IfSome result (λ found.
            found.0.now ≡ subtable_of self.now.bytes.now set.outer) }
        ensures inner { IfSome result (λ found. found.1 ≡ set.inner) }
    {
        let count = u16::read_at(self.bytes, 6)?;
        if self.bytes.len() < 8 + 4 * usize::from(count) || set.outer >= u32::from(count) {
            return None;
        }
        let subtable = at_offset(self.bytes, 8 + 4 * set.outer as usize)?;
        Some((subtable, u16::try_from(set.inner).ok()?))
    }
}

/// An item variation store at the coordinates of an instance, with the scalar of each region.
///
/// ```
/// use font_variations_proved::{DeltaSetIndex, F2Dot14, F48Dot16, Fixed, ItemVariationStore, UfWord};
/// // A region from 0 by 1 to 1, and a subtable of one set, whose delta is 40.
/// let store = [
///     0, 1, 0, 0, 0, 12, 0, 1, 0, 0, 0, 22, // The offsets of the list and the subtable.
///     0, 1, 0, 1, 0, 0, 0x40, 0, 0x40, 0, //
///     0, 1, 0, 1, 0, 1, 0, 0, 0, 40,
/// ];
/// let store = ItemVariationStore::new(&store).unwrap();
/// let half = [F2Dot14::from_decimal("0.5").unwrap()];
/// let mut scalars = vec![Fixed::ZERO; store.region_count().into()];
/// let instance = store.instance(&half, &mut scalars).unwrap();
/// let set = DeltaSetIndex { outer: 0, inner: 0 };
/// assert_eq!(instance.delta(set), Some(F48Dot16::from_i64(20)));
/// assert_eq!(instance.vary_advance(UfWord::new(500), set), Some(UfWord::new(520)));
/// ```
///
/// [`instance`](ItemVariationStore::instance) walks each axis of each region at most once. Its time
/// is linear in the bytes of the store and the number of its regions, which is at most 32,767. After
/// that a delta of a set takes one product.
///
/// So the advances of all glyphs take at most as many products as the number of glyphs times the
/// greatest number of columns. The columns of a set are fewer than a third of the bytes of the
/// store, but an untrusted `HVAR` of 200 kB can give 65,535 glyphs one set of 65,535 columns. To
/// bound the time, limit the length of the store, or how many glyphs you vary.
#[derive(Clone, Copy, Debug)]
pub struct StoreInstance<'a> {
    store: ItemVariationStore<'a>,
    coordinates: &'a [F2Dot14],
    // `None` if each scalar is computed where it is needed.
    scalars: Option<&'a [Fixed]>,
    ghost at: { ForSome scalars (λ scalars.
        AreScalars (regions_of store.bytes.now) coordinates.now scalars.now) },
}

impl<'a> StoreInstance<'a> {
    /// Returns the store.
    #[must_use]
    pub fn store(&self) -> ItemVariationStore<'a>
        ensures { result.bytes.now ≡ self.now.store.bytes.now }
    {
        self.store
    }

    /// Returns the coordinates.
    #[must_use]
    pub fn coordinates(&self) -> &'a [F2Dot14]
        ensures { result.now ≡ self.now.coordinates.now }
    {
        self.coordinates
    }

    /// Returns the scalar of a region, the product of those of its axes, from 0 to 1, or `None` if
    /// the store does not have the region. Axes beyond the coordinates are at their default.
    ///
    /// The product is rounded once for each axis, in the order of the axes, half up.
    #[must_use]
    #[tactic(auto, using(font_types::proofs::Callers::calls, crate::proofs::Stores::region_rules))]
    pub fn scalar(&self, region: u16) -> Option<Fixed>
        ensures variant { IsSome result ↔ HasRegion (regions_of self.now.store.bytes.now) region }
        ensures value { IfSome result (λ scalar. IsRegionScalar (regions_of self.now.store.bytes.now)
            region self.now.coordinates.now (fixed_bits scalar)) }
        ensures near { IfSome result (λ scalar. IsNearRegionScalar
            (regions_of self.now.store.bytes.now) region self.now.coordinates.now (fixed_bits scalar)) }
        ensures low { IfSome result (λ scalar. pos 0 ≤ℤ fixed_bits scalar) }
        ensures high { IfSome result (λ scalar. fixed_bits scalar ≤ℤ fixed_bits Fixed.ONE) }
    {
        match self.scalars {
            Some(scalars) => scalars.get(usize::from(region)).copied(),
            None => region_scalar(self.store.regions, region, self.coordinates),
        }
    }

    // Returns the scalar of a column's region and the delta of the column.
    fn term(&self, row: &Row<'_>, column: u16) -> Option<(Fixed, i32)>
        requires { column < region_index_count row.now.subtable.now }
        ensures variant { IsSome result ↔ HasTerm (regions_of self.now.store.bytes.now)
            row.now.subtable.now row.now._set column }
        ensures value { IfSome result (λ term. IsTerm (regions_of self.now.store.bytes.now)
            row.now.subtable.now self.now.coordinates.now row.now._set column term) }
        ensures low { IfSome result (λ term. pos 0 ≤ℤ fixed_bits term.0) }
        ensures high { IfSome result (λ term. fixed_bits term.0 ≤ℤ fixed_bits Fixed.ONE) }
        ensures size { IfSome result (λ term. unsigned_abs term.1 ≤ 2 ^ 31) }
    {
        let (region, delta) = row.column(column)?;
        Some((self.scalar(region)?, delta))
    }

    // Returns the exact sum of the deltas of a set, each times the scalar of its region.
    #[tactic(auto, using(font_types::proofs::Callers::calls, crate::proofs::Stores::sum_rules))]
    fn sum(&self, subtable: &[u8], set: u16) -> Option<F48Dot16>
        ensures variant { IsSome result ↔ HasSet (regions_of self.now.store.bytes.now) subtable.now set }
        ensures value { IfSome result (λ sum. IsSetSum (regions_of self.now.store.bytes.now) subtable.now
            self.now.coordinates.now set (f48dot16_bits sum)) }
        ensures near { IfSome result (λ sum. IsNearSetSum (regions_of self.now.store.bytes.now)
            subtable.now self.now.coordinates.now set (f48dot16_bits sum)) }
    {
        let count = u16::read_at(subtable, 4)?;
        if set >= u16::read_at(subtable, 0)? {
            return None;
        }
        let mut sum = F48Dot16::ZERO;
        if count == 0 {
            return Some(sum);
        }
        let row = Row::new(subtable, set)?;
        for column in 0..count {
            let (scalar, delta) = self.term(&row, column)?;
            sum += scalar.mul_i32(delta);
        }
        Some(sum)
    }

    /// Returns the exact sum of the deltas of a set, each times the scalar of its region: 0 for the
    /// set without variation data, and `None` if the store does not have the set.
    #[must_use]
    pub fn delta(&self, set: DeltaSetIndex) -> Option<F48Dot16>
        ensures unvaried { IsNoVariation set.outer set.inner
            → IsSome result × IfSome result (λ sum. f48dot16_bits sum ≡ pos 0) }
        ensures variant { ¬ IsNoVariation set.outer set.inner → IsSome result
            ↔ (HasData self.now.store.bytes.now set.outer set.inner × HasSet (regions_of
            self.now.store.bytes.now) (subtable_of self.now.store.bytes.now set.outer) set.inner) }
        ensures value { ¬ IsNoVariation set.outer set.inner → IfSome result (λ sum. IsSetSum
            (regions_of self.now.store.bytes.now) (subtable_of self.now.store.bytes.now set.outer)
            self.now.coordinates.now set.inner (f48dot16_bits sum)) }
        ensures near { ¬ IsNoVariation set.outer set.inner → IfSome result (λ sum. IsNearSetSum
            (regions_of self.now.store.bytes.now) (subtable_of self.now.store.bytes.now set.outer)
            self.now.coordinates.now set.inner (f48dot16_bits sum)) }
    {
        if set.is_no_variation() {
            return Some(F48Dot16::ZERO);
        }
        let (subtable, inner) = self.store.data(set)?;
        self.sum(subtable, inner)
    }

    // Adds the sum of a set to an advance and rounds once.
    fn vary_set(&self, advance: UfWord, subtable: &[u8], set: u16) -> Option<UfWord>
        ensures value { MatchOption result (HasNoVaried (regions_of self.now.store.bytes.now)
            subtable.now self.now.coordinates.now set (ufword_number advance))
            (λ varied. HasSet (regions_of self.now.store.bytes.now) subtable.now set
            × IsVaried (regions_of self.now.store.bytes.now) subtable.now self.now.coordinates.now set
            (ufword_number advance) (pos (ufword_number varied))) }
        ensures near { IfSome result (λ varied. IsNearAdvance (regions_of self.now.store.bytes.now)
            subtable.now self.now.coordinates.now set (ufword_number advance)
            (pos (ufword_number varied))) }
    {
        advance.checked_add_delta(self.sum(subtable, set)?)
    }

    /// Varies an advance by a set, and rounds it once, half up. The set without variation data does
    /// not change the advance. Returns `None` if the store does not have the set, or the result is
    /// out of range.
    #[must_use]
    pub fn vary_advance(&self, advance: UfWord, set: DeltaSetIndex) -> Option<UfWord>
        ensures unvaried { IsNoVariation set.outer set.inner → result ≡ Some advance }
        ensures value { ¬ IsNoVariation set.outer set.inner → MatchOption result
            ((¬ HasData self.now.store.bytes.now set.outer set.inner) ⊎ HasNoVaried
            (regions_of self.now.store.bytes.now) (subtable_of self.now.store.bytes.now set.outer)
            self.now.coordinates.now set.inner (ufword_number advance))
            (λ varied. HasData self.now.store.bytes.now set.outer set.inner
            × HasSet (regions_of self.now.store.bytes.now) (subtable_of self.now.store.bytes.now set.outer)
            set.inner
            × IsVaried (regions_of self.now.store.bytes.now) (subtable_of self.now.store.bytes.now set.outer)
            self.now.coordinates.now set.inner (ufword_number advance)
            (pos (ufword_number varied))) }
        ensures near { ¬ IsNoVariation set.outer set.inner → IfSome result (λ varied.
            IsNearAdvance (regions_of self.now.store.bytes.now) (subtable_of self.now.store.bytes.now set.outer)
            self.now.coordinates.now set.inner (ufword_number advance)
            (pos (ufword_number varied))) }
    {
        if set.is_no_variation() {
            return Some(advance);
        }
        let (subtable, inner) = self.store.data(set)?;
        self.vary_set(advance, subtable, inner)
    }
}
