//! Laws of advances, as contracts of functions that make the calls and return their results.

ghost use Rattle.std.specs.Prelude.{◌≡◌, ◌⊎◌, pos, Some, MatchOption};
ghost use Rattle.font_types.specs.{FWord.ufword_number};
ghost use Rattle.variations.specs.Advances.{HasData, regions_of, subtable_of};
ghost use Rattle.variations.specs.Variations.{IsNoVariation, HasNoVaried, HasSet, IsVaried};

use crate::instances::StoreInstance;
use crate::maps::DeltaSetIndex;
use font_types::UfWord;

/// Returns an advance as an instance varies it, and as its store does without a buffer: both are
/// the same.
#[must_use]
pub fn varied_alike(
    instance: &StoreInstance<'_>,
    advance: UfWord,
    set: DeltaSetIndex,
) -> (Option<UfWord>, Option<UfWord>)
    ensures unvaried { IsNoVariation set.outer set.inner → result.0 ≡ Some advance }
    ensures value { ¬ IsNoVariation set.outer set.inner → MatchOption result.0
        ((¬ HasData instance.now.store.bytes.now set.outer set.inner) ⊎ HasNoVaried
        (regions_of instance.now.store.bytes.now)
        (subtable_of instance.now.store.bytes.now set.outer) instance.now.coordinates.now
        set.inner (ufword_number advance))
        (λ varied. HasData instance.now.store.bytes.now set.outer set.inner
        × HasSet (regions_of instance.now.store.bytes.now)
        (subtable_of instance.now.store.bytes.now set.outer) set.inner
        × IsVaried (regions_of instance.now.store.bytes.now)
        (subtable_of instance.now.store.bytes.now set.outer) instance.now.coordinates.now
        set.inner (ufword_number advance) (pos (ufword_number varied))) }
    ensures equal { result.0 ≡ result.1 }
{
    let by_instance = instance.vary_advance(advance, set);
    let by_store = instance
        .store()
        .vary_advance(advance, set, instance.coordinates());
    (by_instance, by_store)
}
