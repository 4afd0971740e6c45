//! An evaluator of variations: from the settings of axes to an advance.

ghost use Rattle.std.specs.Prelude.{◌≡◌, ◌⊎◌, pos, IfSome, IfNone, IsNone, length, Some};
ghost use Rattle.std.specs.Option.{option_map};
ghost use Rattle.font_types.specs.{FWord.ufword_number};
ghost use Rattle.variations.specs.Advances.{regions_of, subtable_of, HasData};
ghost use Rattle.variations.specs.Variations.{IsNoVariation, IsVaried, HasNoVaried};
ghost use Rattle.variations.specs.Evaluator.{AreCoordinates};
ghost use Rattle.callers.specs.Evaluator.{AreAccepted};

use font_types::{F2Dot14, UfWord};
use variations::{Avar, DeltaSetIndex, Fvar, ItemVariationStore, Setting};

/// Varies by the crate `variations`: an advance at the settings of a user, by the delta set of its
/// glyph, or `None` if there is none. `coordinates` has a place for each axis.
///
/// `varied` is a function of its own, because the store and the coordinates of `vary_advance` have
/// one lifetime, and the checker does not find it in the function that writes the coordinates.
pub fn advance_at_settings(
    axes: (&Fvar<'_>, &Avar<'_>),
    settings: &[Setting],
    coordinates: &mut [F2Dot14],
    store: &ItemVariationStore<'_>,
    set: DeltaSetIndex,
    advance: UfWord,
) -> Option<UfWord>
    ensures written { AreAccepted axes.entry.0.now.bytes.now
        (option_map (λ avar. avar.now) axes.entry.1.now.bytes) settings.now (length coordinates.old)
        → AreCoordinates axes.entry.0.now.bytes.now
        (option_map (λ avar. avar.now) axes.entry.1.now.bytes) settings.now
        (length coordinates.old) coordinates.new }
    ensures kept { ¬ AreAccepted axes.entry.0.now.bytes.now
        (option_map (λ avar. avar.now) axes.entry.1.now.bytes) settings.now (length coordinates.old)
        → coordinates.new ≡ coordinates.old }
    ensures unvaried { IsNoVariation set.outer set.inner
        → IfSome result (λ varied. varied ≡ advance) }
    ensures value { ¬ IsNoVariation set.outer set.inner → IfSome result (λ varied.
        IsVaried (regions_of store.now.bytes.now) (subtable_of store.now.bytes.now set.outer)
        coordinates.new set.inner (ufword_number advance) (pos (ufword_number varied))) }
    ensures none { IfNone result ((¬ AreAccepted axes.entry.0.now.bytes.now
        (option_map (λ avar. avar.now) axes.entry.1.now.bytes) settings.now
        (length coordinates.old))
        ⊎ ((¬ IsNoVariation set.outer set.inner)
        × ((¬ HasData store.now.bytes.now set.outer set.inner)
        ⊎ HasNoVaried (regions_of store.now.bytes.now) (subtable_of store.now.bytes.now set.outer)
        coordinates.new set.inner (ufword_number advance)))) }
    ensures refused { ¬ AreAccepted axes.entry.0.now.bytes.now
        (option_map (λ avar. avar.now) axes.entry.1.now.bytes) settings.now (length coordinates.old)
        → IsNone result }
{
    axes.0.coordinates(axes.1, settings, coordinates).ok()?;
    varied(store, set, advance, coordinates)
}

// Varies an advance by a set at these coordinates, or returns `None` if there is none.
fn varied(
    store: &ItemVariationStore<'_>,
    set: DeltaSetIndex,
    advance: UfWord,
    coordinates: &[F2Dot14],
) -> Option<UfWord>
    ensures unvaried { IsNoVariation set.outer set.inner → result ≡ Some advance }
    ensures value { ¬ IsNoVariation set.outer set.inner → IfSome result (λ varied.
        IsVaried (regions_of store.now.bytes.now) (subtable_of store.now.bytes.now set.outer)
        coordinates.now set.inner (ufword_number advance) (pos (ufword_number varied))) }
    ensures none { ¬ IsNoVariation set.outer set.inner → IfNone result
        ((¬ HasData store.now.bytes.now set.outer set.inner)
        ⊎ HasNoVaried (regions_of store.now.bytes.now) (subtable_of store.now.bytes.now set.outer)
        coordinates.now set.inner (ufword_number advance)) }
{
    store.vary_advance(advance, set, coordinates)
}
