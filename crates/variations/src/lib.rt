//! Variations of fonts: from `wght=650` to a varied advance, by the bytes of the tables.
//!
//! - `evaluator`: a setting is parsed, normalized by its axis of `fvar`, mapped by `avar`, and
//!   rounded to a coordinate in 2.14.
//! - `advances`, `maps`: in a table `HVAR` a glyph has a delta set.
//! - `instances`: a store at given coordinates, with the scalar of each region computed once. The
//!   sum of the deltas of a set, each times its scalar, moves an advance.
//! - `regions`, `delta_sets`: where the regions and the deltas of a store are.
#![tactic(auto, using(font_types::proofs::Callers::calls))]

mod advances;
mod delta_sets;
mod evaluator;
mod instances;
#[doc(hidden)]
pub mod laws;
mod maps;
mod regions;
#[cfg(test)]
mod tests;

pub use advances::Hvar;
pub use evaluator::{
    Avar, Axes, CoordinatesError, Fvar, Setting, SettingError, VariationAxisRecord,
};
pub use instances::{ItemVariationStore, StoreInstance};
pub use maps::{DeltaSetIndex, DeltaSetIndexMap};
pub use regions::RegionAxisCoordinates;
