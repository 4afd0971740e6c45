//! Variation regions: the scalar of each axis, and of a region.

ghost use Rattle.std.specs.Prelude.{◌≡◌, ◌≢◌, ◌↔◌, ◌<◌, ◌≤◌, ◌+◌, ◌*◌, ◌^◌, pos, ◌≤ℤ◌, ◌<ℤ◌, ◌-ℤ◌, ◌*ℤ◌};
ghost use Rattle.std.specs.Prelude.{IsTrue, IsSome, IfSome, IfNone, length, take, drop};
ghost use Rattle.font_types.specs.{Operations.IsMulDiv, Near.near_magnitude};
ghost use Rattle.font_types.specs.Fixed;
ghost use Rattle.font_types.specs.{Fixed.fixed_bits, F2Dot14.f2dot14_bits};
ghost use Rattle.variations.specs.Variations.{IsIgnored, IsOffRegion, IsScalarAfter, IsAxisScalar};
ghost use Rattle.variations.specs.Variations.{HasRegion, axis_count, region_bytes, stored_bits};
ghost use Rattle.variations.specs.Variations.{coordinate_bits, IsScalarAfterAxis, IsScalarOf};
ghost use Rattle.variations.specs.Variations.{IsNearScalar, IsRegionScalar, IsNearRegionScalar};
ghost use Rattle.variations.specs.Variations.{AreScalars};

use font_types::{F2Dot14, Fixed, Scalar};

/// The extent of a region along one axis.
///
/// ```
/// use font_variations_proved::{F2Dot14, RegionAxisCoordinates};
/// let axis = RegionAxisCoordinates {
///     start_coord: F2Dot14::ZERO,
///     peak_coord: F2Dot14::ONE,
///     end_coord: F2Dot14::ONE,
/// };
/// let quarter = F2Dot14::from_decimal("0.25").unwrap();
/// assert_eq!(axis.scalar(quarter).to_string(), "0.25");
/// ```
#[derive(Clone, Copy, PartialEq, Eq, Hash, Debug)]
pub struct RegionAxisCoordinates {
    /// Where the region starts.
    pub start_coord: F2Dot14,
    /// Where its scalar is 1.
    pub peak_coord: F2Dot14,
    /// Where it ends.
    pub end_coord: F2Dot14,
}

impl RegionAxisCoordinates {
    /// Returns the scalar along the axis at a coordinate, from 0 to 1: 1 if the axis is ignored,
    /// because its coordinates are out of order or on both sides of zero, or the peak is zero.
    #[must_use]
    pub fn scalar(&self, coordinate: F2Dot14) -> Fixed
        ensures value { IsAxisScalar (f2dot14_bits self.now.start_coord)
            (f2dot14_bits self.now.peak_coord) (f2dot14_bits self.now.end_coord)
            (f2dot14_bits coordinate) (fixed_bits result) }
        ensures low { pos 0 ≤ℤ fixed_bits result }
        ensures high { fixed_bits result ≤ℤ fixed_bits Fixed.ONE }
    {
        scaled(Fixed::ONE, *self, coordinate)
    }
}

// Returns whether an axis is ignored in a region: its coordinates are out of order or on both sides
// of zero, or the peak is zero.
fn is_ignored(axis: RegionAxisCoordinates) -> bool
    ensures { IsTrue result ↔ IsIgnored (f2dot14_bits axis.start_coord)
        (f2dot14_bits axis.peak_coord) (f2dot14_bits axis.end_coord) }
{
    let zero = F2Dot14::ZERO;
    axis.peak_coord < axis.start_coord
        || axis.end_coord < axis.peak_coord
        || (axis.start_coord < zero && zero < axis.end_coord)
        || axis.peak_coord == zero
}

// Multiplies a scalar by that of a region along one axis, and rounds once.
fn scaled(scalar: Fixed, axis: RegionAxisCoordinates, coordinate: F2Dot14) -> Fixed
    requires { (pos 0 ≤ℤ fixed_bits scalar) × (fixed_bits scalar ≤ℤ fixed_bits Fixed.ONE) }
    ensures value { IsScalarAfter (f2dot14_bits axis.start_coord) (f2dot14_bits axis.peak_coord)
        (f2dot14_bits axis.end_coord) (f2dot14_bits coordinate) (fixed_bits scalar)
        (fixed_bits result) }
    ensures low { pos 0 ≤ℤ fixed_bits result }
    ensures high { fixed_bits result ≤ℤ fixed_bits Fixed.ONE }
{
    if is_ignored(axis) || coordinate == axis.peak_coord {
        scalar
    } else {
        scaled_off_peak(scalar, axis, coordinate)
    }
}

// Returns `scaled` of an axis that is not ignored, at another coordinate than the peak.
fn scaled_off_peak(scalar: Fixed, axis: RegionAxisCoordinates, coordinate: F2Dot14) -> Fixed
    requires scalar { (pos 0 ≤ℤ fixed_bits scalar)
        × (fixed_bits scalar ≤ℤ fixed_bits Fixed.ONE) }
    requires order { (f2dot14_bits axis.start_coord ≤ℤ f2dot14_bits axis.peak_coord)
        × (f2dot14_bits axis.peak_coord ≤ℤ f2dot14_bits axis.end_coord) }
    requires away { f2dot14_bits coordinate ≢ f2dot14_bits axis.peak_coord }
    ensures outside { IsOffRegion (f2dot14_bits axis.start_coord)
        (f2dot14_bits axis.end_coord) (f2dot14_bits coordinate) → fixed_bits result ≡ pos 0 }
    ensures rising { f2dot14_bits axis.start_coord <ℤ f2dot14_bits coordinate
        → f2dot14_bits coordinate <ℤ f2dot14_bits axis.peak_coord
        → IsMulDiv 32 (fixed_bits scalar)
        (f2dot14_bits coordinate -ℤ f2dot14_bits axis.start_coord)
        (f2dot14_bits axis.peak_coord -ℤ f2dot14_bits axis.start_coord) (fixed_bits result) }
    ensures falling { f2dot14_bits axis.peak_coord <ℤ f2dot14_bits coordinate
        → f2dot14_bits coordinate <ℤ f2dot14_bits axis.end_coord
        → IsMulDiv 32 (fixed_bits scalar)
        (f2dot14_bits axis.end_coord -ℤ f2dot14_bits coordinate)
        (f2dot14_bits axis.end_coord -ℤ f2dot14_bits axis.peak_coord) (fixed_bits result) }
    ensures low { pos 0 ≤ℤ fixed_bits result }
    ensures high { fixed_bits result ≤ℤ fixed_bits Fixed.ONE }
{
    let (start, peak, end) = (axis.start_coord, axis.peak_coord, axis.end_coord);
    if coordinate <= start || end <= coordinate {
        return Fixed::ZERO;
    }
    let (part, whole) = if coordinate < peak {
        (distance(start, coordinate), distance(start, peak))
    } else {
        (distance(coordinate, end), distance(peak, end))
    };
    share(scalar, part, whole)
}

// Returns the exact difference `to - from` of raw values of 2.14.
fn distance(from: F2Dot14, to: F2Dot14) -> u32
    requires { f2dot14_bits from ≤ℤ f2dot14_bits to }
    ensures value { pos result ≡ (f2dot14_bits to -ℤ f2dot14_bits from) }
    ensures small { result < 2 ^ 16 }
{
    (i32::from(to.to_bits()) - i32::from(from.to_bits())) as u32
}

// Returns a scalar times a part of its whole, rounded once.
#[tactic(auto, using(font_types::proofs::Callers::calls, crate::proofs::Scalars::share_of))]
fn share(scalar: Fixed, part: u32, whole: u32) -> Fixed
    requires scalar { (pos 0 ≤ℤ fixed_bits scalar)
        × (fixed_bits scalar ≤ℤ fixed_bits Fixed.ONE) }
    requires part { part ≤ whole }
    requires whole { (0 < whole) × (whole < 2 ^ 16) }
    ensures value { IsMulDiv 32 (fixed_bits scalar) (pos part) (pos whole) (fixed_bits result) }
    ensures low { pos 0 ≤ℤ fixed_bits result }
    ensures high { fixed_bits result ≤ℤ fixed_bits Fixed.ONE }
{
    Fixed::from_bits(rounded_share(scalar.to_bits() as u32, part, whole) as i32)
}

// Returns `scalar * part / whole`, rounded half up. The product fits in 32 bits.
fn rounded_share(scalar: u32, part: u32, whole: u32) -> u32
    requires scalar { scalar ≤ 65536 }
    requires part { part ≤ whole }
    requires whole { (0 < whole) × (whole < 2 ^ 16) }
    ensures value { result ≡ near_magnitude (scalar * part) whole }
    ensures high { result ≤ scalar }
{
    (scalar * part + whole / 2) / whole
}

// Returns the coordinate along an axis, by default 0.
fn coordinate_along(coordinates: &[F2Dot14], axis: u16) -> F2Dot14
    ensures { f2dot14_bits result ≡ coordinate_bits coordinates.now axis }
{
    match coordinates.get(usize::from(axis)) {
        Some(coordinate) => *coordinate,
        None => F2Dot14::ZERO,
    }
}

// Reads the extent of a region along an axis.
fn axis_of(region: &[u8], axis: u16) -> RegionAxisCoordinates
    requires { 6 * axis + 6 ≤ length region.now }
    ensures start { f2dot14_bits result.start_coord ≡ stored_bits region.now (6 * axis) }
    ensures peak { f2dot14_bits result.peak_coord ≡ stored_bits region.now (6 * axis + 2) }
    ensures end { f2dot14_bits result.end_coord ≡ stored_bits region.now (6 * axis + 4) }
{
    let offset = 6 * usize::from(axis);
    RegionAxisCoordinates {
        start_coord: F2Dot14::read_at(region, offset).unwrap(),
        peak_coord: F2Dot14::read_at(region, offset + 2).unwrap(),
        end_coord: F2Dot14::read_at(region, offset + 4).unwrap(),
    }
}

// Reads the peak of a region along an axis.
fn peak_of(region: &[u8], axis: u16) -> F2Dot14
    requires { 6 * axis + 6 ≤ length region.now }
    ensures { f2dot14_bits result ≡ stored_bits region.now (6 * axis + 2) }
{
    F2Dot14::read_at(region, 6 * usize::from(axis) + 2).unwrap()
}

// Returns `scaled` of a region's axis at the coordinate along it. It reads the peak first, which is
// zero along most axes.
fn scaled_along(scalar: Fixed, region: &[u8], coordinates: &[F2Dot14], axis: u16) -> Fixed
    requires scalar { (pos 0 ≤ℤ fixed_bits scalar)
        × (fixed_bits scalar ≤ℤ fixed_bits Fixed.ONE) }
    requires axis { 6 * axis + 6 ≤ length region.now }
    ensures value { IsScalarAfterAxis region.now coordinates.now axis (fixed_bits scalar)
        (fixed_bits result) }
    ensures low { pos 0 ≤ℤ fixed_bits result }
    ensures high { fixed_bits result ≤ℤ fixed_bits Fixed.ONE }
{
    let coordinate = coordinate_along(coordinates, axis);
    let peak = peak_of(region, axis);
    if peak == F2Dot14::ZERO || coordinate == peak {
        return scalar;
    }
    scaled(scalar, axis_of(region, axis), coordinate)
}

// Returns the product of the scalars along all axes, rounded after each.
#[tactic(auto, using(font_types::proofs::Callers::calls, crate::proofs::Stores::scalar_rules))]
fn product_of_scalars(region: &[u8], axes: u16, coordinates: &[F2Dot14]) -> Fixed
    requires { 6 * axes ≤ length region.now }
    ensures value { IsScalarOf region.now coordinates.now axes (fixed_bits result) }
    ensures near { IsNearScalar region.now coordinates.now axes (fixed_bits result) }
    ensures low { pos 0 ≤ℤ fixed_bits result }
    ensures high { fixed_bits result ≤ℤ fixed_bits Fixed.ONE }
{
    let mut scalar = Fixed::ONE;
    for axis in 0..axes {
        scalar = scaled_along(scalar, region, coordinates, axis);
        // It stays zero.
        if scalar == Fixed::ZERO {
            return scalar;
        }
    }
    scalar
}

// Returns the bytes of a region.
fn find_region(regions: &[u8], region: u16) -> Option<&[u8]>
    ensures variant { IsSome result ↔ HasRegion regions.now region }
    ensures value { IfSome result (λ bytes. bytes.now ≡ region_bytes regions.now region) }
    ensures len { IfSome result (λ bytes. length bytes.now ≡ 6 * axis_count regions.now) }
{
    let (count, axes) = (u16::read_at(regions, 2)?, u16::read_at(regions, 0)?);
    if count >= 0x8000 || region >= count {
        return None;
    }
    // In 64 bits, where a `usize` of 32 could overflow.
    let start = 4 + 6 * (u64::from(region) * u64::from(axes));
    let rest = regions.get(usize::try_from(start).ok()?..)?;
    rest.get(..6 * usize::from(axes))
}

// Returns the scalar of a region, the product of those of its axes, from 0 to 1, or `None` if the
// list does not have the region. Axes beyond the coordinates are at their default.
//
// The product is rounded once for each axis, in the order of the axes, half up.
pub(crate) fn region_scalar(regions: &[u8], region: u16, coordinates: &[F2Dot14]) -> Option<Fixed>
    ensures variant { IsSome result ↔ HasRegion regions.now region }
    ensures value { IfSome result (λ scalar.
        IsRegionScalar regions.now region coordinates.now (fixed_bits scalar)) }
    ensures near { IfSome result (λ scalar.
        IsNearRegionScalar regions.now region coordinates.now (fixed_bits scalar)) }
    ensures low { IfSome result (λ scalar. pos 0 ≤ℤ fixed_bits scalar) }
    ensures high { IfSome result (λ scalar. fixed_bits scalar ≤ℤ fixed_bits Fixed.ONE) }
{
    let region = find_region(regions, region)?;
    let axes = u16::read_at(regions, 0)?;
    Some(product_of_scalars(region, axes, coordinates))
}

// Returns whether the list has more regions than `scalars`.
fn has_more(regions: &[u8], scalars: usize) -> bool
    ensures { IsTrue result ↔ HasRegion regions.now scalars }
{
    match u16::try_from(scalars) {
        Ok(region) => find_region(regions, region).is_some(),
        Err(_) => false,
    }
}

// Writes the scalar of each region of a list, in order, and returns how many regions it has, those
// that it ends before left out. If there are more of them than `scalars`, returns `None`, and
// writes nothing. The contract of `ItemVariationStore::instance` cannot name what its buffer
// becomes, because the instance keeps it.
#[tactic(auto, using(font_types::proofs::Callers::calls, crate::proofs::Stores::row_rules))]
pub(crate) fn region_scalars(
    regions: &[u8],
    coordinates: &[F2Dot14],
    scalars: &mut [Fixed],
) -> Option<usize>
    ensures len { length scalars.new ≡ length scalars.old }
    ensures variant { IsSome result ↔ (¬ HasRegion regions.now (length scalars.old)) }
    ensures kept { IfNone result (scalars.new ≡ scalars.old) }
    ensures within { IfSome result (λ count. count ≤ length scalars.old) }
    ensures value { IfSome result (λ count.
        AreScalars regions.now coordinates.now (take count scalars.new)) }
    ensures rest { IfSome result (λ count. drop count scalars.new ≡ drop count scalars.old) }
{
    if has_more(regions, scalars.len()) {
        return None;
    }
    for region in 0..0x7FFF {
        let Some(scalar) = region_scalar(regions, region, coordinates) else {
            return Some(usize::from(region));
        };
        scalars[usize::from(region)] = scalar;
    }
    Some(0x7FFF)
}
