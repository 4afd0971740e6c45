//! A scaler of outlines: points through two matrices, and numbers of font units on a grid.
//!
//! This is a file of numbers, so it names `numbers` in place of `calls`.
#![tactic(auto, using(font_types::proofs::Callers::numbers))]

ghost use Rattle.std.specs.Prelude.{◌≡◌, ◌≢◌, ◌*◌, ◌^◌, pos, ◌+ℤ◌, ◌-ℤ◌, ◌*ℤ◌, ◌≤ℤ◌, ◌<ℤ◌, length};
ghost use Rattle.std.specs.Prelude.{◌↔◌, ◌≤◌, IsSome, IfSome, unsigned_abs};
ghost use Rattle.font_types.specs.FixedMatrix.{matrix_bits, point_bits, exact_image, IsWithin};
ghost use Rattle.font_types.specs.FixedMatrix.{FitsComposed, IsCloseComposed, IsBounded};
ghost use Rattle.font_types.specs.FixedMatrix.{FitsInTurn, IsCloseInTurn, IsBoundedPoint};
ghost use Rattle.font_types.specs.FixedMatrix.{rounded_matrix_product, rounded_product};
ghost use Rattle.font_types.specs.Fixed;
ghost use Rattle.font_types.specs.{Fixed.fixed_bits, F26Dot6.f26dot6_bits, FWord.fword_number};
ghost use Rattle.font_types.specs.{F2Dot14.f2dot14_bits, FWord.ufword_number, Scale.scale_bits};
ghost use Rattle.font_types.specs.{Near.near, Near.up, Wrap.FitsBits, Wrap.wrap};
ghost use Rattle.font_types.specs.Operations.{IsIntegral, IsQuotient, IsMulDiv, rounded_mul_div};
ghost use Rattle.font_types.specs.Delta.{total_below};
ghost use Rattle.callers.specs.Scaler.{kerned_at};

use font_types::{F2Dot14, F26Dot6, FWord, Fixed, Matrix, Point, Scale, UfWord, laws};

// Transforms a point by `place` and then by `scale`, with one matrix composed of both.
//
// Each coordinate is within `(|x| + |y|) / 65536 + 2` raw values of the exact one.
fn composed(scale: Matrix<Fixed>, place: Matrix<Fixed>, point: Point<Fixed>) -> Point<Fixed>
    requires { FitsComposed (matrix_bits scale) (matrix_bits place) (point_bits point) }
    ensures { IsCloseComposed (matrix_bits scale) (matrix_bits place) (point_bits point)
        (point_bits result) }
{
    laws::composed(scale, place, point)
}

/// Applies two matrices in turn: `place`, and then `scale`.
///
/// Each coordinate is within `(|a| + |b|) / 65536 + 1` raw values of the exact one, with `a` and
/// `b` the entries of `scale` that it is multiplied by.
pub fn in_turn(scale: Matrix<Fixed>, place: Matrix<Fixed>, point: Point<Fixed>) -> Point<Fixed>
    requires { FitsInTurn (matrix_bits scale) (matrix_bits place) (point_bits point) }
    ensures { IsCloseInTurn (matrix_bits scale) (matrix_bits place) (point_bits point)
        (point_bits result) }
{
    laws::in_turn(scale, place, point)
}

/// Applies two matrices by their product: a point of a component, to within 1/15 of a unit of the
/// exact point, for scales of at most 1, offsets of at most 4096 units and coordinates of at most
/// 2048.
///
/// The bounds give the precondition of `composed` by the lemma `fits_composed`, in the answer in
/// `proofs/scaler/scale_point`, without which this stays open. `fits_in_turn` is for `in_turn`.
pub fn scale_point(scale: Matrix<Fixed>, place: Matrix<Fixed>, point: Point<Fixed>) -> Point<Fixed>
    requires scale { IsBounded (2 ^ 16) (2 ^ 28) (matrix_bits scale) }
    requires place { IsBounded (2 ^ 16) (2 ^ 28) (matrix_bits place) }
    requires point { IsBoundedPoint (2 ^ 27) (point_bits point) }
    ensures x { IsWithin (2 ^ 32 * 4369)
        (exact_image (matrix_bits scale) (matrix_bits place) (point_bits point)).x
        (point_bits result).x }
    ensures y { IsWithin (2 ^ 32 * 4369)
        (exact_image (matrix_bits scale) (matrix_bits place) (point_bits point)).y
        (point_bits result).y }
{
    composed(scale, place, point)
}

/// Composes three matrices of bounded entries: the exact sums of the rounded products, bounded too.
///
/// The lemma `bounded_product` has both, once for each `*`, in the answers in
/// `proofs/scaler/composed_of_three`. The lemma `bounded_image` is for a point.
pub fn composed_of_three(a: Matrix<Fixed>, b: Matrix<Fixed>, c: Matrix<Fixed>) -> Matrix<Fixed>
    requires a { IsBounded (2 ^ 16) (2 ^ 24) (matrix_bits a) }
    requires b { IsBounded (2 ^ 16) (2 ^ 24) (matrix_bits b) }
    requires c { IsBounded (2 ^ 16) (2 ^ 24) (matrix_bits c) }
    ensures value { matrix_bits result ≡ rounded_matrix_product
        (rounded_matrix_product (matrix_bits a) (matrix_bits b)) (matrix_bits c) }
    ensures bound { IsBounded (2 ^ 19) (2 ^ 27) (matrix_bits result) }
{
    a * b * c
}

/// Scales font units to 26.6: the width of a stem, rounded once, half up.
///
/// The contract of `FWord::to_fixed` does not ask whether the number fits, and that of
/// `Fixed::from_i32` does. So write `FWord::new(n).to_fixed()` for an `i16` of font units.
pub fn scaled_width(width: FWord, scale: Fixed) -> F26Dot6
    requires { (pos 0 ≤ℤ fixed_bits scale) × (fixed_bits scale ≤ℤ fixed_bits Fixed.ONE) }
    ensures { f26dot6_bits result ≡ up (fword_number width *ℤ fixed_bits scale) 1024 }
{
    (width.to_fixed() * scale).to_f26dot6()
}

/// Rounds to half a grid line: the middle of the pixel of a coordinate.
pub fn half_line(y: F26Dot6) -> F26Dot6
    requires { FitsBits 32 (f26dot6_bits y +ℤ pos 32) }
    ensures half { IsIntegral 6 (f26dot6_bits result +ℤ pos 32) }
    ensures low { f26dot6_bits y <ℤ (f26dot6_bits result +ℤ pos 32) }
    ensures high { f26dot6_bits result ≤ℤ (f26dot6_bits y +ℤ pos 32) }
{
    y.floor() + F26Dot6::from_bits(32)
}

/// Adds and subtracts integers: the space at the right of a glyph, by `hmtx` and its box.
pub fn right_side_bearing(advance: UfWord, left: FWord, x_min: i16, x_max: i16) -> i32
    ensures { result
        ≡ (pos (ufword_number advance) -ℤ (fword_number left +ℤ (x_max -ℤ x_min))) }
{
    let right = i32::from(left.to_i16()) + (i32::from(x_max) - i32::from(x_min));
    i32::from(advance.to_u16()) - right
}

/// Scales and rounds outward: the pixels from the left edge of a glyph to its right edge.
///
/// The answer searches longer than the check, which gives up at the second number.
pub fn pixel_span(x_min: i16, x_max: i16, scale: Scale) -> (F26Dot6, F26Dot6)
    ensures left { IsIntegral 6 (f26dot6_bits result.0) }
    ensures right { IsIntegral 6 (f26dot6_bits result.1) }
    ensures from { (f26dot6_bits result.0 ≤ℤ rounded_product x_min (scale_bits scale))
        × (rounded_product x_min (scale_bits scale) <ℤ (f26dot6_bits result.0 +ℤ pos 64)) }
    ensures to { (rounded_product x_max (scale_bits scale) ≤ℤ f26dot6_bits result.1)
        × (f26dot6_bits result.1 <ℤ (rounded_product x_max (scale_bits scale) +ℤ pos 64)) }
{
    (scale.apply(x_min).floor(), scale.apply(x_max).ceil())
}

/// Rounds by a shift: the middle of two coordinates in font units, rounded down.
pub fn halfway(a: i16, b: i16) -> i16
    ensures low { (result +ℤ result) ≤ℤ (a +ℤ b) }
    ensures high { (a +ℤ b) <ℤ ((result +ℤ result) +ℤ pos 2) }
{
    ((i32::from(a) + i32::from(b)) >> 1) as i16
}

/// Rounds by a shift, half up: the average of two coordinates on an axis.
pub fn average(a: F2Dot14, b: F2Dot14) -> F2Dot14
    ensures { f2dot14_bits result ≡ up (f2dot14_bits a +ℤ f2dot14_bits b) 2 }
{
    let sum = i32::from(a.to_bits()) + i32::from(b.to_bits());
    F2Dot14::from_bits(((sum + 1) >> 1) as i16)
}

/// Divides two differences: the scalar of a region, from the start of its axis to the peak.
///
/// The clauses prove by the three orders as they stand in `requires`, and also with the value as
/// `rounded_mul_div`. Write all three, even if two of them give the third.
pub fn rising(start: F2Dot14, peak: F2Dot14, at: F2Dot14) -> Fixed
    requires { (f2dot14_bits start ≤ℤ f2dot14_bits at) × (f2dot14_bits at ≤ℤ f2dot14_bits peak)
        × (f2dot14_bits start <ℤ f2dot14_bits peak) }
    ensures value { IsQuotient 32 16 (f2dot14_bits at -ℤ f2dot14_bits start)
        (f2dot14_bits peak -ℤ f2dot14_bits start) (fixed_bits result) }
    ensures low { pos 0 ≤ℤ fixed_bits result }
    ensures high { fixed_bits result ≤ℤ fixed_bits Fixed.ONE }
{
    (at.to_fixed() - start.to_fixed()) / (peak.to_fixed() - start.to_fixed())
}

/// Scales between two values by the formula: at any `t` of the way from one master to another.
pub fn blend(from: Fixed, to: Fixed, t: Fixed) -> Fixed
    requires { FitsBits 32 (fixed_bits to -ℤ fixed_bits from) }
    ensures { fixed_bits result ≡ wrap 32 (fixed_bits from
        +ℤ near ((fixed_bits to -ℤ fixed_bits from) *ℤ fixed_bits t) 65536) }
{
    from + (to - from) * t
}

/// Interpolates: the delta of a point between two points that have deltas.
///
/// State what a function interpolates by a clause for each order of its ends, as here.
pub fn interpolated(a: Fixed, b: Fixed, at: Fixed, from: Fixed, to: Fixed) -> Fixed
    requires between { (fixed_bits a ≤ℤ fixed_bits at) × (fixed_bits at ≤ℤ fixed_bits b)
        × (fixed_bits a <ℤ fixed_bits b) }
    requires span { FitsBits 32 (fixed_bits b -ℤ fixed_bits a) }
    requires rise { FitsBits 32 (fixed_bits to -ℤ fixed_bits from) }
    ensures up { fixed_bits from ≤ℤ fixed_bits to → fixed_bits result ≡ (fixed_bits from
        +ℤ near ((fixed_bits to -ℤ fixed_bits from) *ℤ (fixed_bits at -ℤ fixed_bits a))
        (unsigned_abs (fixed_bits b -ℤ fixed_bits a))) }
    ensures down { fixed_bits to ≤ℤ fixed_bits from → fixed_bits result ≡ (fixed_bits from
        +ℤ near ((fixed_bits to -ℤ fixed_bits from) *ℤ (fixed_bits at -ℤ fixed_bits a))
        (unsigned_abs (fixed_bits b -ℤ fixed_bits a))) }
{
    from + (to - from).mul_div(at - a, b - a)
}

/// Maps between two points: a coordinate of 2.14 by a segment of `avar`, from `x` to `y`, in 16.16.
///
/// The code converts to 16.16, so the rise is in 16.16. The quotient is of the differences of raw
/// values as they are.
pub fn mapped(at: F2Dot14, low: Point<F2Dot14>, high: Point<F2Dot14>) -> Fixed
    requires { (f2dot14_bits low.x ≤ℤ f2dot14_bits at) × (f2dot14_bits at ≤ℤ f2dot14_bits high.x)
        × (f2dot14_bits low.x <ℤ f2dot14_bits high.x) }
    ensures { fixed_bits result ≡ (f2dot14_bits low.y *ℤ pos 4
        +ℤ rounded_mul_div ((f2dot14_bits high.y -ℤ f2dot14_bits low.y) *ℤ pos 4)
        (f2dot14_bits at -ℤ f2dot14_bits low.x) (f2dot14_bits high.x -ℤ f2dot14_bits low.x)) }
{
    let (x, y) = (low.x.to_fixed(), low.y.to_fixed());
    let rise = high.y.to_fixed() - y;
    y + rise.mul_div(at.to_fixed() - x, high.x.to_fixed() - x)
}

/// Scales by a ratio: a value at another size, as one formula.
pub fn resized(value: Fixed, size: Fixed, units: Fixed) -> Fixed
    requires { fixed_bits units ≢ pos 0 }
    ensures { fixed_bits result
        ≡ wrap 32 (rounded_mul_div (fixed_bits value) (fixed_bits size) (fixed_bits units)) }
{
    value.mul_div(size, units)
}

/// Scales two values, in order: edges by one ratio, which keeps their order if neither overflows.
pub fn scaled_edges(low: Fixed, high: Fixed, size: Fixed, units: Fixed) -> (Fixed, Fixed)
    requires { (pos 0 ≤ℤ fixed_bits size) × (pos 0 <ℤ fixed_bits units) }
    ensures low { IsMulDiv 32 (fixed_bits low) (fixed_bits size) (fixed_bits units)
        (fixed_bits result.0) }
    ensures high { IsMulDiv 32 (fixed_bits high) (fixed_bits size) (fixed_bits units)
        (fixed_bits result.1) }
    ensures order { fixed_bits low ≤ℤ fixed_bits high
        → FitsBits 32 (rounded_mul_div (fixed_bits low) (fixed_bits size) (fixed_bits units))
        → FitsBits 32 (rounded_mul_div (fixed_bits high) (fixed_bits size) (fixed_bits units))
        → fixed_bits result.0 ≤ℤ fixed_bits result.1 }
{
    (low.mul_div(size, units), high.mul_div(size, units))
}

// Clamps a coordinate to a zone.
fn in_zone(y: F26Dot6, low: F26Dot6, high: F26Dot6) -> F26Dot6
    requires { f26dot6_bits low ≤ℤ f26dot6_bits high }
    ensures low { f26dot6_bits low ≤ℤ f26dot6_bits result }
    ensures high { f26dot6_bits result ≤ℤ f26dot6_bits high }
    ensures inside { f26dot6_bits low ≤ℤ f26dot6_bits y → f26dot6_bits y ≤ℤ f26dot6_bits high
        → f26dot6_bits result ≡ f26dot6_bits y }
    ensures below { f26dot6_bits y ≤ℤ f26dot6_bits low → f26dot6_bits result ≡ f26dot6_bits low }
    ensures above { f26dot6_bits high ≤ℤ f26dot6_bits y
        → f26dot6_bits result ≡ f26dot6_bits high }
{
    y.clamp(low, high)
}

/// Clamps and rounds: a coordinate to a zone, and then to the grid, half up.
///
/// In a function of its own: the clamp, so that a search meets one call at a time.
pub fn hinted(y: F26Dot6, low: F26Dot6, high: F26Dot6) -> F26Dot6
    requires zone { f26dot6_bits low ≤ℤ f26dot6_bits high }
    requires fits { FitsBits 32 (f26dot6_bits high +ℤ pos 32) }
    ensures whole { IsIntegral 6 (f26dot6_bits result) }
    ensures inside { f26dot6_bits low ≤ℤ f26dot6_bits y → f26dot6_bits y ≤ℤ f26dot6_bits high
        → (f26dot6_bits result ≤ℤ (f26dot6_bits y +ℤ pos 32))
        × (f26dot6_bits y <ℤ (f26dot6_bits result +ℤ pos 32)) }
    ensures below { f26dot6_bits y ≤ℤ f26dot6_bits low
        → (f26dot6_bits result ≤ℤ (f26dot6_bits low +ℤ pos 32))
        × (f26dot6_bits low <ℤ (f26dot6_bits result +ℤ pos 32)) }
    ensures above { f26dot6_bits high ≤ℤ f26dot6_bits y
        → (f26dot6_bits result ≤ℤ (f26dot6_bits high +ℤ pos 32))
        × (f26dot6_bits high <ℤ (f26dot6_bits result +ℤ pos 32)) }
{
    in_zone(y, low, high).round()
}

// Rounds half down, to the grid: a number below 0.
fn half_down(y: F26Dot6) -> F26Dot6
    requires { f26dot6_bits y <ℤ pos 0 }
    ensures whole { IsIntegral 6 (f26dot6_bits result) }
    ensures low { (f26dot6_bits y -ℤ pos 32) ≤ℤ f26dot6_bits result }
    ensures high { f26dot6_bits result <ℤ (f26dot6_bits y +ℤ pos 32) }
{
    y.saturating_sub(F26Dot6::from_bits(32)).ceil()
}

/// Rounds half away from zero: a distance on the grid, or `None` on overflow.
///
/// The ruleset `ties` has `near` for each sign: half up, and half down.
#[tactic(auto, using(font_types::proofs::Callers::ties))]
pub fn whole_distance(distance: F26Dot6) -> Option<F26Dot6>
    ensures variant { IsSome result ↔ FitsBits 32 (near (f26dot6_bits distance) 64 *ℤ pos 64) }
    ensures value { IfSome result (λ whole.
        f26dot6_bits whole ≡ (near (f26dot6_bits distance) 64 *ℤ pos 64)) }
{
    if distance < F26Dot6::ZERO {
        Some(half_down(distance))
    } else {
        distance.checked_round()
    }
}

/// Adds the numbers of two slices: advances, each with the kerning after it; wrapped once.
///
/// The loop goes by index, and the sum is stated by `total_below`, a sum over an index. `requires`
/// says that the lengths are equal.
pub fn kerned_width(advances: &[Fixed], kerning: &[Fixed]) -> Fixed
    requires { length advances.now ≡ length kerning.now }
    ensures { fixed_bits result
        ≡ wrap 32 (total_below (kerned_at advances.now kerning.now) (length advances.now)) }
{
    let mut width = Fixed::ZERO;
    for index in 0..advances.len() {
        width += advances[index] + kerning[index];
    }
    width
}

// Adds the kerning to an advance, exactly.
fn kerned(advance: Fixed, kern: Fixed) -> i64
    ensures value { result ≡ (fixed_bits advance +ℤ fixed_bits kern) }
    ensures size { unsigned_abs result ≤ 2 ^ 32 }
{
    i64::from(advance.to_bits()) + i64::from(kern.to_bits())
}

/// Adds exactly, and refuses a sum that does not fit: the same width, or `None`.
///
/// A slice may have more than 2^31 elements, whose sum 64 bits may not hold. The invariant bounds
/// the sum by the count, so that no step overflows. In a function of its own: the number that is
/// added, with a clause that bounds it.
pub fn exact_width(advances: &[Fixed], kerning: &[Fixed]) -> Option<Fixed>
    requires { length advances.now ≡ length kerning.now }
    ensures variant { IsSome result
        ↔ FitsBits 32 (total_below (kerned_at advances.now kerning.now) (length advances.now)) }
    ensures value { IfSome result (λ width. fixed_bits width
        ≡ total_below (kerned_at advances.now kerning.now) (length advances.now)) }
{
    let mut width = 0i128;
    for index in 0..advances.len() {
        width += i128::from(kerned(advances[index], kerning[index]));
    }
    Some(Fixed::from_bits(i32::try_from(width).ok()?))
}

/// Adds the numbers of two slices by `zip`: the same width.
///
/// The loop has no index. In its invariant, `length l.yielded` stands for one. If a loop by `zip`
/// stays open, go by index.
#[tactic(auto, using(font_types::proofs::Callers::calls, font_types::proofs::Callers::lerps))]
pub fn kerned_width_by_zip(advances: &[Fixed], kerning: &[Fixed]) -> Fixed
    requires { length advances.now ≡ length kerning.now }
    ensures { fixed_bits result
        ≡ wrap 32 (total_below (kerned_at advances.now kerning.now) (length advances.now)) }
{
    let mut width = Fixed::ZERO;
    for (advance, kern) in advances.iter().zip(kerning) {
        width += *advance + *kern;
    }
    width
}

/// Scales two numbers by a `Scale`, in order: advances, of which the wider one stays no narrower.
pub fn scaled_advances(narrow: UfWord, wide: UfWord, scale: Scale) -> (F26Dot6, F26Dot6)
    requires { pos 0 ≤ℤ scale_bits scale }
    ensures narrow { f26dot6_bits result.0
        ≡ rounded_product (pos (ufword_number narrow)) (scale_bits scale) }
    ensures wide { f26dot6_bits result.1
        ≡ rounded_product (pos (ufword_number wide)) (scale_bits scale) }
    ensures order { ufword_number narrow ≤ ufword_number wide
        → f26dot6_bits result.0 ≤ℤ f26dot6_bits result.1 }
{
    let narrow = i32::from(narrow.to_u16());
    let wide = i32::from(wide.to_u16());
    (
        scale.checked_apply_i32(narrow).unwrap(),
        scale.checked_apply_i32(wide).unwrap(),
    )
}

/// Rounds two numbers to integers, in order: widths in whole pixels, or `None` if one overflows.
///
/// In a function of its own: each of two steps, such as scaling and rounding, if the order of the
/// numbers after both stays open.
pub fn whole_widths(low: F26Dot6, high: F26Dot6) -> Option<(i32, i32)>
    ensures variant { IsSome result
        ↔ (FitsBits 26 (up (f26dot6_bits low) 64) × FitsBits 26 (up (f26dot6_bits high) 64)) }
    ensures low { IfSome result (λ widths. widths.0 ≡ up (f26dot6_bits low) 64) }
    ensures high { IfSome result (λ widths. widths.1 ≡ up (f26dot6_bits high) 64) }
    ensures order { IfSome result (λ widths. f26dot6_bits low ≤ℤ f26dot6_bits high
        → widths.0 ≤ℤ widths.1) }
{
    let low = low.checked_to_i32()?;
    let high = high.checked_to_i32()?;
    Some((low, high))
}
