//! Coordinates of an instance: settings, `fvar` and `avar`.

ghost use Rattle.std.specs.Prelude.{◌≡◌, ◌≢◌, ◌↔◌, pos, neg_ℤ, ◌≤ℤ◌, ◌<ℤ◌, ◌+ℤ◌, ◌-ℤ◌, ◌*ℤ◌, ◌≤◌};
ghost use Rattle.std.specs.Prelude.{◌+◌, ◌*◌, IsTrue, IsSome, IfSome, IfNone, MatchOption, length};
ghost use Rattle.std.specs.Prelude.{IsOk, IfOk, IfErr, All};
ghost use Rattle.std.specs.Prelude.{take, drop, ◌-◌, ⊤};
ghost use Rattle.std.specs.Iterator.{at_most};
ghost use Rattle.std.specs.Option.{ForSome, option_map};
ghost use Rattle.font_types.specs.Bytes.{numeral, signed_numeral};
ghost use Rattle.font_types.specs.{Wrap.FitsBits, Operations.IsQuotient};
ghost use Rattle.font_types.specs.Fixed;
ghost use Rattle.font_types.specs.Fixed.{fixed_bits};
ghost use Rattle.font_types.specs.F2Dot14;
ghost use Rattle.font_types.specs.{F2Dot14.f2dot14_bits, NameId.name_number, Tag.tag_bytes};
ghost use Rattle.variations.specs.Evaluator.{value_start, AreParts, IsLerp};
ghost use Rattle.variations.specs.Evaluator.{AreBelow, HasRange, mapping_at, mapping_count};
ghost use Rattle.variations.specs.Evaluator.{HasSegmentMap, segment_map_bytes, IsSegmentEnd};
ghost use Rattle.variations.specs.Evaluator.{IsMappedIn, IsMapped, IsStoredCoordinate};
ghost use Rattle.variations.specs.Evaluator.{map_offset, IsAvar, IsFvar, IsNormalized};
ghost use Rattle.variations.specs.Evaluator.{fvar_axis_count, HasAxis};
ghost use Rattle.variations.specs.Evaluator.{IsCoordinate, IsWithinOne, map_of, HasTag};
ghost use Rattle.variations.specs.Evaluator.{IsSetTo, HasCoordinate, IsCoordinateOf};
ghost use Rattle.variations.specs.Evaluator.{HaveCoordinates, AreCoordinates, AreOfAxes};
ghost use Rattle.variations.specs.Evaluator.{IsAxisError, IsAxesError, IsSettingError};
ghost use Rattle.variations.specs.Evaluator.{IsCoordinatesError, IsAxis};

use font_types::{DecimalFault, F2Dot14, Fixed, InvalidTag, NameId, Scalar, Tag};
use std::alloc::AllocError;
use std::iter::FusedIterator;
use std::str::FromStr;
use thiserror::Error;

// ---- settings

/// A user's value on an axis.
///
/// ```
/// use font_variations_proved::{Fixed, Setting, Tag};
/// let setting: Setting = "wdth=87.5".parse().unwrap();
/// assert_eq!(setting.axis, Tag::new(b"wdth"));
/// assert_eq!(setting.value, Fixed::from_decimal("87.5").unwrap());
/// ```
#[derive(Clone, Copy, PartialEq, Eq, Hash, Debug)]
pub struct Setting {
    /// The tag of the axis.
    pub axis: Tag,
    /// The value, in the unit of the axis.
    pub value: Fixed,
}

/// Why a text is not a setting.
///
/// ```
/// use font_variations_proved::{Setting, SettingError};
/// assert_eq!("wght".parse::<Setting>(), Err(SettingError::NoValue));
/// assert!(matches!("wght=bold".parse::<Setting>(), Err(SettingError::Value(_))));
/// ```
#[derive(Clone, PartialEq, Eq, Debug, Drop, Error)]
pub enum SettingError {
    /// It has no `=`.
    #[error("no `=`")]
    NoValue,
    /// The part before the `=` is not a tag.
    #[error("axis: {0}")]
    Axis(InvalidTag),
    /// The part after it is not a decimal number in range.
    #[error("value: {0}")]
    Value(DecimalFault),
}

// Splits a text at its first `=`.
#[tactic(auto, using(std::proofs::lemmas::Str::Pattern::split_once_first))]
fn split_setting(text: &str) -> Option<(&str, &str)>
    ensures { MatchOption result (value_start text.now ≡ length text.now)
        (λ parts. AreParts text.now parts.0.now parts.1.now) }
{
    text.split_once('=')
}

/// Parses a setting such as `wght=650` or `wdth=87.5`: the tag of an axis, and a decimal.
///
/// The error is that of the first wrong part: `NoValue` without a `=`, `Axis` if the text before it
/// is not a tag, `Value` if the text after it is not a decimal in range.
impl FromStr for Setting {
    ghost use Rattle.variations.specs.Evaluator.{ParsesSetting};

    type Err = SettingError;

    ghost from_str_gives = { ParsesSetting };

    fn from_str(text: &str) -> Result<Setting, SettingError> {
        let (axis, value) = split_setting(text).ok_or(SettingError::NoValue)?;
        let axis = Tag::new_checked(axis.as_bytes()).map_err(SettingError::Axis)?;
        let value = Fixed::from_decimal(value).map_err(SettingError::Value)?;
        Ok(Setting { axis, value })
    }
}

// ---- `fvar`: normalized coordinates

/// A variation axis, a record of `fvar`, from [`Fvar::axis`].
#[derive(Clone, Copy, PartialEq, Eq, Hash, Debug)]
pub struct VariationAxisRecord {
    /// The tag of the axis, such as `wght`.
    pub axis_tag: Tag,
    /// The least value.
    pub min_value: Fixed,
    /// The value of the default instance.
    pub default_value: Fixed,
    /// The greatest value.
    pub max_value: Fixed,
    /// Flags: 1 for an axis that is not shown to users.
    pub flags: u16,
    /// The name of the axis in the table `name`.
    pub axis_name_id: NameId,
}

/// A table `fvar` of major version 1.
///
/// ```
/// use font_variations_proved::{Fixed, Fvar, Tag};
/// let fvar = b"\0\x01\0\0\0\x10\0\x02\0\x01\0\x14\0\0\0\x04\
///     wght\0\x64\0\0\x01\x90\0\0\x03\x84\0\0\0\0\x01\0";
/// let fvar = Fvar::new(fvar).unwrap();
/// assert_eq!(fvar.axis_count(), 1);
/// let axis = fvar.axis(0).unwrap();
/// assert_eq!((axis.axis_tag, axis.max_value), (Tag::new(b"wght"), Fixed::from_i32(900)));
/// ```
#[derive(Clone, Copy, PartialEq, Eq, Hash, Debug)]
pub struct Fvar<'a> {
    bytes: &'a [u8],
    ghost header: { IsFvar bytes.now },
}

impl<'a> Fvar<'a> {
    /// Returns the table that begins at these bytes, or `None` if its major version is not 1, it
    /// ends before its header does, or its records are shorter than an axis.
    #[must_use]
    pub fn new(bytes: &'a [u8]) -> Option<Fvar<'a>>
        ensures variant { IsSome result ↔ IsFvar bytes.now }
        ensures bytes { IfSome result (λ fvar. fvar.bytes.now ≡ bytes.now) }
    {
        if u16::read_at(bytes, 0)? != 1 || bytes.len() < 16 || u16::read_at(bytes, 10)? < 20 {
            return None;
        }
        Some(Fvar { bytes })
    }

    /// Returns the number of axes.
    #[must_use]
    pub fn axis_count(&self) -> u16
        ensures { result ≡ fvar_axis_count self.now.bytes.now }
    {
        u16::read_at(self.bytes, 8).unwrap_or(0)
    }

    /// Returns an axis, or `None` if the table has no such axis, or ends before its record does.
    #[must_use]
    pub fn axis(&self, index: u16) -> Option<VariationAxisRecord>
        ensures variant { IsSome result ↔ HasAxis self.now.bytes.now index }
        ensures value { IfSome result (λ axis. IsAxis self.now.bytes.now index axis) }
    {
        if index >= self.axis_count() {
            return None;
        }
        let start = usize::from(u16::read_at(self.bytes, 4)?);
        let size = usize::from(u16::read_at(self.bytes, 10)?);
        read_axis(self.bytes.get(start + size * usize::from(index)..)?)
    }

    /// Returns the axes, in order, up to the first that the table ends before.
    #[must_use]
    pub fn axes(&self) -> Axes<'a>
        ensures fvar { result.fvar.bytes.now ≡ self.now.bytes.now }
        ensures index { result.index ≡ 0 }
    {
        Axes {
            fvar: *self,
            index: 0,
        }
    }

    /// Computes the coordinate of each axis at these settings, in the order of the axes.
    ///
    /// The value of an axis is that of its last setting, or the default if it has none; axes of one
    /// tag have the same settings. The value is clamped to the axis, and its distance from the
    /// default divided by that of the end on its side, rounded to 16.16; `avar` maps the result,
    /// which is then rounded to 2.14. So each coordinate is from -1 to 1.
    ///
    /// ```
    /// use font_variations_proved::{Avar, CoordinatesError, F2Dot14, Fvar, Tag};
    /// let fvar = b"\0\x01\0\0\0\x10\0\x02\0\x01\0\x14\0\0\0\x04\
    ///     wght\0\x64\0\0\x01\x90\0\0\x03\x84\0\0\0\0\x01\0";
    /// let (fvar, avar) = (Fvar::new(fvar).unwrap(), Avar::new(None).unwrap());
    /// let settings = ["wght=300".parse().unwrap(), "wght=650".parse().unwrap()];
    /// let mut coordinates = [F2Dot14::ZERO; 1];
    /// fvar.coordinates(&avar, &settings, &mut coordinates).unwrap();
    /// assert_eq!(coordinates[0].to_string(), "0.5");
    ///
    /// let misspelt = ["Wght=650".parse().unwrap()];
    /// let found = fvar.coordinates(&avar, &misspelt, &mut coordinates);
    /// assert_eq!(found, Err(CoordinatesError::NoAxis(Tag::new(b"Wght"))));
    /// ```
    ///
    /// OpenType allows an axis that is wider than 16.16 holds, such as one from -20000 to 20000.
    /// Its values are not normalized, because the distances that are divided are numbers of 16.16,
    /// and all of them fit only if `max - min` does.
    ///
    /// The time is linear in the number of axes, in the length of `avar`, and in the number of axes
    /// times that of the settings.
    ///
    /// # Errors
    ///
    /// `Places` unless `coordinates` are as many as the axes. Else the error of the first axis that
    /// has no coordinate: `NoRecord`, `NoMap` or `NoRange`. Else `NoAxis` of the first setting
    /// whose tag no axis has. Then `coordinates` are as before.
    pub fn coordinates(
        &self,
        avar: &Avar<'_>,
        settings: &[Setting],
        coordinates: &mut [F2Dot14],
    ) -> Result<(), CoordinatesError>
        ensures variant { IsOk result
            ↔ ((length coordinates.old ≡ fvar_axis_count self.now.bytes.now)
            × HaveCoordinates self.now.bytes.now (option_map (λ avar. avar.now) avar.now.bytes)
            × AreOfAxes self.now.bytes.now settings.now) }
        ensures error { IfErr result (λ error. IsCoordinatesError self.now.bytes.now
            (option_map (λ avar. avar.now) avar.now.bytes) settings.now (length coordinates.old)
            error) }
        ensures kept { IfErr result (λ _. coordinates.new ≡ coordinates.old) }
        ensures len { length coordinates.new ≡ length coordinates.old }
        ensures value { IfOk result (λ _. AreCoordinates self.now.bytes.now
            (option_map (λ avar. avar.now) avar.now.bytes) settings.now (length coordinates.new)
            coordinates.new) }
        ensures within { IfOk result (λ _. All IsWithinOne coordinates.new) }
    {
        check_axes(self, avar, coordinates.len())?;
        check_settings(self, settings)?;
        write_coordinates(self, avar, settings, coordinates);
        Ok(())
    }

    /// Computes the coordinates as [`coordinates`](Fvar::coordinates) does, but ignores each
    /// setting whose tag no axis has.
    ///
    /// This is for the settings of a text, which are given to each font of a list.
    ///
    /// # Errors
    ///
    /// Those of `coordinates`, except `NoAxis`. Then `coordinates` are as before.
    pub fn coordinates_ignoring_unknown(
        &self,
        avar: &Avar<'_>,
        settings: &[Setting],
        coordinates: &mut [F2Dot14],
    ) -> Result<(), CoordinatesError>
        ensures variant { IsOk result
            ↔ ((length coordinates.old ≡ fvar_axis_count self.now.bytes.now)
            × HaveCoordinates self.now.bytes.now (option_map (λ avar. avar.now) avar.now.bytes)) }
        ensures error { IfErr result (λ error. IsAxesError self.now.bytes.now
            (option_map (λ avar. avar.now) avar.now.bytes) (length coordinates.old) error) }
        ensures kept { IfErr result (λ _. coordinates.new ≡ coordinates.old) }
        ensures len { length coordinates.new ≡ length coordinates.old }
        ensures value { IfOk result (λ _. AreCoordinates self.now.bytes.now
            (option_map (λ avar. avar.now) avar.now.bytes) settings.now (length coordinates.new)
            coordinates.new) }
        ensures within { IfOk result (λ _. All IsWithinOne coordinates.new) }
    {
        let places = coordinates.len();
        check_axes(self, avar, places)?;
        write_coordinates(self, avar, settings, coordinates);
        Ok(())
    }
}

/// The axes of a table `fvar`, from [`Fvar::axes`].
///
/// ```
/// use font_variations_proved::{Fvar, Tag};
/// let fvar = b"\0\x01\0\0\0\x10\0\x02\0\x01\0\x14\0\0\0\x04\
///     wght\0\x64\0\0\x01\x90\0\0\x03\x84\0\0\0\0\x01\0";
/// let axes = Fvar::new(fvar).unwrap().axes();
/// assert!(axes.map(|axis| axis.axis_tag).eq([Tag::new(b"wght")]));
/// ```
#[derive(Debug, Drop)]
pub struct Axes<'a> {
    fvar: Fvar<'a>,
    index: u16,
}

impl<'a> Iterator for Axes<'a> {
    type Item = VariationAxisRecord;

    ghost next_gives = { λ old result new. (new.fvar.bytes.now ≡ old.fvar.bytes.now)
        × (IsSome result ↔ HasAxis old.fvar.bytes.now old.index)
        × IfSome result (λ axis. IsAxis old.fvar.bytes.now old.index axis)
        × MatchOption result (new.index ≡ old.index) (λ _. new.index ≡ old.index + 1) };

    ghost remaining = { λ axes. at_most (fvar_axis_count axes.fvar.bytes.now - axes.index) };

    fn next(&mut self) -> Option<VariationAxisRecord> {
        if self.index >= self.fvar.axis_count() {
            return None;
        }
        let axis = self.fvar.axis(self.index)?;
        self.index += 1;
        Some(axis)
    }
}

impl<'a> FusedIterator for Axes<'a> {}

impl<'a> Clone for Axes<'a> {
    ghost is_clone = { λ axes copy. (copy.fvar.bytes.now ≡ axes.fvar.bytes.now)
        × (copy.index ≡ axes.index) };

    ghost is_infallible = { λ _. ⊤ };

    fn clone(&self) -> Result<Axes<'a>, AllocError> {
        Ok(Axes {
            fvar: self.fvar,
            index: self.index,
        })
    }
}

/// Why there are no coordinates.
///
/// ```
/// use font_variations_proved::{Avar, CoordinatesError, F2Dot14, Fvar};
/// let fvar = b"\0\x01\0\0\0\x10\0\x02\0\x01\0\x14\0\0\0\x04\
///     wght\0\x64\0\0\x01\x90\0\0\x03\x84\0\0\0\0\x01\0";
/// let (fvar, avar) = (Fvar::new(fvar).unwrap(), Avar::new(None).unwrap());
/// let mut coordinates = [F2Dot14::ONE; 2];
/// let found = fvar.coordinates(&avar, &[], &mut coordinates);
/// assert_eq!(found, Err(CoordinatesError::Places));
/// assert_eq!(coordinates, [F2Dot14::ONE; 2]);
/// ```
#[derive(Clone, Copy, PartialEq, Eq, Debug, Error)]
pub enum CoordinatesError {
    /// The places are more or fewer than the axes.
    #[error("not one place for each axis")]
    Places,
    /// `fvar` ends before the record of the axis with this number.
    #[error("axis {0}: not in `fvar`")]
    NoRecord(u16),
    /// `avar` has no map of the axis with this tag, or ends before it does.
    #[error("axis `{0}`: no map in `avar`")]
    NoMap(Tag),
    /// The values of the axis with this tag are out of order, or it is wider than 16.16 holds.
    #[error("axis `{0}`: out of order, or too wide")]
    NoRange(Tag),
    /// No axis has the tag of a setting.
    #[error("no axis `{0}`")]
    NoAxis(Tag),
}

// Reads an axis of `fvar`, or returns `None` if there are fewer than 20 bytes.
fn read_axis(bytes: &[u8]) -> Option<VariationAxisRecord>
    ensures variant { IsSome result ↔ (20 ≤ length bytes.now) }
    ensures axis_tag { IfSome result (λ axis. tag_bytes axis.axis_tag ≡ take 4 bytes.now) }
    ensures min_value { IfSome result (λ axis.
        fixed_bits axis.min_value ≡ signed_numeral 4 (take 4 (drop 4 bytes.now))) }
    ensures default_value { IfSome result (λ axis.
        fixed_bits axis.default_value ≡ signed_numeral 4 (take 4 (drop 8 bytes.now))) }
    ensures max_value { IfSome result (λ axis.
        fixed_bits axis.max_value ≡ signed_numeral 4 (take 4 (drop 12 bytes.now))) }
    ensures flags { IfSome result (λ axis. axis.flags ≡ numeral (take 2 (drop 16 bytes.now))) }
    ensures axis_name_id { IfSome result (λ axis.
        name_number axis.axis_name_id ≡ numeral (take 2 (drop 18 bytes.now))) }
{
    Some(VariationAxisRecord {
        axis_tag: Tag::read_at(bytes, 0)?,
        min_value: Fixed::read_at(bytes, 4)?,
        default_value: Fixed::read_at(bytes, 8)?,
        max_value: Fixed::read_at(bytes, 12)?,
        flags: u16::read_at(bytes, 16)?,
        axis_name_id: NameId::read_at(bytes, 18)?,
    })
}

// Clamps a value to a range.
fn clamp(value: Fixed, min: Fixed, max: Fixed) -> Fixed
    requires { fixed_bits min ≤ℤ fixed_bits max }
    ensures low { fixed_bits min ≤ℤ fixed_bits result }
    ensures high { fixed_bits result ≤ℤ fixed_bits max }
    ensures inside { fixed_bits min ≤ℤ fixed_bits value
        → fixed_bits value ≤ℤ fixed_bits max → result ≡ value }
    ensures below { fixed_bits value ≤ℤ fixed_bits min → result ≡ min }
    ensures above { fixed_bits max ≤ℤ fixed_bits value → result ≡ max }
{
    value.clamp(min, max)
}

// Divides a part by its whole, as a quotient from 0 to 1.
fn ratio(part: Fixed, whole: Fixed) -> Fixed
    requires part { (pos 0 ≤ℤ fixed_bits part) × (fixed_bits part ≤ℤ fixed_bits whole) }
    requires whole { whole ≢ Fixed.ZERO }
    ensures value { IsQuotient 32 16 (fixed_bits part) (fixed_bits whole) (fixed_bits result) }
    ensures low { pos 0 ≤ℤ fixed_bits result }
    ensures high { fixed_bits result ≤ℤ fixed_bits Fixed.ONE }
    ensures all { fixed_bits part ≡ fixed_bits whole
        → fixed_bits result ≡ fixed_bits Fixed.ONE }
{
    part / whole
}

// Returns `ratio`, negated.
fn negated_ratio(part: Fixed, whole: Fixed) -> Fixed
    requires part { (pos 0 ≤ℤ fixed_bits part) × (fixed_bits part ≤ℤ fixed_bits whole) }
    requires whole { whole ≢ Fixed.ZERO }
    ensures value { IsQuotient 32 16 (fixed_bits part) (fixed_bits whole)
        (neg_ℤ (fixed_bits result)) }
    ensures low { fixed_bits Fixed.NEG_ONE ≤ℤ fixed_bits result }
    ensures high { fixed_bits result ≤ℤ pos 0 }
    ensures all { fixed_bits part ≡ fixed_bits whole
        → fixed_bits result ≡ fixed_bits Fixed.NEG_ONE }
{
    -ratio(part, whole)
}

// Returns whether values can be normalized by an axis.
fn has_range(axis: VariationAxisRecord) -> bool
    ensures { IsTrue result ↔ HasRange (fixed_bits axis.min_value)
        (fixed_bits axis.default_value) (fixed_bits axis.max_value) }
{
    axis.min_value <= axis.default_value
        && axis.default_value <= axis.max_value
        && axis.max_value.checked_sub(axis.min_value).is_some()
}

// Normalizes a value to -1..1, or returns `None` unless the axis has a range.
fn normalize(axis: VariationAxisRecord, value: Fixed) -> Option<Fixed>
    ensures variant { IsSome result ↔ HasRange (fixed_bits axis.min_value)
        (fixed_bits axis.default_value) (fixed_bits axis.max_value) }
    ensures value { IfSome result (λ coordinate. IsNormalized (fixed_bits axis.min_value)
        (fixed_bits axis.default_value) (fixed_bits axis.max_value) (fixed_bits value)
        (fixed_bits coordinate)) }
    ensures low { IfSome result (λ coordinate. fixed_bits Fixed.NEG_ONE ≤ℤ fixed_bits coordinate) }
    ensures high { IfSome result (λ coordinate. fixed_bits coordinate ≤ℤ fixed_bits Fixed.ONE) }
{
    if has_range(axis) {
        let clamped = clamp(value, axis.min_value, axis.max_value);
        Some(normalize_clamped(clamped, axis))
    } else {
        None
    }
}

// Normalizes a value within the axis.
fn normalize_clamped(value: Fixed, axis: VariationAxisRecord) -> Fixed
    requires order { (fixed_bits axis.min_value ≤ℤ fixed_bits axis.default_value)
        × (fixed_bits axis.default_value ≤ℤ fixed_bits axis.max_value) }
    requires width { FitsBits 32 (fixed_bits axis.max_value -ℤ fixed_bits axis.min_value) }
    requires within { (fixed_bits axis.min_value ≤ℤ fixed_bits value)
        × (fixed_bits value ≤ℤ fixed_bits axis.max_value) }
    ensures default { fixed_bits value ≡ fixed_bits axis.default_value → fixed_bits result ≡ pos 0 }
    ensures above { fixed_bits axis.default_value <ℤ fixed_bits value
        → IsQuotient 32 16 (fixed_bits value -ℤ fixed_bits axis.default_value)
        (fixed_bits axis.max_value -ℤ fixed_bits axis.default_value) (fixed_bits result) }
    ensures below { fixed_bits value <ℤ fixed_bits axis.default_value
        → IsQuotient 32 16 (fixed_bits axis.default_value -ℤ fixed_bits value)
        (fixed_bits axis.default_value -ℤ fixed_bits axis.min_value) (neg_ℤ (fixed_bits result)) }
    ensures max { fixed_bits axis.default_value <ℤ fixed_bits axis.max_value
        → fixed_bits axis.max_value ≡ fixed_bits value
        → fixed_bits result ≡ fixed_bits Fixed.ONE }
    ensures min { fixed_bits axis.min_value <ℤ fixed_bits axis.default_value
        → fixed_bits value ≡ fixed_bits axis.min_value
        → fixed_bits result ≡ fixed_bits Fixed.NEG_ONE }
    ensures low { fixed_bits Fixed.NEG_ONE ≤ℤ fixed_bits result }
    ensures high { fixed_bits result ≤ℤ fixed_bits Fixed.ONE }
{
    let default = axis.default_value;
    if value < default {
        negated_ratio(default - value, default - axis.min_value)
    } else if default < value {
        ratio(value - default, axis.max_value - default)
    } else {
        Fixed::ZERO
    }
}

// Clamps a coordinate to -1..1, and rounds it half up to 2.14, as `avar` and tuples store it.
fn to_stored(coordinate: Fixed) -> F2Dot14
    ensures value { IsStoredCoordinate coordinate result }
    ensures low { f2dot14_bits F2Dot14.NEG_ONE ≤ℤ f2dot14_bits result }
    ensures high { f2dot14_bits result ≤ℤ f2dot14_bits F2Dot14.ONE }
{
    coordinate.clamp(Fixed::NEG_ONE, Fixed::ONE).to_f2dot14()
}

// ---- `avar`: segment maps

/// The maps of the axes: those of a table `avar` of major version 1, or none in a font without it.
///
/// ```
/// use font_variations_proved::Avar;
/// assert!(Avar::new(None).is_some());
/// // No axis; and the same of major version 2, which maps coordinates further.
/// assert!(Avar::new(Some(b"\0\x01\0\0\0\0\0\0")).is_some());
/// assert!(Avar::new(Some(b"\0\x02\0\0\0\0\0\0")).is_none());
/// ```
#[derive(Clone, Copy, PartialEq, Eq, Hash, Debug)]
pub struct Avar<'a> {
    bytes: Option<&'a [u8]>,
    ghost header: { ForSome bytes (λ bytes. IsAvar bytes.now) },
}

impl<'a> Avar<'a> {
    /// Returns the table that begins at these bytes, or `None` if its major version is not 1, or it
    /// ends before its header does. Takes `None` for a font without the table, and maps nothing.
    #[must_use]
    pub fn new(bytes: Option<&'a [u8]>) -> Option<Avar<'a>>
        ensures variant { IsSome result ↔ IfSome bytes.entry (λ bytes. IsAvar bytes.now) }
        ensures bytes { IfSome result (λ avar. avar.bytes ≡ bytes.entry) }
    {
        let Some(table) = bytes else {
            return Some(Avar { bytes });
        };
        if u16::read_at(table, 0)? != 1 || table.len() < 8 {
            return None;
        }
        Some(Avar { bytes })
    }

    // Returns the mappings of an axis, each of four bytes, and where the map of the next axis
    // starts. In a font without the table the mappings are none.
    fn mappings(&self, axis: u16, start: usize) -> Option<(&'a [u8], usize)>
        requires { IfSome self.now.bytes (λ avar. start ≡ map_offset avar.now axis) }
        ensures variant { IsSome result
            ↔ IfSome self.now.bytes (λ avar. HasSegmentMap avar.now axis) }
        ensures value { IfSome result (λ found.
            found.0.now ≡ map_of (option_map (λ avar. avar.now) self.now.bytes) axis) }
        ensures next { IfSome result (λ found. IfSome self.now.bytes (λ avar.
            found.1 ≡ map_offset avar.now (axis + 1))) }
    {
        match self.bytes {
            Some(avar) => mappings_at(avar, axis, start),
            None => Some((&[], start)),
        }
    }
}

// Returns the mappings of an axis whose map starts here, and where the next map starts.
#[tactic(auto, using(font_types::proofs::Callers::calls, crate::proofs::Segments::map_rules))]
fn mappings_at(avar: &[u8], axis: u16, start: usize) -> Option<(&[u8], usize)>
    requires { start ≡ map_offset avar.now axis }
    ensures variant { IsSome result ↔ HasSegmentMap avar.now axis }
    ensures value { IfSome result (λ found. found.0.now ≡ segment_map_bytes avar.now axis) }
    ensures next { IfSome result (λ found. found.1 ≡ map_offset avar.now (axis + 1)) }
{
    if axis >= u16::read_at(avar, 6)? {
        return None;
    }
    let len = 4 * usize::from(u16::read_at(avar, start)?);
    let mappings = avar.get(start + 2..)?.get(..len)?;
    Some((mappings, start + 2 + len))
}

// Maps a coordinate. One below or above all mappings does not change.
fn mapped(coordinate: Fixed, map: &[u8]) -> Fixed
    ensures { IsMapped coordinate map.now result }
{
    match segment_end(coordinate, map) {
        Some(end) => map_in_segment(coordinate, map, end),
        None => coordinate,
    }
}

// Returns the coordinate of a value on an axis by its mappings, or `None` unless the axis has a
// range.
fn coordinate(axis: VariationAxisRecord, value: Fixed, map: &[u8]) -> Option<F2Dot14>
    ensures variant { IsSome result ↔ HasRange (fixed_bits axis.min_value)
        (fixed_bits axis.default_value) (fixed_bits axis.max_value) }
    ensures value { IfSome result (λ stored. IsCoordinate (fixed_bits axis.min_value)
        (fixed_bits axis.default_value) (fixed_bits axis.max_value) (fixed_bits value) map.now
        stored) }
    ensures within { IfSome result IsWithinOne }
{
    let normalized = normalize(axis, value)?;
    Some(to_stored(mapped(normalized, map)))
}

// ---- the coordinates of an instance

// Returns the value of an axis: that of its last setting, or the default.
#[tactic(auto, using(font_types::proofs::Callers::calls, crate::proofs::Settings::setting_rules))]
fn value_of(axis: VariationAxisRecord, settings: &[Setting]) -> Fixed
    ensures { IsSetTo settings.now (tag_bytes axis.axis_tag) (fixed_bits axis.default_value)
        (length settings.now) (fixed_bits result) }
{
    let mut value = axis.default_value;
    for setting in settings {
        if setting.axis == axis.axis_tag {
            value = setting.value;
        }
    }
    value
}

// Returns the coordinate along an axis, and where the map of the next axis starts.
fn coordinate_along(
    fvar: &Fvar<'_>,
    avar: &Avar<'_>,
    settings: &[Setting],
    index: u16,
    start: usize,
) -> Result<(F2Dot14, usize), CoordinatesError>
    requires { IfSome avar.now.bytes (λ avar. start ≡ map_offset avar.now index) }
    ensures variant { IsOk result
        ↔ HasCoordinate fvar.now.bytes.now (option_map (λ avar. avar.now) avar.now.bytes) index }
    ensures error { IfErr result (λ error. IsAxisError fvar.now.bytes.now
        (option_map (λ avar. avar.now) avar.now.bytes) index error) }
    ensures value { IfOk result (λ found. IsCoordinateOf fvar.now.bytes.now
        (option_map (λ avar. avar.now) avar.now.bytes) settings.now index found.0) }
    ensures within { IfOk result (λ found. IsWithinOne found.0) }
    ensures next { IfOk result (λ found. IfSome avar.now.bytes (λ avar.
        found.1 ≡ map_offset avar.now (index + 1))) }
{
    let axis = fvar.axis(index).ok_or(CoordinatesError::NoRecord(index))?;
    let (map, next) = avar
        .mappings(index, start)
        .ok_or(CoordinatesError::NoMap(axis.axis_tag))?;
    let value = value_of(axis, settings);
    let coordinate = coordinate(axis, value, map).ok_or(CoordinatesError::NoRange(axis.axis_tag))?;
    Ok((coordinate, next))
}

// Refuses other places than one for each axis, and else the first axis without a coordinate.
#[tactic(auto, using(font_types::proofs::Callers::calls, crate::proofs::Segments::map_rules))]
fn check_axes(fvar: &Fvar<'_>, avar: &Avar<'_>, places: usize) -> Result<(), CoordinatesError>
    ensures variant { IsOk result ↔ ((places ≡ fvar_axis_count fvar.now.bytes.now)
        × HaveCoordinates fvar.now.bytes.now (option_map (λ avar. avar.now) avar.now.bytes)) }
    ensures error { IfErr result (λ error. IsAxesError fvar.now.bytes.now
        (option_map (λ avar. avar.now) avar.now.bytes) places error) }
{
    if places != usize::from(fvar.axis_count()) {
        return Err(CoordinatesError::Places);
    }
    let mut start = 8;
    for axis in 0..fvar.axis_count() {
        let (_, next) = coordinate_along(fvar, avar, &[], axis, start)?;
        start = next;
    }
    Ok(())
}

// Returns whether an axis has this tag.
fn has_tag(fvar: &Fvar<'_>, tag: Tag) -> bool
    ensures { IsTrue result ↔ HasTag fvar.now.bytes.now (tag_bytes tag) }
{
    for number in 0..fvar.axis_count() {
        if fvar.axis(number).is_some_and(|axis| axis.axis_tag == tag) {
            return true;
        }
    }
    false
}

// Refuses the first setting whose tag no axis has.
fn check_settings(fvar: &Fvar<'_>, settings: &[Setting]) -> Result<(), CoordinatesError>
    ensures variant { IsOk result ↔ AreOfAxes fvar.now.bytes.now settings.now }
    ensures error { IfErr result (λ error.
        IsSettingError fvar.now.bytes.now settings.now error) }
{
    for setting in settings {
        if !has_tag(fvar, setting.axis) {
            return Err(CoordinatesError::NoAxis(setting.axis));
        }
    }
    Ok(())
}

// Writes the coordinates of all axes.
#[tactic(auto, using(font_types::proofs::Callers::calls, crate::proofs::Segments::map_rules))]
fn write_coordinates(
    fvar: &Fvar<'_>,
    avar: &Avar<'_>,
    settings: &[Setting],
    coordinates: &mut [F2Dot14],
)
    requires len { length coordinates.old ≡ fvar_axis_count fvar.now.bytes.now }
    requires all { HaveCoordinates fvar.now.bytes.now
        (option_map (λ avar. avar.now) avar.now.bytes) }
    ensures len { length coordinates.new ≡ length coordinates.old }
    ensures value { AreCoordinates fvar.now.bytes.now (option_map (λ avar. avar.now) avar.now.bytes)
        settings.now (length coordinates.new) coordinates.new }
    ensures within { All IsWithinOne coordinates.new }
{
    let mut start = 8;
    for index in 0..fvar.axis_count() {
        let (coordinate, next) = coordinate_along(fvar, avar, settings, index, start).unwrap();
        coordinates[usize::from(index)] = coordinate;
        start = next;
    }
}

// A mapping of a segment map, in 16.16.
#[derive(Clone, Copy)]
struct AxisValueMap {
    from_coordinate: Fixed,
    to_coordinate: Fixed,
}

// Interpolates linearly between two mappings; at either end the result is that end's coordinate.
fn lerp(coordinate: Fixed, start: AxisValueMap, end: AxisValueMap) -> Fixed
    requires { start.from_coordinate ≢ end.from_coordinate }
    ensures value { IsLerp coordinate start end result }
    ensures start { coordinate ≡ start.from_coordinate → result ≡ start.to_coordinate }
    ensures end { coordinate ≡ end.from_coordinate → result ≡ end.to_coordinate }
{
    let (from, to) = (start.from_coordinate, start.to_coordinate);
    to + (end.to_coordinate - to).mul_div(coordinate - from, end.from_coordinate - from)
}

// Reads a mapping.
fn read_mapping(map: &[u8], index: usize) -> AxisValueMap
    requires { 4 * index + 4 ≤ length map.now }
    ensures { result ≡ mapping_at map.now index }
{
    AxisValueMap {
        from_coordinate: F2Dot14::read_at(map, 4 * index).unwrap().to_fixed(),
        to_coordinate: F2Dot14::read_at(map, 4 * index + 2).unwrap().to_fixed(),
    }
}

// Returns the index of the first mapping at or above a coordinate, which ends its segment.
fn segment_end(coordinate: Fixed, map: &[u8]) -> Option<usize>
    ensures { MatchOption result
        (AreBelow map.now (mapping_count map.now) (fixed_bits coordinate))
        (λ end. IsSegmentEnd (fixed_bits coordinate) map.now end) }
{
    for index in 0..map.len() / 4 {
        if coordinate <= read_mapping(map, index).from_coordinate {
            return Some(index);
        }
    }
    None
}

// Maps a coordinate by the mapping that ends its segment, and the one before.
fn map_in_segment(coordinate: Fixed, map: &[u8], end: usize) -> Fixed
    requires { IsSegmentEnd (fixed_bits coordinate) map.now end }
    ensures { IsMappedIn coordinate map.now end result }
{
    let mapping = read_mapping(map, end);
    if mapping.from_coordinate == coordinate {
        mapping.to_coordinate
    } else if end == 0 {
        coordinate
    } else {
        lerp(coordinate, read_mapping(map, end - 1), mapping)
    }
}
