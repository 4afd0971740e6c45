//! An evaluator of variations: what `variations/tests` does not see.

ghost use Rattle.std.specs.Prelude.{IfSome};
ghost use Rattle.variations.specs.Evaluator.{IsWithinOne};

use crate::{Avar, CoordinatesError, Fvar, Setting, VariationAxisRecord};
use font_types::{F2Dot14, Fixed, NameId, Scalar, Tag};
use std::test::Fail;

// One axis, in records of 21 bytes, the first of which begins at 17.
const FVAR: [u8; 38] = *b"\x00\x01\x00\x00\x00\x11\x00\x02\x00\x01\x00\x15\x00\x00\x00\x00\xFF\
    wght\x00\x64\x00\x00\x01\x90\x00\x00\x03\x84\x00\x00\x00\x01\x01\x00\x07";

// The first axis of a table.
fn axis_of(fvar: &[u8]) -> Option<VariationAxisRecord> {
    Fvar::new(fvar)?.axis(0)
}

#[test]
fn axis_records(rt: HostRuntime) -> Result<(), Fail> {
    let fvar = Fvar::new(&FVAR).ok_or("a table")?;
    let axis = fvar.axis(0).ok_or("an axis")?;
    assert!(rt; axis.axis_tag == Tag::new(b"wght") && axis.min_value == Fixed::from_i32(100));
    assert!(rt; axis.default_value == Fixed::from_i32(400));
    assert!(rt; axis.max_value == Fixed::from_i32(900) && axis.flags == 1);
    assert!(rt; axis.axis_name_id == NameId::new(256) && fvar.axis_count() == 1);
    assert!(rt; fvar.axis(1).is_none());
    for len in 0..FVAR.len() {
        let (table, axis) = (Fvar::new(&FVAR[..len]), axis_of(&FVAR[..len]));
        assert!(rt; table.is_some() == (len >= 16), "{len} bytes");
        assert!(rt; axis.is_some() == (len >= 37), "an axis of {len} bytes");
    }
    // Of another major version, of a later minor one, and with records that are too short.
    for &(byte, value, is_there) in &[
        (1, 0, false),
        (1, 2, false),
        (0, 1, false),
        (3, 1, true),
        (11, 19, false),
    ] {
        let mut table = FVAR;
        table[byte] = value;
        assert!(rt;
            Fvar::new(&table).is_some() == is_there,
            "{value} at {byte}"
        );
    }
    Ok(())
}

// The coordinate of a value on the axis with this range. That it is from -1 to 1 is proved by what
// `coordinates` promises of each.
fn coordinate_of(range: [Fixed; 3], value: Fixed, avar: Option<&[u8]>) -> Option<F2Dot14>
    ensures { IfSome result IsWithinOne }
{
    let (mut fvar, [min, default, max]) = (FVAR, range);
    min.write_at(&mut fvar, 21)?;
    default.write_at(&mut fvar, 25)?;
    max.write_at(&mut fvar, 29)?;
    let settings = [Setting {
        axis: Tag::new(b"wght"),
        value,
    }];
    let (fvar, mut coordinates) = (Fvar::new(&fvar)?, [F2Dot14::ZERO]);
    fvar.coordinates(&Avar::new(avar)?, &settings, &mut coordinates)
        .ok()?;
    Some(coordinates[0])
}

// The coordinate of a number of 16.16 from -1 to 1.
fn stored(bits: i32, avar: Option<&[u8]>) -> Option<F2Dot14> {
    let range = [Fixed::NEG_ONE, Fixed::ZERO, Fixed::ONE];
    coordinate_of(range, Fixed::from_bits(bits), avar)
}

#[test]
fn coordinates_stored(rt: HostRuntime) {
    for &(bits, wanted) in &[
        (0x2_0000, 0x4000),
        (-0x1_0001, -0x4000),
        (-0x8002, -0x2000),
        (-0x8003, -0x2001),
        (0x8002, 0x2001),
        (0x8001, 0x2000),
        (0, 0),
    ] {
        assert!(rt;
            stored(bits, None) == Some(F2Dot14::from_bits(wanted)),
            "{bits}"
        );
    }
}

#[test]
fn coordinates_normalized(rt: HostRuntime) {
    for &(min, default, max, value, bits) in &[
        (100, 400, 900, 650, Some(0x2000)),
        (100, 400, 900, 300, Some(-0x1555)),
        (100, 400, 900, 0, Some(-0x4000)),
        (100, 400, 900, 1000, Some(0x4000)),
        (400, 400, 900, 100, Some(0)),
        (100, 400, 400, 900, Some(0)),
        // Out of order.
        (401, 400, 900, 650, None),
        (100, 400, 399, 650, None),
        // As wide as 16.16 holds, and wider by one.
        (-0x4000, 0, 0x3FFF, 0x3FFF, Some(0x4000)),
        (-0x4000, 0, 0x4000, 0, None),
    ] {
        let range = [min, default, max].map(Fixed::from_i32);
        let coordinate = coordinate_of(range, Fixed::from_i32(value), None);
        assert!(rt;
            coordinate == bits.map(F2Dot14::from_bits),
            "{value} of {min}, {default}, {max}"
        );
    }
}

// One axis: -1 and 0 to themselves, 0.5 to 0.25, and 1 to itself.
const MAPPED: [u8; 26] = [
    0, 1, 0, 0, 0, 0, 0, 1, 0, 4, 0xC0, 0, 0xC0, 0, 0, 0, 0, 0, 0x20, 0, 0x10, 0, 0x40, 0, 0x40, 0,
];

#[test]
fn coordinates_mapped(rt: HostRuntime) {
    for &(bits, wanted) in &[
        (-0x1_0001, -0x4000),
        (-0x1_0000, -0x4000),
        (-0x4000, -0x1000),
        (0, 0),
        (0x4000, 0x800),
        (0x7FFF, 0x1000),
        (0x8000, 0x1000),
        // It is mapped to 0x4002.
        (0x8001, 0x1001),
        (0xC000, 0x2800),
        (0x1_0000, 0x4000),
        (0x1_0001, 0x4000),
        // It is mapped to 32768.5, which is rounded to 32769 and then to 8192 of 2.14; from 10923 of
        // 2.14 on, the map would give 32770 and 8193.
        (43691, 8192),
    ] {
        let coordinate = stored(bits, Some(&MAPPED));
        assert!(rt; coordinate == Some(F2Dot14::from_bits(wanted)), "{bits}");
    }
}

// Maps that OpenType does not allow: one with 0.5 to 0.25 and to 0.75, one without 0, and two maps
// for one axis.
const TWICE: [u8; 30] = [
    0, 1, 0, 0, 0, 0, 0, 1, 0, 5, 0xC0, 0, 0xC0, 0, 0, 0, 0, 0, 0x20, 0, 0x10, 0, 0x20, 0, 0x30, 0,
    0x40, 0, 0x40, 0,
];

const NO_ZERO: [u8; 22] = [
    0, 1, 0, 0, 0, 0, 0, 1, 0, 3, 0xC0, 0, 0xC0, 0, 0x20, 0, 0x10, 0, 0x40, 0, 0x40, 0,
];

const TWO_MAPS: [u8; 28] = [
    0, 1, 0, 0, 0, 0, 0, 2, 0, 4, 0xC0, 0, 0xC0, 0, 0, 0, 0, 0, 0x20, 0, 0x10, 0, 0x40, 0, 0x40, 0,
    0, 0,
];

// HarfBuzz 6.0 has these coordinates, and FreeType 2.12.1 those that are not marked.
#[test]
fn coordinates_by_invalid_maps(rt: HostRuntime) {
    for &(avar, bits, wanted) in &[
        (&TWICE[..], 0x4000, 0x800),
        // In FreeType it is 0x3000, by the second mapping.
        (&TWICE, 0x8000, 0x1000),
        (&TWICE, 0xC000, 0x3800),
        (&NO_ZERO, -0x4000, -0x1800),
        (&NO_ZERO, 0x4000, 0x2AB),
        (&NO_ZERO, 0xC000, 0x2800),
        // In FreeType it is 0x2000, without `avar`.
        (&TWO_MAPS, 0x8000, 0x1000),
    ] {
        let coordinate = stored(bits, Some(avar));
        assert!(rt; coordinate == Some(F2Dot14::from_bits(wanted)), "{bits}");
    }
}

// Three axes from -1 by 0 to 1, of which the first two have one tag.
const THREE: [u8; 76] = *b"\x00\x01\x00\x00\x00\x10\x00\x02\x00\x03\x00\x14\x00\x00\x00\x00\
    wght\xFF\xFF\x00\x00\x00\x00\x00\x00\x00\x01\x00\x00\x00\x00\x00\x00\
    wght\xFF\xFF\x00\x00\x00\x00\x00\x00\x00\x01\x00\x00\x00\x00\x00\x00\
    wdth\xFF\xFF\x00\x00\x00\x00\x00\x00\x00\x01\x00\x00\x00\x00\x00\x00";

// A map of one mapping, one of none, and one of two.
const AVAR: [u8; 26] = [
    0, 1, 0, 0, 0, 0, 0, 3, 0, 1, 1, 2, 3, 4, 0, 0, 0, 2, 5, 6, 7, 8, 9, 10, 11, 12,
];

// The setting of an axis to a number of 2.14.
fn set_to(axis: &[u8; 4], bits: i16) -> Setting {
    Setting {
        axis: Tag::new(axis),
        value: F2Dot14::from_bits(bits).to_fixed(),
    }
}

#[test]
fn coordinates_of_three_axes(rt: HostRuntime) -> Result<(), Fail> {
    let (fvar, avar) = (
        Fvar::new(&THREE).ok_or("axes")?,
        Avar::new(Some(&AVAR)).ok_or("maps")?,
    );
    let mut at = [F2Dot14::ONE; 3];
    for &(settings, wanted) in &[
        (
            [set_to(b"wght", 0x102), set_to(b"wdth", 0x506)],
            [0x304, 0x102, 0x708],
        ),
        // Of two settings of an axis the last counts.
        (
            [set_to(b"wght", 0x102), set_to(b"wght", 0x506)],
            [0x506, 0x506, 0],
        ),
        (
            [set_to(b"wght", 0x506), set_to(b"wght", 0x102)],
            [0x304, 0x102, 0],
        ),
    ] {
        let (found, wanted) = (
            fvar.coordinates(&avar, &settings, &mut at),
            wanted.map(F2Dot14::from_bits),
        );
        assert!(rt; found == Ok(()) && at == wanted);
        at = [F2Dot14::ONE; 3];
        let found = fvar.coordinates_ignoring_unknown(&avar, &settings, &mut at);
        assert!(rt; found == Ok(()) && at == wanted);
    }
    Ok(())
}

#[test]
fn settings_of_no_axis(rt: HostRuntime) -> Result<(), Fail> {
    let (fvar, avar) = (
        Fvar::new(&THREE).ok_or("axes")?,
        Avar::new(Some(&AVAR)).ok_or("maps")?,
    );
    for &(settings, unknown) in &[
        ([set_to(b"Wght", 1), set_to(b"wdth", 0x90A)], b"Wght"),
        ([set_to(b"wdth", 0x90A), set_to(b"wgt ", 1)], b"wgt "),
        ([set_to(b"opsz", 1), set_to(b"slnt", 1)], b"opsz"),
    ] {
        let mut at = [F2Dot14::ONE; 3];
        let found = fvar.coordinates(&avar, &settings, &mut at);
        assert!(rt; found == Err(CoordinatesError::NoAxis(Tag::new(unknown))));
        assert!(rt; at == [F2Dot14::ONE; 3]);
        let found = fvar.coordinates_ignoring_unknown(&avar, &settings, &mut at);
        let width = if unknown == b"opsz" { 0 } else { 0xB0C };
        assert!(rt; found == Ok(()) && at == [0, 0, width].map(F2Dot14::from_bits));
    }
    // The error of the places comes first, then that of an axis.
    let (other, short) = ([set_to(b"opsz", 1)], Fvar::new(&THREE[..75]).ok_or("axes")?);
    let mut at = [F2Dot14::ONE; 3];
    let found = short.coordinates(&avar, &other, &mut at[..2]);
    assert!(rt; found == Err(CoordinatesError::Places));
    let found = short.coordinates(&avar, &other, &mut at);
    assert!(rt; found == Err(CoordinatesError::NoRecord(2)));
    let found = short.coordinates_ignoring_unknown(&avar, &other, &mut at);
    assert!(rt; found == Err(CoordinatesError::NoRecord(2)) && at == [F2Dot14::ONE; 3]);
    Ok(())
}

#[test]
fn axes_without_coordinates(rt: HostRuntime) -> Result<(), Fail> {
    let fvar = Fvar::new(&THREE).ok_or("axes")?;
    for len in 0..=AVAR.len() {
        let Some(avar) = Avar::new(Some(&AVAR[..len])) else {
            assert!(rt; len < 8);
            continue;
        };
        let mut at = [F2Dot14::ONE; 3];
        let found = fvar.coordinates(&avar, &[], &mut at);
        let wanted = match len {
            0..16 => Err(CoordinatesError::NoMap(Tag::new(b"wght"))),
            16..26 => Err(CoordinatesError::NoMap(Tag::new(b"wdth"))),
            _ => Ok(()),
        };
        assert!(rt; found == wanted, "{len} bytes");
        assert!(rt; found.is_ok() || at == [F2Dot14::ONE; 3]);
    }
    let (none, mut four) = (Avar::new(None).ok_or("none")?, [F2Dot14::ONE; 4]);
    let found = fvar.coordinates(&none, &[], &mut four);
    assert!(rt; found == Err(CoordinatesError::Places) && four == [F2Dot14::ONE; 4]);
    let found = fvar.coordinates(&none, &[], &mut four[..2]);
    assert!(rt; found == Err(CoordinatesError::Places) && four == [F2Dot14::ONE; 4]);
    // The first axis that is without counts: the second is out of order, and the third too.
    let mut table = THREE;
    table[40] = 0x7F;
    table[60] = 0x7F;
    let fvar = Fvar::new(&table).ok_or("axes")?;
    let found = fvar.coordinates(&none, &[], &mut four[..3]);
    assert!(rt; found == Err(CoordinatesError::NoRange(Tag::new(b"wght"))));
    // Of another major version, and of a later minor one.
    for &(byte, value, is_there) in &[(1, 0, false), (1, 2, false), (0, 1, false), (3, 1, true)] {
        let mut table = AVAR;
        table[byte] = value;
        assert!(rt;
            Avar::new(Some(&table)).is_some() == is_there,
            "{value} at {byte}"
        );
    }
    Ok(())
}
