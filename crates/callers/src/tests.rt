//! What `specs` defines, of values of OpenType: a definition as wrong as its function proves.

ghost use Rattle.std.specs.Prelude.{◌≡◌, ◌∷◌, []};
ghost use Rattle.font_types.specs.F2Dot14;
ghost use Rattle.font_types.specs.F4Dot12;
ghost use Rattle.font_types.specs.F6Dot10;
ghost use Rattle.font_types.specs.Fixed;
ghost use Rattle.font_types.specs.F26Dot6;
ghost use Rattle.font_types.specs.F2Dot30;
ghost use Rattle.font_types.specs.F48Dot16;

use crate::dumper::{Axis, row};
use crate::evaluator::advance_at_settings;
use crate::linter::{BadTag, first_unordered, validate};
use crate::reader::{
    AxisRange, Group, Origins, Variant, counted_numbers, decode_range, encode_range, glyph_of,
    group_index, origin_at, origin_index,
};
use crate::scaler::{exact_width, mapped};
use crate::start::advance_at;
use crate::words::PairFault::{First, NoSecond, Second};
use crate::words::{Range, parsed_pair, parsed_range};
use font_types::JsonFault::{InvalidTag, MissingMember, Syntax};
use font_types::{
    DecimalFault, F2Dot14, F2Dot30, F4Dot12, F6Dot10, F26Dot6, F48Dot16, FWord, Fixed, GlyphId16,
    NameId, Point, Scalar, ScalarArray, TableDataRef, Tag, UfWord, Uint24,
};
use serde_json::Value;
use std::test::Fail;
use variations::{Avar, DeltaSetIndex, Fvar, ItemVariationStore, Setting};

#[test]
fn axes_and_columns(rt: HostRuntime) -> Result<(), Fail> {
    let numbers = [Fixed::from_bits(0x1_8000), Fixed::NEG_ONE, Fixed::MAX];
    assert!(rt; row(&numbers, 6, rt.alloc())?.as_slice() == b"   1.5    -132767.99998".as_slice());
    let (tag, default, name) = (Tag::new(b"wght"), numbers[0], NameId::new(256));
    let form = Axis { tag, default, name }.to_json(rt.alloc())?;
    let text = form.to_string(rt.alloc())?;
    assert!(rt; text.as_str() == r#"{"default":"1.5","name":256,"tag":"wght"}"#);
    // The first error counts, in the order of the fields.
    for (error, text) in &[
        (MissingMember, r#"{"default":"1.5","name":0}"#),
        (InvalidTag, r#"{"tag":"wg ht","default":"x"}"#),
        (Syntax, r#"{"tag":"wght","default":"x","name":"x"}"#),
    ] {
        let read = Axis::from_json(&Value::from_str(rt.alloc(), text)?);
        assert!(rt; read.err().as_ref() == Some(error), "{text}");
    }
    Ok(())
}

#[test]
fn first_bad_tag(rt: HostRuntime) {
    let tags = [b"glyf", b"cvt ", b"c vt", b"    "].map(Tag::new);
    let error = font_types::InvalidTag::ByteAfterSpace { pos: 2 };
    assert!(rt; validate(&tags[..2]).is_ok() && validate(&tags) == Err(BadTag { index: 2, error }));
}

// Two axes of `fvar`: the second has these first bytes of its minimum, default and maximum.
#[test]
fn first_unordered_axis(rt: HostRuntime) {
    for &([min, default, max], first) in &[
        ([0, 1, 2], None),
        ([1, 1, 1], None),
        ([0xFF, 0, 1], None),
        ([2, 1, 3], Some(1)),
        ([1, 3, 2], Some(1)),
        ([1, 0, 0xFF], Some(1)),
    ] {
        let mut axes = [0; 40];
        axes[24] = min;
        axes[28] = default;
        axes[32] = max;
        let found = first_unordered(&axes);
        assert!(rt; found == first, "{min} {default} {max}");
        let found = (first_unordered(&axes[20..]), first_unordered(&axes[..39]));
        assert!(rt; found == (first.map(|_| 0), None), "{min} {default} {max}");
    }
    assert!(rt; first_unordered(&[]).is_none());
}

// Three numbers, and texts that are none.
#[test]
fn ranges_of_words(rt: HostRuntime) {
    let [min, default, max] = [100, 400, 900].map(Fixed::from_i32);
    assert!(rt; parsed_range(b"100 400.0 900") == Some(Range { min, default, max }));
    for text in &[
        "",
        "100 400",
        "100 400 ",
        "100  400 900",
        "100 400 900 ",
        "100 x 900",
    ] {
        assert!(rt; parsed_range(text.as_bytes()).is_none(), "{text}");
    }
}

#[test]
fn pairs_of_words(rt: HostRuntime) {
    let pair = (Fixed::from_i32(100), Fixed::from_bits(0xE6_8000));
    assert!(rt; parsed_pair("100 230.5") == Ok(pair));
    for (text, fault) in &[
        ("", NoSecond),
        ("100", NoSecond),
        ("100 ", Second(DecimalFault::Syntax)),
        (" 100", First(DecimalFault::Syntax)),
        ("100  900", Second(DecimalFault::Syntax)),
        ("100 900 ", Second(DecimalFault::Syntax)),
        ("40000 x", First(DecimalFault::OutOfRange)),
        ("100 40000", Second(DecimalFault::OutOfRange)),
    ] {
        assert!(rt; parsed_pair(text).err().as_ref() == Some(fault), "{text}");
    }
}

// Version 1.0: 880 for all glyphs but two.
#[test]
fn vertical_origins(rt: HostRuntime) -> Result<(), Fail> {
    let vorg = [
        0, 1, 0, 0, 0x03, 0x70, 0, 2, 0, 10, 0x03, 0x71, 1, 0, 0xFF, 0xFE,
    ];
    let header = TableDataRef::<Origins>::new(&vorg)
        .ok_or("8 bytes")?
        .header();
    assert!(rt; header.default.get() == FWord::new(880) && header.count.get() == 2);
    let origins = ScalarArray::new(&vorg[8..]).ok_or("two records")?;
    for &(glyph, index) in &[(10, Ok(0)), (256, Ok(1)), (11, Err(1))] {
        assert!(rt; origin_index(&origins, GlyphId16::new(glyph)) == index);
    }
    assert!(rt; origins.get(1).map(|record| record.origin) == Some(FWord::new(-2)));
    assert!(rt; origin_at(&vorg, 1) == Some(FWord::new(-2)) && origin_at(&vorg, 2) == None);
    Ok(())
}

// Three groups: of printable characters, of emoticons, and of two whose glyphs wrap.
#[test]
fn groups_of_characters(rt: HostRuntime) -> Result<(), Fail> {
    let bytes = [
        0, 0, 0, 0x20, 0, 0, 0, 0x7E, 0, 0, 0, 3, 0, 1, 0xF6, 0, 0, 1, 0xF6, 0x4F, 0, 0, 0, 98, 0,
        2, 0, 0, 0, 2, 0, 1, 0xFF, 0xFF, 0xFF, 0xFF,
    ];
    let groups = ScalarArray::<Group>::new(&bytes).ok_or("three groups")?;
    for &(character, index, glyph) in &[
        (0x1F, None, None),
        (0x20, Some(0), Some(3)),
        (0x7E, Some(0), Some(97)),
        (0x7F, None, None),
        (0x1F5FF, None, None),
        (0x1F600, Some(1), Some(98)),
        (0x1F64F, Some(1), Some(177)),
        (0x1F650, None, None),
        (0x20000, Some(2), Some(0xFFFF_FFFF)),
        (0x20001, Some(2), Some(0)),
    ] {
        let found = (
            group_index(&groups, character),
            glyph_of(&groups, character),
        );
        assert!(rt; found == (index, glyph), "{character}");
    }
    Ok(())
}

#[test]
fn widths_that_fit(rt: HostRuntime) {
    let (max, one, minus) = (Fixed::MAX, Fixed::from_bits(1), Fixed::from_bits(-1));
    for &(advance, kern, width) in &[
        (max, minus, Some(Fixed::from_bits(0x7FFF_FFFE))),
        (max, Fixed::ZERO, Some(max)),
        (max, one, None),
        (Fixed::MIN, Fixed::ZERO, Some(Fixed::MIN)),
        (Fixed::MIN, minus, None),
    ] {
        assert!(rt;
            exact_width(&[advance], &[kern]) == width,
            "{advance} {kern}"
        );
    }
    // The sum of the first two alone does not fit.
    assert!(rt; exact_width(&[max, one, minus], &[Fixed::ZERO; 3]) == Some(max));
}

// From 0 to 0 and from 1 to -1/2. So 1 of 2^14 is mapped to -2 of 2^16.
#[test]
fn mapped_coordinates(rt: HostRuntime) {
    let low = Point::new(F2Dot14::ZERO, F2Dot14::ZERO);
    let high = Point::new(F2Dot14::ONE, F2Dot14::from_bits(-0x2000));
    for &(at, bits) in &[
        (0, 0),
        (1, -2),
        (0x2000, -0x4000),
        (0x3FFF, -0x7FFE),
        (0x4000, -0x8000),
    ] {
        assert!(rt;
            mapped(F2Dot14::from_bits(at), low, high).to_bits() == bits,
            "{at}"
        );
    }
    // A third of 1 of 2^14, and two thirds, are rounded to the nearest of 2^16.
    let high = Point::new(F2Dot14::from_bits(3), F2Dot14::from_bits(1));
    for &(at, bits) in &[(1, 1), (2, 3), (3, 4)] {
        assert!(rt;
            mapped(F2Dot14::from_bits(at), low, high).to_bits() == bits,
            "{at}"
        );
    }
}

#[test]
fn first_metrics(rt: HostRuntime) {
    let hmtx = [2, 0, 0, 10, 1, 0, 0xFF, 0xFF, 0, 7];
    assert!(rt; advance_at(&hmtx, 1).map(|word| word.to_u16()) == Some(256));
    assert!(rt; advance_at(&hmtx, 2).map(|word| word.to_u16()) == Some(7));
}

// The weight from 100 to 900, by default 400.
#[test]
fn weight_axis(rt: HostRuntime) {
    let fvar = *b"wght\x00\x64\x00\x00\x01\x90\x00\x00\x03\x84\x00\x00";
    let [min, default, max] = [100, 400, 900].map(Fixed::from_i32);
    let tag = Tag::new(b"wght");
    let axis = AxisRange {
        tag,
        min,
        default,
        max,
    };
    assert!(rt; encode_range(axis) == fvar && decode_range(&fvar) == Some(axis));
}

// U+4E08 is glyph 7 in the variation sequence.
#[test]
fn variant_glyph(rt: HostRuntime) {
    let variant = Variant::read(&[0, 0x4E, 0x08, 0, 7]);
    assert!(rt; variant.map(|pair| pair.character) == Some(Uint24::new(0x4E08)));
    assert!(rt; variant.map(|pair| pair.glyph) == Some(GlyphId16::new(7)));
}

#[test]
fn numbers_after_their_count(rt: HostRuntime) {
    let numbers = counted_numbers(&[0, 2, 0, 0, 0, 1, 0, 0, 1, 0]);
    assert!(rt; numbers.and_then(|numbers| numbers.get(1)) == Some(256));
    assert!(rt; counted_numbers(&[0, 2, 0, 0, 0, 1]).is_none());
}

// The constants of each format that clauses name are those of the code.
fn units_of_16_bits() -> ([F2Dot14; 3], [F4Dot12; 3], [F6Dot10; 3])
    ensures f2dot14 { result.0 ≡ (F2Dot14.ZERO ∷ F2Dot14.ONE ∷ F2Dot14.NEG_ONE ∷ []) }
    ensures f4dot12 { result.1 ≡ (F4Dot12.ZERO ∷ F4Dot12.ONE ∷ F4Dot12.NEG_ONE ∷ []) }
    ensures f6dot10 { result.2 ≡ (F6Dot10.ZERO ∷ F6Dot10.ONE ∷ F6Dot10.NEG_ONE ∷ []) }
{
    (
        [F2Dot14::ZERO, F2Dot14::ONE, F2Dot14::NEG_ONE],
        [F4Dot12::ZERO, F4Dot12::ONE, F4Dot12::NEG_ONE],
        [F6Dot10::ZERO, F6Dot10::ONE, F6Dot10::NEG_ONE],
    )
}

fn units_of_32_bits() -> ([Fixed; 3], [F26Dot6; 3], [F2Dot30; 3])
    ensures fixed { result.0 ≡ (Fixed.ZERO ∷ Fixed.ONE ∷ Fixed.NEG_ONE ∷ []) }
    ensures f26dot6 { result.1 ≡ (F26Dot6.ZERO ∷ F26Dot6.ONE ∷ F26Dot6.NEG_ONE ∷ []) }
    ensures f2dot30 { result.2 ≡ (F2Dot30.ZERO ∷ F2Dot30.ONE ∷ F2Dot30.NEG_ONE ∷ []) }
{
    (
        [Fixed::ZERO, Fixed::ONE, Fixed::NEG_ONE],
        [F26Dot6::ZERO, F26Dot6::ONE, F26Dot6::NEG_ONE],
        [F2Dot30::ZERO, F2Dot30::ONE, F2Dot30::NEG_ONE],
    )
}

fn units_of_64_bits() -> [F48Dot16; 3]
    ensures { result ≡ (F48Dot16.ZERO ∷ F48Dot16.ONE ∷ F48Dot16.NEG_ONE ∷ []) }
{
    [F48Dot16::ZERO, F48Dot16::ONE, F48Dot16::NEG_ONE]
}

#[test]
fn units_that_clauses_name(rt: HostRuntime) {
    assert!(rt; units_of_16_bits().2[1] == F6Dot10::from_bits(0x400));
    assert!(rt; units_of_32_bits().1[1] == F26Dot6::from_bits(64));
    assert!(rt; units_of_64_bits()[1] == F48Dot16::from_bits(0x1_0000));
}

// One axis from 100 by 400 to 900, without a map, and a delta of 40 at 900.
#[test]
fn advances_at_settings(rt: HostRuntime) -> Result<(), Fail> {
    let fvar = *b"\x00\x01\x00\x00\x00\x10\x00\x02\x00\x01\x00\x14\x00\x00\x00\x00\
        wght\x00\x64\x00\x00\x01\x90\x00\x00\x03\x84\x00\x00\x00\x00\x01\x00";
    let store = [
        0, 1, 0, 0, 0, 12, 0, 1, 0, 0, 0, 22, 0, 1, 0, 1, 0, 0, 0x40, 0, 0x40, 0, 0, 1, 0, 1, 0, 1,
        0, 0, 0, 40,
    ];
    let axes = (
        &Fvar::new(&fvar).ok_or("an axis")?,
        &Avar::new(None).ok_or("no map")?,
    );
    let store = ItemVariationStore::new(&store).ok_or("a store")?;
    let (first, none) = (
        DeltaSetIndex { outer: 0, inner: 0 },
        DeltaSetIndex {
            outer: 0xFFFF,
            inner: 0xFFFF,
        },
    );
    for &(axis, value, set, coordinate, advance) in &[
        (b"wght", 650, first, 0x2000, Some(520)),
        (b"wght", 900, first, 0x4000, Some(540)),
        (b"wght", 400, first, 0, Some(500)),
        (b"wght", 650, none, 0x2000, Some(500)),
        // Of a subtable that is not there, and of an axis that is not there.
        (
            b"wght",
            650,
            DeltaSetIndex { outer: 1, inner: 0 },
            0x2000,
            None,
        ),
        (b"wdth", 650, first, -0x4000, None),
    ] {
        let settings = [Setting {
            axis: Tag::new(axis),
            value: Fixed::from_i32(value),
        }];
        let mut at = [F2Dot14::NEG_ONE];
        let found = advance_at_settings(axes, &settings, &mut at, &store, set, UfWord::new(500));
        assert!(rt; found == advance.map(UfWord::new), "{value}");
        assert!(rt; at == [F2Dot14::from_bits(coordinate)], "{value}");
    }
    Ok(())
}
