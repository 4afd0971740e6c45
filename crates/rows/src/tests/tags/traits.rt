//! What no clause says: the traits of each type, by functions with bounds, and that a set finds
//! equal values.

use font_base::{IdentityEq, Scalar};
use font_tags::{Compatible, InvalidTag, LongDateTime, MajorMinor, Tag, Version16Dot16};
use std::alloc::{AllocError, Global};
use std::collections::HashSet;
use std::fmt::{Debug, Display};
use std::hash::Hash;
use std::str::FromStr;
use std::test::Fail;

/// Returns whether a set of one value has an equal value, and not another.
fn is_scalar<T>(alloc: Global, value: T, equal: T, other: T) -> Result<bool, AllocError>
where
    T: Copy + Ord + Hash + Default + Debug + Scalar + IdentityEq,
{
    let mut set = HashSet::new(alloc);
    set.insert(value)?;
    Ok(set.contains(&equal) && !set.contains(&other))
}

fn is_display<T: Display>() {}

fn is_version<T: Display + Compatible<T> + Compatible<(u16, u16)>>() {}

fn is_from_str<T: FromStr>() {}

fn is_error<T: Clone + Eq + Debug + Display>() {}

#[test]
fn traits(rt: HostRuntime) -> Result<(), Fail> {
    is_display::<Tag>();
    is_from_str::<Tag>();
    is_error::<InvalidTag>();
    is_version::<Version16Dot16>();
    is_version::<MajorMinor>();
    let alloc = rt.alloc();
    assert!(rt;
        is_scalar(
            alloc,
            Tag::new(b"head"),
            Tag::from_u32(0x6865_6164),
            Tag::default()
        )?
    );
    let [date, same, other] = [-1, -1, 1].map(LongDateTime::new);
    assert!(rt; is_scalar(alloc, date, same, other)?);
    let (packed, other) = (Version16Dot16::VERSION_1_0, Version16Dot16::VERSION_1_1);
    assert!(rt; is_scalar(alloc, packed, Version16Dot16::new(1, 0), other)?);
    let (pair, other) = (MajorMinor::VERSION_1_0, MajorMinor::VERSION_1_1);
    assert!(rt; is_scalar(alloc, pair, MajorMinor::new(1, 0), other)?);
    Ok(())
}
