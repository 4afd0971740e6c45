//! What no clause says: the traits of each type, by functions with bounds.

use font_base::{
    BigEndian, FixedSize, IdentityEq, Int24, SampleHeader, Scalar, ScalarArray, TableDataRef,
    Uint24,
};
use std::fmt::{Debug, Display};
use std::hash::Hash;

fn is_integer<T: Copy + Ord + Hash + Default + Display + Debug + Scalar + IdentityEq>() {}

fn is_field<T: Copy + Ord + Hash + Default + Display + Debug + FixedSize>() {}

fn is_view<T: Copy>() {}

fn is_array<T: Copy + Default + Eq>() {}

#[test]
fn traits(_rt: HostRuntime) {
    is_integer::<Uint24>();
    is_integer::<Int24>();
    is_field::<BigEndian<u16>>();
    is_field::<BigEndian<Int24>>();
    is_view::<TableDataRef<SampleHeader>>();
    is_array::<ScalarArray<u16>>();
}
