//! What no clause says: the traits of each type, by functions with bounds, and texts of `Debug`.

use super::boxes::sides;
use font_fixed::Fixed;
use font_geom::{BoundingBox, Matrix, MatrixElement, Point};
use std::alloc::{AllocError, Global};
use std::fmt::Debug;
use std::test::Fail;

fn is_shape<T: Copy + Eq + Default + Debug>() {}

fn is_element<T: MatrixElement>() {}

#[test]
fn traits(_rt: HostRuntime) {
    is_shape::<Point<Fixed>>();
    is_shape::<BoundingBox<i32>>();
    is_shape::<Matrix<Fixed>>();
    is_element::<Fixed>();
}

// Returns whether a shape has this `{:?}`, and is equal to its clone.
fn has_debug_text<T: Copy + Eq + Debug>(
    alloc: Global,
    shape: T,
    text: &str,
) -> Result<bool, AllocError> {
    Ok(format!(in alloc; "{shape:?}")?.as_str() == text && shape.clone()? == shape)
}

#[test]
fn debug_and_clone(rt: HostRuntime) -> Result<(), Fail> {
    let text = "BoundingBox { x_min: 0, y_min: 1, x_max: 2, y_max: 3 }";
    assert!(rt; has_debug_text(rt.alloc(), sides(0, 1, 2, 3), text)?);
    let text = "Matrix { xx: 1, yx: 0, xy: 0, yy: 1, dx: 0, dy: 0 }";
    assert!(rt; has_debug_text(rt.alloc(), Matrix::<Fixed>::identity(), text)?);
    assert!(rt; has_debug_text(rt.alloc(), Point::new(1, -2), "Point { x: 1, y: -2 }")?);
    Ok(())
}
