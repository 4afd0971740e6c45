//! Points, boxes and matrices over any element.
//!
//! ```text
//! let turned = Matrix::from_elements([a, b, c, d, e, f]);
//! (turned * point, Matrix::identity() * point)          // a point moved, and left where it is
//! ```
#![tactic(auto)]

mod bbox;
pub mod laws;
mod matrix;
mod point;
mod ring;
mod scale;

pub use bbox::BoundingBox;
pub use matrix::{Matrix, MatrixElement};
pub use point::Point;
pub use ring::RingElement;
pub use scale::Scale;
