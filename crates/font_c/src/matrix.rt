//! Matrices and points of 16.16 values.

ghost use Rattle.std.specs.Prelude.{◌≡◌};
ghost use Rattle.font_types.specs.FixedMatrix.{matrix_bits, point_bits};
ghost use Rattle.font_c.specs.Matrices.{entries, coordinates, fixed_matrix_product, fixed_image};
ghost use Rattle.font_c.specs.Matrices.{linear_part, TransformsEach};

use font_types::{Fixed, Matrix, Point};

/// A matrix of raw 16.16 values: it transforms `(x, y)` to
/// `(xx * x + xy * y + dx, yx * x + yy * y + dy)`.
#[repr(C)]
#[derive(Clone, Copy)]
pub struct FontMatrix {
    pub xx: i32,
    pub yx: i32,
    pub xy: i32,
    pub yy: i32,
    pub dx: i32,
    pub dy: i32,
}

/// A point of raw 16.16 values.
#[repr(C)]
#[derive(Clone, Copy)]
pub struct FontPoint {
    pub x: i32,
    pub y: i32,
}

impl From<Matrix<Fixed>> for FontMatrix {
    ghost from_gives = { λ matrix given. entries given ≡ matrix_bits matrix };

    fn from(matrix: Matrix<Fixed>) -> Self {
        Self {
            xx: matrix.xx.to_bits(),
            yx: matrix.yx.to_bits(),
            xy: matrix.xy.to_bits(),
            yy: matrix.yy.to_bits(),
            dx: matrix.dx.to_bits(),
            dy: matrix.dy.to_bits(),
        }
    }
}

impl From<FontMatrix> for Matrix<Fixed> {
    ghost from_gives = { λ given matrix. matrix_bits matrix ≡ entries given };

    fn from(given: FontMatrix) -> Self {
        Self {
            xx: Fixed::from_bits(given.xx),
            yx: Fixed::from_bits(given.yx),
            xy: Fixed::from_bits(given.xy),
            yy: Fixed::from_bits(given.yy),
            dx: Fixed::from_bits(given.dx),
            dy: Fixed::from_bits(given.dy),
        }
    }
}

impl From<Point<Fixed>> for FontPoint {
    ghost from_gives = { λ point given. coordinates given ≡ point_bits point };

    fn from(point: Point<Fixed>) -> Self {
        Self {
            x: point.x.to_bits(),
            y: point.y.to_bits(),
        }
    }
}

impl From<FontPoint> for Point<Fixed> {
    ghost from_gives = { λ given point. point_bits point ≡ coordinates given };

    fn from(given: FontPoint) -> Self {
        Self::new(Fixed::from_bits(given.x), Fixed::from_bits(given.y))
    }
}

/// Returns the matrix that applies `b` first, then `a`. Products round and sums wrap, as of 16.16
/// values.
#[unsafe(no_mangle)]
#[tactic(auto, using(font_types::proofs::Callers::product_value))]
pub extern "C" fn fty_matrix_product(a: FontMatrix, b: FontMatrix) -> FontMatrix
    ensures { entries result ≡ fixed_matrix_product (entries a) (entries b) }
{
    (Matrix::from(a) * Matrix::from(b)).into()
}

/// Transforms a point.
#[unsafe(no_mangle)]
#[tactic(auto, using(font_types::proofs::Callers::image_value))]
pub extern "C" fn fty_matrix_transform_point(m: FontMatrix, p: FontPoint) -> FontPoint
    ensures { coordinates result ≡ fixed_image (entries m) (coordinates p) }
{
    (Matrix::from(m) * Point::from(p)).into()
}

/// Transforms a vector: as `fty_matrix_transform_point`, without the translation.
#[unsafe(no_mangle)]
#[tactic(auto, using(font_types::proofs::Callers::image_value))]
pub extern "C" fn fty_matrix_transform_vector(m: FontMatrix, v: FontPoint) -> FontPoint
    ensures { coordinates result ≡ fixed_image (linear_part (entries m)) (coordinates v) }
{
    fty_matrix_transform_point(FontMatrix { dx: 0, dy: 0, ..m }, v)
}

/// Transforms points in place, each as `fty_matrix_transform_point` does.
#[unsafe(no_mangle)]
pub extern "C" fn fty_matrix_transform_points(m: &FontMatrix, points: &mut [FontPoint])
    ensures { TransformsEach (entries m.now) points.old points.new }
{
    for p in points.iter_mut() {
        *p = fty_matrix_transform_point(*m, *p);
    }
}
