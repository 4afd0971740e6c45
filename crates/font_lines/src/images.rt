//! The images of a point under two matrices.

ghost use Rattle.std.specs.Prelude.{◌≡◌, [], ◌∷◌, ◌++◌, Ok};
ghost use Rattle.font_types.specs.Matrix.{elements_of};
ghost use Rattle.font_types.specs.FixedMatrix.{matrix_bits, point_bits};
ghost use Rattle.font_lines.specs.{Error.GivesAnswer, Images.coordinates_text, Images.images_text};

use crate::error::CommandError;
use crate::output::{append, append_decimal};
use font_types::{Fixed, Matrix, Point, laws};
use std::alloc::Allocator;

/// A point and two matrices.
#[derive(Clone, Copy)]
pub struct Images {
    /// The matrix that is applied last.
    pub a: Matrix<Fixed>,
    /// The matrix that is applied first.
    pub b: Matrix<Fixed>,
    /// The point.
    pub p: Point<Fixed>,
}

// The numbers are the elements of both matrices and the coordinates of the point.
impl From<[Fixed; 14]> for Images {
    ghost from_gives = { λ numbers m.
        numbers ≡ elements_of m.a ++ elements_of m.b ++ m.p.x ∷ m.p.y ∷ [] };

    fn from(numbers: [Fixed; 14]) -> Self {
        let (a, rest) = numbers.split_first_chunk::<6>().unwrap();
        let (b, rest) = rest.split_first_chunk::<6>().unwrap();
        Self {
            a: Matrix::from_elements(*a),
            b: Matrix::from_elements(*b),
            p: Point::new(rest[0], rest[1]),
        }
    }
}

/// Appends the image under the product of the matrices, and that under one after the other.
pub fn append_images<A: Allocator>(
    images: Images,
    output: &mut Vec<u8, A>,
) -> Result<(), CommandError>
    ensures { GivesAnswer (λ answer. answer ≡ Ok (images_text
        (matrix_bits images.a) (matrix_bits images.b) (point_bits images.p)))
        output.old.items output.new.items result }
{
    append_point(laws::composed(images.a, images.b, images.p), output)?;
    append(b" ", output)?;
    append_point(laws::in_turn(images.a, images.b, images.p), output)
}

// Appends the coordinates of a point.
fn append_point<A: Allocator>(
    point: Point<Fixed>,
    output: &mut Vec<u8, A>,
) -> Result<(), CommandError>
    ensures { GivesAnswer (λ answer. answer ≡ Ok (coordinates_text (point_bits point)))
        output.old.items output.new.items result }
{
    append_decimal(point.x.to_decimal(), output)?;
    append(b" ", output)?;
    append_decimal(point.y.to_decimal(), output)
}
