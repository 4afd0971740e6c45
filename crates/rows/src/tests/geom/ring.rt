//! An impl of a caller: `RingElement` for `u32` modulo `2^32`.

ghost use Rattle.std.specs.Prelude.{◌≡◌, ◌+◌, ◌*◌, ◌%◌, ◌^◌, ◌<◌, refl};
ghost use Rattle.std.proofs.{Common.lit<, Math.Nat.mod-lt};
ghost use Rattle.font_geom.specs.Ring.Laws.{same_made, modular_ring};

use font_fixed::Fixed;
use font_geom::laws::{action, associative, identity_neutral, step_and_halves};
use font_geom::{Matrix, MatrixElement, Point, RingElement};
use std::ops::{Add, Mul};

/// A number of 32 bits whose sums and products wrap.
#[derive(Clone, Copy, PartialEq, Eq)]
struct Turn {
    number: u32,
    ghost below: { number < 2 ^ 32 },
}

impl Add for Turn {
    type Output = Turn;

    ghost add_gives = { λ x y sum. sum.number ≡ (x.number + y.number) % 2 ^ 32 };

    fn add(self, rhs: Turn) -> Turn {
        Turn {
            number: self.number.wrapping_add(rhs.number),
        }
    }
}

impl Mul for Turn {
    type Output = Turn;

    ghost mul_gives = { λ x y product. product.number ≡ (x.number * y.number) % 2 ^ 32 };

    fn mul(self, rhs: Turn) -> Turn {
        Turn {
            number: self.number.wrapping_mul(rhs.number),
        }
    }
}

impl MatrixElement for Turn {
    const ZERO: Self = Turn { number: 0 };

    const ONE: Self = Turn { number: 1 };

    ghost ZERO = { record { number = 0; below = lit< tt } };

    ghost ONE = { record { number = 1; below = lit< tt } };
}

impl RingElement for Turn {
    ghost plus = { λ x y. record {
      number = (x.number + y.number) % 2 ^ 32;
      below = mod-lt (x.number + y.number) (lit< tt);
    } };

    ghost times = { λ x y. record {
      number = (x.number * y.number) % 2 ^ 32;
      below = mod-lt (x.number * y.number) (lit< tt);
    } };

    ghost can_add_all = { λ _ _. tt };

    ghost can_multiply_all = { λ _ _. tt };

    ghost sum_is = { λ x y sum is. same_made (λ k p. record { number = k; below = p }) sum.below
        (mod-lt (x.number + y.number) (lit< tt)) is };

    ghost product_is = { λ x y product is. same_made (λ k p. record { number = k; below = p })
        product.below (mod-lt (x.number * y.number) (lit< tt)) is };

    ghost ring = { modular_ring (record {
      below = λ x. x.below;
      same = λ x y. same_made (λ k p. record { number = k; below = p }) x.below y.below;
      number-zero = refl;
      number-one = refl;
      number-plus = λ x y. refl;
      number-times = λ x y. refl;
    }) };
}

fn turns(numbers: [u32; 6]) -> Matrix<Turn> {
    Matrix::from_elements(numbers).map(|number| Turn { number })
}

#[test]
fn products_associate(rt: HostRuntime) {
    let a = turns([2, 3, 5, 7, 11, 13]);
    let b = turns([0x8000_0000, 1, 0xFFFF_FFFF, 4, 5, 6]);
    let c = turns([17, 0xFFFF_FFF0, 19, 23, 29, 31]);
    let (first, second) = associative(a, b, c);
    assert!(rt; first == second && first == a * b * c);
}

#[test]
fn products_act_on_points(rt: HostRuntime) {
    let a = turns([2, 3, 5, 7, 11, 13]);
    let b = turns([0x8000_0000, 1, 0xFFFF_FFFF, 4, 5, 6]);
    let (p, image) = (Point::new(1, 0xFFFF_FFFF), Point::new(38, 0x8000_0034));
    let (first, second) = action(a, b, p.map(|number| Turn { number }));
    assert!(rt; first == second && first == image.map(|number| Turn { number }));
}

#[test]
fn identity_is_neutral(rt: HostRuntime) {
    let a = turns([2, 3, 5, 7, 11, 0xFFFF_FFFF]);
    assert!(rt; identity_neutral(a) == (a, a));
}

#[test]
fn fixed_products_do_not_associate(rt: HostRuntime) {
    assert!(rt; step_and_halves() == (Fixed::EPSILON, Fixed::ZERO));
}
