//! Laws of [`F26Dot6`], as contracts of functions.

ghost use Rattle.font_fixed.specs.F26Dot6.{f26dot6_bits};
ghost use Rattle.font_fixed.specs.NumberLaws.{OnThree, ProductLaws, QuotientLaws};

use crate::F26Dot6;

/// Returns `x * y`, `y * x` and `x * ONE`: the first two are equal, and the third is `x`.
pub fn product_laws(x: F26Dot6, y: F26Dot6) -> [F26Dot6; 3]
    ensures { OnThree result (λ product flipped by_one.
        ProductLaws 32 6 (f26dot6_bits x) (f26dot6_bits y)
        (f26dot6_bits product) (f26dot6_bits flipped) (f26dot6_bits by_one)) }
{
    [x * y, y * x, x * F26Dot6::ONE]
}

/// Returns `x / y`, `x / ONE` and `x / x`: the second is `x`, and the last is `ONE` unless `x` is
/// zero.
pub fn quotient_laws(x: F26Dot6, y: F26Dot6) -> [F26Dot6; 3]
    ensures { OnThree result (λ quotient by_one by_itself.
        QuotientLaws 32 6 (f26dot6_bits x) (f26dot6_bits y)
        (f26dot6_bits quotient) (f26dot6_bits by_one) (f26dot6_bits by_itself)) }
{
    [x / y, x / F26Dot6::ONE, x / x]
}
