// The six comparisons as types, so that each has loops of its own.
ghost use Rattle.std.specs.Prelude.{◌≡◌};
ghost use Rattle.std.specs.Ordering.{int_cmp};
ghost use Rattle.vx_dtype.specs.declared.CompareOperator.{CompareOperator};
ghost use Rattle.vx_dtype.specs.declared.CompareOperator.TheVariants.{Eq as EqOperator, NotEq as NotEqOperator, Gt as GtOperator};
ghost use Rattle.vx_dtype.specs.declared.CompareOperator.TheVariants.{Gte as GteOperator, Lt as LtOperator, Lte as LteOperator};
ghost use Rattle.vx_dtype.specs.Order.{meets};

use crate::width::Width;

/// A comparison of two numbers.
pub(crate) trait Operator {
    ghost operator: { CompareOperator };

    /// Whether the comparison is true of two numbers.
    fn holds<T: Width>(left: T, right: T) -> bool
        ensures { result ≡ meets operator (int_cmp (T.value left) (T.value right)) };
}

/// `=`
pub(crate) struct Equal;

/// `!=`
pub(crate) struct Unequal;

/// `>`
pub(crate) struct Above;

/// `>=`
pub(crate) struct AtLeast;

/// `<`
pub(crate) struct Below;

/// `<=`
pub(crate) struct AtMost;

impl Operator for Equal {
    ghost operator = { EqOperator };

    #[inline(always)]
    fn holds<T: Width>(left: T, right: T) -> bool {
        left.is(right)
    }
}

impl Operator for Unequal {
    ghost operator = { NotEqOperator };

    #[inline(always)]
    fn holds<T: Width>(left: T, right: T) -> bool {
        !left.is(right)
    }
}

impl Operator for Above {
    ghost operator = { GtOperator };

    #[inline(always)]
    fn holds<T: Width>(left: T, right: T) -> bool {
        right.is_below(left)
    }
}

impl Operator for AtLeast {
    ghost operator = { GteOperator };

    #[inline(always)]
    fn holds<T: Width>(left: T, right: T) -> bool {
        !left.is_below(right)
    }
}

impl Operator for Below {
    ghost operator = { LtOperator };

    #[inline(always)]
    fn holds<T: Width>(left: T, right: T) -> bool {
        left.is_below(right)
    }
}

impl Operator for AtMost {
    ghost operator = { LteOperator };

    #[inline(always)]
    fn holds<T: Width>(left: T, right: T) -> bool {
        !right.is_below(left)
    }
}
