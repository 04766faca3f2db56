// The comparisons of two plain values.
ghost use Rattle.std.specs.Prelude.{◌≡◌, Some};
ghost use Rattle.vx_dtype.specs.Order.{bound_operator, meets, swapped_comparison};
ghost use Rattle.vx_dtype.specs.Texts.{operator_text};

use std::cmp::Ordering;
use std::fmt;

/// A comparison of two plain values.
#[derive(Clone, Copy, PartialEq, Eq, Hash, Debug)]
pub enum CompareOperator {
    Eq,
    NotEq,
    Gt,
    Gte,
    Lt,
    Lte,
}

/// Whether a bound itself lies outside of its range.
#[derive(Clone, Copy, PartialEq, Eq, Hash, Debug)]
pub enum StrictComparison {
    Strict,
    NonStrict,
}

/// Of a range, whether each of its bounds is strict.
#[derive(Clone, Copy, PartialEq, Eq, Hash, Debug)]
pub struct BetweenOptions {
    pub lower_strict: StrictComparison,
    pub upper_strict: StrictComparison,
}

impl StrictComparison {
    /// The comparison that a bound asks: `<` where it is strict, else `<=`.
    pub fn to_operator(self) -> CompareOperator
        ensures { result ≡ bound_operator self }
    {
        match self {
            StrictComparison::Strict => CompareOperator::Lt,
            StrictComparison::NonStrict => CompareOperator::Lte,
        }
    }
}

impl CompareOperator {
    /// Whether the comparison is true of values that stand so.
    pub fn holds(self, ordering: Ordering) -> bool
        ensures { result ≡ meets self ordering }
    {
        match self {
            CompareOperator::Eq => ordering.is_eq(),
            CompareOperator::NotEq => ordering.is_ne(),
            CompareOperator::Gt => ordering.is_gt(),
            CompareOperator::Gte => ordering.is_ge(),
            CompareOperator::Lt => ordering.is_lt(),
            CompareOperator::Lte => ordering.is_le(),
        }
    }

    /// The comparison that holds of two values where this one does of the second and the first.
    pub fn swap(self) -> CompareOperator
        ensures { result ≡ swapped_comparison self }
    {
        match self {
            CompareOperator::Gt => CompareOperator::Lt,
            CompareOperator::Gte => CompareOperator::Lte,
            CompareOperator::Lt => CompareOperator::Gt,
            CompareOperator::Lte => CompareOperator::Gte,
            other => other,
        }
    }

    /// The sign of the comparison.
    fn sign(self) -> &'static str
        ensures { result.now ≡ operator_text self }
    {
        match self {
            CompareOperator::Eq => "=",
            CompareOperator::NotEq => "!=",
            CompareOperator::Gt => ">",
            CompareOperator::Gte => ">=",
            CompareOperator::Lt => "<",
            CompareOperator::Lte => "<=",
        }
    }
}

impl fmt::Display for CompareOperator {
    ghost output = { λ op. Some (operator_text op) };

    fn fmt<W: fmt::Write>(&self, f: &mut fmt::Formatter<W>) -> fmt::Result {
        f.write_str(self.sign())
    }
}
