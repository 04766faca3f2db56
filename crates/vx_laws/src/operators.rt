// The laws of the operators.

ghost use Rattle.std.specs.Prelude.{◌≡◌};
ghost use Rattle.vx_dtype.specs.Logic.{and3, or3, not3};
ghost use Rattle.vx_dtype.specs.Values.{Val};
ghost use Rattle.vx_laws.specs.Operators.{ConjunctsMeanTheWhole, InverseNegates, RangeMeansItsComparisons, SwapKeepsMeaning, TypedSwapKeepsMeaning};

/// `(a and b) and c` is `a and (b and c)`, for all values: null, a fault and what is no boolean included.
pub fn and_is_associative()
    ensures { (a b c : Val) → and3 (and3 a b) c ≡ and3 a (and3 b c) }
{}

/// `(a or b) or c` is `a or (b or c)`, for all values.
pub fn or_is_associative()
    ensures { (a b c : Val) → or3 (or3 a b) c ≡ or3 a (or3 b c) }
{}

/// `a and b` is `b and a`, for all values.
pub fn and_is_commutative()
    ensures { (a b : Val) → and3 a b ≡ and3 b a }
{}

/// `a or b` is `b or a`, for all values.
pub fn or_is_commutative()
    ensures { (a b : Val) → or3 a b ≡ or3 b a }
{}

/// The negation of `a and b` is the `or` of their negations, and of `a or b` the `and`, for all values.
pub fn negations_exchange_and_with_or()
    ensures and { (a b : Val) → not3 (and3 a b) ≡ or3 (not3 a) (not3 b) }
    ensures or { (a b : Val) → not3 (or3 a b) ≡ and3 (not3 a) (not3 b) }
{}

/// `a op b` is `b op.swap() a` for every operator but a difference; for a sum, of values that are not numbers of two integer types.
pub fn swap_keeps_meaning()
    ensures { SwapKeepsMeaning }
{}

/// A strictly typed `l op r` means `r op.swap() l` for every operator but a difference,
/// at a row that fits the scope's type but for faults, with any slots.
pub fn typed_swap_keeps_meaning()
    ensures { TypedSwapKeepsMeaning }
{}

/// The negation of `a op b` is `a op.inverse() b` for each operator that has an inverse, null and fault included.
pub fn inverse_negates()
    ensures { InverseNegates }
{}

/// A range means what its two comparisons under `and` mean, at every row.
pub fn range_means_its_comparisons()
    ensures { RangeMeansItsComparisons }
{}

/// The conjuncts of an expression, joined by `and`, mean what the expression means, at every row.
pub fn conjuncts_mean_the_whole()
    ensures { ConjunctsMeanTheWhole }
{}
