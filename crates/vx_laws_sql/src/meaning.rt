// What the forms of SQL mean at a row of the scope's type: three-valued logic, and numbers by what they are.

ghost use Rattle.vx_laws_sql.specs.Meaning.{CastsMean, ComparisonsMean, ConjunctionsMean, DifferencesMean, DisjunctionsMean, MembershipsMean};
ghost use Rattle.vx_laws_sql.specs.Meaning.{NegatedMembershipsMean, NegatedPatternsMean, NegatedRangesMean, NegationsMean, NotNullTestsMean, NullTestsMean};
ghost use Rattle.vx_laws_sql.specs.Meaning.{PatternsMean, RangesMean, SumsMean};

/// A comparison of two numbers is that of the numbers, whatever their integer types; of two texts that of their bytes; null beside NULL.
/// A number that takes its type from a column means that number.
pub fn comparisons_mean()
    ensures { ComparisonsMean }
{}

/// `AND`, `OR` and `NOT` are Kleene's.
pub fn connectives_mean()
    ensures and { ConjunctionsMean }
    ensures or { DisjunctionsMean }
    ensures not { NegationsMean }
{}

/// `IS NULL` is true of null and false of any other value; `IS NOT NULL` the other way round. Neither is null.
pub fn null_tests_mean()
    ensures null { NullTestsMean }
    ensures not_null { NotNullTestsMean }
{}

/// `LIKE` minds case; `NOT LIKE` is true where it is false, and null where it is null.
pub fn patterns_mean()
    ensures like { PatternsMean }
    ensures not_like { NegatedPatternsMean }
{}

/// `e BETWEEN a AND b` is `e >= a AND e <= b`, and `e NOT BETWEEN a AND b` is `e < a OR e > b`.
pub fn ranges_mean()
    ensures between { RangesMean }
    ensures not_between { NegatedRangesMean }
{}

/// `e IN (a, b)` is `e = a OR e = b`, and `e NOT IN (a, b)` is `e <> a AND e <> b`, with NULL among the constants too.
pub fn memberships_mean()
    ensures listed { MembershipsMean }
    ensures not_listed { NegatedMembershipsMean }
{}

/// A sum is that of the numbers, and a difference theirs, as a number of its type, or a fault where the number leaves the type.
pub fn sums_mean()
    ensures sums { SumsMean }
    ensures differences { DifferencesMean }
{}

/// A cast is the value in that type; null stays null.
pub fn casts_mean()
    ensures { CastsMean }
{}
