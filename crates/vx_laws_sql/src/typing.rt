// What the forms of SQL give is strictly typed over the scope, where their operands are.

ghost use Rattle.vx_laws_sql.specs.Typing.{CastsAreTyped, ComparisonsAreTests, ConjunctionsAreTests, DifferencesAreTyped, DisjunctionsAreTests};
ghost use Rattle.vx_laws_sql.specs.Typing.{MembershipsAreTests, NegationsAreTests, NotNullTestsAreTests, NullTestsAreTests, PatternsAreTests, RangesAreTests, SumsAreTyped};

/// A comparison, a range and a pattern are tests: expressions of boolean type.
pub fn comparisons_are_tests()
    ensures comparisons { ComparisonsAreTests }
    ensures ranges { RangesAreTests }
    ensures patterns { PatternsAreTests }
{}

/// `AND`, `OR` and `NOT` are tests.
pub fn connectives_are_tests()
    ensures and { ConjunctionsAreTests }
    ensures or { DisjunctionsAreTests }
    ensures not { NegationsAreTests }
{}

/// `IS NULL` and `IS NOT NULL` are tests.
pub fn null_tests_are_tests()
    ensures null { NullTestsAreTests }
    ensures not_null { NotNullTestsAreTests }
{}

/// `IN` is a test, with NULL among the constants too.
pub fn memberships_are_tests()
    ensures { MembershipsAreTests }
{}

/// A cast has the type that it names, a sum and a difference the type of their operands.
pub fn casts_and_sums_are_typed()
    ensures casts { CastsAreTyped }
    ensures sums { SumsAreTyped }
    ensures differences { DifferencesAreTyped }
{}
