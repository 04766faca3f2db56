// What SQL names is strictly typed over the table, where no struct of the table's type has a name twice.

ghost use Rattle.vx_laws_statements.specs.Typing.{ConditionsAreTests, ExpressionsAreTyped, PlansAreTyped};

/// What an expression is over a table has its type.
pub fn expressions_are_typed()
    ensures { ExpressionsAreTyped }
{}

/// A condition is an expression of boolean type.
pub fn conditions_are_tests()
    ensures { ConditionsAreTests }
{}

/// What a statement names: a filter of boolean type, and rows of their type.
pub fn plans_are_typed()
    ensures { PlansAreTyped }
{}
