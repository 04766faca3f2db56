// The operators of a binary expression.
ghost use Rattle.std.specs.Prelude.{◌≡◌, Some, pos};
ghost use Rattle.std.specs.Ordering.{nat_cmp};
ghost use Rattle.vx_expr.specs.Operators.{operator_number, operator_numbered, operator_of_integer, operator_of, comparison_of, inverse_of, logical_inverse_of, swapped};
ghost use Rattle.vx_expr.specs.OperatorTexts.{operator_text};
ghost use Rattle.vx_expr.specs.Answers.{Exactly};
ghost use Rattle.vx_expr.specs.declared.errors.ExprError.TheVariants.{UnknownOperator, NotComparison};

use crate::errors::ExprError;
use std::fmt;
use vx_dtype::CompareOperator;

/// An operator of two operands.
///
/// And and Or obey the three-valued logic after Kleene; the others give null where an operand is null.
/// They are ordered by their numbers.
#[derive(Clone, Copy, PartialEq, Eq, PartialOrd, Hash, Debug)]
pub enum Operator {
    Eq,
    NotEq,
    Gt,
    Gte,
    Lt,
    Lte,
    And,
    Or,
    Add,
    Sub,
}

impl Operator {
    /// The comparison that is true where this one is false, and None for the operators that are no comparison.
    pub fn inverse(self) -> Option<Operator>
        ensures { result ≡ inverse_of self }
    {
        match self {
            Operator::Eq => Some(Operator::NotEq),
            Operator::NotEq => Some(Operator::Eq),
            Operator::Gt => Some(Operator::Lte),
            Operator::Gte => Some(Operator::Lt),
            Operator::Lt => Some(Operator::Gte),
            Operator::Lte => Some(Operator::Gt),
            Operator::And | Operator::Or | Operator::Add | Operator::Sub => None,
        }
    }

    /// And and Or exchanged, and None for the rest.
    pub fn logical_inverse(self) -> Option<Operator>
        ensures { result ≡ logical_inverse_of self }
    {
        match self {
            Operator::And => Some(Operator::Or),
            Operator::Or => Some(Operator::And),
            _ => None,
        }
    }

    /// The operator for exchanged operands: greater and less exchanged, and all others, Sub too, as they are.
    pub fn swap(self) -> Operator
        ensures { result ≡ swapped self }
    {
        match self {
            Operator::Gt => Operator::Lt,
            Operator::Gte => Operator::Lte,
            Operator::Lt => Operator::Gt,
            Operator::Lte => Operator::Gte,
            other => other,
        }
    }

    /// The comparison that the operator is, and None for And, Or, Add and Sub.
    pub fn maybe_cmp_operator(self) -> Option<CompareOperator>
        ensures { result ≡ comparison_of self }
    {
        match self {
            Operator::Eq => Some(CompareOperator::Eq),
            Operator::NotEq => Some(CompareOperator::NotEq),
            Operator::Gt => Some(CompareOperator::Gt),
            Operator::Gte => Some(CompareOperator::Gte),
            Operator::Lt => Some(CompareOperator::Lt),
            Operator::Lte => Some(CompareOperator::Lte),
            Operator::And | Operator::Or | Operator::Add | Operator::Sub => None,
        }
    }

    /// The number of the operator, from 0 to 9: the same for its order, for hashes and for the wire form.
    pub fn number(self) -> u8
        ensures { result ≡ operator_number self }
    {
        match self {
            Operator::Eq => 0,
            Operator::NotEq => 1,
            Operator::Gt => 2,
            Operator::Gte => 3,
            Operator::Lt => 4,
            Operator::Lte => 5,
            Operator::And => 6,
            Operator::Or => 7,
            Operator::Add => 8,
            Operator::Sub => 9,
        }
    }

    /// The operator of a number, and None from 10 on.
    pub fn from_number(number: u8) -> Option<Operator>
        ensures { result ≡ operator_numbered number }
    {
        match number {
            0 => Some(Operator::Eq),
            1 => Some(Operator::NotEq),
            2 => Some(Operator::Gt),
            3 => Some(Operator::Gte),
            4 => Some(Operator::Lt),
            5 => Some(Operator::Lte),
            6 => Some(Operator::And),
            7 => Some(Operator::Or),
            8 => Some(Operator::Add),
            9 => Some(Operator::Sub),
            _ => None,
        }
    }
}

/// Law: operators are ordered by their numbers.
pub fn operators_order_by_number(left: Operator, right: Operator)
    ensures { ⟦<Operator as PartialOrd>⟧.partial_cmp left right ≡ Some (nat_cmp (operator_number left) (operator_number right)) }
{}

impl From<Operator> for i32 {
    ghost from_gives = { λ operator number. number ≡ pos (operator_number operator) };

    fn from(operator: Operator) -> i32 {
        i32::from(operator.number())
    }
}

impl TryFrom<i32> for Operator {
    type Error = ExprError;

    ghost try_from_gives = { λ number answer. Exactly UnknownOperator (operator_of_integer number) answer };

    fn try_from(number: i32) -> Result<Operator, ExprError> {
        match u8::try_from(number) {
            Ok(number) => Operator::from_number(number).ok_or(ExprError::UnknownOperator),
            Err(_) => Err(ExprError::UnknownOperator),
        }
    }
}

impl TryFrom<Operator> for CompareOperator {
    type Error = ExprError;

    ghost try_from_gives = { λ operator answer. Exactly NotComparison (comparison_of operator) answer };

    fn try_from(operator: Operator) -> Result<CompareOperator, ExprError> {
        operator
            .maybe_cmp_operator()
            .ok_or(ExprError::NotComparison)
    }
}

impl From<CompareOperator> for Operator {
    ghost from_gives = { λ comparison operator. operator ≡ operator_of comparison };

    fn from(comparison: CompareOperator) -> Operator {
        match comparison {
            CompareOperator::Eq => Operator::Eq,
            CompareOperator::NotEq => Operator::NotEq,
            CompareOperator::Gt => Operator::Gt,
            CompareOperator::Gte => Operator::Gte,
            CompareOperator::Lt => Operator::Lt,
            CompareOperator::Lte => Operator::Lte,
        }
    }
}

impl fmt::Display for Operator {
    ghost output = { λ operator. Some (operator_text operator) };

    fn fmt<W: fmt::Write>(&self, f: &mut fmt::Formatter<W>) -> fmt::Result {
        match self {
            Operator::And => f.write_str("and"),
            Operator::Or => f.write_str("or"),
            Operator::Add => f.write_str("+"),
            Operator::Sub => f.write_str("-"),
            comparison => match comparison.maybe_cmp_operator() {
                Some(comparison) => write!(f, "{comparison}"),
                None => unreachable!(),
            },
        }
    }
}
