// A scope whose names are looked at once, for all the places where an expression reads the row.
ghost use Rattle.std.specs.Prelude.{◌≡◌};
ghost use Rattle.vx_dtype.specs.TypeViews.{type_view};
ghost use Rattle.vx_semantics.specs.Typing.{distinct_type};
ghost use Rattle.vx_typing.specs.TypingAnswers.{AnswersType};

use crate::errors::TypeError;
use std::marker::Model;
use vx_dtype::DType;

/// A scope's type, and whether it has no name twice. It is seen as the type.
#[derive(Drop)]
pub(crate) struct CheckedScope<'a> {
    dtype: &'a DType,
    is_distinct: bool,
}

impl<'a> Model for CheckedScope<'a> {
    ghost use Rattle.std.specs.Prelude.{◌≡◌};
    ghost use Rattle.vx_dtype.specs.Types.{Ty};
    ghost use Rattle.vx_dtype.specs.TypeRules.{no_name_twice};
    ghost use Rattle.vx_dtype.specs.TypeViews.{type_view};
    ghost use Rattle.vx_dtype.specs.Codes.{coded_ty};

    ghost Value = { Ty };

    ghost coded = { coded_ty };

    ghost view = { λ s. type_view s.dtype.now };

    ghost invariant = { λ s. s.is_distinct ≡ no_name_twice (type_view s.dtype.now) };
}

impl<'a> CheckedScope<'a> {
    /// The scope of this type.
    pub(crate) fn new(dtype: &'a DType) -> CheckedScope<'a>
        ensures { result ≡ type_view dtype.now }
    {
        let is_distinct = dtype.has_distinct_names();
        CheckedScope { dtype, is_distinct }
    }

    /// The type of the row, which has no name twice.
    pub(crate) fn row_type(&self) -> Result<DType, TypeError>
        ensures { AnswersType (distinct_type self.now) result }
    {
        if !self.is_distinct {
            return Err(TypeError::DuplicateField);
        }
        Ok(self.dtype.clone()?)
    }
}
