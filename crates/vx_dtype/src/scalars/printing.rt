// How scalars print.
ghost use Rattle.std.specs.Prelude.{Some};
ghost use Rattle.vx_dtype.specs.ScalarTexts.{scalar_text};

use super::Scalar;
use crate::types::printing::write_value;
use std::fmt;

/// As `null`, `true`, `42i32`, `"text"`, `[1i32, 2i32]`, `{dog: 32u32, cat: "rufus"}`: an integer has its type's name behind it, a text
/// is quoted, the names of fields stand as they are.
impl fmt::Display for Scalar {
    ghost output = { λ scalar. Some (scalar_text scalar.value scalar.ty) };

    fn fmt<W: fmt::Write>(&self, f: &mut fmt::Formatter<W>) -> fmt::Result {
        write_value(&self.value, &self.dtype, f)
    }
}
