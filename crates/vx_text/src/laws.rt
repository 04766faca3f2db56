// Laws of queries as texts.
ghost use Rattle.std.specs.Prelude.{◌≡◌, Ok};
ghost use Rattle.vx_dtype.specs.Types.{Bytes};
ghost use Rattle.vx_expr.specs.Trees.{Tree};
ghost use Rattle.vx_text.specs.Reading.{reading_of};

/// A text names at most one expression.
pub fn one_expression()
    ensures { (text : Bytes) (a b : Tree) → reading_of text ≡ Ok a → reading_of text ≡ Ok b → a ≡ b }
{}
