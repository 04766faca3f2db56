// What an expression may be annotated by.
ghost use Rattle.std.specs.Prelude.{◌≡◌, List, Some, true, IfOk, refl};
ghost use Rattle.std.proofs.lemmas.Slice.Eq.{bytes_eq-Decides};
ghost use Rattle.vx_dtype.specs.Types.{Bytes};
ghost use Rattle.vx_expr.specs.Trees.{Tree};

use std::alloc::Global;
use std::fmt::Display;
use std::hash::Hash;
use vx_dtype::{FieldName, Mem};
use vx_expr::ExprRef;

/// What an expression may be annotated by: a value that is shown as a text. Equal annotations are the same value, and so
/// are an annotation and its clone.
pub trait Annotation: Clone + Hash + Eq + Display + Drop {
    ghost text: { Self → Bytes };

    ghost shows_text: { (a : Self) → Self.output a ≡ Some (text a) };

    ghost equal_is_same: { (a b : Self) → Self.eq a b ≡ true → a ≡ b };

    ghost clone_equals: { (a copy : Self) → Self.is_clone a copy → copy ≡ a };
}

impl Annotation for FieldName {
    ghost text = { λ name. name };

    ghost shows_text = { λ name. refl };

    ghost equal_is_same = { λ a b same. (bytes_eq-Decides a b).0 same };

    ghost clone_equals = { λ name copy same. same };
}

/// A rule that annotates expressions.
pub trait AnnotationFn {
    type Annotation: Annotation;

    ghost annotated: { Self → Tree → List Self.Annotation };

    /// The annotations that the expression's own node has, by itself. They are a function of the expression.
    fn annotate(&self, alloc: Global, expr: &ExprRef) -> Mem<Vec<Self::Annotation>>
        ensures { IfOk result (λ found. found.items ≡ annotated self.now expr.now) };
}
