// Structs of named values.
ghost use Rattle.std.specs.Prelude.{◌≡◌, ◌<◌, length, map, option_map, Some, IfOk, Decides, fold, position};
ghost use Rattle.std.specs.Option.{option_and_then};
ghost use Rattle.std.specs.Str.{bytes_eq};
ghost use Rattle.std.specs.List.{slice_get};
ghost use Rattle.vx_expr.specs.Trees.{children_of};
ghost use Rattle.vx_expr.specs.Packed.{Packed, pack_tree};
ghost use Rattle.vx_expr.specs.Children.{with_children_of, packed_of, packed_field};
ghost use Rattle.vx_expr.specs.Answers.{Answers, AnswersBy};
ghost use Rattle.vx_expr.specs.declared.errors.ExprError.TheVariants.{WrongChildren, WrongLength, UnknownField};
ghost use Rattle.std.specs.Cmp.{on_per, on_equiv, partial_equiv_from_equiv};
ghost use Rattle.std.proofs.Common.{ap};
ghost use Rattle.vx_expr.specs.Equal.{tree_eq};
ghost use Rattle.vx_expr.specs.EqualLaws.{tree_eq_equiv, tree_decides};
ghost use Rattle.vx_expr.specs.Feeds.{own_feed, tree_feed};

use crate::children::child_in;
use crate::equality::{feed_list, same_pack};
use crate::errors::ExprError;
use crate::expressions::{Expr, ExprRef};
use std::alloc::{AllocError, Global};
use std::hash::{Hash, Hasher};
use std::marker::Model;
use vx_dtype::{FieldName, FieldNames, Mem, Nullability};

/// A struct of named values, as many as names. It is seen as its names beside its values.
#[cycle(exprs)]
#[derive(Debug, Drop)]
pub struct PackExpr {
    names: FieldNames,
    values: Vec<ExprRef>,
    nullability: Nullability,
}

impl Model for PackExpr {
    ghost use Rattle.std.specs.Prelude.{◌≡◌, length};
    ghost use Rattle.std.proofs.Common.{arith};
    ghost use Rattle.vx_expr.specs.Heights.{most_le-highest, packed_size};
    ghost use Rattle.vx_expr.specs.Packed.{Packed};
    ghost use Rattle.vx_expr.specs.Codes.{coded_packed};

    ghost Value = { Packed };

    ghost coded = { coded_packed };

    ghost view = { λ p. record { names = p.names; values = p.values.items; nullability = p.nullability } };

    ghost invariant = { λ p. length p.names ≡ length p.values.items };

    ghost size = { packed_size };

    ghost size_decreases = { λ p h. omega (arith, most_le-highest p.values.items) };
}

impl PackExpr {
    /// The struct of these values under these names, of a type with this nullability.
    ///
    /// Refuses with WrongLength exactly where there are more or fewer values than names.
    pub fn try_new(
        names: FieldNames,
        values: Vec<ExprRef>,
        nullability: Nullability,
    ) -> Result<PackExpr, ExprError>
        ensures { Answers WrongLength (packed_of names values.items nullability) result }
    {
        if names.len() != values.len() {
            return Err(ExprError::WrongLength);
        }
        Ok(PackExpr {
            names,
            values,
            nullability,
        })
    }

    /// The same as an expression.
    pub fn try_new_expr(
        alloc: Global,
        names: FieldNames,
        values: Vec<ExprRef>,
        nullability: Nullability,
    ) -> Result<ExprRef, ExprError>
        ensures { Answers WrongLength (option_map pack_tree (packed_of names values.items nullability)) result }
    {
        let made = PackExpr::try_new(names, values, nullability)?;
        Ok(ExprRef::new(alloc, Expr::Pack(made))?)
    }

    /// The names of the fields, as many as children.
    pub fn names(&self) -> &FieldNames
        ensures names { result.now ≡ self.now.names }
        ensures as_many { length self.now.names ≡ length self.now.values }
    {
        &self.names
    }

    /// The nullability of the struct's type.
    pub fn nullability(&self) -> Nullability
        ensures { result ≡ self.now.nullability }
    {
        self.nullability
    }

    /// The values, as many as names.
    pub(crate) fn values(&self) -> &[ExprRef]
        ensures { result.now ≡ self.now.values }
    {
        self.values.as_slice()
    }

    /// The value of the first field of this name.
    ///
    /// Refuses with UnknownField exactly where no field has the name.
    pub fn field(&self, name: &FieldName) -> Result<ExprRef, ExprError>
        ensures { Answers UnknownField (packed_field name.now self.now) result }
    {
        self.value_named(name)
    }

    /// The same, by the place where the name stands first.
    fn value_named(&self, name: &FieldName) -> Result<ExprRef, ExprError>
        ensures { Answers UnknownField (option_and_then (λ i. slice_get self.now.values i) (position (bytes_eq name.now) self.now.names)) result }
    {
        let Some(i) = self.names.position(name) else {
            return Err(ExprError::UnknownField);
        };
        Ok(self.values[i].clone()?)
    }

    /// The children in order.
    #[tactic(auto, using(crate::proofs::TreeLemmas::listed_trees_of))]
    pub fn child_list(&self, alloc: Global) -> Mem<Vec<&ExprRef>>
        ensures { IfOk result (λ list. map (λ e. e.now) list.items ≡ children_of (pack_tree self.now)) }
    {
        Ok(self.values.iter().collect(alloc)?)
    }

    /// The child at this place, counted from 0.
    #[tactic(auto, using(crate::proofs::TreeLemmas::listed_trees_of))]
    pub(crate) fn child_at(&self, i: usize) -> &ExprRef
        requires { i < length (children_of (pack_tree self.now)) }
        ensures { slice_get (children_of (pack_tree self.now)) i ≡ Some result.now }
    {
        child_in(self.values(), i)
    }

    /// The node with these children in place of its own.
    ///
    /// Refuses with WrongChildren exactly where there are more or fewer children than the node has.
    #[tactic(auto, using(crate::proofs::TreeLemmas::listed_trees_of))]
    pub fn with_children(&self, children: Vec<ExprRef>) -> Result<PackExpr, ExprError>
        ensures { AnswersBy pack_tree WrongChildren (with_children_of (pack_tree self.now) children.items) result }
    {
        if children.len() != self.values.len() {
            return Err(ExprError::WrongChildren);
        }
        Ok(PackExpr {
            names: self.names.clone()?,
            values: children,
            nullability: self.nullability,
        })
    }

    /// Feeds a hash the number of the kind and the parts that are no expressions.
    pub(crate) fn feed_own<H: Hasher>(&self, state: &mut H)
        ensures { state.new ≡ fold H.write state.old (own_feed (pack_tree self.now)) }
    {
        state.write_u8(10);
        self.names.hash(state);
        state.write_u8(self.nullability.number());
    }
}

impl Clone for PackExpr {
    ghost is_clone = { λ node copy. copy ≡ node };

    fn clone(&self) -> Result<PackExpr, AllocError> {
        Ok(PackExpr {
            names: self.names.clone()?,
            values: self.values.clone()?,
            nullability: self.nullability,
        })
    }
}

impl PartialEq for PackExpr {
    ghost eq = { λ x y. tree_eq (pack_tree x) (pack_tree y) };

    ghost laws = { on_per pack_tree (partial_equiv_from_equiv tree_eq_equiv) };

    #[tactic(auto, using(crate::specs::EqualLaws::tree_decides))]
    fn eq(&self, other: &PackExpr) -> bool
        ensures gives { result ≡ tree_eq (pack_tree self.now) (pack_tree other.now) }
        ensures same { Decides result (pack_tree self.now ≡ pack_tree other.now) }
    {
        same_pack(self, other)
    }
}

impl Eq for PackExpr {
    ghost laws = { on_equiv pack_tree tree_eq_equiv };
}

impl Hash for PackExpr {
    ghost hash_input = { λ node. tree_feed (pack_tree node) };

    ghost respects_eq = { λ x y e. ap tree_feed ((tree_decides (pack_tree x) (pack_tree y)).0 e) };

    #[tactic(auto, unfolding(crate::specs::Feeds::tree_feed))]
    fn hash<H: Hasher>(&self, state: &mut H) {
        self.feed_own(state);
        feed_list(self.values(), state);
    }
}
