// Choices of a struct's fields.
ghost use Rattle.std.specs.Prelude.{◌≡◌, Decides, not, filter, IsTrue, IfOk, IfErr};
ghost use Rattle.std.specs.Cmp.{partial_equiv_from_equiv};
ghost use Rattle.std.proofs.Common.{ap};
ghost use Rattle.vx_dtype.specs.TypeRules.{distinct_names, has_name};
ghost use Rattle.vx_dtype.specs.StructTypes.{all_named};
ghost use Rattle.vx_expr.specs.Selections.{is_included, listed_names, names_where_known};
ghost use Rattle.vx_expr.specs.Equal.{selection_eq};
ghost use Rattle.vx_expr.specs.EqualLaws.{selection_eq_equiv, selection_decides};
ghost use Rattle.vx_expr.specs.Feeds.{selection_feed};
ghost use Rattle.vx_expr.specs.Answers.{Answers};
ghost use Rattle.vx_expr.specs.declared.errors.ExprError.TheVariants.{UnknownField, NoMemory};
ghost use Rattle.vx_expr.specs.declared.selections.FieldSelection.{FieldSelection};

use crate::errors::ExprError;
use std::alloc::{AllocError, Global};
use std::hash::{Hash, Hasher};
use vx_dtype::{FieldName, FieldNames};

/// A choice of fields: these in their listed order, or all but these in the struct's order.
#[derive(Debug, Drop)]
pub enum FieldSelection {
    Include(FieldNames),
    Exclude(FieldNames),
}

/// Whether the names hold each of the asked ones.
fn has_all(names: &FieldNames, asked: &FieldNames) -> bool
    ensures { result ≡ all_named asked.now names.now }
{
    asked.as_slice().iter().all(|name| names.contains(name))
}

impl FieldSelection {
    /// These fields, in their listed order. No name may stand twice.
    pub fn include(columns: FieldNames) -> FieldSelection
        requires { IsTrue (distinct_names columns) }
        ensures { result ≡ FieldSelection.Include columns }
    {
        FieldSelection::Include(columns)
    }

    /// All fields but these. No name may stand twice.
    pub fn exclude(columns: FieldNames) -> FieldSelection
        requires { IsTrue (distinct_names columns) }
        ensures { result ≡ FieldSelection.Exclude columns }
    {
        FieldSelection::Exclude(columns)
    }

    /// Whether the fields that are taken are listed.
    pub fn is_include(&self) -> bool
        ensures { result ≡ is_included self.now }
    {
        matches!(self, FieldSelection::Include(_))
    }

    /// Whether the fields that are left out are listed.
    pub fn is_exclude(&self) -> bool
        ensures { result ≡ not (is_included self.now) }
    {
        matches!(self, FieldSelection::Exclude(_))
    }

    /// The names that are listed.
    pub fn field_names(&self) -> &FieldNames
        ensures { result.now ≡ listed_names self.now }
    {
        match self {
            FieldSelection::Include(names) => names,
            FieldSelection::Exclude(names) => names,
        }
    }

    /// The names that are taken of these: the included ones in their order, or these in their own without the excluded ones.
    ///
    /// Refuses with UnknownField exactly where a listed name, also an excluded one, isn't among these.
    pub fn as_include_names(
        &self,
        alloc: Global,
        names: &FieldNames,
    ) -> Result<FieldNames, ExprError>
        ensures { Answers UnknownField (names_where_known self.now names.now) result }
    {
        if !has_all(names, self.field_names()) {
            return Err(ExprError::UnknownField);
        }
        match self {
            FieldSelection::Include(included) => Ok(included.clone()?),
            FieldSelection::Exclude(excluded) => names_without(alloc, names, excluded),
        }
    }
}

/// The names in their order without the excluded ones.
fn names_without(
    alloc: Global,
    names: &FieldNames,
    excluded: &FieldNames,
) -> Result<FieldNames, ExprError>
    ensures left { IfOk result (λ left. left ≡ filter (λ name. not (has_name name excluded.now)) names.now) }
    ensures refused { IfErr result (λ e. e ≡ NoMemory) }
{
    let mut left = Vec::new(alloc);
    for name in names.as_slice() {
        if !excluded.contains(name) {
            left.push(name.clone()?)?;
        }
    }
    Ok(FieldNames::new(alloc, left)?)
}

impl Clone for FieldSelection {
    ghost is_clone = { λ selection copy. copy ≡ selection };

    fn clone(&self) -> Result<FieldSelection, AllocError> {
        Ok(match self {
            FieldSelection::Include(names) => FieldSelection::Include(names.clone()?),
            FieldSelection::Exclude(names) => FieldSelection::Exclude(names.clone()?),
        })
    }
}

impl PartialEq for FieldSelection {
    ghost eq = { selection_eq };

    ghost laws = { partial_equiv_from_equiv selection_eq_equiv };

    #[tactic(auto, using(crate::specs::EqualLaws::selection_decides))]
    fn eq(&self, other: &FieldSelection) -> bool
        ensures gives { result ≡ selection_eq self.now other.now }
        ensures same { Decides result (self.now ≡ other.now) }
    {
        same_selection(self, other)
    }
}

/// Whether two choices are the same, the order of their names included.
fn same_selection(left: &FieldSelection, right: &FieldSelection) -> bool
    ensures { result ≡ selection_eq left.now right.now }
{
    match (left, right) {
        (FieldSelection::Include(names), FieldSelection::Include(others)) => names == others,
        (FieldSelection::Exclude(names), FieldSelection::Exclude(others)) => names == others,
        _ => false,
    }
}

impl Eq for FieldSelection {
    ghost laws = { selection_eq_equiv };
}

impl Hash for FieldSelection {
    ghost hash_input = { selection_feed };

    ghost respects_eq = { λ x y e. ap selection_feed ((selection_decides x y).0 e) };

    fn hash<H: Hasher>(&self, state: &mut H) {
        match self {
            FieldSelection::Include(names) => {
                state.write_u8(0);
                names.hash(state);
            }
            FieldSelection::Exclude(names) => {
                state.write_u8(1);
                names.hash(state);
            }
        }
    }
}
