// What an expression is evaluated over.
ghost use Rattle.std.specs.Prelude.{◌≡◌, length, [], IfOk};
ghost use Rattle.vx_eval.specs.Scopes.{scope_rows, scope_slots, empty_rows};

use std::alloc::{AllocError, Global};
use vx_column::{ColumnError, ColumnRef};
use vx_dtype::{FieldNames, Mem, NoMemory, Scalar};

/// The rows that an expression is evaluated at, as a column, and the slots of its comparisons with slots.
#[derive(Debug, Drop)]
pub struct Scope {
    root: ColumnRef,
    slots: Option<Vec<Option<Scalar>>>,
}

impl Scope {
    /// The rows of a column, without slots.
    pub fn new(root: ColumnRef) -> Scope
        ensures rows { scope_rows result ≡ root }
        ensures slots { scope_slots result ≡ [] }
    {
        Scope { root, slots: None }
    }

    /// This many rows without fields, and without slots.
    pub fn empty(alloc: Global, len: usize) -> Mem<Scope>
        ensures rows { IfOk result (λ made. scope_rows made ≡ empty_rows len) }
        ensures slots { IfOk result (λ made. scope_slots made ≡ []) }
    {
        let names = FieldNames::new(alloc, Vec::new(alloc))?;
        match ColumnRef::struct_(alloc, names, Vec::new(alloc), len, None) {
            Ok(root) => Ok(Scope::new(root)),
            Err(ColumnError::NoMemory) => Err(NoMemory),
            Err(_) => unreachable!(),
        }
    }

    /// The same rows, with these slots in place of those from before.
    pub fn with_slots(self, slots: Vec<Option<Scalar>>) -> Scope
        ensures rows { scope_rows result ≡ scope_rows self }
        ensures slots { scope_slots result ≡ slots.items }
    {
        Scope {
            root: self.root,
            slots: Some(slots),
        }
    }

    /// The rows, as a column.
    pub fn root(&self) -> &ColumnRef
        ensures { result.now ≡ scope_rows self.now }
    {
        &self.root
    }

    /// How many rows there are.
    pub fn len(&self) -> usize
        ensures { result ≡ length (scope_rows self.now).rows }
    {
        self.root.len()
    }

    /// The slots, in order.
    pub fn slots(&self) -> &[Option<Scalar>]
        ensures { result.now ≡ scope_slots self.now }
    {
        match &self.slots {
            Some(slots) => slots.as_slice(),
            None => &[],
        }
    }
}

impl Clone for Scope {
    ghost is_clone = { λ scope copy. (scope_rows copy ≡ scope_rows scope) × (scope_slots copy ≡ scope_slots scope) };

    fn clone(&self) -> Result<Scope, AllocError> {
        let root = self.root.clone()?;
        match &self.slots {
            Some(slots) => Ok(Scope {
                root,
                slots: Some(copied(slots)?),
            }),
            None => Ok(Scope { root, slots: None }),
        }
    }
}

/// The slots again.
fn copied(slots: &Vec<Option<Scalar>>) -> Result<Vec<Option<Scalar>>, AllocError>
    ensures { IfOk result (λ copy. copy.items ≡ slots.now.items) }
{
    slots.clone()
}

impl From<ColumnRef> for Scope {
    ghost from_gives = { λ column made. (scope_rows made ≡ column) × (scope_slots made ≡ []) };

    fn from(root: ColumnRef) -> Scope {
        Scope::new(root)
    }
}
