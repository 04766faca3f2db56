// The paths of available statistics, and which of them alone have their joined names: so that a question costs one look-up, however many
// statistics there are.
ghost use Rattle.std.specs.Prelude.{◌≡◌, map, IfOk};
ghost use Rattle.vx_passes.specs.Catalogs.{is_alone_among};
ghost use Rattle.vx_semantics.specs.Tables.{joined_path};
ghost use Rattle.vx_prune.specs.Standing.{NotesStanding};

use crate::name_counts::{standing, stands_once};
use std::alloc::Global;
use std::collections::BTreeMap;
use std::marker::Model;
use vx_dtype::{FieldName, FieldPath, FieldPathSet, Mem};
use vx_zones::joined_name;

/// The paths of available statistics. They are seen as their list.
#[derive(Debug, Drop)]
pub(crate) struct AvailablePaths<'a> {
    paths: &'a FieldPathSet,
    // Of each joined name whether it stands once, noted where the first path is asked that is in the set.
    standing: Option<BTreeMap<FieldName, bool>>,
}

impl<'a> Model for AvailablePaths<'a> {
    ghost use Rattle.std.specs.Prelude.{ℕ, List, map, IfSome};
    ghost use Rattle.vx_semantics.specs.Tables.{joined_path};
    ghost use Rattle.vx_prune.specs.Standing.{NotesStanding};

    ghost Value = { List (List (List ℕ)) };

    ghost view = { λ available. available.paths.now };

    ghost invariant = { λ available. IfSome available.standing (NotesStanding (map joined_path available.paths.now)) };
}

impl<'a> AvailablePaths<'a> {
    /// The paths of this set.
    pub(crate) fn new(paths: &'a FieldPathSet) -> AvailablePaths<'a>
        ensures { result ≡ paths.now }
    {
        AvailablePaths {
            paths,
            standing: None,
        }
    }

    /// Whether a path is one of these, and no other of them has its joined name. No call changes the paths.
    pub(crate) fn is_alone(&mut self, alloc: Global, path: &FieldPath) -> Mem<bool>
        ensures same { self.new ≡ self.old }
        ensures alone { IfOk result (λ alone. alone ≡ is_alone_among self.old path.now) }
    {
        if !self.paths.contains(path) {
            return Ok(false);
        }
        let name = joined_name(alloc, path)?;
        if let Some(standing) = &self.standing {
            return Ok(stands_once(standing, &name));
        }
        let standing = standing_of(alloc, self.paths.as_slice())?;
        let alone = stands_once(&standing, &name);
        self.standing = Some(standing);
        Ok(alone)
    }
}

/// Of each joined name of these paths, whether it stands once among them.
fn standing_of(alloc: Global, paths: &[FieldPath]) -> Mem<BTreeMap<FieldName, bool>>
    ensures { IfOk result (NotesStanding (map joined_path paths.now)) }
{
    standing(alloc, joined_names(alloc, paths)?.as_slice())
}

/// The joined names of these paths, in order.
fn joined_names(alloc: Global, paths: &[FieldPath]) -> Mem<Vec<FieldName>>
    ensures { IfOk result (λ names. names.items ≡ map joined_path paths.now) }
{
    let mut names = Vec::with_capacity(alloc, paths.len())?;
    for path in paths {
        names.push(joined_name(alloc, path)?)?;
    }
    Ok(names)
}
