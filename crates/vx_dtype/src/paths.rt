// Paths of fields, and sets of them.
ghost use Rattle.std.specs.Prelude.{◌≡◌, true, not, [], ◌∷◌, ◌++◌, length, map, Decides, IfOk, OnOk, OnErr};
ghost use Rattle.std.specs.Cmp.{on_per, on_equiv, partial_equiv_from_equiv};
ghost use Rattle.std.specs.Str.{bytes_eq};
ghost use Rattle.std.proofs.Common.{ap};
ghost use Rattle.std.proofs.lemmas.Slice.Eq.{bytes_eq-Decides};
ghost use Rattle.vx_dtype.specs.Equal.{names_eq};
ghost use Rattle.vx_dtype.specs.EqualLaws.{bytes_eq_equiv, names_eq_equiv, names_decides};
ghost use Rattle.vx_dtype.specs.Feeds.{bytes_feed, names_feed};
ghost use Rattle.vx_dtype.specs.Paths.{has_path, distinct_paths, with_path};
ghost use Rattle.vx_dtype.specs.PathViews.{part_name};

use crate::memory::Mem;
use crate::names::FieldName;
use indexmap::IndexSet;
use std::alloc::{AllocError, Global};
use std::hash::{Hash, Hasher};
use std::marker::Model;

/// A part of a path.
#[derive(Debug, Drop)]
pub enum Field {
    /// The field of this name.
    Name(FieldName),
}

impl Clone for Field {
    ghost is_clone = { λ field copy. copy ≡ field };

    fn clone(&self) -> Result<Field, AllocError> {
        let Field::Name(name) = self;
        Ok(Field::Name(name.clone()?))
    }
}

impl PartialEq for Field {
    ghost eq = { λ x y. bytes_eq (part_name x) (part_name y) };

    ghost laws = { on_per part_name (partial_equiv_from_equiv bytes_eq_equiv) };

    fn eq(&self, other: &Field) -> bool
        ensures gives { result ≡ bytes_eq (part_name self.now) (part_name other.now) }
        ensures same { Decides result (part_name self.now ≡ part_name other.now) }
    {
        let (Field::Name(name), Field::Name(other)) = (self, other);
        name == other
    }
}

impl Eq for Field {
    ghost laws = { on_equiv part_name bytes_eq_equiv };
}

impl Hash for Field {
    ghost hash_input = { λ field. bytes_feed (part_name field) };

    ghost respects_eq = { λ x y e. ap bytes_feed ((bytes_eq-Decides (part_name x) (part_name y)).0 e) };

    fn hash<H: Hasher>(&self, state: &mut H) {
        let Field::Name(name) = self;
        name.hash(state);
    }
}

/// A path of fields from the root on. It is seen as the list of their names.
#[derive(Debug, Drop)]
pub struct FieldPath {
    parts: Vec<Field>,
}

impl Model for FieldPath {
    ghost use Rattle.std.specs.Prelude.{ℕ, List, map};

    ghost Value = { List (List ℕ) };

    ghost use Rattle.vx_dtype.specs.PathViews.{part_name};

    ghost view = { λ path. map part_name path.parts.items };
}

impl FieldPath {
    /// The path without parts, which leads to the root itself.
    pub fn root(alloc: Global) -> FieldPath
        ensures { result ≡ [] }
    {
        FieldPath {
            parts: Vec::new(alloc),
        }
    }

    /// The path of this one part.
    pub fn from_name(alloc: Global, name: FieldName) -> Mem<FieldPath>
        ensures { IfOk result (λ path. path ≡ name ∷ []) }
    {
        let mut parts = Vec::new(alloc);
        parts.push(Field::Name(name))?;
        Ok(FieldPath { parts })
    }

    /// The path through the fields of these names, from the root on.
    pub fn from_names(alloc: Global, names: Vec<FieldName>) -> Mem<FieldPath>
        ensures { IfOk result (λ path. path ≡ names.items) }
    {
        let mut parts = Vec::with_capacity(alloc, names.len())?;
        for name in names {
            parts.push(Field::Name(name))?;
        }
        Ok(FieldPath { parts })
    }

    /// A copy of the path with one more part at its end.
    pub fn push(&self, alloc: Global, name: FieldName) -> Mem<FieldPath>
        ensures { IfOk result (λ path. path ≡ self.now ++ name ∷ []) }
    {
        let mut parts = Vec::from_clones(alloc, self.parts.as_slice())?;
        parts.push(Field::Name(name))?;
        Ok(FieldPath { parts })
    }

    /// The parts in order, from the root on.
    pub fn parts(&self) -> &[Field]
        ensures { map part_name result.now ≡ self.now }
    {
        self.parts.as_slice()
    }
}

impl Clone for FieldPath {
    ghost is_clone = { λ path copy. copy ≡ path };

    fn clone(&self) -> Result<FieldPath, AllocError> {
        Ok(FieldPath {
            parts: self.parts.clone()?,
        })
    }
}

impl PartialEq for FieldPath {
    ghost eq = { names_eq };

    ghost laws = { partial_equiv_from_equiv names_eq_equiv };

    fn eq(&self, other: &FieldPath) -> bool
        ensures gives { result ≡ names_eq self.now other.now }
        ensures same { Decides result (self.now ≡ other.now) }
    {
        self.parts() == other.parts()
    }
}

impl Eq for FieldPath {
    ghost laws = { names_eq_equiv };
}

impl Hash for FieldPath {
    ghost hash_input = { names_feed };

    ghost respects_eq = { λ x y e. ap names_feed ((names_decides x y).0 e) };

    fn hash<H: Hasher>(&self, state: &mut H) {
        self.parts().hash(state);
    }
}

/// A set of paths, in which a path costs one look-up. It is seen as the list of them in order of insertion, in which no path stands twice.
#[derive(Debug, Drop)]
pub struct FieldPathSet {
    paths: IndexSet<FieldPath>,
}

impl Model for FieldPathSet {
    ghost use Rattle.std.specs.Prelude.{ℕ, List};

    ghost Value = { List (List (List ℕ)) };

    ghost view = { λ set. set.paths.keys };
}

impl FieldPathSet {
    /// The set without paths.
    pub fn new(alloc: Global) -> FieldPathSet
        ensures { result ≡ [] }
    {
        FieldPathSet {
            paths: IndexSet::new(alloc),
        }
    }

    /// Puts the path behind the others, and answers whether it is new: the set stays as it was where it isn't, and where there is no memory.
    pub fn insert(&mut self, path: FieldPath) -> Mem<bool>
        ensures added { IfOk result (λ added. added ≡ not (has_path path self.old)) }
        ensures ok { OnOk result (self.new ≡ with_path path self.old) }
        ensures err { OnErr result (self.new ≡ self.old) }
    {
        Ok(self.paths.insert(path)?)
    }

    /// Whether the path is in the set.
    #[tactic(auto, using(crate::proofs::PathLemmas::has_path_known))]
    pub fn contains(&self, path: &FieldPath) -> bool
        ensures { result ≡ has_path path.now self.now }
    {
        self.paths.contains(path)
    }

    /// How many paths there are.
    pub fn len(&self) -> usize
        ensures { result ≡ length self.now }
    {
        self.paths.len()
    }

    /// The paths in order of insertion.
    #[tactic(auto, using(crate::proofs::PathLemmas::distinct_paths_unique))]
    pub fn as_slice(&self) -> &[FieldPath]
        ensures paths { result.now ≡ self.now }
        ensures distinct { distinct_paths self.now ≡ true }
    {
        self.paths.as_slice()
    }
}
