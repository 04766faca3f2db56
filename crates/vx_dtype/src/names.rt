// Texts, names of fields, and lists of names. Clones share their bytes.
ghost use Rattle.std.specs.Prelude.{◌≡◌, [], ◌++◌, Some, length, map, position, IfOk, Decides, option_copied};
ghost use Rattle.std.specs.List.{slice_get};
ghost use Rattle.std.specs.Str.{bytes_eq};
ghost use Rattle.std.specs.Ordering.{nat_cmp};
ghost use Rattle.std.specs.Cmp.{partial_equiv_from_equiv};
ghost use Rattle.std.specs.Cmp.Lexicographic.{slice_cmp, nat_list_cmp_total, texts_ties, texts_po};
ghost use Rattle.std.proofs.Common.{ap, refl};
ghost use Rattle.std.proofs.lemmas.Slice.Eq.{bytes_eq-Decides};
ghost use Rattle.vx_dtype.specs.Equal.{names_eq};
ghost use Rattle.vx_dtype.specs.EqualLaws.{bytes_eq_equiv, names_eq_equiv, names_decides};
ghost use Rattle.vx_dtype.specs.Feeds.{bytes_feed, names_feed};
ghost use Rattle.vx_dtype.specs.TypeRules.{distinct_names, has_name};
ghost use Rattle.std.specs.Fmt.{WritesOnOk};
ghost use Rattle.vx_dtype.specs.Texts.{separator_at, quoted_text, quoted_names, names_text};

use crate::memory::Mem;
use crate::name_lists::NameList;
use crate::writing::{separator, write_quoted};
use std::alloc::{AllocError, Global};
use std::cmp::Ordering;
use std::collections::BTreeSet;
use std::fmt;
use std::hash::{Hash, Hasher};
use std::marker::Model;
use std::rc::{Rc, RcStr};

/// A text, shared by its clones. It is seen as its bytes.
#[derive(Debug, Drop)]
pub struct Text {
    text: RcStr,
}

impl Model for Text {
    ghost use Rattle.std.specs.Prelude.{ℕ, List};
    ghost use Rattle.std.specs.Rc.{rc_str_bytes};

    ghost Value = { List ℕ };

    ghost view = { λ t. rc_str_bytes t.text };
}

impl Text {
    /// The text with these characters.
    pub fn new(alloc: Global, s: &str) -> Mem<Text>
        ensures { IfOk result (λ text. text ≡ s.now) }
    {
        Ok(Text {
            text: RcStr::from_str(alloc, s)?,
        })
    }

    /// The characters.
    pub fn as_str(&self) -> &str
        ensures { result.now ≡ self.now }
    {
        self.text.as_str()
    }
}

impl Clone for Text {
    ghost is_clone = { λ text copy. copy ≡ text };

    fn clone(&self) -> Result<Text, AllocError> {
        Ok(Text {
            text: self.text.clone()?,
        })
    }
}

/// The name of a field, shared by its clones. It is seen as its bytes.
#[derive(Debug, Drop)]
pub struct FieldName {
    text: RcStr,
}

impl Model for FieldName {
    ghost use Rattle.std.specs.Prelude.{ℕ, List};
    ghost use Rattle.std.specs.Rc.{rc_str_bytes};

    ghost Value = { List ℕ };

    ghost view = { λ name. rc_str_bytes name.text };
}

impl FieldName {
    /// The name with these characters.
    pub fn new(alloc: Global, s: &str) -> Mem<FieldName>
        ensures { IfOk result (λ name. name ≡ s.now) }
    {
        Ok(FieldName {
            text: RcStr::from_str(alloc, s)?,
        })
    }

    /// The characters.
    pub fn as_str(&self) -> &str
        ensures { result.now ≡ self.now }
    {
        self.text.as_str()
    }

    /// Whether the name is one of these, which it is compared with one by one.
    pub fn is_among(&self, names: &[FieldName]) -> bool
        ensures { result ≡ has_name self.now names.now }
    {
        names.iter().any(|other| self.as_str() == other.as_str())
    }

    /// Whether no name stands twice among these: in the time of a sort, so that a hostile list of names does not hold up the caller.
    pub fn are_distinct(alloc: Global, names: &[FieldName]) -> Mem<bool>
        ensures { IfOk result (λ distinct. distinct ≡ distinct_names names.now) }
    {
        let mut behind = BTreeSet::new(alloc);
        let mut left = names.len();
        while left > 0 {
            left -= 1;
            if !behind.insert(names[left].clone()?)? {
                return Ok(false);
            }
        }
        Ok(true)
    }
}

impl Clone for FieldName {
    ghost is_clone = { λ name copy. copy ≡ name };

    fn clone(&self) -> Result<FieldName, AllocError> {
        Ok(FieldName {
            text: self.text.clone()?,
        })
    }
}

/// The names of fields in order, shared by their clones. They are seen as their list.
#[derive(Debug, Drop)]
pub struct FieldNames {
    names: Rc<NameList>,
}

impl Model for FieldNames {
    ghost use Rattle.std.specs.Prelude.{ℕ, List};

    ghost Value = { List (List ℕ) };

    ghost view = { λ names. names.names.value };
}

impl FieldNames {
    /// These names, in their order. Where they are more than a few the place of each is noted, so that `position` and `contains` take one
    /// look-up; whether one stands twice is noted too.
    pub fn new(alloc: Global, names: Vec<FieldName>) -> Mem<FieldNames>
        ensures { IfOk result (λ made. made ≡ names.items) }
    {
        Ok(FieldNames {
            names: Rc::new(alloc, NameList::new(alloc, names)?)?,
        })
    }

    /// How many names there are.
    pub fn len(&self) -> usize
        ensures { result ≡ length self.now }
    {
        self.as_slice().len()
    }

    /// The name at this place, counted from 0.
    pub fn get(&self, i: usize) -> Option<&FieldName>
        ensures { option_copied result ≡ slice_get self.now i }
    {
        self.as_slice().get(i)
    }

    /// The place of the first name that equals this one.
    pub fn position(&self, name: &FieldName) -> Option<usize>
        ensures { result ≡ position (bytes_eq name.now) self.now }
    {
        self.names.position(name)
    }

    /// Whether the name is one of these: in one look-up, where `is_among` compares it with each.
    #[tactic(auto, using(crate::proofs::PlaceLemmas::position_known))]
    pub fn contains(&self, name: &FieldName) -> bool
        ensures { result ≡ has_name name.now self.now }
    {
        self.position(name).is_some()
    }

    /// Whether no name stands twice: known since the names were put together.
    pub fn are_distinct(&self) -> bool
        ensures { result ≡ distinct_names self.now }
    {
        self.names.are_distinct()
    }

    /// The names as a slice.
    pub fn as_slice(&self) -> &[FieldName]
        ensures { result.now ≡ self.now }
    {
        self.names.as_slice()
    }
}

impl Clone for FieldNames {
    ghost is_clone = { λ names copy. copy ≡ names };

    fn clone(&self) -> Result<FieldNames, AllocError> {
        Ok(FieldNames {
            names: self.names.clone()?,
        })
    }
}

impl PartialEq for Text {
    ghost eq = { bytes_eq };

    ghost laws = { partial_equiv_from_equiv bytes_eq_equiv };

    fn eq(&self, other: &Text) -> bool
        ensures gives { result ≡ bytes_eq self.now other.now }
        ensures same { Decides result (self.now ≡ other.now) }
    {
        self.as_str() == other.as_str()
    }
}

impl Eq for Text {
    ghost laws = { bytes_eq_equiv };
}

impl Hash for Text {
    ghost hash_input = { bytes_feed };

    ghost respects_eq = { λ x y e. ap bytes_feed ((bytes_eq-Decides x y).0 e) };

    fn hash<H: Hasher>(&self, state: &mut H) {
        self.as_str().hash(state);
    }
}

impl PartialEq for FieldName {
    ghost eq = { bytes_eq };

    ghost laws = { partial_equiv_from_equiv bytes_eq_equiv };

    fn eq(&self, other: &FieldName) -> bool
        ensures gives { result ≡ bytes_eq self.now other.now }
        ensures same { Decides result (self.now ≡ other.now) }
    {
        self.as_str() == other.as_str()
    }
}

impl Eq for FieldName {
    ghost laws = { bytes_eq_equiv };
}

impl PartialOrd for FieldName {
    ghost partial_cmp = { λ x y. Some (slice_cmp nat_cmp x y) };

    ghost laws = { texts_po };

    fn partial_cmp(&self, other: &FieldName) -> Option<Ordering> {
        Some(self.cmp(other))
    }
}

impl Ord for FieldName {
    ghost cmp = { slice_cmp nat_cmp };

    ghost total = { nat_list_cmp_total };

    ghost matches_partial_cmp = { λ x y. refl };

    ghost matches_eq = { texts_ties };

    fn cmp(&self, other: &FieldName) -> Ordering {
        self.as_str().cmp(other.as_str())
    }
}

impl Hash for FieldName {
    ghost hash_input = { bytes_feed };

    ghost respects_eq = { λ x y e. ap bytes_feed ((bytes_eq-Decides x y).0 e) };

    fn hash<H: Hasher>(&self, state: &mut H) {
        self.as_str().hash(state);
    }
}

impl PartialEq for FieldNames {
    ghost eq = { names_eq };

    ghost laws = { partial_equiv_from_equiv names_eq_equiv };

    #[tactic(auto, using(crate::specs::EqualLaws::names_decides))]
    fn eq(&self, other: &FieldNames) -> bool
        ensures gives { result ≡ names_eq self.now other.now }
        ensures same { Decides result (self.now ≡ other.now) }
    {
        self.as_slice() == other.as_slice()
    }
}

impl Eq for FieldNames {
    ghost laws = { names_eq_equiv };
}

impl Hash for FieldNames {
    ghost hash_input = { names_feed };

    ghost respects_eq = { λ x y e. ap names_feed ((names_decides x y).0 e) };

    fn hash<H: Hasher>(&self, state: &mut H) {
        self.as_slice().hash(state);
    }
}

impl fmt::Display for FieldName {
    ghost output = { λ name. Some name };

    fn fmt<W: fmt::Write>(&self, f: &mut fmt::Formatter<W>) -> fmt::Result {
        f.write_str(self.as_str())
    }
}

impl fmt::Display for FieldNames {
    ghost output = { λ names. Some (names_text names) };

    fn fmt<W: fmt::Write>(&self, f: &mut fmt::Formatter<W>) -> fmt::Result {
        f.write_str("[")?;
        write_names(self.as_slice(), f)?;
        f.write_str("]")
    }
}

/// Writes the names within quotes, with a separator between any two.
fn write_names<W: fmt::Write>(names: &[FieldName], f: &mut fmt::Formatter<W>) -> fmt::Result
    ensures { WritesOnOk W.write_str_gives f.old result (quoted_names [] names.now) f.new }
{
    for i in 0..names.len() {
        write_name(i, &names[i], f)?;
    }
    Ok(())
}

/// Writes a separator where it has to stand, and a name within quotes.
fn write_name<W: fmt::Write>(i: usize, name: &FieldName, f: &mut fmt::Formatter<W>) -> fmt::Result
    ensures { WritesOnOk W.write_str_gives f.old result (separator_at i ++ quoted_text name.now) f.new }
{
    f.write_str(separator(i))?;
    write_quoted(name.as_str(), f)
}
