// Relations between keys and values: which values stand beside a key.
ghost use Rattle.std.specs.Prelude.{◌≡◌, ◌&&◌, ◌||◌, false, OnOk, OnErr};
ghost use Rattle.std.specs.HashMap.{IsEmpty, IsUnique};
ghost use Rattle.vx_prune.specs.Relations.{has_pair, relation_map, AddsNoBareKey, HasNoBareKey};
ghost use Rattle.vx_prune.specs.Required.{is_required};

use std::alloc::Global;
use std::collections::hash_map::IntoIter;
use std::collections::{HashMap, HashSet};
use std::hash::Hash;
use vx_dtype::{FieldPath, Mem, NoMemory, Stat};

/// A relation between keys and values: a map from each key to the set of values that stand beside it.
#[derive(Clone, Debug, Drop)]
pub struct Relation<K: Eq + Hash, V: Eq + Hash> {
    map: HashMap<K, HashSet<V>>,
}

/// The statistics that an expression needs: those of each path.
pub type RequiredStats = Relation<FieldPath, Stat>;

impl<K: Eq + Hash, V: Eq + Hash> Relation<K, V> {
    /// The relation without pairs.
    pub fn new(alloc: Global) -> Relation<K, V>
        ensures pairs { (k : K) (v : V) → has_pair K.eq V.eq (relation_map result) k v ≡ false }
        ensures empty { IsEmpty (relation_map result) }
    {
        Relation {
            map: HashMap::new(alloc),
        }
    }

    /// Puts the value beside the key, where it may stand already. Without memory the relation has the pairs that it had. A key without a
    /// value stands in the map after the call only where it stood there before.
    pub fn insert(&mut self, k: K, v: V) -> Mem<()>
    where
        K: Drop,
        V: Drop,
        ensures ok { OnOk result ((q : K) (w : V) → has_pair K.eq V.eq (relation_map self.new) q w
            ≡ (K.eq k q && V.eq v w || has_pair K.eq V.eq (relation_map self.old) q w)) }
        ensures err { OnErr result ((q : K) (w : V) → has_pair K.eq V.eq (relation_map self.new) q w ≡ has_pair K.eq V.eq (relation_map self.old) q w) }
        ensures values { AddsNoBareKey K.eq (relation_map self.old) (relation_map self.new) }
    {
        match self.put(k, v) {
            Ok(()) => Ok(()),
            Err(NoMemory) => {
                self.leave_out_bare_keys();
                Err(NoMemory)
            }
        }
    }

    /// Puts the value beside the key. Without memory the key may stand without a value.
    fn put(&mut self, k: K, v: V) -> Mem<()>
    where
        K: Drop,
        V: Drop,
        ensures ok { OnOk result ((q : K) (w : V) → has_pair K.eq V.eq (relation_map self.new) q w
            ≡ (K.eq k q && V.eq v w || has_pair K.eq V.eq (relation_map self.old) q w)) }
        ensures err { OnErr result ((q : K) (w : V) → has_pair K.eq V.eq (relation_map self.new) q w ≡ has_pair K.eq V.eq (relation_map self.old) q w) }
        ensures values { OnOk result (AddsNoBareKey K.eq (relation_map self.old) (relation_map self.new)) }
    {
        let set = self.map.entry(k)?.or_default();
        set.insert(v)?;
        Ok(())
    }

    /// Takes out the keys beside which no value stands.
    fn leave_out_bare_keys(&mut self)
    where
        K: Drop,
        V: Drop,
        ensures pairs { (q : K) (w : V) → has_pair K.eq V.eq (relation_map self.new) q w ≡ has_pair K.eq V.eq (relation_map self.old) q w }
        ensures values { HasNoBareKey K.eq (relation_map self.new) }
    {
        self.map.retain(|_, values| values.len() > 0);
    }

    /// Whether the value stands beside the key.
    pub fn contains(&self, k: &K, v: &V) -> bool
        ensures { result ≡ has_pair K.eq V.eq (relation_map self.now) k.now v.now }
    {
        match self.map.get(k) {
            Some(values) => values.contains(v),
            None => false,
        }
    }

    /// The map from keys to the sets of values beside them.
    pub fn map(&self) -> &HashMap<K, HashSet<V>>
        ensures { result.now ≡ relation_map self.now }
    {
        &self.map
    }

    /// The relation of a map from keys to the sets of values beside them.
    pub fn from_map(map: HashMap<K, HashSet<V>>) -> Relation<K, V>
        ensures { relation_map result ≡ map }
    {
        Relation { map }
    }
}

/// The keys, each beside the set of its values, in no given order: every entry of the map once.
impl<K: Eq + Hash + Drop, V: Eq + Hash + Drop> IntoIterator for Relation<K, V> {
    type Item = (K, HashSet<V>);

    type IntoIter = IntoIter<K, HashSet<V>>;

    ghost into_iter_gives = { λ relation entries. (entries ≡ (relation_map relation).entries) × IsUnique K.eq (relation_map relation) };

    fn into_iter(self) -> IntoIter<K, HashSet<V>> {
        self.map.into_iter()
    }
}

/// Whether a statistic of a path is among those that are required.
pub fn is_required(required: &RequiredStats, path: &FieldPath, stat: Stat) -> bool
    ensures { result ≡ is_required required.now (path.now, stat) }
{
    required.contains(path, &stat)
}
