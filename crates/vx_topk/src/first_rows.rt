// The first rows by a key, held in order while rows come in.
ghost use Rattle.std.specs.Prelude.{◌≡◌, ◌≤◌, ◌+◌, List, true, length, map, take, [], ◌∷◌, ◌++◌, IfOk};
ghost use Rattle.vx_dtype.specs.Types.{Ty};
ghost use Rattle.vx_dtype.specs.TypeRules.{is_plain};
ghost use Rattle.vx_dtype.specs.Values.{raw_struct, valued};
ghost use Rattle.vx_dtype.specs.Fits.{fits};
ghost use Rattle.vx_dtype.specs.RawViews.{raw_view, raws_of};
ghost use Rattle.vx_dtype.specs.TypeViews.{type_view};
ghost use Rattle.vx_column.specs.Columns.{seen_rows, values_fit};
ghost use Rattle.vx_laws_topk.specs.TopRows.{Keyed, TopAsk, bound_before, bound_slots};
ghost use Rattle.vx_laws_topk.specs.BoundLaws.{keyed_type, unpacked};
ghost use Rattle.vx_topk.specs.RowKeys.{key_raw};
ghost use Rattle.vx_topk.specs.declared.row_keys.RowPlace.{RowPlace};
ghost use Rattle.vx_topk.specs.FirstRows.{HoldFirst, IsAskedBy, AsksTheSame, IsBehindAll, ArePartsOf, behind, start_of};

use crate::row_keys::{RowKey, RowPlace, SortKey};
use std::alloc::Global;
use std::cmp::Ordering;
use std::collections::BTreeMap;
use vx_dtype::{DType, Mem, Scalar, ScalarValue};

/// The first rows by a key of those that were put in, in order: at most `count`, each with its key and place, and its value.
#[derive(Drop)]
pub(crate) struct FirstRows {
    count: u32,
    descending: bool,
    rows: BTreeMap<RowKey, ScalarValue>,
}

impl FirstRows {
    /// No rows, of which at most so many are to be held.
    pub(crate) fn new(alloc: Global, count: u32, descending: bool) -> FirstRows
        ensures asked { (result.count ≡ count) × (result.descending ≡ descending) }
        ensures holds { (k v : Ty) → is_plain k ≡ true → HoldFirst k v [] (start_of 0) result }
    {
        FirstRows {
            count,
            descending,
            rows: BTreeMap::new(alloc),
        }
    }

    /// Puts in a row that was found behind all others: behind those of its own key. Where more rows are held then than are asked, the last goes.
    pub(crate) fn put(&mut self, key: SortKey, value: ScalarValue, place: RowPlace) -> Mem<()>
        requires held { (k v : Ty) × (found : List Keyed) × HoldFirst k v found place self.old
            × (fits (key_raw key) k ≡ true) × (fits (raw_view value) v ≡ true) }
        ensures same { AsksTheSame self.old self.new }
        ensures holds { (k v : Ty) (found : List Keyed) → HoldFirst k v found place self.old →
            fits (key_raw key) k ≡ true → fits (raw_view value) v ≡ true →
            IfOk result (λ _. HoldFirst k v (found ++ record { key = valued (key_raw key) k; value = valued (raw_view value) v } ∷ [])
            (behind place) self.new) }
    {
        let row = RowKey {
            descending: self.descending,
            key,
            place,
        };
        if self.is_full_before(&row) {
            return Ok(());
        }
        self.rows.insert(row, value)?;
        self.cut();
        Ok(())
    }

    /// Puts in a row that was found behind all others, as the struct of its key and its value.
    pub(crate) fn put_row(&mut self, row: &ScalarValue, place: RowPlace) -> Mem<()>
        requires held { (k v : Ty) × (found : List Keyed) × HoldFirst k v found place self.old × (fits (raw_view row.now) (keyed_type k v) ≡ true) }
        ensures same { AsksTheSame self.old self.new }
        ensures holds { (k v : Ty) (found : List Keyed) → HoldFirst k v found place self.old → fits (raw_view row.now) (keyed_type k v) ≡ true →
            IfOk result (λ _. HoldFirst k v (found ++ unpacked (valued (raw_view row.now) (keyed_type k v)) ∷ []) (behind place) self.new) }
    {
        let parts = key_and_value(row)?;
        self.put(parts.0, parts.1, place)
    }

    /// Puts in the rows that were found in a block, which is behind those of all rows before. Each is the struct of its key and its value.
    pub(crate) fn put_rows(&mut self, rows: &[ScalarValue], block: u32) -> Mem<()>
        requires held { (k v : Ty) × (found : List Keyed) × HoldFirst k v found (start_of block) self.old × (values_fit (keyed_type k v) rows.now ≡ true) }
        ensures same { AsksTheSame self.old self.new }
        ensures holds { (k v : Ty) (found : List Keyed) → HoldFirst k v found (start_of block) self.old → values_fit (keyed_type k v) rows.now ≡ true →
            IfOk result (λ _. HoldFirst k v (found ++ map unpacked (seen_rows (keyed_type k v) rows.now)) (start_of (block + 1)) self.new) }
    {
        for row in 0..rows.len() {
            self.put_row(&rows[row], RowPlace { block, row })?;
        }
        Ok(())
    }

    /// The bound before which a further row's key has to stand, to be among the first: the key of the last held row, where as many are held as
    /// are asked and it isn't null. The type is the key's.
    pub(crate) fn bound(&self, dtype: &DType) -> Mem<Option<Scalar>>
        requires held { (v : Ty) × (found : List Keyed) × (next : RowPlace) × HoldFirst (type_view dtype.now) v found next self.now }
        ensures { (ask : TopAsk) (v : Ty) (found : List Keyed) (next : RowPlace) → IsAskedBy ask (type_view dtype.now) self.now →
            HoldFirst (type_view dtype.now) v found next self.now → IfOk result (λ bound. bound ∷ [] ≡ bound_slots ask (bound_before ask found)) }
    {
        if self.rows.len() < self.count as usize {
            return Ok(None);
        }
        match self.rows.last_key_value() {
            Some((last, _)) => last.key.known(dtype),
            None => Ok(None),
        }
    }

    /// The values of the held rows, in order.
    pub(crate) fn into_values(self, alloc: Global) -> Mem<Vec<ScalarValue>>
        ensures { IfOk result (λ values. map raw_view values.items ≡ map (λ e. raw_view e.1) self.rows.entries) }
    {
        let FirstRows {
            count: _,
            descending: _,
            rows,
        } = self;
        Ok(rows.into_values().collect(alloc)?)
    }

    /// Whether as many rows are held as are asked, and a further one stands behind them all.
    fn is_full_before(&self, row: &RowKey) -> bool
        ensures { result ≡ true → (self.now.count ≤ length self.now.rows.entries) × IsBehindAll row.now self.now.rows.entries }
    {
        if self.rows.len() < self.count as usize {
            return false;
        }
        match self.rows.last_key_value() {
            Some((last, _)) => row.cmp(last) == Ordering::Greater,
            None => false,
        }
    }

    /// Lets the last row go where one more is held than are asked.
    fn cut(&mut self)
        requires { length self.old.rows.entries ≤ self.old.count + 1 }
        ensures same { AsksTheSame self.old self.new }
        ensures rows { self.new.rows.entries ≡ take self.old.count self.old.rows.entries }
    {
        if self.rows.len() > self.count as usize {
            self.rows.pop_last();
        }
    }
}

/// The key and the value of a row that is the struct of the two.
#[tactic(auto, unfolding(vx_dtype::specs::Fits::fits))]
fn key_and_value(row: &ScalarValue) -> Mem<(SortKey, ScalarValue)>
    requires { (k v : Ty) × (is_plain k ≡ true) × (fits (raw_view row.now) (keyed_type k v) ≡ true) }
    ensures { (k v : Ty) → fits (raw_view row.now) (keyed_type k v) ≡ true → IfOk result (ArePartsOf k v (valued (raw_view row.now) (keyed_type k v))) }
{
    match row {
        ScalarValue::Struct(parts) => both_parts(parts.as_slice()),
        ScalarValue::Null => unreachable!(),
        ScalarValue::Bool(_) => unreachable!(),
        ScalarValue::Int(_) => unreachable!(),
        ScalarValue::Utf8(_) => unreachable!(),
        ScalarValue::List(_) => unreachable!(),
    }
}

/// The key and the value that are the parts of a struct.
fn both_parts(parts: &[ScalarValue]) -> Mem<(SortKey, ScalarValue)>
    requires { (k v : Ty) × (is_plain k ≡ true) × (fits (raw_struct (raws_of (map raw_view parts.now))) (keyed_type k v) ≡ true) }
    ensures { (k v : Ty) → fits (raw_struct (raws_of (map raw_view parts.now))) (keyed_type k v) ≡ true →
        IfOk result (ArePartsOf k v (valued (raw_struct (raws_of (map raw_view parts.now))) (keyed_type k v))) }
{
    let key = SortKey::of_value(&parts[0])?;
    let value = parts[1].clone()?;
    Ok((key, value))
}
