// The order of the rows that are held.
ghost use Rattle.std.specs.Prelude.{◌≡◌, true, IfOk};
ghost use Rattle.std.specs.Ordering.{as_partial_cmp, eq_by_cmp};
ghost use Rattle.std.specs.Cmp.{eq_by_cmp_equiv, partial_equiv_from_equiv, partial_order_from_total};
ghost use Rattle.std.proofs.Common.{refl};
ghost use Rattle.vx_dtype.specs.Types.{Ty};
ghost use Rattle.vx_dtype.specs.TypeRules.{is_plain};
ghost use Rattle.vx_dtype.specs.Fits.{fits};
ghost use Rattle.vx_dtype.specs.RawViews.{raw_view};
ghost use Rattle.vx_dtype.specs.TypeViews.{type_view};
ghost use Rattle.vx_topk.specs.RowKeys.{key_raw, known_key, key_kind, kin_cmp, directed_cmp, place_cmp, row_cmp};
ghost use Rattle.vx_topk.specs.RowOrders.{row_cmp_total};

use std::cmp::Ordering;
use vx_dtype::{DType, Mem, Scalar, ScalarValue, Text};

/// A key of a plain type.
#[derive(Debug, Drop)]
pub(crate) enum SortKey {
    Truth(bool),
    Number(i128),
    Text(Text),
    Null,
}

/// Where a row was found: the number of its block, and its number among the rows that were found there.
#[derive(Clone, Copy, Debug)]
pub(crate) struct RowPlace {
    pub(crate) block: u32,
    pub(crate) row: usize,
}

/// A row's key, the direction of the order, and its place. Rows are ordered by their keys, null last, and behind that by their places. Rows of
/// two directions are never held together; those that ascend come first, so that the order is one of all rows.
#[derive(Debug, Drop)]
pub(crate) struct RowKey {
    pub(crate) descending: bool,
    pub(crate) key: SortKey,
    pub(crate) place: RowPlace,
}

impl SortKey {
    /// The key that a value of a plain type is.
    #[tactic(auto, unfolding(vx_dtype::specs::Fits::fits))]
    pub(crate) fn of_value(value: &ScalarValue) -> Mem<SortKey>
        requires { (k : Ty) × (is_plain k ≡ true) × (fits (raw_view value.now) k ≡ true) }
        ensures { IfOk result (λ key. key_raw key ≡ raw_view value.now) }
    {
        Ok(match value {
            ScalarValue::Null => SortKey::Null,
            ScalarValue::Bool(truth) => SortKey::Truth(*truth),
            ScalarValue::Int(number) => SortKey::Number(*number),
            ScalarValue::Utf8(text) => SortKey::Text(text.clone()?),
            ScalarValue::List(_) => unreachable!(),
            ScalarValue::Struct(_) => unreachable!(),
        })
    }

    /// The key as a scalar of its type. None exactly where it is null.
    pub(crate) fn known(&self, dtype: &DType) -> Mem<Option<Scalar>>
        requires { fits (key_raw self.now) (type_view dtype.now) ≡ true }
        ensures { IfOk result (λ bound. bound ≡ known_key (type_view dtype.now) self.now) }
    {
        let value = match self {
            SortKey::Null => return Ok(None),
            SortKey::Truth(truth) => ScalarValue::Bool(*truth),
            SortKey::Number(number) => ScalarValue::Int(*number),
            SortKey::Text(text) => ScalarValue::Utf8(text.clone()?),
        };
        Ok(Some(Scalar::new(dtype.clone()?, value)))
    }

    /// The number of the key's kind. Null has the greatest, so that it stands last in both directions.
    fn kind(&self) -> u8
        ensures { result ≡ key_kind self.now }
    {
        match self {
            SortKey::Truth(_) => 0,
            SortKey::Number(_) => 1,
            SortKey::Text(_) => 2,
            SortKey::Null => 3,
        }
    }

    /// How two keys of one kind stand, in ascending order; keys of two kinds are tied.
    fn compare_kin(&self, other: &SortKey) -> Ordering
        ensures { key_kind self.now ≡ key_kind other.now → result ≡ kin_cmp self.now other.now }
    {
        match (self, other) {
            (SortKey::Truth(a), SortKey::Truth(b)) => a.cmp(b),
            (SortKey::Number(a), SortKey::Number(b)) => a.cmp(b),
            (SortKey::Text(a), SortKey::Text(b)) => a.as_str().cmp(b.as_str()),
            _ => Ordering::Equal,
        }
    }
}

impl RowPlace {
    /// How two places stand: by their blocks, and in one block by their rows.
    fn compare(&self, other: &RowPlace) -> Ordering
        ensures { result ≡ place_cmp self.now other.now }
    {
        self.block.cmp(&other.block).then(self.row.cmp(&other.row))
    }
}

impl RowKey {
    /// How the keys of two rows stand in this row's direction, where they are of one kind.
    fn compare_keys(&self, other: &RowKey) -> Ordering
        ensures { key_kind self.now.key ≡ key_kind other.now.key → result ≡ directed_cmp self.now.descending self.now.key other.now.key }
    {
        if self.descending {
            return other.key.compare_kin(&self.key);
        }
        self.key.compare_kin(&other.key)
    }
}

impl PartialEq for RowKey {
    ghost eq = { eq_by_cmp row_cmp };

    ghost laws = { partial_equiv_from_equiv (eq_by_cmp_equiv row_cmp_total) };

    fn eq(&self, other: &RowKey) -> bool {
        self.cmp(other) == Ordering::Equal
    }
}

impl Eq for RowKey {
    ghost laws = { eq_by_cmp_equiv row_cmp_total };
}

impl PartialOrd for RowKey {
    ghost partial_cmp = { as_partial_cmp row_cmp };

    ghost laws = { partial_order_from_total row_cmp_total };

    fn partial_cmp(&self, other: &RowKey) -> Option<Ordering> {
        Some(self.cmp(other))
    }
}

impl Ord for RowKey {
    ghost cmp = { row_cmp };

    ghost total = { row_cmp_total };

    ghost matches_partial_cmp = { λ x y. refl };

    ghost matches_eq = { λ x y. refl };

    #[tactic(auto, using(crate::proofs::RowKeyLemmas::row_cmp_steps))]
    fn cmp(&self, other: &RowKey) -> Ordering {
        self.descending
            .cmp(&other.descending)
            .then(self.key.kind().cmp(&other.key.kind()))
            .then(self.compare_keys(other))
            .then(self.place.compare(&other.place))
    }
}
