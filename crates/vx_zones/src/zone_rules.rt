// The rules that make columns, lengths and statistics zones, but for that of the values' types.
ghost use Rattle.std.specs.Prelude.{◌≡◌, ◌==◌, length, map, is_some, IfOk};
ghost use Rattle.std.specs.List.{list_all};
ghost use Rattle.vx_dtype.specs.TypeViews.{type_view};
ghost use Rattle.vx_zones.specs.Zoning.{are_shallow, distinct_statistics};
ghost use Rattle.vx_zones.specs.Heads.{bare, head_of, head_rule, statistic_rule};
ghost use Rattle.vx_zones.specs.OwnNames.{own_names};
ghost use Rattle.vx_zones.specs.LeafTypes.{plain_from, type_by};
ghost use Rattle.vx_zones.specs.ZoneViews.{bare_view, head_view, stat_view};

use crate::errors::ZoneError;
use crate::heads::{StatHead, column_heads, heads_of};
use crate::plain_fields::plain_at;
use crate::zone_columns::ZoneColumn;
use crate::zones::ZoneStat;
use std::alloc::Global;
use std::collections::BTreeSet;
use vx_dtype::{DType, Field, FieldName, MOST_DEEP, Mem, Nullability, Stat, StructFields};

/// The first rule that columns, lengths and statistics whose values stand one by one break, but for that of the values' types; None where they break
/// none.
pub(crate) fn listed_rule(
    alloc: Global,
    columns: &StructFields,
    lengths: &[u32],
    stats: &[ZoneStat],
) -> Mem<Option<ZoneError>>
    ensures { IfOk result (λ rule. rule ≡ head_rule columns.now lengths.now (map head_of (map stat_view stats.now))) }
{
    let heads = heads_of(alloc, stats)?;
    head_rule(alloc, columns, lengths, heads.as_slice())
}

/// The same of statistics as columns.
pub(crate) fn column_rule(
    alloc: Global,
    columns: &StructFields,
    lengths: &[u32],
    stats: &[ZoneColumn],
) -> Mem<Option<ZoneError>>
    ensures { IfOk result (λ rule. rule ≡ head_rule columns.now lengths.now (map head_of stats.now)) }
{
    let heads = column_heads(alloc, stats)?;
    head_rule(alloc, columns, lengths, heads.as_slice())
}

/// The same by what statistics are of, and how many values they have.
#[tactic(auto, unfolding(crate::specs::Heads::head_rule, vx_dtype::specs::TypeRules::no_name_twice))]
pub fn head_rule(
    alloc: Global,
    columns: &StructFields,
    lengths: &[u32],
    heads: &[StatHead<'_>],
) -> Mem<Option<ZoneError>>
    ensures { IfOk result (λ rule. rule ≡ head_rule columns.now lengths.now (map head_view heads.now)) }
{
    if !columns.has_distinct_names() {
        return Ok(Some(ZoneError::DuplicateName));
    }
    if !are_shallow(columns) {
        return Ok(Some(ZoneError::DeepType));
    }
    let row = DType::Struct(columns.clone()?, Nullability::NonNullable);
    statistic_rule(alloc, &row, lengths, heads)
}

/// The first rule that lengths and statistics break, but for that of the values' types, by the plain types that paths lead to from the row's type on.
#[tactic(auto, using(crate::proofs::ViewLemmas::bare_views))]
fn statistic_rule(
    alloc: Global,
    row: &DType,
    lengths: &[u32],
    heads: &[StatHead<'_>],
) -> Mem<Option<ZoneError>>
    ensures { IfOk result (λ rule. rule ≡ statistic_rule (plain_from (type_view row.now)) lengths.now (map head_view heads.now)) }
{
    if !lead_to_fields(row, heads) {
        return Ok(Some(ZoneError::BadStatPath));
    }
    if !are_distinct(alloc, heads)? {
        return Ok(Some(ZoneError::DuplicateStat));
    }
    if !count_blocks(lengths, heads) {
        return Ok(Some(ZoneError::WrongStatCount));
    }
    Ok(None)
}

/// Whether no column's type is deeper than 64.
#[tactic(auto, using(crate::proofs::DepthLemmas::are_shallow_all))]
fn are_shallow(columns: &StructFields) -> bool
    ensures { result ≡ are_shallow columns.now }
{
    for dtype in columns.dtypes() {
        if dtype.depth() > MOST_DEEP {
            return false;
        }
    }
    true
}

/// Whether each statistic is one of a plain field that its path leads to.
fn lead_to_fields(row: &DType, heads: &[StatHead<'_>]) -> bool
    ensures { result ≡ list_all (λ h. is_some (type_by (plain_from (type_view row.now)) (bare h))) (map head_view heads.now) }
{
    for head in heads {
        if !leads_to_field(row, head) {
            return false;
        }
    }
    true
}

/// Whether a statistic is one of a plain field that its path leads to.
fn leads_to_field(row: &DType, head: &StatHead<'_>) -> bool
    ensures { result ≡ is_some (type_by (plain_from (type_view row.now)) (bare (head_view head.now))) }
{
    let leaf = plain_at(row, head.path);
    match head.stat {
        Stat::Min => leaf.is_some(),
        Stat::Max => leaf.is_some(),
        Stat::NullCount => leaf.is_some(),
        Stat::NaNCount => false,
    }
}

/// Whether no two statistics are of one path and one kind: from the last to the first, by an ordered set of those behind, so that no choice of
/// names holds up the caller.
fn are_distinct(alloc: Global, heads: &[StatHead<'_>]) -> Mem<bool>
    ensures { IfOk result (λ distinct. distinct ≡ distinct_statistics (map bare_view heads.now)) }
{
    let mut behind = BTreeSet::new(alloc);
    let mut left = heads.len();
    while left > 0 {
        left -= 1;
        if !behind.insert(own_names(alloc, &heads[left])?)? {
            return Ok(false);
        }
    }
    Ok(true)
}

/// The names by which a statistic is told from those of other paths and kinds: that of its kind, and those of its path.
fn own_names(alloc: Global, head: &StatHead<'_>) -> Mem<Vec<FieldName>>
    ensures { IfOk result (λ names. names.items ≡ own_names (bare_view head.now)) }
{
    let mut names = Vec::new(alloc);
    names.push(FieldName::new(alloc, head.stat.name())?)?;
    for part in head.path.parts() {
        let Field::Name(name) = part;
        names.push(name.clone()?)?;
    }
    Ok(names)
}

/// Whether each statistic has one value per block.
fn count_blocks(lengths: &[u32], heads: &[StatHead<'_>]) -> bool
    ensures { result ≡ list_all (λ h. h.count == length lengths.now) (map head_view heads.now) }
{
    for head in heads {
        if head.count != lengths.len() {
            return false;
        }
    }
    true
}
