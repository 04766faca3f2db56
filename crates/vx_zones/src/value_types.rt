// The types of statistics' values, and the columns of values that have them.
ghost use Rattle.std.specs.Prelude.{◌≡◌, true, map, option_map, IfOk};
ghost use Rattle.std.specs.Option.{option_and_then};
ghost use Rattle.std.specs.List.{list_all};
ghost use Rattle.vx_dtype.specs.Equal.{ty_eq};
ghost use Rattle.vx_dtype.specs.Fits.{fits};
ghost use Rattle.vx_dtype.specs.RawViews.{raw_view};
ghost use Rattle.vx_dtype.specs.TypeRules.{is_plain};
ghost use Rattle.vx_dtype.specs.TypeViews.{type_view};
ghost use Rattle.vx_zones.specs.LeafTypes.{nullable, plain_from, type_by};
ghost use Rattle.vx_zones.specs.TypedColumns.{IsColumnOf, IsTypedBy, AreTypedBy};
ghost use Rattle.vx_zones.specs.ZoneViews.{stat_view};
ghost use Rattle.vx_zones.specs.Zoning.{scalars_fit, statistic_type, values_have};

use crate::plain_fields::plain_at;
use crate::zone_columns::ZoneColumn;
use crate::zones::ZoneStat;
use std::alloc::Global;
use vx_column::{ColumnRef, column_of};
use vx_dtype::{DType, FieldPath, Mem, Nullability, PType, Scalar, ScalarValue, Stat};

/// The type of a statistic's values, by the row's type: the statistic's, made nullable. None where its path leads to no plain field, or it counts what
/// is no number.
pub fn type_of_values(row: &DType, path: &FieldPath, stat: Stat) -> Mem<Option<DType>>
    ensures { IfOk result (λ dtype. option_map type_view dtype
        ≡ option_map nullable (option_and_then (statistic_type stat) (plain_from (type_view row.now) path.now))) }
{
    match plain_at(row, path) {
        Some(leaf) => match stat {
            Stat::Min => Ok(Some(leaf.with_nullability(Nullability::Nullable)?)),
            Stat::Max => Ok(Some(leaf.with_nullability(Nullability::Nullable)?)),
            Stat::NullCount => Ok(Some(DType::Primitive(PType::U64, Nullability::Nullable))),
            Stat::NaNCount => Ok(None),
        },
        None => Ok(None),
    }
}

/// Whether each value of each statistic has the statistic's type, made nullable. A value of a column is one of the column's type.
pub(crate) fn have_their_types(row: &DType, stats: &[ZoneColumn]) -> Mem<bool>
    ensures have { IfOk result (λ b. b ≡ list_all (λ z. values_have z.values (type_by (plain_from (type_view row.now)) z)) stats.now) }
    ensures fit { IfOk result (λ b. b ≡ true → list_all (λ z. scalars_fit z.values) stats.now ≡ true) }
{
    for stat in stats {
        if !has_its_type(row, stat)? {
            return Ok(false);
        }
    }
    Ok(true)
}

/// Whether each value of a statistic has the statistic's type, made nullable.
fn has_its_type(row: &DType, stat: &ZoneColumn) -> Mem<bool>
    ensures have { IfOk result (λ b. b ≡ values_have stat.now.values (type_by (plain_from (type_view row.now)) stat.now)) }
    ensures fit { scalars_fit stat.now.values ≡ true }
{
    let _values = stat.values();
    match type_of_values(row, stat.path(), stat.stat())? {
        Some(dtype) => Ok(stat.all_have(&dtype)),
        None => Ok(false),
    }
}

/// The statistics as columns of their types, made nullable, where each value of each has the statistic's; else none.
pub(crate) fn typed_columns(
    alloc: Global,
    row: &DType,
    stats: &[ZoneStat],
) -> Mem<Option<Vec<ZoneColumn>>>
    ensures { IfOk result (AreTypedBy (plain_from (type_view row.now)) (map stat_view stats.now)) }
{
    let mut columns = Vec::with_capacity(alloc, stats.len())?;
    for stat in stats {
        let Some(column) = typed_column(alloc, row, stat)? else {
            return Ok(None);
        };
        columns.push(column)?;
    }
    Ok(Some(columns))
}

/// A statistic as a column of its type, made nullable, where each of its values has that type; else none.
fn typed_column(alloc: Global, row: &DType, stat: &ZoneStat) -> Mem<Option<ZoneColumn>>
    ensures { IfOk result (IsTypedBy (type_by (plain_from (type_view row.now)) (stat_view stat.now)) (stat_view stat.now)) }
{
    let Some(dtype) = type_of_values(row, &stat.path, stat.stat)? else {
        return Ok(None);
    };
    match column_with(alloc, dtype, stat.values.as_slice())? {
        Some(values) => {
            let path = stat.path.clone()?;
            Ok(Some(ZoneColumn::new(alloc, path, stat.stat, values)?))
        }
        None => Ok(None),
    }
}

/// The column of values of this plain type, where each is of it; else none.
fn column_with(alloc: Global, dtype: DType, values: &[Scalar]) -> Mem<Option<ColumnRef>>
    requires { is_plain (type_view dtype) ≡ true }
    ensures { IfOk result (IsColumnOf (type_view dtype) values.now) }
{
    if !all_have(values, &dtype) {
        return Ok(None);
    }
    let held = held_by(alloc, values)?;
    Ok(Some(column_of(alloc, dtype, held)?))
}

/// Whether each value is of this type. A value that was looked at is one of its type.
fn all_have(values: &[Scalar], dtype: &DType) -> bool
    ensures have { result ≡ list_all (λ s. ty_eq s.ty (type_view dtype.now)) values.now }
    ensures fit { result ≡ true → scalars_fit values.now ≡ true }
{
    for value in values {
        if !is_of_type(value, dtype) {
            return false;
        }
    }
    true
}

/// Whether a scalar's type is this one. Its value is one of its own type.
fn is_of_type(scalar: &Scalar, dtype: &DType) -> bool
    ensures same { result ≡ ty_eq scalar.now.ty (type_view dtype.now) }
    ensures fit { fits scalar.now.value scalar.now.ty ≡ true }
{
    // What a scalar holds is one of its type: the scalar's own promise, which comes with its value.
    let _value = scalar.value();
    scalar.dtype() == dtype
}

/// What these scalars hold.
fn held_by(alloc: Global, scalars: &[Scalar]) -> Mem<Vec<ScalarValue>>
    ensures { IfOk result (λ values. map raw_view values.items ≡ map (λ s. s.value) scalars.now) }
{
    let mut values = Vec::with_capacity(alloc, scalars.len())?;
    for scalar in scalars {
        values.push(scalar.value().clone()?)?;
    }
    Ok(values)
}
