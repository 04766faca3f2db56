// Statistics as they are kept: a column of a plain type, a row for each block.
ghost use Rattle.std.specs.Prelude.{◌≡◌, ◌+◌, ◌<◌, ◌≤◌, true, length, slice_index_or, slice_range, take, drop, IfOk};
ghost use Rattle.std.specs.List.{list_all};
ghost use Rattle.vx_dtype.specs.Equal.{ty_eq};
ghost use Rattle.vx_dtype.specs.TypeRules.{is_plain};
ghost use Rattle.vx_dtype.specs.TypeViews.{type_view};
ghost use Rattle.vx_semantics.specs.Tables.{joined_name};
ghost use Rattle.vx_column.specs.Columns.{column, seen_rows, values_fit};
ghost use Rattle.vx_zones.specs.StatColumns.{column_stat, stat_run, HoldsValuesOf};
ghost use Rattle.vx_zones.specs.ZoneViews.{stat_view};
ghost use Rattle.vx_zones.specs.Zoning.{scalars_fit};

use crate::joined_names::field_path_stat_field_name;
use crate::zones::{Scalars, ZoneStat};
use std::alloc::Global;
use std::marker::Model;
use vx_column::{ColumnRef, column_of};
use vx_dtype::{DType, FieldName, FieldPath, Mem, Scalar, ScalarValue, Stat};

/// One statistic of one path as a column of its values, a row for each block, beside its joined name. It is seen as the statistic.
#[derive(Debug, Drop)]
pub struct ZoneColumn {
    path: FieldPath,
    stat: Stat,
    name: FieldName,
    values: ColumnRef,
}

impl Model for ZoneColumn {
    ghost use Rattle.std.specs.Prelude.{◌≡◌, true};
    ghost use Rattle.vx_dtype.specs.TypeRules.{is_plain};
    ghost use Rattle.vx_semantics.specs.Tables.{ZoneStat, joined_name};
    ghost use Rattle.vx_zones.specs.ZoneCodes.{coded_zone_stat};
    ghost use Rattle.vx_zones.specs.StatColumns.{column_stat};

    ghost Value = { ZoneStat };

    ghost coded = { coded_zone_stat };

    ghost view = { λ z. column_stat z.path z.stat z.values };

    ghost invariant = { λ z. (is_plain z.values.ty ≡ true) × (z.name ≡ joined_name z.path z.stat) };
}

impl ZoneColumn {
    /// The statistic of a path and a kind with the values of a column of a plain type: a row for each block, null where nothing is known.
    pub fn new(alloc: Global, path: FieldPath, stat: Stat, values: ColumnRef) -> Mem<ZoneColumn>
        requires { is_plain values.ty ≡ true }
        ensures { IfOk result (λ z. z ≡ column_stat path stat values) }
    {
        let name = field_path_stat_field_name(alloc, &path, stat)?;
        Ok(ZoneColumn {
            path,
            stat,
            name,
            values,
        })
    }

    /// The path from a column on.
    pub fn path(&self) -> &FieldPath
        ensures { result.now ≡ self.now.path }
    {
        &self.path
    }

    /// What the values are of the path's values in a block.
    pub fn stat(&self) -> Stat
        ensures { result ≡ self.now.stat }
    {
        self.stat
    }

    /// The joined name of the path and the kind.
    pub fn name(&self) -> &FieldName
        ensures { result.now ≡ joined_name self.now.path self.now.stat }
    {
        &self.name
    }

    /// The column of the values: a row for each block, null where nothing is known. Each is a value of the column's type, which is plain.
    pub fn values(&self) -> &ColumnRef
        ensures held { HoldsValuesOf self.now result.now }
        ensures many { length result.now.rows ≡ length self.now.values }
        ensures fit { scalars_fit self.now.values ≡ true }
    {
        // That each row has a value of the type is the column's own promise, which comes with its type.
        let _dtype = self.values.dtype();
        &self.values
    }

    /// The same statistic in a run of blocks, which begins at a block, counted from 0, and is so long.
    pub fn run(&self, alloc: Global, first: usize, count: usize) -> Mem<ZoneColumn>
        requires { first + count ≤ length self.now.values }
        ensures { IfOk result (λ z. z ≡ stat_run first count self.now) }
    {
        Ok(ZoneColumn {
            path: self.path.clone()?,
            stat: self.stat,
            name: self.name.clone()?,
            values: rows_between(alloc, self.values(), first, count)?,
        })
    }

    /// Whether each value is of this type.
    pub(crate) fn all_have(&self, dtype: &DType) -> bool
        ensures { result ≡ list_all (λ s. ty_eq s.ty (type_view dtype.now)) self.now.values }
    {
        let values = self.values();
        if values.len() == 0 {
            return true;
        }
        values.dtype() == dtype
    }

    /// How many blocks there is a value for.
    pub fn blocks(&self) -> usize
        ensures { result ≡ length self.now.values }
    {
        self.values().len()
    }

    /// The value in a block, counted from 0, beside the type.
    pub fn scalar_at(&self, alloc: Global, block: usize) -> Mem<Scalar>
        requires { block < length self.now.values }
        ensures { IfOk result (λ s. s ≡ slice_index_or self.now.values block s) }
    {
        let scalar = self.values().scalar_at(alloc, block)?;
        // That the value is one of its type is the scalar's own promise, which comes with its value.
        let _value = scalar.value();
        Ok(scalar)
    }

    /// The same statistic with its values one by one.
    pub(crate) fn listed(&self, alloc: Global) -> Mem<ZoneStat>
        ensures { IfOk result (λ z. stat_view z ≡ self.now) }
    {
        Ok(ZoneStat {
            path: self.path.clone()?,
            stat: self.stat,
            values: Scalars::new(self.scalars(alloc)?),
        })
    }

    /// The values one by one.
    fn scalars(&self, alloc: Global) -> Mem<Vec<Scalar>>
        ensures { IfOk result (λ values. values.items ≡ self.now.values) }
    {
        let mut values = Vec::with_capacity(alloc, self.blocks())?;
        for block in 0..self.blocks() {
            values.push(self.scalar_at(alloc, block)?)?;
        }
        Ok(values)
    }
}

/// The rows of a column of a plain type from one on, counted from 0, and so many. Where these are all, they are the column's own, which takes no copy.
pub fn rows_between(alloc: Global, whole: &ColumnRef, first: usize, count: usize) -> Mem<ColumnRef>
    requires plain { is_plain whole.now.ty ≡ true }
    requires within { first + count ≤ length whole.now.rows }
    ensures { IfOk result (λ c. c ≡ column whole.now.ty (take count (drop first whole.now.rows))) }
{
    if count == whole.len() {
        return Ok(whole.clone()?);
    }
    let values = values_between(alloc, whole, first, first + count)?;
    column_of(alloc, whole.dtype().clone()?, values)
}

/// The values of a column of a plain type from a row on, up to another one and without it.
fn values_between(
    alloc: Global,
    column: &ColumnRef,
    first: usize,
    end: usize,
) -> Mem<Vec<ScalarValue>>
    requires plain { is_plain column.now.ty ≡ true }
    requires order { first ≤ end }
    requires within { end ≤ length column.now.rows }
    ensures fit { IfOk result (λ values. values_fit column.now.ty values.items ≡ true) }
    ensures rows { IfOk result (λ values. seen_rows column.now.ty values.items ≡ slice_range column.now.rows first end) }
{
    let mut values = Vec::with_capacity(alloc, end - first)?;
    for i in first..end {
        values.push(column.value_at(i).get().clone()?)?;
    }
    Ok(values)
}
