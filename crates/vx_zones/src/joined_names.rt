// The joined names of paths and of their statistics.
ghost use Rattle.std.specs.Prelude.{◌≡◌, IfOk};
ghost use Rattle.std.specs.String.{string_bytes};
ghost use Rattle.vx_dtype.specs.PathViews.{part_name};
ghost use Rattle.vx_semantics.specs.Tables.{joined_name, statistic_path, joined_path};
ghost use Rattle.vx_zones.specs.Separators.{separator_at};

use std::alloc::Global;
use vx_dtype::{Field, FieldName, FieldPath, Mem, Stat};

/// The joined name of a statistic of a path: the path's names and the statistic's, with `_` between. Two paths may have one joined
/// name, as `a_b` and `a`.`b` do.
pub fn field_path_stat_field_name(alloc: Global, path: &FieldPath, stat: Stat) -> Mem<FieldName>
    ensures { IfOk result (λ name. name ≡ joined_name path.now stat) }
{
    joined_name(alloc, &statistic_path(alloc, path, stat)?)
}

/// The joined name of a path: its names with `_` between.
pub fn joined_name(alloc: Global, path: &FieldPath) -> Mem<FieldName>
    ensures { IfOk result (λ name. name ≡ joined_path path.now) }
{
    FieldName::new(alloc, joined_path(alloc, path)?.as_str())
}

/// A statistic as a path: the path and, behind it, the statistic's name.
pub fn statistic_path(alloc: Global, path: &FieldPath, stat: Stat) -> Mem<FieldPath>
    ensures { IfOk result (λ whole. whole ≡ statistic_path path.now stat) }
{
    path.push(alloc, FieldName::new(alloc, stat.name())?)
}

/// The names of a path with `_` between.
fn joined_path(alloc: Global, path: &FieldPath) -> Mem<String>
    ensures { IfOk result (λ joined. string_bytes joined ≡ joined_path path.now) }
{
    let parts = path.parts();
    let mut joined = String::new(alloc);
    for i in 0..parts.len() {
        joined.push_str(separator(i))?;
        joined.push_str(name_of(&parts[i]).as_str())?;
    }
    Ok(joined)
}

/// What stands before the name at this place of a path.
fn separator(i: usize) -> &'static str
    ensures { result.now ≡ separator_at i }
{
    match i {
        0 => "",
        _ => "_",
    }
}

/// The name that a part of a path is.
fn name_of(part: &Field) -> &FieldName
    ensures { result.now ≡ part_name part.now }
{
    let Field::Name(name) = part;
    name
}
