//! Catalogs: one of the test's own, and each call of the crate's.
ghost use Rattle.std.specs.Prelude.{Some, pos};
ghost use Rattle.vx_dtype.specs.Types.{int_ty};
ghost use Rattle.vx_dtype.specs.declared.Nullability.TheVariants.{NonNullable};
ghost use Rattle.vx_dtype.specs.declared.PType.TheVariants.{U64};
ghost use Rattle.vx_dtype.specs.Values.{raw_int};
ghost use Rattle.vx_expr.specs.Trees.{literal};

use crate::pruning::statistic;
use crate::samples::{above_ten, col, name};
use std::alloc::Global;
use std::collections::{HashMap, HashSet};
use std::test::Fail;
use vx_build::lit;
use vx_dtype::{FieldPath, FieldPathSet, Mem, Stat};
use vx_expr::ExprRef;
use vx_prune::{
    AnalysisExpr, Relation, RequiredStats, ScopeStatsCatalog, StatsCatalog, TrackingStatsCatalog,
    field_path_stat_field_name,
};

/// A catalog that answers 7 to whatever it is asked.
#[derive(Drop)]
struct Sevens {
    asked: Vec<(FieldPath, Stat)>,
}

impl StatsCatalog for Sevens {
    ghost answer = { λ _ path stat. Some (literal (record { ty = int_ty U64 NonNullable; value = raw_int (pos 7) })) };

    ghost asked = { λ c. c.asked.items };

    fn stats_ref(
        &mut self,
        alloc: Global,
        field_path: &FieldPath,
        stat: Stat,
    ) -> Mem<Option<ExprRef>> {
        let seven = lit(alloc, 7u64)?;
        self.asked.push((field_path.clone()?, stat))?;
        Ok(Some(seven))
    }
}

/// The falsification of an expression by a catalog, or `-`.
fn falsified(alloc: Global, expr: ExprRef, sevens: &mut Sevens) -> Mem<String> {
    match expr.stat_falsification(alloc, sevens)? {
        Some(falsified) => Ok(format!(in alloc; "{falsified}")?),
        None => Ok(String::from_str(alloc, "-")?),
    }
}

#[test]
fn a_catalog_of_constants(rt: HostRuntime) -> Result<(), Fail> {
    let alloc = rt.alloc();
    let asked = Vec::new(alloc);
    let mut sevens = Sevens { asked };
    let text = falsified(alloc, above_ten(alloc, "a")?, &mut sevens)?;
    assert!(rt; text.as_str() == "((7u64 = 0u64) and (7u64 <= 10i32))");
    assert!(rt; sevens.asked.len() == 2);
    Ok(())
}

/// A statistic of the field `a` in a catalog that has every statistic, and how many paths are required then.
fn tracked(alloc: Global, stat: Stat) -> Mem<(Option<ExprRef>, usize)> {
    let mut every = TrackingStatsCatalog::new(alloc);
    let found = found_in(alloc, &mut every, stat)?;
    Ok((found, every.into_required(alloc)?.map().len()))
}

/// The same in a catalog that has its greatest value alone.
fn scoped(alloc: Global, stat: Stat) -> Mem<(Option<ExprRef>, usize)> {
    let mut available = FieldPathSet::new(alloc);
    available.insert(statistic(alloc, "max")?)?;
    scoped_in(alloc, &available, stat)
}

/// The same in a catalog that has these statistics.
fn scoped_in(alloc: Global, available: &FieldPathSet, stat: Stat) -> Mem<(Option<ExprRef>, usize)> {
    let mut scope = ScopeStatsCatalog::new(alloc, available);
    let found = found_in(alloc, &mut scope, stat)?;
    Ok((found, scope.into_required(alloc)?.map().len()))
}

/// A statistic of the field `a` in a catalog.
fn found_in<C: StatsCatalog>(alloc: Global, catalog: &mut C, stat: Stat) -> Mem<Option<ExprRef>> {
    let a = col(alloc, "a")?;
    match stat {
        Stat::Max => a.max(alloc, catalog),
        Stat::Min => a.min(alloc, catalog),
        Stat::NaNCount => a.nan_count(alloc, catalog),
        Stat::NullCount => a.null_count(alloc, catalog),
    }
}

/// Whether a statistic is found, and its path required.
fn is_found(found: (Option<ExprRef>, usize)) -> bool {
    found.0.is_some() && found.1 == 1
}

#[test]
fn statistics_of_every_kind(rt: HostRuntime) -> Result<(), Fail> {
    let alloc = rt.alloc();
    for stat in [Stat::Max, Stat::Min, Stat::NaNCount, Stat::NullCount] {
        assert!(rt; is_found(tracked(alloc, stat)?));
    }
    Ok(())
}

#[test]
fn statistics_in_scope(rt: HostRuntime) -> Result<(), Fail> {
    let alloc = rt.alloc();
    assert!(rt; is_found(scoped(alloc, Stat::Max)?));
    let missing = scoped(alloc, Stat::Min)?;
    assert!(rt; missing.0.is_none());
    assert!(rt; missing.1 == 0);
    Ok(())
}

#[test]
fn paths(rt: HostRuntime) -> Result<(), Fail> {
    let alloc = rt.alloc();
    assert!(rt; col(alloc, "a")?.field_path(alloc)?.is_some());
    let joined = field_path_stat_field_name(alloc, &statistic(alloc, "b")?, Stat::Min)?;
    assert!(rt; joined.as_str() == "a_b_min");
    Ok(())
}

#[test]
fn relations(rt: HostRuntime) -> Result<(), Fail> {
    let alloc = rt.alloc();
    let mut relation: RequiredStats = Relation::new(alloc);
    relation.insert(FieldPath::from_name(alloc, name(alloc, "a")?)?, Stat::Max)?;
    assert!(rt; relation.map().len() == 1);
    Ok(())
}

/// The numbers 2 and 3.
fn two_and_three(alloc: Global) -> Mem<HashSet<u64>> {
    let mut values = HashSet::new(alloc);
    values.insert(2u64)?;
    values.insert(3u64)?;
    Ok(values)
}

/// The map from 1 to these numbers.
fn one_to(alloc: Global, values: HashSet<u64>) -> Mem<HashMap<u64, HashSet<u64>>> {
    let mut map = HashMap::new(alloc);
    map.insert(1u64, values)?;
    Ok(map)
}

/// How many values stand beside the number 1 in the relation of a map from 1 to the numbers 2 and 3.
fn values_beside_one(alloc: Global) -> Mem<usize> {
    let relation = Relation::from_map(one_to(alloc, two_and_three(alloc)?)?);
    Ok(match relation.map().get(&1) {
        Some(beside) => beside.len(),
        None => 0,
    })
}

#[test]
fn a_map_is_a_relation(rt: HostRuntime) -> Result<(), Fail> {
    assert!(rt; values_beside_one(rt.alloc())? == 2);
    Ok(())
}

/// How many keys a copy of a relation without pairs has.
fn copied_keys(alloc: Global) -> Mem<usize> {
    let relation: RequiredStats = Relation::new(alloc);
    Ok(relation.clone()?.map().len())
}

#[test]
fn ample(rt: HostRuntime) -> Result<(), Fail> {
    assert!(rt; copied_keys(rt.alloc())? == 0);
    Ok(())
}
