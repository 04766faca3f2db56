// What statistics tell of expressions.
ghost use Rattle.std.specs.Prelude.{◌≡◌, IfOk};
ghost use Rattle.vx_dtype.specs.declared.Stat.{Stat};
ghost use Rattle.vx_expr.specs.Trees.{Tree};
ghost use Rattle.vx_semantics.specs.Paths.{path_of};
ghost use Rattle.vx_passes.specs.Falsifying.{bound_of, count_of, falsified};
ghost use Rattle.vx_prune.specs.Finding.{Finds};

use crate::bounds;
use crate::catalogs::StatsCatalog;
use crate::falsify::falsified;
use std::alloc::Global;
use vx_dtype::{FieldPath, Mem, Stat};
use vx_expr::ExprRef;

/// Expressions that a catalog of statistics is asked about.
pub trait AnalysisExpr {
    ghost tree: { Self → Tree };

    /// The falsification of a filter: an expression over statistics that is true only where the filter is true at no row, None where
    /// the statistics tell of none. Asking stops at the first bound that is missing, where the rule needs it.
    fn stat_falsification<C: StatsCatalog>(
        &self,
        alloc: Global,
        catalog: &mut C,
    ) -> Mem<Option<ExprRef>>
        ensures { Finds C.answer C.asked (λ known. falsified known (tree self.now)) catalog.old catalog.new result };

    /// The greatest value: of a constant itself, of a path what the catalog answers.
    fn max<C: StatsCatalog>(&self, alloc: Global, catalog: &mut C) -> Mem<Option<ExprRef>>
        ensures { Finds C.answer C.asked (λ known. bound_of known Stat.Max (tree self.now)) catalog.old catalog.new result };

    /// The least value: of a constant itself, of a path what the catalog answers.
    fn min<C: StatsCatalog>(&self, alloc: Global, catalog: &mut C) -> Mem<Option<ExprRef>>
        ensures { Finds C.answer C.asked (λ known. bound_of known Stat.Min (tree self.now)) catalog.old catalog.new result };

    /// How many values are not a number: of a path what the catalog answers, else none.
    fn nan_count<C: StatsCatalog>(&self, alloc: Global, catalog: &mut C) -> Mem<Option<ExprRef>>
        ensures { Finds C.answer C.asked (λ known. count_of known Stat.NaNCount (tree self.now)) catalog.old catalog.new result };

    /// How many values are null: of a path what the catalog answers, else none.
    fn null_count<C: StatsCatalog>(&self, alloc: Global, catalog: &mut C) -> Mem<Option<ExprRef>>
        ensures { Finds C.answer C.asked (λ known. count_of known Stat.NullCount (tree self.now)) catalog.old catalog.new result };

    /// The path that the expression is, None where it is no chain of field accesses over the row.
    fn field_path(&self, alloc: Global) -> Mem<Option<FieldPath>>
        ensures { IfOk result (λ path. path ≡ path_of (tree self.now)) };
}

impl AnalysisExpr for ExprRef {
    ghost tree = { λ e. e };

    fn stat_falsification<C: StatsCatalog>(
        &self,
        alloc: Global,
        catalog: &mut C,
    ) -> Mem<Option<ExprRef>> {
        falsified(alloc, self, catalog)
    }

    fn max<C: StatsCatalog>(&self, alloc: Global, catalog: &mut C) -> Mem<Option<ExprRef>> {
        bounds::bound(alloc, self, Stat::Max, catalog)
    }

    fn min<C: StatsCatalog>(&self, alloc: Global, catalog: &mut C) -> Mem<Option<ExprRef>> {
        bounds::bound(alloc, self, Stat::Min, catalog)
    }

    fn nan_count<C: StatsCatalog>(&self, alloc: Global, catalog: &mut C) -> Mem<Option<ExprRef>> {
        bounds::count(alloc, self, Stat::NaNCount, catalog)
    }

    fn null_count<C: StatsCatalog>(&self, alloc: Global, catalog: &mut C) -> Mem<Option<ExprRef>> {
        bounds::count(alloc, self, Stat::NullCount, catalog)
    }

    fn field_path(&self, alloc: Global) -> Mem<Option<FieldPath>> {
        bounds::field_path(alloc, self)
    }
}
