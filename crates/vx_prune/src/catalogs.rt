// Catalogs of statistics: what stands for a statistic of a path, and what was asked.
ghost use Rattle.std.specs.Prelude.{◌≡◌, [], ◌∷◌, ◌++◌, List, IfOk, OnErr};
ghost use Rattle.std.specs.List.{filter};
ghost use Rattle.vx_passes.specs.Catalogs.{Catalog, every_statistic, is_alone_among, statistic_column, statistics_among};
ghost use Rattle.vx_semantics.specs.Tables.{statistic_path};
ghost use Rattle.vx_passes.specs.Falsifying.{Question};
ghost use Rattle.vx_passes.specs.PruningTables.{answered_once};
ghost use Rattle.vx_prune.specs.CatalogViews.{available_members, scope_questions, tracked_questions};
ghost use Rattle.vx_prune.specs.Required.{Requires};

use crate::available_paths::AvailablePaths;
use crate::relations::{Relation, RequiredStats};
use std::alloc::Global;
use vx_build::{get_item, root};
use vx_dtype::{FieldPath, FieldPathSet, Mem, Stat};
use vx_expr::ExprRef;
use vx_zones::{field_path_stat_field_name, statistic_path};

/// A catalog of statistics, which notes what it is asked.
pub trait StatsCatalog {
    /// The expression that stands for a statistic of a path, if there is one.
    ghost answer: { Self → Catalog };

    /// What was asked, in order.
    ghost asked: { Self → List Question };

    /// The expression that stands for a statistic of a path, None where there is none. The statistic is noted as asked. No call
    /// changes what the catalog answers, and one that lacks memory notes nothing.
    fn stats_ref(
        &mut self,
        alloc: Global,
        field_path: &FieldPath,
        stat: Stat,
    ) -> Mem<Option<ExprRef>>
        ensures same { answer self.new ≡ answer self.old }
        ensures found { IfOk result (λ found. found ≡ answer self.old field_path.now stat) }
        ensures noted { IfOk result (λ _. asked self.new ≡ asked self.old ++ (field_path.now, stat) ∷ []) }
        ensures err { OnErr result (asked self.new ≡ asked self.old) };
}

/// The catalog that answers every statistic: its column of a row of statistics, under its joined name.
#[derive(Debug, Drop)]
pub struct TrackingStatsCatalog {
    asked: Vec<(FieldPath, Stat)>,
}

impl TrackingStatsCatalog {
    /// The catalog of which nothing was asked.
    pub fn new(alloc: Global) -> TrackingStatsCatalog
        ensures { tracked_questions result ≡ [] }
    {
        TrackingStatsCatalog {
            asked: Vec::new(alloc),
        }
    }

    /// The statistics that were asked.
    pub fn into_required(self, alloc: Global) -> Mem<RequiredStats>
        ensures { IfOk result (Requires (answered_once every_statistic [] (tracked_questions self))) }
    {
        let TrackingStatsCatalog { asked } = self;
        required_by(alloc, asked)
    }
}

impl StatsCatalog for TrackingStatsCatalog {
    ghost answer = { λ _. every_statistic };

    ghost asked = { tracked_questions };

    fn stats_ref(
        &mut self,
        alloc: Global,
        field_path: &FieldPath,
        stat: Stat,
    ) -> Mem<Option<ExprRef>> {
        let column = statistic_column(alloc, field_path, stat)?;
        self.asked.push((field_path.clone()?, stat))?;
        Ok(Some(column))
    }
}

/// The catalog that answers the statistics of a set of paths: a statistic is available where its path, with its name behind, is in
/// the set, and no other path of the set has the same joined name.
#[derive(Debug, Drop)]
pub struct ScopeStatsCatalog<'a> {
    available: AvailablePaths<'a>,
    asked: Vec<(FieldPath, Stat)>,
}

impl<'a> ScopeStatsCatalog<'a> {
    /// The catalog over these available statistics, of which nothing was asked.
    pub fn new(alloc: Global, available: &'a FieldPathSet) -> ScopeStatsCatalog<'a>
        ensures members { available_members result ≡ available.now }
        ensures unasked { scope_questions result ≡ [] }
    {
        ScopeStatsCatalog {
            available: AvailablePaths::new(available),
            asked: Vec::new(alloc),
        }
    }

    /// The statistics that were asked and are available.
    pub fn into_required(self, alloc: Global) -> Mem<RequiredStats>
        ensures { IfOk result (Requires (answered_once (statistics_among (available_members self.entry)) [] (scope_questions self.entry))) }
    {
        let ScopeStatsCatalog {
            mut available,
            asked,
        } = self;
        let answered = answered(alloc, &mut available, asked)?;
        required_by(alloc, answered)
    }
}

impl<'a> StatsCatalog for ScopeStatsCatalog<'a> {
    ghost answer = { λ c. statistics_among (available_members c) };

    ghost asked = { scope_questions };

    fn stats_ref(
        &mut self,
        alloc: Global,
        field_path: &FieldPath,
        stat: Stat,
    ) -> Mem<Option<ExprRef>> {
        let column = available_column(alloc, &mut self.available, field_path, stat)?;
        self.asked.push((field_path.clone()?, stat))?;
        Ok(column)
    }
}

/// These statistics, each once.
fn required_by(alloc: Global, asked: Vec<(FieldPath, Stat)>) -> Mem<RequiredStats>
    ensures { IfOk result (Requires asked.items) }
{
    let mut required = Relation::new(alloc);
    for (path, stat) in asked {
        required.insert(path, stat)?;
    }
    Ok(required)
}

/// Those of these statistics that are available.
fn answered(
    alloc: Global,
    available: &mut AvailablePaths<'_>,
    asked: Vec<(FieldPath, Stat)>,
) -> Mem<Vec<(FieldPath, Stat)>>
    ensures { IfOk result (λ kept. kept.items ≡ filter (λ q. is_alone_among available.old (statistic_path q.0 q.1)) asked.items) }
{
    let mut kept = Vec::new(alloc);
    for (path, stat) in asked {
        if is_available(alloc, available, &path, stat)? {
            kept.push((path, stat))?;
        }
    }
    Ok(kept)
}

/// A statistic of a path as a field of the row of statistics, under its joined name.
fn statistic_column(alloc: Global, path: &FieldPath, stat: Stat) -> Mem<ExprRef>
    ensures { IfOk result (λ made. made ≡ statistic_column path.now stat) }
{
    get_item(
        alloc,
        field_path_stat_field_name(alloc, path, stat)?,
        root(alloc)?,
    )
}

/// The same where the statistic is available.
fn available_column(
    alloc: Global,
    available: &mut AvailablePaths<'_>,
    path: &FieldPath,
    stat: Stat,
) -> Mem<Option<ExprRef>>
    ensures same { available.new ≡ available.old }
    ensures made { IfOk result (λ made. made ≡ statistics_among available.old path.now stat) }
{
    if is_available(alloc, available, path, stat)? {
        return Ok(Some(statistic_column(alloc, path, stat)?));
    }
    Ok(None)
}

/// Whether a statistic is available.
fn is_available(
    alloc: Global,
    available: &mut AvailablePaths<'_>,
    path: &FieldPath,
    stat: Stat,
) -> Mem<bool>
    ensures same { available.new ≡ available.old }
    ensures alone { IfOk result (λ alone. alone ≡ is_alone_among available.old (statistic_path path.now stat)) }
{
    available.is_alone(alloc, &statistic_path(alloc, path, stat)?)
}
