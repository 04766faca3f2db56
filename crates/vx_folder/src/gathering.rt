// The statistics of files that are opened one after another, as those of one table.
ghost use Rattle.std.specs.Prelude.{◌≡◌, ◌∷◌, ◌++◌, ◌^◌, ◌<◌, ◌≤◌, [], None, Decides, length, map, Ok, Err, IfOk, IfErr, OnOk};
ghost use Rattle.vx_laws_stats.specs.BuiltLaws.{path_and_stat};
ghost use Rattle.vx_zones.specs.Zoning.{broken_rule};
ghost use Rattle.vx_zones.specs.ZoneViews.{stat_view};
ghost use Rattle.vx_zones.specs.declared.errors.ZoneError.TheVariants.{NoMemory as OutOfMemory};
ghost use Rattle.vx_laws_shell.specs.Folders.{stats_before, zones_before};
ghost use Rattle.vx_folder.specs.FolderAnswers.{AreOfForm, growing_view, gathered_zones};

use std::alloc::Global;
use vx_dtype::{FieldPath, Mem, NoMemory, Scalar, Stat, StructFields};
use vx_tables::columns_of;
use vx_zones::{Scalars, ZoneColumn, ZoneError, ZoneMap, ZoneStat};

/// A statistic with its values in the blocks of the files so far.
#[derive(Drop)]
pub(crate) struct GrowingStat {
    path: FieldPath,
    stat: Stat,
    values: Vec<Scalar>,
}

/// The statistics of the files so far as one, and how many blocks stand before those of each.
#[derive(Drop)]
pub(crate) struct Gathered {
    columns: StructFields,
    pub(crate) lengths: Vec<u32>,
    stats: Vec<GrowingStat>,
    pub(crate) begins: Vec<usize>,
}

impl Gathered {
    /// The statistics of a first file.
    pub(crate) fn of_first(alloc: Global, zones: &ZoneMap) -> Mem<Gathered>
        ensures zones { IfOk result (λ gathered. gathered_zones gathered ≡ zones.now) }
        ensures rules { IfOk result (λ _. broken_rule zones.now ≡ None) }
        ensures begins { IfOk result (λ gathered. gathered.begins.items ≡ 0 ∷ []) }
    {
        let mut begins = Vec::new(alloc);
        begins.push(0)?;
        Ok(Gathered {
            columns: columns_of(zones).clone()?,
            lengths: Vec::from_slice(alloc, zones.lengths())?,
            stats: growing_stats(alloc, zones.stats(alloc)?.as_slice())?,
            begins,
        })
    }

    /// Whether a file with these statistics has the columns of those so far, and statistics of the same paths and kinds.
    pub(crate) fn is_alike(&self, zones: &ZoneMap) -> bool
        ensures { Decides result (AreOfForm (gathered_zones self.now) zones.now) }
    {
        if columns_of(zones) != &self.columns {
            return false;
        }
        are_alike(self.stats.as_slice(), zones.statistics())
    }

    /// Puts the blocks of a file behind those of the files so far, which are alike.
    pub(crate) fn add(&mut self, alloc: Global, zones: &ZoneMap) -> Mem<()>
        requires { AreOfForm (gathered_zones self.old) zones.now }
        ensures zones { OnOk result (gathered_zones self.new ≡ zones_before (gathered_zones self.old) zones.now) }
        ensures rules { OnOk result (broken_rule (gathered_zones self.old) ≡ None → broken_rule (gathered_zones self.new) ≡ None) }
        ensures begins { OnOk result (self.new.begins.items ≡ self.old.begins.items ++ length self.old.lengths.items ∷ []) }
    {
        self.begins.push(self.lengths.len())?;
        self.lengths.extend_from_slice(zones.lengths())?;
        let stats = zones.stats(alloc)?;
        add_stats(alloc, &mut self.stats, stats.as_slice())
    }
}

/// The statistics of a first file, to grow.
fn growing_stats(alloc: Global, stats: &[ZoneStat]) -> Mem<Vec<GrowingStat>>
    ensures { IfOk result (λ growing. map growing_view growing.items ≡ map stat_view stats.now) }
{
    let mut growing = Vec::with_capacity(alloc, stats.len())?;
    for i in 0..stats.len() {
        growing.push(growing_stat(alloc, &stats[i])?)?;
    }
    Ok(growing)
}

/// A statistic of a first file, to grow.
fn growing_stat(alloc: Global, stat: &ZoneStat) -> Mem<GrowingStat>
    ensures { IfOk result (λ growing. growing_view growing ≡ stat_view stat.now) }
{
    Ok(GrowingStat {
        path: stat.path.clone()?,
        stat: stat.stat,
        values: Vec::from_clones(alloc, stat.values.as_slice())?,
    })
}

/// Whether statistics are of the same paths and kinds, in the same order.
fn are_alike(growing: &[GrowingStat], stats: &[ZoneColumn]) -> bool
    ensures { Decides result (map path_and_stat stats.now ≡ map path_and_stat (map growing_view growing.now)) }
{
    if growing.len() != stats.len() {
        return false;
    }
    for i in 0..stats.len() {
        if !is_alike(&growing[i], &stats[i]) {
            return false;
        }
    }
    true
}

/// Whether a statistic is of the same path and kind.
fn is_alike(growing: &GrowingStat, stat: &ZoneColumn) -> bool
    ensures { Decides result (path_and_stat stat.now ≡ path_and_stat (growing_view growing.now)) }
{
    if stat.path() != &growing.path {
        return false;
    }
    stat.stat() == growing.stat
}

/// Puts the values of the statistics of a file behind those so far.
fn add_stats(alloc: Global, growing: &mut Vec<GrowingStat>, stats: &[ZoneStat]) -> Mem<()>
    requires { length growing.old.items ≡ length stats.now }
    ensures { OnOk result (map growing_view growing.new.items ≡ stats_before (map growing_view growing.old.items) (map stat_view stats.now)) }
{
    for i in 0..stats.len() {
        add_values(alloc, &mut growing[i], stats[i].values.as_slice())?;
    }
    Ok(())
}

/// Puts values behind those of a statistic so far.
fn add_values(alloc: Global, growing: &mut GrowingStat, values: &[Scalar]) -> Mem<()>
    ensures path { growing.new.path ≡ growing.old.path }
    ensures stat { growing.new.stat ≡ growing.old.stat }
    ensures values { OnOk result (growing.new.values.items ≡ growing.old.values.items ++ values.now) }
{
    let mut more = Vec::from_clones(alloc, values)?;
    growing.values.append(&mut more)?;
    Ok(())
}

/// The statistics of files, which break no rule, as zones, and how many blocks stand before those of each file.
pub(crate) fn zones_of(alloc: Global, gathered: Gathered) -> Mem<(ZoneMap, Vec<usize>)>
    requires few { length gathered.lengths.items < 2 ^ 32 }
    requires rules { broken_rule (gathered_zones gathered) ≡ None }
    ensures zones { IfOk result (λ made. made.0 ≡ gathered_zones gathered) }
    ensures begins { IfOk result (λ made. made.1.items ≡ gathered.begins.items) }
{
    let Gathered {
        columns,
        lengths,
        stats,
        begins,
    } = gathered;
    let stats = held_stats(alloc, stats)?;
    let zones = made(ZoneMap::try_new(alloc, columns, lengths, stats))?;
    Ok((zones, begins))
}

/// Statistics that don't grow any more.
fn held_stats(alloc: Global, growing: Vec<GrowingStat>) -> Mem<Vec<ZoneStat>>
    ensures { IfOk result (λ stats. map stat_view stats.items ≡ map growing_view growing.items) }
{
    let mut stats = Vec::with_capacity(alloc, growing.len())?;
    for stat in growing {
        stats.push(held_stat(stat))?;
    }
    Ok(stats)
}

/// A statistic that doesn't grow any more.
fn held_stat(growing: GrowingStat) -> ZoneStat
    ensures { stat_view result ≡ growing_view growing }
{
    let GrowingStat { path, stat, values } = growing;
    ZoneStat {
        path,
        stat,
        values: Scalars::new(values),
    }
}

/// The zones that were made, where nothing but want of memory can be in the way.
fn made(answer: Result<ZoneMap, ZoneError>) -> Mem<ZoneMap>
    requires { IfErr answer (λ e. e ≡ OutOfMemory) }
    ensures { IfOk result (λ zones. answer ≡ Ok zones) }
{
    match answer {
        Ok(zones) => Ok(zones),
        Err(ZoneError::NoMemory) => Err(NoMemory),
        Err(ZoneError::DuplicateName) => unreachable!(),
        Err(ZoneError::DeepType) => unreachable!(),
        Err(ZoneError::BadStatPath) => unreachable!(),
        Err(ZoneError::DuplicateStat) => unreachable!(),
        Err(ZoneError::WrongStatCount) => unreachable!(),
        Err(ZoneError::WrongStatType) => unreachable!(),
    }
}
