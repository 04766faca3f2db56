// Opening the block files of a folder together.
ghost use Rattle.std.specs.Prelude.{◌≡◌, ◌<◌, ◌^◌, ◌∷◌, ◌++◌, [], map, length, None, IfOk, IfErr};
ghost use Rattle.std.specs.String.{string_bytes};
ghost use Rattle.vx_zones.specs.Zoning.{broken_rule};
ghost use Rattle.vx_laws_shell.specs.Paths.{WhereEachKept, WhereListed};
ghost use Rattle.vx_laws_shell.specs.FolderContents.{AreFileNames, kept_in};
ghost use Rattle.vx_laws_shell.specs.Paths.{WhereKept};
ghost use Rattle.vx_file_open.specs.Layouts.{IsFileWith};
ghost use Rattle.vx_folder.specs.PathViews.{kept_by, paths_by, listed_view};
ghost use Rattle.vx_folder.specs.FolderStates.{IsNewFolder, WhereHeld, IsKeptFolder};
ghost use Rattle.vx_folder.specs.FolderParts.{AreParts, held_of, parts_view};
ghost use Rattle.vx_folder.specs.FolderAnswers.{OpensFolder, HoldsFiles, IsRefusedFolder, AreRefused};
ghost use Rattle.vx_folder.specs.FolderTables.{HasPlaces, IsTableOfFolder, table_view};
ghost use Rattle.vx_folder.specs.FolderAnswers.{IsUnlisted, IsHeaderFault, gathered_zones, AreGathered, IsLawful, GathersNext};

use crate::errors::{FileFault, FolderError};
use crate::folders::Folder;
use crate::gathering::{Gathered, zones_of};
use crate::names::file_names;
use crate::part_files::{PartFile, open_part};
use crate::parts::FolderParts;
use crate::tables::FolderTable;
use std::alloc::Global;
use vx_file_open::Layout;
use vx_files::{Files, OpenError};

/// As many blocks as fewer than which a store has.
const MOST_BLOCKS: usize = 1 << 32;

/// Opens the block files in the folder of a path, which ends in `/`, as one store: those whose names end in `.vxb`, in the ascending order of their names'
/// bytes. It reads the header of each, one file after another, so that at most one is open at a time, then and when they are read.
///
/// Where it is known what stands in the folder and what each file is, the folder holds what the files hold together; and it is refused, but for want of memory
/// and for a read that failed, exactly where [`FolderError`] says.
pub fn open_folder<'f, F: Files>(
    alloc: Global,
    files: &'f F,
    path: &str,
) -> Result<Folder<'f, F>, FolderError>
    ensures opened { IfOk result (OpensFolder (paths_by (F.kept files.now) (F.listed files.now)) path.now) }
    ensures new { IfOk result IsNewFolder }
    ensures kept { IfOk result (λ folder. WhereHeld folder.content (IsKeptFolder folder)) }
    ensures refused { IfErr result (IsRefusedFolder (paths_by (F.kept files.now) (F.listed files.now)) path.now) }
{
    let names = listed_names(alloc, files, path)?;
    let parts = opened_parts(alloc, files, path, names)?;
    Ok(Folder::of_parts(parts))
}

/// Reads the headers of the block files in the folder of a path, which ends in `/`, and answers them as one table. It opens the files and refuses them as
/// [`open_folder`] does.
///
/// Where it is known what stands in the folder and what each file is, the table is what the files hold together.
pub fn folder_table<F: Files>(
    alloc: Global,
    files: &F,
    path: &str,
) -> Result<FolderTable, FolderError>
    ensures table { IfOk result (λ table. IsTableOfFolder (paths_by (F.kept files.now) (F.listed files.now)) path.now (table_view table)) }
    ensures places { IfOk result (λ table. HasPlaces (table_view table)) }
    ensures refused { IfErr result (IsRefusedFolder (paths_by (F.kept files.now) (F.listed files.now)) path.now) }
{
    let names = listed_names(alloc, files, path)?;
    let table = table_of(alloc, files, path, names)?;
    Ok(table)
}

/// The names of the block files in a folder.
fn listed_names<F: Files>(alloc: Global, files: &F, path: &str) -> Result<Vec<String>, FolderError>
    ensures listed { IfOk result (λ names.
        WhereListed (listed_view (F.listed files.now path.now)) (λ listed. AreFileNames listed (map string_bytes names.items))) }
    ensures refused { IfErr result (IsUnlisted (listed_view (F.listed files.now path.now))) }
{
    match files.list(path) {
        Ok(listed) => Ok(file_names(alloc, listed)?),
        Err(OpenError::NoMemory) => Err(FolderError::NoMemory),
        Err(OpenError::NotOpened) => Err(FolderError::NotListed),
    }
}

/// The parts of a folder whose block files have these names.
fn opened_parts<'f, F: Files>(
    alloc: Global,
    files: &'f F,
    path: &str,
    names: Vec<String>,
) -> Result<FolderParts<'f, F>, FolderError>
    ensures parts { IfOk result (λ parts. AreParts (parts_view (F.kept files.now) parts)) }
    ensures same { IfOk result (λ parts. parts.files.now ≡ files.now) }
    ensures holds { IfOk result (λ parts. WhereEachKept (kept_in (kept_by (F.kept files.now)) path.now (map string_bytes names.items))
        (HoldsFiles (held_of (parts_view (F.kept files.now) parts)))) }
    ensures refused { IfErr result (AreRefused (kept_by (F.kept files.now)) path.now (map string_bytes names.items)) }
{
    let table = table_of(alloc, files, path, names)?;
    let FolderTable {
        names,
        begins,
        zones,
    } = table;
    Ok(FolderParts {
        alloc,
        files,
        folder: String::from_str(alloc, path)?,
        names,
        begins,
        zones,
    })
}

/// The block files of these names in a folder as one table.
fn table_of<F: Files>(
    alloc: Global,
    files: &F,
    path: &str,
    names: Vec<String>,
) -> Result<FolderTable, FolderError>
    ensures names { IfOk result (λ table. table.names.items ≡ names.items) }
    ensures gathered { IfOk result (λ table. WhereEachKept (kept_in (kept_by (F.kept files.now)) path.now (map string_bytes names.items))
        (AreGathered table.zones table.begins.items)) }
    ensures places { IfOk result (λ table. HasPlaces (table_view table)) }
    ensures few { IfOk result (λ table. length table.zones.lengths < 2 ^ 32) }
    ensures refused { IfErr result (AreRefused (kept_by (F.kept files.now)) path.now (map string_bytes names.items)) }
{
    let gathered = gathered_files(alloc, files, path, names.as_slice())?;
    if gathered.lengths.len() >= MOST_BLOCKS {
        return Err(FolderError::TooManyBlocks);
    }
    let (zones, begins) = zones_of(alloc, gathered)?;
    Ok(FolderTable {
        names,
        begins,
        zones,
    })
}

/// The statistics of the block files of these names in a folder, as those of one table.
fn gathered_files<F: Files>(
    alloc: Global,
    files: &F,
    path: &str,
    names: &[String],
) -> Result<Gathered, FolderError>
    ensures lawful { IfOk result (λ gathered. IsLawful gathered (length names.now)) }
    ensures gathered { IfOk result (λ gathered. WhereEachKept (kept_in (kept_by (F.kept files.now)) path.now (map string_bytes names.now))
        (AreGathered (gathered_zones gathered) gathered.begins.items)) }
    ensures refused { IfErr result (AreRefused (kept_by (F.kept files.now)) path.now (map string_bytes names.now)) }
{
    if names.is_empty() {
        return Err(FolderError::NoFile);
    }
    let first = read_header(alloc, files, path, names[0].as_str())?;
    let mut gathered = Gathered::of_first(alloc, first.zones())?;
    for i in 1..names.len() {
        gather(alloc, files, path, names[i].as_str(), &mut gathered)?;
    }
    Ok(gathered)
}

/// Puts the file of a name behind those so far, with which it has to be alike.
fn gather<F: Files>(
    alloc: Global,
    files: &F,
    path: &str,
    name: &str,
    gathered: &mut Gathered,
) -> Result<(), FolderError>
    requires lawful { broken_rule (gathered_zones gathered.old) ≡ None }
    ensures lawful { IfOk result (λ _. broken_rule (gathered_zones gathered.new) ≡ None) }
    ensures begins { IfOk result (λ _. gathered.new.begins.items ≡ gathered.old.begins.items ++ length gathered.old.lengths.items ∷ []) }
    ensures gathers { GathersNext (kept_by (F.kept files.now) (path.now ++ name.now)) name.now
        (gathered_zones gathered.old) (gathered_zones gathered.new) result }
{
    let layout = read_header(alloc, files, path, name)?;
    if !gathered.is_alike(layout.zones()) {
        return Err(FolderError::Unlike(String::from_str(alloc, name)?));
    }
    gathered.add(alloc, layout.zones())?;
    Ok(())
}

/// The layout of the file of a name in a folder, which isn't left open.
fn read_header<F: Files>(
    alloc: Global,
    files: &F,
    path: &str,
    name: &str,
) -> Result<Layout, FolderError>
    ensures file { IfOk result (λ layout. WhereKept (kept_by (F.kept files.now) (path.now ++ name.now)) (IsFileWith layout)) }
    ensures refused { IfErr result (IsHeaderFault (kept_by (F.kept files.now) (path.now ++ name.now)) name.now) }
{
    match open_part(alloc, files, path, name) {
        Ok(PartFile { source: _, layout }) => Ok(layout),
        Err(FileFault::NoMemory) => Err(FolderError::NoMemory),
        Err(FileFault::ReadFault) => Err(FolderError::ReadFault),
        Err(FileFault::NotOpened) => Err(FolderError::NotOpened(String::from_str(alloc, name)?)),
        Err(FileFault::NoBlockFile(error)) => {
            Err(FolderError::NoBlockFile(String::from_str(alloc, name)?, error))
        }
    }
}
