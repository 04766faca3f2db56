// Files worked by hand: small tables and their bytes, and bytes that are refused or damaged.
#![tactic(auto, unfolding(crate::proofs::Computing::all_forms))]

ghost use Rattle.std.specs.Prelude.{◌≡◌, [], ◌∷◌, codes, None};
ghost use Rattle.vx_dtype.specs.declared.Nullability.TheVariants.{Nullable};
ghost use Rattle.vx_dtype.specs.Types.{bool_ty};
ghost use Rattle.vx_dtype.specs.Values.{null_val};
ghost use Rattle.vx_zones.specs.declared.errors.ZoneError.TheVariants.{DuplicateName};
ghost use Rattle.vx_laws_file.specs.FileForms.{IsHeader, file_bytes, content_bytes, content_of};
ghost use Rattle.vx_laws_file.specs.Opening.{IsOpened, IsRefusedFile, bad_magic, bad_header, bad_zones, bad_end};
ghost use Rattle.vx_laws_file.specs.Ranges.{IsDamaged};
ghost use Rattle.vx_laws_file.specs.HeldTables.{filler, range_values, held_blocks};
ghost use Rattle.vx_laws_file.specs.Lengths.{HasFile};
ghost use Rattle.vx_laws_file.specs.FileSamples.{number, first_zones, first_blocks, first_file, without_mark, cut_file, spoilt_range, spoilt_file};
ghost use Rattle.vx_laws_file.specs.FileSamples.{headless_file, header_of_rows, header_of_lists, no_nulls, no_nulls_filler};
ghost use Rattle.vx_laws_file.specs.FileSamples.{spoilt_content, spoilt_blocks, doubled_file, bare_zones, bare_file, kinds_zones, kinds_blocks, kinds_file};

/// The files of small tables, byte by byte.
pub fn small_tables_have_these_files()
    ensures first { file_bytes first_zones first_blocks ≡ first_file }
    ensures bare { file_bytes bare_zones ([] ∷ []) ≡ bare_file }
    ensures kinds { file_bytes kinds_zones kinds_blocks ≡ kinds_file }
{}

/// What they hold is what was written.
pub fn small_files_hold_their_tables()
    ensures first_has_file { HasFile first_zones first_blocks }
    ensures first_is_opened { IsOpened first_file (content_of first_zones first_blocks) }
    ensures first_is_held { held_blocks (content_of first_zones first_blocks) ≡ first_blocks }
    ensures kinds_have_file { HasFile kinds_zones kinds_blocks }
    ensures kinds_are_opened { IsOpened kinds_file (content_of kinds_zones kinds_blocks) }
    ensures kinds_are_held { held_blocks (content_of kinds_zones kinds_blocks) ≡ kinds_blocks }
{}

/// Another first byte, a header that is missing, a byte that is missing at the end, and two columns of one name are refused.
pub fn other_bytes_are_refused()
    ensures mark { IsRefusedFile without_mark bad_magic }
    ensures header { IsRefusedFile headless_file bad_header }
    ensures end { IsRefusedFile cut_file bad_end }
    ensures zones { IsRefusedFile doubled_file (bad_zones DuplicateName) }
{}

/// A header has 1,048,576 rows at most, and columns whose types are 64 deep at most.
pub fn headers_have_limits()
    ensures most_rows { IsHeader (header_of_rows 1048576) }
    ensures more_rows { ¬ (IsHeader (header_of_rows 1048577)) }
    ensures deepest { IsHeader (header_of_lists 63) }
    ensures deeper { ¬ (IsHeader (header_of_lists 64)) }
{}

/// A range that isn't a value of the column's type is damaged, and 0 stands in its place.
pub fn another_range_is_damaged()
    ensures bytes { content_bytes spoilt_content ≡ spoilt_file }
    ensures none { range_values number 1 spoilt_range ≡ None }
    ensures damaged { IsDamaged spoilt_content 1 (codes "x") }
    ensures held { held_blocks spoilt_content ≡ spoilt_blocks }
    ensures fillers { filler no_nulls ≡ no_nulls_filler }
    ensures null { filler (bool_ty Nullable) ≡ null_val }
{}
