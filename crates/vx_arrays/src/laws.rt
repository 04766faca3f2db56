// Laws of bitmaps and of columns that are told.
ghost use Rattle.std.specs.Prelude.{◌≡◌, ℕ, Bool, true, false, List, [], ◌∷◌, length, map, slice_index_or, Ok};
ghost use Rattle.vx_dtype.specs.declared.Nullability.{Nullability};
ghost use Rattle.vx_dtype.specs.Types.{Bytes, Ty, bool_ty};
ghost use Rattle.vx_dtype.specs.Values.{bool_val};
ghost use Rattle.vx_column.specs.Columns.{Column, column};
ghost use Rattle.vx_column.specs.StructColumns.{column_types, all_have_rows};
ghost use Rattle.vx_arrays.specs.Arrays.{arrays_told};
ghost use Rattle.vx_arrays.specs.Bitmaps.{bytes_for, bit_at, bitmap_of};

/// A bitmap has a byte for each eight truths, and one for those that are left.
pub fn eight_a_byte()
    ensures { (flags : List Bool) → length (bitmap_of flags) ≡ bytes_for (length flags) }
{}

/// The bit of a bitmap at a place is the truth there, and 0 behind the last.
pub fn bits_are_truths()
    ensures { (flags : List Bool) (i : ℕ) → bit_at (bitmap_of flags) i ≡ slice_index_or flags i false }
{}

/// A column of booleans whose values are a bitmap of truths, and whose validity has no bytes, has these truths.
pub fn bitmap_is_read()
    ensures { (n : Nullability) (flags : List Bool)
        → arrays_told (bool_ty n ∷ []) (length flags) (bitmap_of flags) (0 ∷ 0 ∷ 0 ∷ length (bitmap_of flags) ∷ [])
        ≡ Ok (column (bool_ty n) (map bool_val flags) ∷ []) }
{}

/// The columns that are told are of the types that are asked for, in order, and each has so many rows.
pub fn columns_are_as_asked()
    ensures { (ts : List Ty) (rows : ℕ) (body : Bytes) (buffers : List ℕ) (cs : List Column)
        → arrays_told ts rows body buffers ≡ Ok cs → (column_types cs ≡ ts) × (all_have_rows rows cs ≡ true) }
{}
