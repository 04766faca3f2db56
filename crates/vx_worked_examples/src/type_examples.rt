// The rules on types, the values that a type has, and when types, values, scalars and paths are the same: worked by hand.
#![tactic(auto, unfolding(crate::proofs::Computing::all_definitions))]

ghost use Rattle.std.specs.Prelude.{◌≡◌, [], ◌∷◌, ◌++◌, codes, pos, negsuc, map, replicate, true, false, Some, None, Err};
ghost use Rattle.vx_dtype.specs.declared.PType.TheVariants.{U8, U16, I8, I32, I64};
ghost use Rattle.vx_dtype.specs.declared.Nullability.TheVariants.{NonNullable, Nullable};
ghost use Rattle.vx_dtype.specs.Types.{bool_ty, int_ty, text_ty, list_ty, struct_ty, no_fields, field};
ghost use Rattle.vx_dtype.specs.TypeRules.{union, nullability_of, with_nullability, widened, same_ptype, alike, is_plain, is_bool_ty, is_int_ty};
ghost use Rattle.vx_dtype.specs.TypeRules.{is_text_ty, no_name_twice, depth_of};
ghost use Rattle.vx_dtype.specs.Values.{raw_null, raw_bool, raw_int, raw_text, raw_list, raw_struct, no_raws, raw, null_val, bool_val, int_val, text_val};
ghost use Rattle.vx_dtype.specs.Values.{list_val, struct_val, fault, no_vals, val, no_members, member, valued};
ghost use Rattle.vx_dtype.specs.Fits.{fits, val_fits, fits_but_for_faults, holds_fault};
ghost use Rattle.vx_dtype.specs.Structs.{first_names};
ghost use Rattle.vx_dtype.specs.Equal.{same_nullability, ty_eq, raw_eq, typed_eq};
ghost use Rattle.vx_dtype.specs.Paths.{has_path, distinct_paths, with_path};
ghost use Rattle.vx_expr.specs.declared.Operator.TheVariants.{Eq, NotEq, Gt, Gte, Lt, Lte, And, Or, Add, Sub};
ghost use Rattle.vx_expr.specs.Operators.{operator_number, comparison_of, operator_of, inverse_of, logical_inverse_of, swapped};
ghost use Rattle.vx_expr.specs.Conjuncts.{conjuncts_of};
ghost use Rattle.vx_expr.specs.Trees.{merge, pack, no_trees};
ghost use Rattle.vx_semantics.specs.Typing.{not_struct, type_or_empty};
ghost use Rattle.vx_semantics.specs.Slots.{held_fits, slots_fit};
ghost use Rattle.vx_worked_examples.specs.Samples.{col, ◌⟨◌⟩◌, only, alone, operators, comparisons as all_comparisons, kinds_of_types, integer_types};
ghost use Rattle.vx_worked_examples.specs.Samples.{each_fits};
ghost use Rattle.vx_worked_examples.specs.Kinds.{raws};

/// How deep types are.
pub fn measures_depth()
    ensures plain { map depth_of (bool_ty NonNullable ∷ int_ty I32 Nullable ∷ text_ty NonNullable ∷ []) ≡ 1 ∷ 1 ∷ 1 ∷ [] }
    ensures list { depth_of (list_ty (bool_ty NonNullable) NonNullable) ≡ 2 }
    ensures list_of_lists { depth_of (list_ty (list_ty (bool_ty NonNullable) NonNullable) NonNullable) ≡ 3 }
    ensures empty { depth_of (struct_ty no_fields NonNullable) ≡ 1 }
    ensures one { depth_of (struct_ty (only "a" (bool_ty NonNullable)) NonNullable) ≡ 2 }
    ensures deepest_first { depth_of
        (struct_ty (field (codes "a") (list_ty (bool_ty NonNullable) NonNullable) (only "b" (bool_ty NonNullable))) NonNullable)
        ≡ 3 }
    ensures deepest_last { depth_of
        (struct_ty (field (codes "a") (bool_ty NonNullable) (only "b" (list_ty (bool_ty NonNullable) NonNullable))) NonNullable)
        ≡ 3 }
{}

/// Each integer type is the same as itself alone.
pub fn tells_integer_types_apart()
    ensures { map (λ p. map (same_ptype p) integer_types) integer_types ≡
        (true ∷ replicate 7 false)
        ∷ (false ∷ true ∷ replicate 6 false)
        ∷ (replicate 2 false ++ (true ∷ replicate 5 false))
        ∷ (replicate 3 false ++ (true ∷ replicate 4 false))
        ∷ (replicate 4 false ++ (true ∷ replicate 3 false))
        ∷ (replicate 5 false ++ (true ∷ replicate 2 false))
        ∷ (replicate 6 false ++ (true ∷ false ∷ []))
        ∷ (replicate 7 false ++ (true ∷ []))
        ∷ [] }
{}

/// Each type is the same as itself alone, whatever is nullable.
pub fn finds_types_alike()
    ensures each { map (λ t. map (alike t) kinds_of_types) kinds_of_types ≡
        (true ∷ replicate 8 false)
        ∷ (false ∷ true ∷ replicate 7 false)
        ∷ (replicate 2 false ++ (true ∷ replicate 6 false))
        ∷ (replicate 3 false ++ (true ∷ replicate 5 false))
        ∷ (replicate 4 false ++ (true ∷ replicate 4 false))
        ∷ (replicate 5 false ++ (true ∷ replicate 3 false))
        ∷ (replicate 6 false ++ (true ∷ replicate 2 false))
        ∷ (replicate 7 false ++ (true ∷ false ∷ []))
        ∷ (replicate 8 false ++ (true ∷ []))
        ∷ [] }
    ensures nullable { map (λ t. alike t (with_nullability t Nullable)) kinds_of_types ≡ replicate 9 true }
    ensures nullable_below { alike (struct_ty (only "a" (list_ty (int_ty I32 Nullable) Nullable)) NonNullable)
        (struct_ty (only "a" (list_ty (int_ty I32 NonNullable) NonNullable)) Nullable)
        ≡ true }
    ensures another_field { alike (struct_ty (only "a" (bool_ty NonNullable)) NonNullable)
        (struct_ty (only "a" (text_ty NonNullable)) NonNullable)
        ≡ false }
    ensures another_last_field { alike (struct_ty (field (codes "a") (bool_ty NonNullable) (only "b" (bool_ty NonNullable))) NonNullable)
        (struct_ty (field (codes "a") (bool_ty NonNullable) (only "b" (text_ty NonNullable))) NonNullable)
        ≡ false }
{}

/// Which types are of which kind.
pub fn sorts_types()
    ensures plain { map is_plain kinds_of_types ≡ replicate 4 true ++ replicate 5 false }
    ensures booleans { map is_bool_ty kinds_of_types ≡ true ∷ replicate 8 false }
    ensures numbers { map is_int_ty kinds_of_types ≡ false ∷ true ∷ true ∷ replicate 6 false }
    ensures texts { map is_text_ty kinds_of_types ≡ replicate 3 false ++ (true ∷ replicate 5 false) }
{}

/// Nullability: its union, and that of types.
pub fn joins_nullabilities()
    ensures union { map (λ n. map (union n) (NonNullable ∷ Nullable ∷ [])) (NonNullable ∷ Nullable ∷ [])
        ≡ (NonNullable ∷ Nullable ∷ []) ∷ (Nullable ∷ Nullable ∷ []) ∷ [] }
    ensures none { map nullability_of kinds_of_types ≡ replicate 9 NonNullable }
    ensures set { map (λ t. nullability_of (with_nullability t Nullable)) kinds_of_types ≡ replicate 9 Nullable }
    ensures set_back { map (λ t. with_nullability (with_nullability t Nullable) NonNullable) kinds_of_types ≡ kinds_of_types }
    ensures widened_by { map (λ t. widened t Nullable) kinds_of_types ≡ map (λ t. with_nullability t Nullable) kinds_of_types }
    ensures widened_none { map (λ t. widened t NonNullable) kinds_of_types ≡ kinds_of_types }
    ensures stays_nullable { widened (bool_ty Nullable) NonNullable ≡ bool_ty Nullable }
{}

/// Names that stand twice in a struct, at any depth.
pub fn finds_names_that_stand_twice()
    ensures none { map no_name_twice kinds_of_types ≡ replicate 9 true }
    ensures next { no_name_twice (struct_ty (field (codes "a") (bool_ty NonNullable) (only "a" (text_ty NonNullable))) NonNullable) ≡ false }
    ensures apart { no_name_twice
        (struct_ty (field (codes "a") (bool_ty NonNullable) (field (codes "b") (bool_ty NonNullable) (only "a" (text_ty NonNullable))))
        NonNullable)
        ≡ false }
    ensures in_two_structs { no_name_twice
        (struct_ty
        (field (codes "a") (struct_ty (only "a" (bool_ty NonNullable)) NonNullable)
        (only "b" (struct_ty (only "a" (bool_ty NonNullable)) NonNullable)))
        NonNullable)
        ≡ true }
    ensures in_the_first_field { no_name_twice
        (struct_ty
        (field (codes "a") (struct_ty (field (codes "c") (bool_ty NonNullable) (only "c" (bool_ty NonNullable))) NonNullable)
        (only "b" (bool_ty NonNullable)))
        NonNullable)
        ≡ false }
    ensures in_the_last_field { no_name_twice
        (struct_ty
        (field (codes "b") (bool_ty NonNullable)
        (only "a" (struct_ty (field (codes "c") (bool_ty NonNullable) (only "c" (bool_ty NonNullable))) NonNullable)))
        NonNullable)
        ≡ false }
    ensures in_a_list { no_name_twice
        (list_ty (struct_ty (field (codes "c") (bool_ty NonNullable) (only "c" (bool_ty NonNullable))) NonNullable) NonNullable)
        ≡ false }
    ensures first_appearance { first_names (codes "b" ∷ codes "a" ∷ codes "b" ∷ codes "c" ∷ codes "a" ∷ []) ≡ codes "b" ∷ codes "a" ∷ codes "c" ∷ [] }
{}

/// The value that a raw value stands for at a type; of another shape it is a fault.
pub fn gives_values_their_types()
    ensures null { valued raw_null (int_ty I32 Nullable) ≡ null_val }
    ensures boolean { valued (raw_bool true) (bool_ty NonNullable) ≡ bool_val true }
    ensures number { valued (raw_int (pos 5)) (int_ty U16 NonNullable) ≡ int_val U16 (pos 5) }
    ensures word { valued (raw_text (codes "a")) (text_ty NonNullable) ≡ text_val (codes "a") }
    ensures list { valued (raw_list (raw (raw_int (pos 5)) (raw raw_null no_raws))) (list_ty (int_ty I8 Nullable) NonNullable)
        ≡ list_val (val (int_val I8 (pos 5)) (val null_val no_vals)) }
    ensures members { valued (raw_struct (raw (raw_int (pos 5)) (raw (raw_bool false) no_raws)))
        (struct_ty (field (codes "a") (int_ty I8 NonNullable) (only "b" (bool_ty NonNullable))) NonNullable)
        ≡ struct_val (member (codes "a") (int_val I8 (pos 5)) (member (codes "b") (bool_val false) no_members)) }
    ensures fewer_fields { valued (raw_struct (raw (raw_int (pos 5)) (raw (raw_bool false) no_raws)))
        (struct_ty (only "a" (int_ty I8 NonNullable)) NonNullable)
        ≡ fault }
    ensures boolean_elsewhere { map (valued (raw_bool true)) kinds_of_types ≡ bool_val true ∷ replicate 8 fault }
    ensures number_elsewhere { map (valued (raw_int (pos 5))) kinds_of_types ≡ fault ∷ int_val I32 (pos 5) ∷ int_val I64 (pos 5) ∷ replicate 6 fault }
    ensures word_elsewhere { map (valued (raw_text (codes "a"))) kinds_of_types ≡ replicate 3 fault ++ (text_val (codes "a") ∷ replicate 5 fault) }
    ensures list_elsewhere { map (valued (raw_list no_raws)) kinds_of_types
        ≡ replicate 4 fault ++ (list_val no_vals ∷ list_val no_vals ∷ replicate 3 fault) }
    ensures struct_elsewhere { map (valued (raw_struct no_raws)) kinds_of_types ≡ replicate 6 fault ++ (struct_val no_members ∷ replicate 2 fault) }
{}

/// Which raw values a type has: a number in its range, null where it is nullable, one value per field.
pub fn fits_raw_values()
    ensures null { map (fits raw_null) kinds_of_types ≡ replicate 9 false }
    ensures nullable { map (λ t. fits raw_null (with_nullability t Nullable)) kinds_of_types ≡ replicate 9 true }
    ensures boolean { map (fits (raw_bool true)) kinds_of_types ≡ true ∷ replicate 8 false }
    ensures number { map (fits (raw_int (pos 5))) kinds_of_types ≡ false ∷ true ∷ true ∷ replicate 6 false }
    ensures word { map (fits (raw_text (codes "a"))) kinds_of_types ≡ replicate 3 false ++ (true ∷ replicate 5 false) }
    ensures empty_list { map (fits (raw_list no_raws)) kinds_of_types ≡ replicate 4 false ++ (true ∷ true ∷ replicate 3 false) }
    ensures no_values { map (fits (raw_struct no_raws)) kinds_of_types ≡ replicate 6 false ++ (true ∷ false ∷ false ∷ []) }
    ensures elements { fits (raw_list (raw (raw_int (pos 5)) (raw (raw_int (negsuc 5)) no_raws))) (list_ty (int_ty I8 NonNullable) NonNullable) ≡ true }
    ensures null_first { fits (raw_list (raw raw_null (raw (raw_int (pos 5)) no_raws))) (list_ty (int_ty I8 NonNullable) NonNullable) ≡ false }
    ensures null_last { fits (raw_list (raw (raw_int (pos 5)) (raw raw_null no_raws))) (list_ty (int_ty I8 NonNullable) NonNullable) ≡ false }
    ensures members { fits (raw_struct (raw (raw_int (pos 5)) (raw (raw_bool false) no_raws)))
        (struct_ty (field (codes "a") (int_ty I8 NonNullable) (only "b" (bool_ty NonNullable))) NonNullable)
        ≡ true }
    ensures other_first { fits (raw_struct (raw (raw_bool true) (raw (raw_bool false) no_raws)))
        (struct_ty (field (codes "a") (int_ty I8 NonNullable) (only "b" (bool_ty NonNullable))) NonNullable)
        ≡ false }
    ensures other_last { fits (raw_struct (raw (raw_int (pos 5)) (raw (raw_int (pos 5)) no_raws)))
        (struct_ty (field (codes "a") (int_ty I8 NonNullable) (only "b" (bool_ty NonNullable))) NonNullable)
        ≡ false }
    ensures more_values { fits (raw_struct (raw (raw_int (pos 5)) (raw (raw_int (pos 5)) no_raws)))
        (struct_ty (only "a" (int_ty I8 NonNullable)) NonNullable)
        ≡ false }
    ensures greatest { each_fits integer_types
        (pos 255 ∷ pos 65535 ∷ pos 4294967295 ∷ pos 18446744073709551615 ∷ pos 127 ∷ pos 32767 ∷ pos 2147483647 ∷ pos 9223372036854775807
        ∷ [])
        ≡ replicate 8 true }
    ensures above { each_fits integer_types
        (pos 256 ∷ pos 65536 ∷ pos 4294967296 ∷ pos 18446744073709551616 ∷ pos 128 ∷ pos 32768 ∷ pos 2147483648 ∷ pos 9223372036854775808
        ∷ [])
        ≡ replicate 8 false }
    ensures least { each_fits integer_types
        (pos 0 ∷ pos 0 ∷ pos 0 ∷ pos 0 ∷ negsuc 127 ∷ negsuc 32767 ∷ negsuc 2147483647 ∷ negsuc 9223372036854775807 ∷ [])
        ≡ replicate 8 true }
    ensures below { each_fits integer_types
        (negsuc 0 ∷ negsuc 0 ∷ negsuc 0 ∷ negsuc 0 ∷ negsuc 128 ∷ negsuc 32768 ∷ negsuc 2147483648 ∷ negsuc 9223372036854775808 ∷ [])
        ≡ replicate 8 false }
{}

/// Which values a type has: of its integer type, with its names in order, and with no fault in them.
pub fn fits_values()
    ensures null { map (val_fits null_val) kinds_of_types ≡ replicate 9 false }
    ensures nullable { map (λ t. val_fits null_val (with_nullability t Nullable)) kinds_of_types ≡ replicate 9 true }
    ensures boolean { map (val_fits (bool_val true)) kinds_of_types ≡ true ∷ replicate 8 false }
    ensures number { map (val_fits (int_val I32 (pos 5))) kinds_of_types ≡ false ∷ true ∷ replicate 7 false }
    ensures out_of_range { val_fits (int_val U8 (pos 256)) (int_ty U8 NonNullable) ≡ false }
    ensures word { map (val_fits (text_val (codes "a"))) kinds_of_types ≡ replicate 3 false ++ (true ∷ replicate 5 false) }
    ensures empty_list { map (val_fits (list_val no_vals)) kinds_of_types ≡ replicate 4 false ++ (true ∷ true ∷ replicate 3 false) }
    ensures no_members { map (val_fits (struct_val no_members)) kinds_of_types ≡ replicate 6 false ++ (true ∷ false ∷ false ∷ []) }
    ensures broken { map (val_fits fault) kinds_of_types ≡ replicate 9 false }
    ensures elements { val_fits (list_val (val (int_val I8 (pos 5)) (val null_val no_vals))) (list_ty (int_ty I8 Nullable) NonNullable) ≡ true }
    ensures other_first { val_fits (list_val (val (bool_val true) (val null_val no_vals))) (list_ty (int_ty I8 Nullable) NonNullable) ≡ false }
    ensures other_last { val_fits (list_val (val null_val (val (bool_val true) no_vals))) (list_ty (int_ty I8 Nullable) NonNullable) ≡ false }
    ensures named { val_fits (alone "a" (bool_val true)) (struct_ty (only "a" (bool_ty NonNullable)) NonNullable) ≡ true }
    ensures misnamed { val_fits (alone "b" (bool_val true)) (struct_ty (only "a" (bool_ty NonNullable)) NonNullable) ≡ false }
    ensures other_member { val_fits (alone "a" (text_val [])) (struct_ty (only "a" (bool_ty NonNullable)) NonNullable) ≡ false }
    ensures more_members { val_fits (struct_val (member (codes "a") (bool_val true) (member (codes "b") (bool_val true) no_members)))
        (struct_ty (only "a" (bool_ty NonNullable)) NonNullable)
        ≡ false }
    ensures last_member { val_fits (struct_val (member (codes "a") (bool_val true) (member (codes "b") (bool_val true) no_members)))
        (struct_ty (field (codes "a") (bool_ty NonNullable) (only "b" (text_ty NonNullable))) NonNullable)
        ≡ false }
{}

/// The same with faults in place of plain values: a fault is one of each plain type, and of no list and no struct.
pub fn fits_values_but_for_faults()
    ensures null { map (fits_but_for_faults null_val) kinds_of_types ≡ replicate 9 false }
    ensures nullable { map (λ t. fits_but_for_faults null_val (with_nullability t Nullable)) kinds_of_types ≡ replicate 9 true }
    ensures boolean { map (fits_but_for_faults (bool_val true)) kinds_of_types ≡ true ∷ replicate 8 false }
    ensures number { map (fits_but_for_faults (int_val I32 (pos 5))) kinds_of_types ≡ false ∷ true ∷ replicate 7 false }
    ensures word { map (fits_but_for_faults (text_val (codes "a"))) kinds_of_types ≡ replicate 3 false ++ (true ∷ replicate 5 false) }
    ensures empty_list { map (fits_but_for_faults (list_val no_vals)) kinds_of_types ≡ replicate 4 false ++ (true ∷ true ∷ replicate 3 false) }
    ensures no_members { map (fits_but_for_faults (struct_val no_members)) kinds_of_types ≡ replicate 6 false ++ (true ∷ false ∷ false ∷ []) }
    ensures broken { map (fits_but_for_faults fault) kinds_of_types ≡ replicate 4 true ++ replicate 5 false }
    ensures elements { fits_but_for_faults (list_val (val (int_val I8 (pos 5)) (val fault no_vals))) (list_ty (int_ty I8 NonNullable) NonNullable) ≡ true }
    ensures other_first { fits_but_for_faults (list_val (val (bool_val true) (val fault no_vals))) (list_ty (int_ty I8 NonNullable) NonNullable) ≡ false }
    ensures other_last { fits_but_for_faults (list_val (val fault (val (bool_val true) no_vals))) (list_ty (int_ty I8 NonNullable) NonNullable) ≡ false }
    ensures named { fits_but_for_faults (alone "a" fault) (struct_ty (only "a" (bool_ty NonNullable)) NonNullable) ≡ true }
    ensures misnamed { fits_but_for_faults (alone "b" fault) (struct_ty (only "a" (bool_ty NonNullable)) NonNullable) ≡ false }
    ensures other_member { fits_but_for_faults (alone "a" (text_val [])) (struct_ty (only "a" (bool_ty NonNullable)) NonNullable) ≡ false }
    ensures more_members { fits_but_for_faults (struct_val (member (codes "a") fault (member (codes "b") fault no_members)))
        (struct_ty (only "a" (bool_ty NonNullable)) NonNullable)
        ≡ false }
    ensures last_member { fits_but_for_faults (struct_val (member (codes "a") fault (member (codes "b") (bool_val true) no_members)))
        (struct_ty (field (codes "a") (bool_ty NonNullable) (only "b" (text_ty NonNullable))) NonNullable)
        ≡ false }
{}

/// Faults, at any depth.
pub fn finds_faults()
    ensures plain { map holds_fault
        (fault ∷ null_val ∷ bool_val true ∷ int_val I32 (pos 1) ∷ text_val [] ∷ list_val no_vals ∷ struct_val no_members ∷ [])
        ≡ true ∷ replicate 6 false }
    ensures first { holds_fault (list_val (val fault (val null_val no_vals))) ≡ true }
    ensures last { holds_fault (list_val (val null_val (val fault no_vals))) ≡ true }
    ensures none { holds_fault (list_val (val null_val no_vals)) ≡ false }
    ensures first_member { holds_fault (struct_val (member (codes "a") fault (member (codes "b") null_val no_members))) ≡ true }
    ensures last_member { holds_fault (struct_val (member (codes "a") null_val (member (codes "b") fault no_members))) ≡ true }
    ensures no_member { holds_fault (alone "a" null_val) ≡ false }
    ensures below { holds_fault (alone "a" (list_val (val fault no_vals))) ≡ true }
{}

/// The operators by number, and their tables.
pub fn tabulates_operators()
    ensures numbers { map operator_number operators ≡ 0 ∷ 1 ∷ 2 ∷ 3 ∷ 4 ∷ 5 ∷ 6 ∷ 7 ∷ 8 ∷ 9 ∷ [] }
    ensures of_comparisons { map operator_of all_comparisons ≡ Eq ∷ NotEq ∷ Gt ∷ Gte ∷ Lt ∷ Lte ∷ [] }
    ensures as_comparisons { map comparison_of operators ≡ map Some all_comparisons ++ replicate 4 None }
    ensures inverses { map inverse_of operators ≡ (Some NotEq ∷ Some Eq ∷ Some Lte ∷ Some Lt ∷ Some Gte ∷ Some Gt ∷ []) ++ replicate 4 None }
    ensures logical_inverses { map logical_inverse_of operators ≡ replicate 6 None ++ (Some Or ∷ Some And ∷ None ∷ None ∷ []) }
    ensures exchanged { map swapped operators ≡ Eq ∷ NotEq ∷ Lt ∷ Lte ∷ Gt ∷ Gte ∷ And ∷ Or ∷ Add ∷ Sub ∷ [] }
{}

/// Conjuncts from left to right, through both sides and no other operator.
pub fn lists_conjuncts()
    ensures { conjuncts_of ((col "a" ⟨ And ⟩ col "b") ⟨ And ⟩ ((col "c" ⟨ Or ⟩ col "d") ⟨ And ⟩ col "e"))
        ≡ col "a" ∷ col "b" ∷ (col "c" ⟨ Or ⟩ col "d") ∷ col "e" ∷ [] }
{}

/// Types are equal but for nullability in each part, of lists of lists and of every field.
pub fn compares_types_in_each_part()
    ensures lists { alike (list_ty (list_ty (int_ty I32 NonNullable) NonNullable) NonNullable)
        (list_ty (list_ty (int_ty I32 Nullable) Nullable) NonNullable)
        ≡ true }
    ensures elements { alike (list_ty (int_ty I32 NonNullable) NonNullable) (list_ty (int_ty I64 NonNullable) NonNullable) ≡ false }
    ensures last_field { alike (struct_ty (field (codes "a") (int_ty I32 NonNullable) (only "b" (int_ty I32 NonNullable))) NonNullable)
        (struct_ty (field (codes "a") (int_ty I32 NonNullable) (only "b" (int_ty I32 Nullable))) NonNullable)
        ≡ true }
{}

/// A list of a type holds values of its element type alone.
pub fn fits_elements()
    ensures other { fits (raw_list (raw (raw_bool true) no_raws)) (list_ty (int_ty I32 NonNullable) NonNullable) ≡ false }
    ensures last { fits (raw_list (raw (raw_int (pos 1)) (raw (raw_bool true) no_raws))) (list_ty (int_ty I32 NonNullable) NonNullable) ≡ false }
    ensures null { fits (raw_list (raw raw_null no_raws)) (list_ty (int_ty I32 NonNullable) NonNullable) ≡ false }
{}

/// No part of a value that fits is a fault, wherever it stands; but for faults in place of plain values it may fit.
pub fn fits_without_faults()
    ensures element { val_fits (list_val (val fault no_vals)) (list_ty (int_ty I32 NonNullable) NonNullable) ≡ false }
    ensures last_element { val_fits (list_val (val (int_val I32 (pos 1)) (val fault no_vals))) (list_ty (int_ty I32 NonNullable) NonNullable) ≡ false }
    ensures member { val_fits (struct_val (member (codes "a") fault (member (codes "b") (int_val I32 (pos 1)) no_members)))
        (struct_ty (field (codes "a") (int_ty I32 NonNullable) (only "b" (int_ty I32 NonNullable))) NonNullable)
        ≡ false }
    ensures last_member { val_fits (struct_val (member (codes "a") (int_val I32 (pos 1)) (member (codes "b") fault no_members)))
        (struct_ty (field (codes "a") (int_ty I32 NonNullable) (only "b" (int_ty I32 NonNullable))) NonNullable)
        ≡ false }
    ensures but_for_the_element { fits_but_for_faults (list_val (val fault no_vals)) (list_ty (int_ty I32 NonNullable) NonNullable) ≡ true }
    ensures but_for_the_last_element { fits_but_for_faults (list_val (val (int_val I32 (pos 1)) (val fault no_vals)))
        (list_ty (int_ty I32 NonNullable) NonNullable)
        ≡ true }
    ensures but_for_the_member { fits_but_for_faults
        (struct_val (member (codes "a") fault (member (codes "b") (int_val I32 (pos 1)) no_members)))
        (struct_ty (field (codes "a") (int_ty I32 NonNullable) (only "b" (int_ty I32 NonNullable))) NonNullable)
        ≡ true }
    ensures but_for_the_last_member { fits_but_for_faults
        (struct_val (member (codes "a") (int_val I32 (pos 1)) (member (codes "b") fault no_members)))
        (struct_ty (field (codes "a") (int_ty I32 NonNullable) (only "b" (int_ty I32 NonNullable))) NonNullable)
        ≡ true }
{}

/// A fault is held at any depth.
pub fn holds_faults_at_any_depth()
    ensures list_of_lists { holds_fault (list_val (val (list_val (val fault no_vals)) no_vals)) ≡ true }
    ensures list_of_structs { holds_fault (list_val (val (alone "a" fault) no_vals)) ≡ true }
{}

/// What has no type gives no field: its type counts as the struct without fields, not nullable.
pub fn counts_no_type_as_the_empty_struct()
    ensures { type_or_empty (Err not_struct) ≡ struct_ty no_fields NonNullable }
{}

/// A slot may hold a constant of an equal type of other nullability, also of a list; a null within fits where the constant's own type has it.
pub fn holds_constants_of_equal_types()
    ensures nullable { held_fits (Some (record { ty = int_ty I32 Nullable; value = raw_int (pos 5) })) (int_ty I32 NonNullable) ≡ true }
    ensures list { held_fits (Some (record { ty = (list_ty (int_ty I32 NonNullable) NonNullable); value = raw_list no_raws }))
        (list_ty (int_ty I32 NonNullable) NonNullable)
        ≡ true }
    ensures null_within { held_fits
        (Some (record { ty = list_ty (int_ty I32 Nullable) NonNullable; value = raw_list (raw raw_null no_raws) }))
        (list_ty (int_ty I32 NonNullable) NonNullable)
        ≡ true }
    ensures null { held_fits (Some (record { ty = int_ty I32 Nullable; value = raw_null })) (int_ty I32 NonNullable) ≡ false }
    ensures no_parts { slots_fit [] (pack [] no_trees NonNullable) ≡ true }
    ensures no_structs { slots_fit [] (merge no_trees NonNullable) ≡ true }
{}

/// Each type is the same as itself alone.
pub fn tells_types_apart()
    ensures kinds { map (λ t. map (ty_eq t) kinds_of_types) kinds_of_types
        ≡ (true ∷ replicate 8 false) ∷ (false ∷ true ∷ replicate 7 false) ∷ (replicate 2 false ++ (true ∷ replicate 6 false))
        ∷ (replicate 3 false ++ (true ∷ replicate 5 false)) ∷ (replicate 4 false ++ (true ∷ replicate 4 false))
        ∷ (replicate 5 false ++ (true ∷ replicate 3 false)) ∷ (replicate 6 false ++ (true ∷ replicate 2 false))
        ∷ (replicate 7 false ++ (true ∷ false ∷ [])) ∷ (replicate 8 false ++ (true ∷ [])) ∷ [] }
    ensures integers { map (λ p. map (λ q. ty_eq (int_ty p NonNullable) (int_ty q NonNullable)) integer_types) integer_types
        ≡ (true ∷ replicate 7 false) ∷ (false ∷ true ∷ replicate 6 false) ∷ (replicate 2 false ++ (true ∷ replicate 5 false))
        ∷ (replicate 3 false ++ (true ∷ replicate 4 false)) ∷ (replicate 4 false ++ (true ∷ replicate 3 false))
        ∷ (replicate 5 false ++ (true ∷ replicate 2 false)) ∷ (replicate 6 false ++ (true ∷ false ∷ []))
        ∷ (replicate 7 false ++ (true ∷ [])) ∷ [] }
    ensures nullabilities { map (λ n. map (same_nullability n) (NonNullable ∷ Nullable ∷ [])) (NonNullable ∷ Nullable ∷ [])
        ≡ (true ∷ false ∷ []) ∷ (false ∷ true ∷ []) ∷ [] }
    ensures nullable { map (λ t. ty_eq t (with_nullability t Nullable)) kinds_of_types ≡ replicate 9 false }
    ensures both_nullable { map (λ t. ty_eq (with_nullability t Nullable) (with_nullability t Nullable)) kinds_of_types ≡ replicate 9 true }
    ensures nullable_elements { ty_eq (list_ty (int_ty I32 Nullable) NonNullable) (list_ty (int_ty I32 NonNullable) NonNullable) ≡ false }
    ensures lists_of_lists { ty_eq (list_ty (list_ty (int_ty I32 Nullable) NonNullable) NonNullable)
        (list_ty (list_ty (int_ty I32 Nullable) NonNullable) NonNullable)
        ≡ true }
{}

/// Struct types are the same where each field is, its name and its type, nullability included.
pub fn tells_struct_types_apart()
    ensures same { ty_eq (struct_ty (field (codes "a") (int_ty I32 NonNullable) (only "b" (int_ty I32 NonNullable))) NonNullable)
        (struct_ty (field (codes "a") (int_ty I32 NonNullable) (only "b" (int_ty I32 NonNullable))) NonNullable)
        ≡ true }
    ensures nested { ty_eq
        (struct_ty (only "s" (struct_ty (field (codes "a") (int_ty I32 NonNullable) (only "b" (int_ty I32 NonNullable))) Nullable))
        NonNullable)
        (struct_ty (only "s" (struct_ty (field (codes "a") (int_ty I32 NonNullable) (only "b" (int_ty I32 NonNullable))) Nullable))
        NonNullable)
        ≡ true }
    ensures fewer { ty_eq (struct_ty (field (codes "a") (int_ty I32 NonNullable) (only "b" (int_ty I32 NonNullable))) NonNullable)
        (struct_ty (only "a" (int_ty I32 NonNullable)) NonNullable)
        ≡ false }
    ensures more { ty_eq (struct_ty (only "a" (int_ty I32 NonNullable)) NonNullable)
        (struct_ty (field (codes "a") (int_ty I32 NonNullable) (only "b" (int_ty I32 NonNullable))) NonNullable)
        ≡ false }
    ensures first_nullable { ty_eq (struct_ty (field (codes "a") (int_ty I32 NonNullable) (only "b" (int_ty I32 NonNullable))) NonNullable)
        (struct_ty (field (codes "a") (int_ty I32 Nullable) (only "b" (int_ty I32 NonNullable))) NonNullable)
        ≡ false }
    ensures last_nullable { ty_eq (struct_ty (field (codes "a") (int_ty I32 NonNullable) (only "b" (int_ty I32 NonNullable))) NonNullable)
        (struct_ty (field (codes "a") (int_ty I32 NonNullable) (only "b" (int_ty I32 Nullable))) NonNullable)
        ≡ false }
    ensures first_integer { ty_eq (struct_ty (field (codes "a") (int_ty I32 NonNullable) (only "b" (int_ty I32 NonNullable))) NonNullable)
        (struct_ty (field (codes "a") (int_ty I64 NonNullable) (only "b" (int_ty I32 NonNullable))) NonNullable)
        ≡ false }
    ensures last_integer { ty_eq (struct_ty (field (codes "a") (int_ty I32 NonNullable) (only "b" (int_ty I32 NonNullable))) NonNullable)
        (struct_ty (field (codes "a") (int_ty I32 NonNullable) (only "b" (int_ty I64 NonNullable))) NonNullable)
        ≡ false }
    ensures last_name { ty_eq (struct_ty (field (codes "a") (int_ty I32 NonNullable) (only "b" (int_ty I32 NonNullable))) NonNullable)
        (struct_ty (field (codes "a") (int_ty I32 NonNullable) (only "c" (int_ty I32 NonNullable))) NonNullable)
        ≡ false }
    ensures first_name { ty_eq (struct_ty (field (codes "a") (int_ty I32 NonNullable) (only "b" (int_ty I32 NonNullable))) NonNullable)
        (struct_ty (field (codes "c") (int_ty I32 NonNullable) (only "b" (int_ty I32 NonNullable))) NonNullable)
        ≡ false }
{}

/// Each raw value is the same as itself alone, and a scalar where both its type and its value are.
pub fn tells_raw_values_apart()
    ensures kinds { map (λ x. map (raw_eq x) raws) raws
        ≡ (true ∷ replicate 13 false) ∷ (false ∷ true ∷ replicate 12 false) ∷ (replicate 2 false ++ (true ∷ replicate 11 false))
        ∷ (replicate 3 false ++ (true ∷ replicate 10 false)) ∷ (replicate 4 false ++ (true ∷ replicate 9 false))
        ∷ (replicate 5 false ++ (true ∷ replicate 8 false)) ∷ (replicate 6 false ++ (true ∷ replicate 7 false))
        ∷ (replicate 7 false ++ (true ∷ replicate 6 false)) ∷ (replicate 8 false ++ (true ∷ replicate 5 false))
        ∷ (replicate 9 false ++ (true ∷ replicate 4 false)) ∷ (replicate 10 false ++ (true ∷ replicate 3 false))
        ∷ (replicate 11 false ++ (true ∷ replicate 2 false)) ∷ (replicate 12 false ++ (true ∷ false ∷ []))
        ∷ (replicate 13 false ++ (true ∷ [])) ∷ [] }
    ensures same { typed_eq (record { ty = int_ty I32 Nullable; value = raw_int (pos 1) })
        (record { ty = int_ty I32 Nullable; value = raw_int (pos 1) })
        ≡ true }
    ensures other_type { typed_eq (record { ty = int_ty I32 Nullable; value = raw_int (pos 1) })
        (record { ty = int_ty I32 NonNullable; value = raw_int (pos 1) })
        ≡ false }
    ensures other_integer { typed_eq (record { ty = list_ty (int_ty I64 Nullable) Nullable; value = raw_null })
        (record { ty = list_ty (int_ty I32 Nullable) Nullable; value = raw_null })
        ≡ false }
    ensures other_value { typed_eq (record { ty = int_ty I32 Nullable; value = raw_int (pos 1) })
        (record { ty = int_ty I32 Nullable; value = raw_int (pos 2) })
        ≡ false }
    ensures same_list { typed_eq (record { ty = list_ty (bool_ty Nullable) Nullable; value = raw_null })
        (record { ty = list_ty (bool_ty Nullable) Nullable; value = raw_null })
        ≡ true }
{}

/// A path is among others where one has its names; a set of paths has each once, in order of insertion.
pub fn keeps_paths_once()
    ensures there { has_path (codes "b" ∷ []) ((codes "a" ∷ []) ∷ (codes "b" ∷ []) ∷ []) ≡ true }
    ensures missing { has_path (codes "c" ∷ []) ((codes "a" ∷ []) ∷ (codes "b" ∷ []) ∷ []) ≡ false }
    ensures beginning { has_path (codes "a" ∷ []) ((codes "a" ∷ codes "b" ∷ []) ∷ []) ≡ false }
    ensures distinct { distinct_paths ((codes "a" ∷ []) ∷ (codes "b" ∷ []) ∷ []) ≡ true }
    ensures twice { distinct_paths ((codes "a" ∷ []) ∷ (codes "b" ∷ []) ∷ (codes "a" ∷ []) ∷ []) ≡ false }
    ensures last_twice { distinct_paths ((codes "a" ∷ []) ∷ (codes "b" ∷ []) ∷ (codes "b" ∷ []) ∷ []) ≡ false }
    ensures added { with_path (codes "c" ∷ []) ((codes "a" ∷ []) ∷ (codes "b" ∷ []) ∷ []) ≡ (codes "a" ∷ []) ∷ (codes "b" ∷ []) ∷ (codes "c" ∷ []) ∷ [] }
    ensures kept { with_path (codes "a" ∷ []) ((codes "a" ∷ []) ∷ (codes "b" ∷ []) ∷ []) ≡ (codes "a" ∷ []) ∷ (codes "b" ∷ []) ∷ [] }
{}
