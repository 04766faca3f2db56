// Expressions over the rows of columns, with their types, and operands that are collected: worked by hand.
#![tactic(auto, unfolding(crate::proofs::Computing::all_definitions))]

ghost use Rattle.std.specs.Prelude.{◌≡◌, [], ◌∷◌, codes, pos, map, replicate, true, false, Some, None, Ok, Err};
ghost use Rattle.vx_dtype.specs.declared.PType.TheVariants.{I32, I64, U32, U64};
ghost use Rattle.vx_dtype.specs.declared.Nullability.TheVariants.{NonNullable, Nullable};
ghost use Rattle.vx_dtype.specs.declared.StrictComparison.TheVariants.{Strict, NonStrict};
ghost use Rattle.vx_dtype.specs.Types.{bool_ty, int_ty, text_ty, list_ty, struct_ty, no_fields, field};
ghost use Rattle.vx_dtype.specs.Values.{null_val, bool_val, int_val, text_val, list_val, struct_val, fault, no_members, member, no_vals, val};
ghost use Rattle.vx_expr.specs.declared.Operator.TheVariants.{And, Or, Add};
ghost use Rattle.vx_expr.specs.Trees.{root, not_of, is_null_of, between, cast, list_contains, pack, merge, tree, no_trees};
ghost use Rattle.vx_build.specs.Collectors.{joined_right, joined_left};
ghost use Rattle.vx_semantics.specs.Typing.{typed_of, type_mismatch, unknown_field};
ghost use Rattle.vx_worked_examples.specs.Samples.{col, number, quoted, ◌⟨◌⟩◌, alone, only, numbers, rows_of_numbers, number_or_null, pack_two};
ghost use Rattle.vx_worked_examples.specs.Samples.{ends, mean_of, values_over, negated, numbers_in, row_of_two, two_fields};

/// A negation at each row.
pub fn negates_each_row()
    ensures types { typed_of (bool_ty NonNullable) (not_of root) ≡ Ok (bool_ty NonNullable) }
    ensures values { values_over (bool_ty NonNullable) (map bool_val (false ∷ true ∷ false ∷ false ∷ true ∷ true ∷ [])) (not_of root)
        ≡ map bool_val (true ∷ false ∷ true ∷ true ∷ false ∷ false ∷ []) }
{}

/// A null test is true at null alone, and not nullable, of a whole row and of a column.
pub fn tests_each_row_for_null()
    ensures types { typed_of (int_ty I32 Nullable) (is_null_of root) ≡ Ok (bool_ty NonNullable) }
    ensures values { values_over (int_ty I32 Nullable)
        (map number_or_null (Some (pos 1) ∷ None ∷ Some (pos 2) ∷ None ∷ Some (pos 3) ∷ [])) (is_null_of root)
        ≡ map bool_val (false ∷ true ∷ false ∷ true ∷ false ∷ []) }
    ensures column_type { typed_of (struct_ty (only "nullable_col" (int_ty I32 Nullable)) NonNullable) (is_null_of (col "nullable_col"))
        ≡ Ok (bool_ty NonNullable) }
    ensures column { values_over (struct_ty (only "nullable_col" (int_ty I32 Nullable)) NonNullable)
        (alone "nullable_col" null_val ∷ alone "nullable_col" (int_val I32 (pos 5)) ∷ []) (is_null_of (col "nullable_col"))
        ≡ map bool_val (true ∷ false ∷ []) }
{}

/// A field of a null struct is null and its type nullable; a field that the struct hasn't is refused.
pub fn takes_a_field_of_a_null_row()
    ensures types { typed_of (struct_ty (only "a" (int_ty I32 NonNullable)) Nullable) (col "a") ≡ Ok (int_ty I32 Nullable) }
    ensures values { values_over (struct_ty (only "a" (int_ty I32 NonNullable)) Nullable) (null_val ∷ []) (col "a") ≡ null_val ∷ [] }
    ensures missing { typed_of (two_fields "a" (int_ty I32 NonNullable) "b" (int_ty I32 NonNullable)) (col "c") ≡ Err unknown_field }
{}

/// A sum of a column and a constant; past the greatest number it is a fault.
pub fn adds_a_constant_to_a_column()
    ensures types { typed_of (struct_ty (only "a" (int_ty I32 NonNullable)) NonNullable) (col "a" ⟨ Add ⟩ number I32 (pos 5))
        ≡ Ok (int_ty I32 NonNullable) }
    ensures values { values_over (struct_ty (only "a" (int_ty I32 NonNullable)) NonNullable)
        (rows_of_numbers I32 "a" (pos 1 ∷ pos 2147483642 ∷ pos 2147483643 ∷ [])) (col "a" ⟨ Add ⟩ number I32 (pos 5))
        ≡ int_val I32 (pos 6) ∷ int_val I32 (pos 2147483647) ∷ fault ∷ [] }
{}

/// A column cast to a wider integer type.
pub fn widens_a_column()
    ensures types { typed_of (struct_ty (only "a" (int_ty I32 NonNullable)) NonNullable) (cast (col "a") (int_ty I64 NonNullable))
        ≡ Ok (int_ty I64 NonNullable) }
    ensures values { values_over (struct_ty (only "a" (int_ty I32 NonNullable)) NonNullable) (rows_of_numbers I32 "a" (pos 7 ∷ []))
        (cast (col "a") (int_ty I64 NonNullable))
        ≡ int_val I64 (pos 7) ∷ [] }
{}

/// A range with both ends, and one without its upper end.
pub fn ranges_over_a_column()
    ensures types { typed_of (struct_ty (only "a" (int_ty I32 NonNullable)) NonNullable)
        (between (col "a") (number I32 (pos 10)) (number I32 (pos 20)) (ends NonStrict NonStrict))
        ≡ Ok (bool_ty NonNullable) }
    ensures values { values_over (struct_ty (only "a" (int_ty I32 NonNullable)) NonNullable)
        (rows_of_numbers I32 "a" (pos 9 ∷ pos 10 ∷ pos 20 ∷ pos 21 ∷ []))
        (between (col "a") (number I32 (pos 10)) (number I32 (pos 20)) (ends NonStrict NonStrict))
        ≡ map bool_val (false ∷ true ∷ true ∷ false ∷ []) }
    ensures half_open { values_over (struct_ty (only "score" (int_ty I32 NonNullable)) NonNullable)
        (rows_of_numbers I32 "score" (pos 9 ∷ pos 10 ∷ pos 49 ∷ pos 50 ∷ []))
        (between (col "score") (number I32 (pos 10)) (number I32 (pos 50)) (ends NonStrict Strict))
        ≡ map bool_val (false ∷ true ∷ true ∷ false ∷ []) }
{}

/// Membership in the list of each row, and of a column.
pub fn finds_a_value_in_each_list()
    ensures values { values_over (list_ty (int_ty I32 NonNullable) NonNullable)
        (list_val (numbers_in (pos 1 ∷ pos 1 ∷ pos 2 ∷ pos 2 ∷ pos 2 ∷ []))
        ∷ list_val (numbers_in (pos 2 ∷ pos 2 ∷ pos 3 ∷ pos 3 ∷ pos 3 ∷ [])) ∷ [])
        (list_contains root (number I32 (pos 1)))
        ≡ map bool_val (true ∷ false ∷ []) }
    ensures null_list { values_over (list_ty (int_ty I32 NonNullable) Nullable)
        (list_val (numbers_in (pos 1 ∷ pos 1 ∷ pos 2 ∷ pos 2 ∷ pos 2 ∷ [])) ∷ null_val ∷ []) (list_contains root (number I32 (pos 2)))
        ≡ bool_val true ∷ null_val ∷ [] }
    ensures column_type { typed_of (struct_ty (only "list_col" (list_ty (text_ty NonNullable) NonNullable)) NonNullable)
        (list_contains (col "list_col") (quoted "item"))
        ≡ Ok (bool_ty NonNullable) }
    ensures column { values_over (struct_ty (only "list_col" (list_ty (text_ty NonNullable) NonNullable)) NonNullable)
        (alone "list_col" (list_val (val (text_val (codes "item")) no_vals)) ∷ alone "list_col" (list_val no_vals) ∷ [])
        (list_contains (col "list_col") (quoted "item"))
        ≡ map bool_val (true ∷ false ∷ []) }
{}

/// A pack takes its values row by row, one column twice.
pub fn packs_columns()
    ensures types { typed_of (two_fields "a" (int_ty I32 NonNullable) "b" (int_ty I32 NonNullable))
        (pack (codes "one" ∷ codes "two" ∷ codes "three" ∷ []) (tree (col "a") (tree (col "b") (tree (col "a") no_trees))) NonNullable)
        ≡ Ok (struct_ty (field (codes "one") (int_ty I32 NonNullable)
        (field (codes "two") (int_ty I32 NonNullable) (only "three" (int_ty I32 NonNullable)))) NonNullable) }
    ensures values { values_over (two_fields "a" (int_ty I32 NonNullable) "b" (int_ty I32 NonNullable))
        (row_of_two "a" (pos 0) "b" (pos 4) ∷ row_of_two "a" (pos 1) "b" (pos 5) ∷ row_of_two "a" (pos 2) "b" (pos 6) ∷ [])
        (pack (codes "one" ∷ codes "two" ∷ codes "three" ∷ []) (tree (col "a") (tree (col "b") (tree (col "a") no_trees))) NonNullable)
        ≡ struct_val (member (codes "one") (int_val I32 (pos 0))
        (member (codes "two") (int_val I32 (pos 4)) (member (codes "three") (int_val I32 (pos 0)) no_members)))
        ∷ struct_val (member (codes "one") (int_val I32 (pos 1))
        (member (codes "two") (int_val I32 (pos 5)) (member (codes "three") (int_val I32 (pos 1)) no_members)))
        ∷ struct_val (member (codes "one") (int_val I32 (pos 2))
        (member (codes "two") (int_val I32 (pos 6)) (member (codes "three") (int_val I32 (pos 2)) no_members)))
        ∷ [] }
    ensures renamed_type { typed_of (two_fields "a" (int_ty I32 NonNullable) "b" (bool_ty Nullable)) (pack_two "field1" (col "a") "field2" (col "b"))
        ≡ Ok (two_fields "field1" (int_ty I32 NonNullable) "field2" (bool_ty Nullable)) }
    ensures nullable { typed_of (two_fields "a" (int_ty I32 NonNullable) "b" (bool_ty Nullable))
        (pack (codes "x" ∷ codes "y" ∷ []) (tree (col "a") (tree (col "b") no_trees)) Nullable)
        ≡ Ok (struct_ty (field (codes "x") (int_ty I32 NonNullable) (only "y" (bool_ty Nullable))) Nullable) }
{}

/// A pack and a merge of nothing are a struct without fields at each row.
pub fn packs_and_merges_nothing()
    ensures packed { values_over (int_ty I32 NonNullable) (numbers I32 (pos 1 ∷ pos 2 ∷ pos 3 ∷ [])) (pack [] no_trees NonNullable)
        ≡ replicate 3 (struct_val no_members) }
    ensures packed_type { typed_of (int_ty I32 NonNullable) (pack [] no_trees NonNullable) ≡ Ok (struct_ty no_fields NonNullable) }
    ensures merged { values_over (int_ty I32 NonNullable) (numbers I32 (pos 1 ∷ pos 2 ∷ pos 3 ∷ [])) (merge no_trees NonNullable)
        ≡ replicate 3 (struct_val no_members) }
    ensures merged_type { typed_of (int_ty I32 NonNullable) (merge no_trees NonNullable) ≡ Ok (struct_ty no_fields NonNullable) }
{}

/// Of three structs the names in order of first appearance, and of a name that two have the second's field.
pub fn merges_three_structs_by_name()
    ensures values { mean_of
        (merge (tree (pack_two "a" (number I32 (pos 1)) "b" (number I32 (pos 2)))
        (tree (pack_two "b" (number I32 (pos 3)) "c" (number I32 (pos 4)))
        (tree (pack_two "d" (number I32 (pos 5)) "e" (number I32 (pos 6))) no_trees))) NonNullable)
        ≡ struct_val (member (codes "a") (int_val I32 (pos 1))
        (member (codes "b") (int_val I32 (pos 3))
        (member (codes "c") (int_val I32 (pos 4)) (member (codes "d") (int_val I32 (pos 5)) (member (codes "e") (int_val I32 (pos 6)) no_members))))) }
{}

/// A merge of two columns of structs has the second's type for the name that both have.
/// Of a nullable column the fields are nullable, and the merge where it says so itself.
pub fn types_merges_of_columns()
    ensures two { typed_of
        (two_fields "struct1" (two_fields "a" (int_ty I32 NonNullable) "b" (int_ty I64 NonNullable))
        "struct2" (two_fields "b" (int_ty U32 NonNullable) "c" (int_ty U64 NonNullable)))
        (merge (tree (col "struct1") (tree (col "struct2") no_trees)) NonNullable)
        ≡ Ok (struct_ty (field (codes "a") (int_ty I32 NonNullable)
        (field (codes "b") (int_ty U32 NonNullable) (only "c" (int_ty U64 NonNullable)))) NonNullable) }
    ensures nullable { typed_of
        (struct_ty (only "0" (struct_ty (field (codes "a") (int_ty I32 NonNullable) (only "b" (int_ty I64 NonNullable))) Nullable)) NonNullable)
        (merge (tree (col "0") no_trees) Nullable)
        ≡ Ok (struct_ty (field (codes "a") (int_ty I32 Nullable) (only "b" (int_ty I64 Nullable))) Nullable) }
{}

/// Of 255 negations in one another the innermost is refused where the row is no boolean; of a boolean they negate it.
pub fn types_255_negations()
    ensures number { typed_of (int_ty I64 NonNullable) (negated 255 root) ≡ Err type_mismatch }
    ensures row { typed_of (struct_ty (only "x" (int_ty I64 NonNullable)) NonNullable) (negated 255 root) ≡ Err type_mismatch }
    ensures boolean { typed_of (bool_ty NonNullable) (negated 255 root) ≡ Ok (bool_ty NonNullable) }
    ensures values { values_over (bool_ty NonNullable) (bool_val true ∷ bool_val false ∷ []) (negated 255 root)
        ≡ bool_val false ∷ bool_val true ∷ [] }
{}

/// Three operands collected to the right and to the left, and none.
pub fn collects_operands()
    ensures conjunction { joined_right And (number I32 (pos 1) ∷ number I32 (pos 2) ∷ number I32 (pos 3) ∷ [])
        ≡ Some (number I32 (pos 1) ⟨ And ⟩ (number I32 (pos 2) ⟨ And ⟩ number I32 (pos 3))) }
    ensures disjunction { joined_right Or (number I32 (pos 1) ∷ number I32 (pos 2) ∷ number I32 (pos 3) ∷ [])
        ≡ Some (number I32 (pos 1) ⟨ Or ⟩ (number I32 (pos 2) ⟨ Or ⟩ number I32 (pos 3))) }
    ensures to_the_left { joined_left And (number I32 (pos 1) ∷ number I32 (pos 2) ∷ number I32 (pos 3) ∷ [])
        ≡ Some ((number I32 (pos 1) ⟨ And ⟩ number I32 (pos 2)) ⟨ And ⟩ number I32 (pos 3)) }
    ensures none { joined_right And [] ≡ None }
    ensures none_of_a_disjunction { joined_right Or [] ≡ None }
    ensures none_to_the_left { joined_left And [] ≡ None }
{}
