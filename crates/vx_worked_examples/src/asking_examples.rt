// What expressions ask, by path too, whether slots fit, and ranges written as comparisons: worked by hand for each kind.
#![tactic(auto, unfolding(crate::proofs::Computing::all_definitions))]

ghost use Rattle.std.specs.Prelude.{◌≡◌, [], ◌∷◌, codes, pos, true, false, Some, None};
ghost use Rattle.vx_dtype.specs.declared.PType.TheVariants.{I32, I64, I8};
ghost use Rattle.vx_dtype.specs.declared.Nullability.TheVariants.{NonNullable, Nullable};
ghost use Rattle.vx_dtype.specs.declared.StrictComparison.TheVariants.{Strict, NonStrict};
ghost use Rattle.vx_dtype.specs.declared.CompareOperator.TheVariants.{Gt as Above};
ghost use Rattle.vx_dtype.specs.Types.{bool_ty, int_ty};
ghost use Rattle.vx_dtype.specs.Values.{raw_null, raw_int};
ghost use Rattle.vx_expr.specs.declared.Operator.TheVariants.{Eq, Lt, Lte, And};
ghost use Rattle.vx_expr.specs.declared.FieldSelection.TheVariants.{Include, Exclude};
ghost use Rattle.vx_expr.specs.Trees.{root, get_item, not_of, is_null_of, like, between, cast, list_contains, pack, merge, select, dynamic, tree};
ghost use Rattle.vx_expr.specs.Trees.{no_trees};
ghost use Rattle.vx_semantics.specs.Asked.{asked_nodes, asked_columns};
ghost use Rattle.vx_semantics.specs.Slots.{slots_fit};
ghost use Rattle.vx_semantics.specs.Instances.{without_ranges};
ghost use Rattle.vx_semantics.specs.Tables.{row_type};
ghost use Rattle.vx_worked_examples.specs.Samples.{col, number, ◌⟨◌⟩◌, pack_one, pack_two, slot_of, mixed, with_slot, quoted, two_small, ends};

/// Each kind asks itself and its children, from left to right.
pub fn asks_itself_and_its_children()
    ensures constant { asked_nodes mixed (number I32 (pos 1)) ≡ number I32 (pos 1) ∷ [] }
    ensures row { asked_nodes mixed root ≡ [] }
    ensures item { asked_nodes mixed (col "a") ≡ col "a" ∷ [] }
    ensures operator { asked_nodes mixed (col "a" ⟨ Eq ⟩ col "b") ≡ (col "a" ⟨ Eq ⟩ col "b") ∷ col "a" ∷ col "b" ∷ [] }
    ensures negation { asked_nodes mixed (not_of (col "f")) ≡ not_of (col "f") ∷ col "f" ∷ [] }
    ensures null_test { asked_nodes mixed (is_null_of (col "a")) ≡ is_null_of (col "a") ∷ col "a" ∷ [] }
    ensures likeness { asked_nodes mixed (like (col "t") (col "u") false false) ≡ like (col "t") (col "u") false false ∷ col "t" ∷ col "u" ∷ [] }
    ensures range { asked_nodes mixed (between (col "a") (col "b") (number I32 (pos 1)) (ends Strict Strict))
        ≡ between (col "a") (col "b") (number I32 (pos 1)) (ends Strict Strict) ∷ col "a" ∷ col "b" ∷ number I32 (pos 1) ∷ [] }
    ensures casts { asked_nodes mixed (cast (col "a") (int_ty I64 NonNullable)) ≡ cast (col "a") (int_ty I64 NonNullable) ∷ col "a" ∷ [] }
    ensures membership { asked_nodes mixed (list_contains (col "l") (col "a")) ≡ list_contains (col "l") (col "a") ∷ col "l" ∷ col "a" ∷ [] }
    ensures slot { asked_nodes mixed (dynamic (col "a") Above 0 (int_ty I32 NonNullable) true)
        ≡ dynamic (col "a") Above 0 (int_ty I32 NonNullable) true ∷ col "a" ∷ [] }
    ensures whole_pack { asked_nodes mixed (pack_two "x" (col "a") "y" (col "b")) ≡ pack_two "x" (col "a") "y" (col "b") ∷ col "a" ∷ col "b" ∷ [] }
    ensures one_of_a_pack { asked_nodes mixed (get_item (codes "y") (pack_two "x" (col "a") "y" (col "b")))
        ≡ get_item (codes "y") (pack_two "x" (col "a") "y" (col "b")) ∷ pack_two "x" (col "a") "y" (col "b") ∷ col "b" ∷ [] }
    ensures first_of_two { asked_nodes mixed (get_item (codes "x") (pack_two "x" (col "a") "x" (col "b")))
        ≡ get_item (codes "x") (pack_two "x" (col "a") "x" (col "b")) ∷ pack_two "x" (col "a") "x" (col "b") ∷ col "a" ∷ [] }
    ensures none_of_a_pack { asked_nodes mixed (get_item (codes "z") (pack_one "x" (col "a")))
        ≡ get_item (codes "z") (pack_one "x" (col "a")) ∷ pack_one "x" (col "a") ∷ [] }
    ensures last_of_a_merge { asked_nodes mixed (get_item (codes "q") (merge (tree (col "s") (tree (col "n") no_trees)) NonNullable))
        ≡ get_item (codes "q") (merge (tree (col "s") (tree (col "n") no_trees)) NonNullable)
        ∷ merge (tree (col "s") (tree (col "n") no_trees)) NonNullable ∷ col "n" ∷ [] }
    ensures first_of_a_merge { asked_nodes mixed (get_item (codes "p") (merge (tree (col "s") (tree (col "n") no_trees)) NonNullable))
        ≡ get_item (codes "p") (merge (tree (col "s") (tree (col "n") no_trees)) NonNullable)
        ∷ merge (tree (col "s") (tree (col "n") no_trees)) NonNullable ∷ col "s" ∷ [] }
    ensures none_of_a_merge { asked_nodes mixed (get_item (codes "z") (merge no_trees NonNullable))
        ≡ get_item (codes "z") (merge no_trees NonNullable) ∷ merge no_trees NonNullable ∷ [] }
    ensures whole_merge { asked_nodes mixed (merge (tree (col "s") (tree (col "n") no_trees)) NonNullable)
        ≡ merge (tree (col "s") (tree (col "n") no_trees)) NonNullable ∷ col "s" ∷ col "n" ∷ col "n" ∷ [] }
    ensures of_a_select { asked_nodes mixed (select (Include (codes "q" ∷ [])) (col "s")) ≡ select (Include (codes "q" ∷ [])) (col "s") ∷ col "s" ∷ [] }
    ensures through_a_select { asked_nodes mixed
        (get_item (codes "x") (select (Exclude (codes "y" ∷ [])) (pack_two "x" (col "a") "y" (col "b"))))
        ≡ get_item (codes "x") (select (Exclude (codes "y" ∷ [])) (pack_two "x" (col "a") "y" (col "b")))
        ∷ select (Exclude (codes "y" ∷ [])) (pack_two "x" (col "a") "y" (col "b")) ∷ pack_two "x" (col "a") "y" (col "b") ∷ col "a" ∷ [] }
    ensures below_a_pack { asked_nodes mixed
        (get_item (codes "p") (get_item (codes "x") (pack_one "x" (pack_two "p" (col "a") "q" (col "b")))))
        ≡ get_item (codes "p") (get_item (codes "x") (pack_one "x" (pack_two "p" (col "a") "q" (col "b"))))
        ∷ get_item (codes "x") (pack_one "x" (pack_two "p" (col "a") "q" (col "b")))
        ∷ pack_one "x" (pack_two "p" (col "a") "q" (col "b")) ∷ pack_two "p" (col "a") "q" (col "b") ∷ col "a" ∷ [] }
{}

/// Columns in the table's order, each once.
pub fn asks_columns_in_their_order()
    ensures whole_row { asked_columns mixed root
        ≡ codes "a" ∷ codes "b" ∷ codes "f" ∷ codes "g" ∷ codes "t" ∷ codes "u" ∷ codes "l" ∷ codes "s" ∷ codes "n" ∷ [] }
    ensures ordered { asked_columns mixed (between (col "b") (col "a") (col "b") (ends Strict Strict)) ≡ codes "a" ∷ codes "b" ∷ [] }
    ensures none { asked_columns mixed (number I32 (pos 1)) ≡ [] }
    ensures through_the_row { asked_columns mixed (select (Include (codes "b" ∷ codes "a" ∷ [])) root) ≡ codes "a" ∷ codes "b" ∷ [] }
    ensures unknown { asked_columns mixed (col "z") ≡ [] }
    ensures merged { asked_columns mixed (get_item (codes "q") (merge (tree root (tree (col "n") no_trees)) NonNullable)) ≡ codes "n" ∷ [] }
{}

/// A slot fits where it has no value or a constant of an equal type; the slot of a comparison is found in each kind.
pub fn slots_that_fit()
    ensures none { slots_fit [] (with_slot Above true) ≡ true }
    ensures empty { slots_fit (None ∷ []) (with_slot Above true) ≡ true }
    ensures held { slots_fit (slot_of I32 (pos 1) ∷ []) (with_slot Above true) ≡ true }
    ensures of_another_type { slots_fit (slot_of I64 (pos 1) ∷ []) (with_slot Above true) ≡ false }
    ensures out_of_range { slots_fit (Some (record { ty = int_ty I32 NonNullable; value = raw_int (pos 2147483648) }) ∷ [])
        (with_slot Above true)
        ≡ false }
    ensures null { slots_fit (Some (record { ty = int_ty I32 Nullable; value = raw_null }) ∷ []) (with_slot Above true) ≡ false }
    ensures null_where_nullable { slots_fit (Some (record { ty = int_ty I32 Nullable; value = raw_null }) ∷ [])
        (dynamic (col "x") Above 0 (int_ty I32 Nullable) true)
        ≡ true }
    ensures another_slot { slots_fit (slot_of I64 (pos 1) ∷ slot_of I32 (pos 1) ∷ []) (dynamic (col "x") Above 1 (int_ty I32 NonNullable) true) ≡ true }
    ensures row { slots_fit (slot_of I64 (pos 1) ∷ []) root ≡ true }
    ensures constant { slots_fit (slot_of I64 (pos 1) ∷ []) (number I32 (pos 1)) ≡ true }
    ensures item { slots_fit (slot_of I64 (pos 1) ∷ []) (get_item (codes "a") (with_slot Above true)) ≡ false }
    ensures left { slots_fit (slot_of I64 (pos 1) ∷ []) (with_slot Above true ⟨ And ⟩ col "f") ≡ false }
    ensures right { slots_fit (slot_of I64 (pos 1) ∷ []) (col "f" ⟨ And ⟩ with_slot Above true) ≡ false }
    ensures negation { slots_fit (slot_of I64 (pos 1) ∷ []) (not_of (with_slot Above true)) ≡ false }
    ensures null_test { slots_fit (slot_of I64 (pos 1) ∷ []) (is_null_of (with_slot Above true)) ≡ false }
    ensures likeness { slots_fit (slot_of I64 (pos 1) ∷ []) (like (with_slot Above true) (col "t") false false) ≡ false }
    ensures pattern { slots_fit (slot_of I64 (pos 1) ∷ []) (like (col "t") (with_slot Above true) false false) ≡ false }
    ensures range { slots_fit (slot_of I64 (pos 1) ∷ []) (between (with_slot Above true) (col "a") (col "a") (ends Strict Strict)) ≡ false }
    ensures lower { slots_fit (slot_of I64 (pos 1) ∷ []) (between (col "a") (with_slot Above true) (col "a") (ends Strict Strict)) ≡ false }
    ensures upper { slots_fit (slot_of I64 (pos 1) ∷ []) (between (col "a") (col "a") (with_slot Above true) (ends Strict Strict)) ≡ false }
    ensures casts { slots_fit (slot_of I64 (pos 1) ∷ []) (cast (with_slot Above true) (bool_ty NonNullable)) ≡ false }
    ensures list { slots_fit (slot_of I64 (pos 1) ∷ []) (list_contains (with_slot Above true) (col "a")) ≡ false }
    ensures member { slots_fit (slot_of I64 (pos 1) ∷ []) (list_contains (col "l") (with_slot Above true)) ≡ false }
    ensures first_of_a_pack { slots_fit (slot_of I64 (pos 1) ∷ []) (pack_two "x" (with_slot Above true) "y" (col "a")) ≡ false }
    ensures last_of_a_pack { slots_fit (slot_of I64 (pos 1) ∷ []) (pack_two "x" (col "a") "y" (with_slot Above true)) ≡ false }
    ensures merged { slots_fit (slot_of I64 (pos 1) ∷ []) (merge (tree (with_slot Above true) no_trees) NonNullable) ≡ false }
    ensures selected { slots_fit (slot_of I64 (pos 1) ∷ []) (select (Include []) (with_slot Above true)) ≡ false }
    ensures below_a_slot { slots_fit (slot_of I32 (pos 1) ∷ slot_of I64 (pos 1) ∷ [])
        (dynamic (with_slot Above true) Above 1 (int_ty I32 NonNullable) true)
        ≡ false }
    ensures of_the_operand { slots_fit (slot_of I64 (pos 1) ∷ slot_of I32 (pos 1) ∷ [])
        (dynamic (with_slot Above true) Above 1 (int_ty I32 NonNullable) true)
        ≡ false }
{}

/// A range is written as its two comparisons, the lower bound first, in each kind of expression.
pub fn writes_ranges_as_comparisons()
    ensures range { without_ranges (between (col "a") (col "b") (number I32 (pos 1)) (ends Strict NonStrict))
        ≡ ((col "b" ⟨ Lt ⟩ col "a") ⟨ And ⟩ (col "a" ⟨ Lte ⟩ number I32 (pos 1))) }
    ensures nested { without_ranges
        (between (not_of (between (col "a") (col "b") (col "c") (ends NonStrict Strict))) (col "f") (col "g") (ends Strict Strict))
        ≡ ((col "f" ⟨ Lt ⟩ not_of ((col "b" ⟨ Lte ⟩ col "a") ⟨ And ⟩ (col "a" ⟨ Lt ⟩ col "c")))
        ⟨ And ⟩ (not_of ((col "b" ⟨ Lte ⟩ col "a") ⟨ And ⟩ (col "a" ⟨ Lt ⟩ col "c")) ⟨ Lt ⟩ col "g")) }
    ensures row { without_ranges root ≡ root }
    ensures constant { without_ranges (number I32 (pos 1)) ≡ number I32 (pos 1) }
{}

/// What makes no struct asks its children for the empty path, whatever path it is asked for itself.
pub fn asks_children_for_the_empty_path()
    ensures left { asked_columns (row_type two_small.columns) (get_item (codes "x") (root ⟨ Eq ⟩ number I8 (pos 1))) ≡ codes "x" ∷ codes "y" ∷ [] }
    ensures right { asked_columns (row_type two_small.columns) (get_item (codes "x") (number I8 (pos 1) ⟨ Eq ⟩ root)) ≡ codes "x" ∷ codes "y" ∷ [] }
    ensures negation { asked_columns (row_type two_small.columns) (get_item (codes "x") (not_of root)) ≡ codes "x" ∷ codes "y" ∷ [] }
    ensures null_test { asked_columns (row_type two_small.columns) (get_item (codes "x") (is_null_of root)) ≡ codes "x" ∷ codes "y" ∷ [] }
    ensures likeness { asked_columns (row_type two_small.columns) (get_item (codes "x") (like root (quoted "a") false false))
        ≡ codes "x" ∷ codes "y" ∷ [] }
    ensures pattern { asked_columns (row_type two_small.columns) (get_item (codes "x") (like (quoted "a") root false false)) ≡ codes "x" ∷ codes "y" ∷ [] }
    ensures range { asked_columns (row_type two_small.columns)
        (get_item (codes "x") (between root (number I8 (pos 1)) (number I8 (pos 2)) (ends Strict Strict)))
        ≡ codes "x" ∷ codes "y" ∷ [] }
    ensures lower { asked_columns (row_type two_small.columns)
        (get_item (codes "x") (between (number I8 (pos 1)) root (number I8 (pos 2)) (ends Strict Strict)))
        ≡ codes "x" ∷ codes "y" ∷ [] }
    ensures upper { asked_columns (row_type two_small.columns)
        (get_item (codes "x") (between (number I8 (pos 1)) (number I8 (pos 2)) root (ends Strict Strict)))
        ≡ codes "x" ∷ codes "y" ∷ [] }
    ensures casts { asked_columns (row_type two_small.columns) (get_item (codes "x") (cast root (int_ty I8 NonNullable))) ≡ codes "x" ∷ codes "y" ∷ [] }
    ensures list { asked_columns (row_type two_small.columns) (get_item (codes "x") (list_contains root (number I8 (pos 1))))
        ≡ codes "x" ∷ codes "y" ∷ [] }
    ensures member { asked_columns (row_type two_small.columns) (get_item (codes "x") (list_contains (number I8 (pos 1)) root))
        ≡ codes "x" ∷ codes "y" ∷ [] }
    ensures slot { asked_columns (row_type two_small.columns) (get_item (codes "x") (dynamic root Above 0 (int_ty I8 NonNullable) true))
        ≡ codes "x" ∷ codes "y" ∷ [] }
{}

/// A merge asks the struct that gives the name for the whole path, not for all of its fields.
pub fn asks_a_merge_for_the_path()
    ensures first { asked_columns (row_type two_small.columns)
        (get_item (codes "x") (merge (tree root (tree (pack_one "z" (number I8 (pos 1))) no_trees)) NonNullable))
        ≡ codes "x" ∷ [] }
    ensures last { asked_columns (row_type two_small.columns)
        (get_item (codes "y") (merge (tree (pack_one "z" (number I8 (pos 1))) (tree root no_trees)) NonNullable))
        ≡ codes "y" ∷ [] }
    ensures replaced { asked_columns (row_type two_small.columns)
        (get_item (codes "x") (merge (tree root (tree (pack_one "x" (number I8 (pos 1))) no_trees)) NonNullable))
        ≡ [] }
    ensures third { asked_columns (row_type two_small.columns)
        (get_item (codes "x")
        (merge (tree root (tree (pack_one "z" (number I8 (pos 1))) (tree (pack_one "x" (number I8 (pos 1))) no_trees))) NonNullable))
        ≡ [] }
    ensures whole { asked_columns (row_type two_small.columns)
        (merge (tree root (tree (pack_one "x" (number I8 (pos 1))) no_trees)) NonNullable)
        ≡ codes "y" ∷ [] }
{}

/// A select asks its child for the whole path, and so does a pack the value that a later name of it gives.
pub fn asks_for_the_rest_of_the_path()
    ensures select { asked_columns (row_type two_small.columns)
        (get_item (codes "q")
        (get_item (codes "p")
        (select (Include (codes "p" ∷ codes "o" ∷ [])) (pack_two "p" (pack_two "q" (col "x") "r" (col "y")) "o" (number I8 (pos 1))))))
        ≡ codes "x" ∷ [] }
    ensures pack { asked_columns (row_type two_small.columns)
        (get_item (codes "q") (get_item (codes "p") (pack_two "o" (number I8 (pos 1)) "p" (pack_two "q" (col "x") "r" (col "y")))))
        ≡ codes "x" ∷ [] }
{}

/// LIKE asks itself with its own flags, its text and its pattern.
pub fn asks_likes_with_their_flags()
    ensures negated { asked_nodes (row_type two_small.columns) (like (quoted "a") (quoted "b") true false)
        ≡ like (quoted "a") (quoted "b") true false ∷ quoted "a" ∷ quoted "b" ∷ [] }
    ensures folded { asked_nodes (row_type two_small.columns) (like (quoted "a") (quoted "b") false true)
        ≡ like (quoted "a") (quoted "b") false true ∷ quoted "a" ∷ quoted "b" ∷ [] }
{}
