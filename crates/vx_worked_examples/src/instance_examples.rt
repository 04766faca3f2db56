// Ranges written as comparisons, and instances of filters at a block whose numbers lie from five to nine: worked by hand.
#![tactic(auto, unfolding(crate::proofs::Computing::all_definitions))]

ghost use Rattle.std.specs.Prelude.{[], ◌∷◌, codes, pos, true, false, ◌≡◌, map};
ghost use Rattle.vx_dtype.specs.declared.PType.TheVariants.{I32, I64, I8};
ghost use Rattle.vx_dtype.specs.declared.Nullability.TheVariants.{NonNullable, Nullable};
ghost use Rattle.vx_dtype.specs.declared.StrictComparison.TheVariants.{Strict, NonStrict};
ghost use Rattle.vx_dtype.specs.declared.CompareOperator.TheVariants.{Lt as Below};
ghost use Rattle.vx_dtype.specs.Types.{int_ty, field};
ghost use Rattle.vx_dtype.specs.declared.Stat.TheVariants.{Min, Max};
ghost use Rattle.vx_expr.specs.declared.Operator.TheVariants.{Gt, Gte, Lt, Lte, And, Sub};
ghost use Rattle.vx_expr.specs.declared.FieldSelection.TheVariants.{Include};
ghost use Rattle.vx_expr.specs.Trees.{root, get_item, not_of, is_null_of, like, between, cast, list_contains, merge, select, dynamic, tree, no_trees};
ghost use Rattle.vx_semantics.specs.Instances.{IsInstance, without_ranges, IsReplaced};
ghost use Rattle.vx_worked_examples.specs.Samples.{col, number, null_of, ◌⟨◌⟩◌, pack_one, pack_two, five_to_nine, from_five, up_to_nine, bounds};
ghost use Rattle.vx_worked_examples.specs.Samples.{statistic, zones_of, number_table, only, ends};
ghost use Rattle.vx_worked_examples.specs.Kinds.{kinds_over};

/// A path is replaced at each of its places by some constant between its bounds.
pub fn replaces_paths_within_bounds()
    ensures least { IsInstance five_to_nine 0 (col "x" ⟨ Gt ⟩ number I32 (pos 7)) (number I32 (pos 5) ⟨ Gt ⟩ number I32 (pos 7)) }
    ensures greatest { IsInstance five_to_nine 0 (col "x" ⟨ Gt ⟩ number I32 (pos 7)) (number I32 (pos 9) ⟨ Gt ⟩ number I32 (pos 7)) }
    ensures each_place { IsInstance five_to_nine 0 (col "x" ⟨ Sub ⟩ col "x") (number I32 (pos 9) ⟨ Sub ⟩ number I32 (pos 5)) }
    ensures range { IsInstance five_to_nine 0 (between (col "x") (number I32 (pos 1)) (number I32 (pos 8)) (ends Strict NonStrict))
        ((number I32 (pos 1) ⟨ Lt ⟩ number I32 (pos 6)) ⟨ And ⟩ (number I32 (pos 7) ⟨ Lte ⟩ number I32 (pos 8))) }
{}

/// Nothing else is an instance.
pub fn replaces_nothing_else()
    ensures below { ¬ (IsInstance five_to_nine 0 (col "x" ⟨ Gt ⟩ number I32 (pos 7)) (number I32 (pos 4) ⟨ Gt ⟩ number I32 (pos 7))) }
    ensures above { ¬ (IsInstance five_to_nine 0 (col "x" ⟨ Gt ⟩ number I32 (pos 7)) (number I32 (pos 10) ⟨ Gt ⟩ number I32 (pos 7))) }
    ensures of_another_type { ¬ (IsInstance five_to_nine 0 (col "x" ⟨ Gt ⟩ number I32 (pos 7)) (number I64 (pos 6) ⟨ Gt ⟩ number I32 (pos 7))) }
    ensures null { ¬ (IsInstance five_to_nine 0 (col "x" ⟨ Gt ⟩ number I32 (pos 7)) (null_of (int_ty I32 NonNullable) ⟨ Gt ⟩ number I32 (pos 7))) }
    ensures another_constant { ¬ (IsInstance five_to_nine 0 (col "x" ⟨ Gt ⟩ number I32 (pos 7)) (number I32 (pos 6) ⟨ Gt ⟩ number I32 (pos 8))) }
    ensures another_operator { ¬ (IsInstance five_to_nine 0 (col "x" ⟨ Gt ⟩ number I32 (pos 7)) (number I32 (pos 6) ⟨ Gte ⟩ number I32 (pos 7))) }
    ensures the_path_itself { ¬ (IsInstance five_to_nine 0 (col "x" ⟨ Gt ⟩ number I32 (pos 7)) (col "x" ⟨ Gt ⟩ number I32 (pos 7))) }
    ensures the_range_itself { ¬
        (IsInstance five_to_nine 0 (between (col "x") (number I32 (pos 1)) (number I32 (pos 8)) (ends Strict NonStrict))
        (between (number I32 (pos 6)) (number I32 (pos 1)) (number I32 (pos 8)) (ends Strict NonStrict))) }
    ensures no_greatest { ¬ (IsInstance from_five 0 (col "x" ⟨ Gt ⟩ number I32 (pos 7)) (number I32 (pos 6) ⟨ Gt ⟩ number I32 (pos 7))) }
    ensures no_least { ¬ (IsInstance up_to_nine 0 (col "x" ⟨ Gt ⟩ number I32 (pos 7)) (number I32 (pos 6) ⟨ Gt ⟩ number I32 (pos 7))) }
    ensures no_block { ¬ (IsInstance five_to_nine 1 (col "x" ⟨ Gt ⟩ number I32 (pos 7)) (number I32 (pos 6) ⟨ Gt ⟩ number I32 (pos 7))) }
    ensures row { ¬ (IsInstance five_to_nine 0 (is_null_of root) (is_null_of (number I32 (pos 6)))) }
{}

/// Each kind keeps what is its own, and its children are replaced in their places.
pub fn replaces_within_each_kind()
    ensures constant { IsInstance five_to_nine 0 (number I32 (pos 1)) (number I32 (pos 1)) }
    ensures item { IsInstance five_to_nine 0 (get_item (codes "a") (pack_one "a" (col "x"))) (get_item (codes "a") (pack_one "a" (number I32 (pos 6)))) }
    ensures negation { IsInstance five_to_nine 0 (not_of (col "x")) (not_of (number I32 (pos 6))) }
    ensures null_test { IsInstance five_to_nine 0 (is_null_of (col "x")) (is_null_of (number I32 (pos 6))) }
    ensures likeness { IsInstance five_to_nine 0 (like (col "x") (col "x") true false) (like (number I32 (pos 6)) (number I32 (pos 7)) true false) }
    ensures casts { IsInstance five_to_nine 0 (cast (col "x") (int_ty I64 Nullable)) (cast (number I32 (pos 6)) (int_ty I64 Nullable)) }
    ensures membership { IsInstance five_to_nine 0 (list_contains (col "x") (col "x")) (list_contains (number I32 (pos 6)) (number I32 (pos 7))) }
    ensures packs { IsInstance five_to_nine 0 (pack_two "a" (col "x") "b" (col "x")) (pack_two "a" (number I32 (pos 6)) "b" (number I32 (pos 7))) }
    ensures merges { IsInstance five_to_nine 0 (merge (tree (col "x") (tree (col "x") no_trees)) Nullable)
        (merge (tree (number I32 (pos 6)) (tree (number I32 (pos 7)) no_trees)) Nullable) }
    ensures selects { IsInstance five_to_nine 0 (select (Include (codes "a" ∷ [])) (pack_one "a" (col "x")))
        (select (Include (codes "a" ∷ [])) (pack_one "a" (number I32 (pos 6)))) }
    ensures slot { IsInstance five_to_nine 0 (dynamic (col "x") Below 3 (int_ty I32 NonNullable) true)
        (dynamic (number I32 (pos 6)) Below 3 (int_ty I32 NonNullable) true) }
{}

/// A range is written as its two comparisons in each kind of expression, and each place keeps what stands there.
pub fn writes_ranges_in_each_kind()
    ensures first { map without_ranges
        (kinds_over (between (col "x") (number I32 (pos 1)) (number I32 (pos 2)) (ends Strict NonStrict)) (col "y"))
        ≡ kinds_over ((number I32 (pos 1) ⟨ Lt ⟩ col "x") ⟨ And ⟩ (col "x" ⟨ Lte ⟩ number I32 (pos 2))) (col "y") }
    ensures second { map without_ranges
        (kinds_over (col "y") (between (col "x") (number I32 (pos 1)) (number I32 (pos 2)) (ends Strict NonStrict)))
        ≡ kinds_over (col "y") ((number I32 (pos 1) ⟨ Lt ⟩ col "x") ⟨ And ⟩ (col "x" ⟨ Lte ⟩ number I32 (pos 2))) }
{}

/// A path beside a constant is replaced in its own place, and the constant stays in its own.
pub fn replaces_a_path_beside_a_constant()
    ensures text { IsInstance five_to_nine 0 (like (col "x") (number I32 (pos 1)) true false) (like (number I32 (pos 6)) (number I32 (pos 1)) true false) }
    ensures pattern { IsInstance five_to_nine 0 (like (number I32 (pos 1)) (col "x") true false)
        (like (number I32 (pos 1)) (number I32 (pos 6)) true false) }
    ensures list { IsInstance five_to_nine 0 (list_contains (col "x") (number I32 (pos 1))) (list_contains (number I32 (pos 6)) (number I32 (pos 1))) }
    ensures member { IsInstance five_to_nine 0 (list_contains (number I32 (pos 1)) (col "x")) (list_contains (number I32 (pos 1)) (number I32 (pos 6))) }
    ensures range { IsReplaced five_to_nine 0 (between (col "x") (number I32 (pos 1)) (number I32 (pos 2)) (ends Strict NonStrict))
        (between (number I32 (pos 6)) (number I32 (pos 1)) (number I32 (pos 2)) (ends Strict NonStrict)) }
    ensures lower { IsReplaced five_to_nine 0 (between (number I32 (pos 1)) (col "x") (number I32 (pos 2)) (ends Strict NonStrict))
        (between (number I32 (pos 1)) (number I32 (pos 6)) (number I32 (pos 2)) (ends Strict NonStrict)) }
    ensures upper { IsReplaced five_to_nine 0 (between (number I32 (pos 1)) (number I32 (pos 2)) (col "x") (ends Strict NonStrict))
        (between (number I32 (pos 1)) (number I32 (pos 2)) (number I32 (pos 6)) (ends Strict NonStrict)) }
{}

/// A path deeper within each kind is replaced too.
pub fn replaces_deeper_within_each_kind()
    ensures item { IsInstance five_to_nine 0 (get_item (codes "a") (pack_one "a" (not_of (col "x"))))
        (get_item (codes "a") (pack_one "a" (not_of (number I32 (pos 6))))) }
    ensures operands { IsInstance five_to_nine 0 ((not_of (col "x")) ⟨ Sub ⟩ (not_of (col "x")))
        ((not_of (number I32 (pos 6))) ⟨ Sub ⟩ (not_of (number I32 (pos 7)))) }
    ensures negation { IsInstance five_to_nine 0 (not_of (not_of (col "x"))) (not_of (not_of (number I32 (pos 6)))) }
    ensures null_test { IsInstance five_to_nine 0 (is_null_of (not_of (col "x"))) (is_null_of (not_of (number I32 (pos 6)))) }
    ensures likeness { IsInstance five_to_nine 0 (like (not_of (col "x")) (not_of (col "x")) true false)
        (like (not_of (number I32 (pos 6))) (not_of (number I32 (pos 7))) true false) }
    ensures range { IsReplaced five_to_nine 0 (between (not_of (col "x")) (not_of (col "x")) (not_of (col "x")) (ends Strict NonStrict))
        (between (not_of (number I32 (pos 6))) (not_of (number I32 (pos 7))) (not_of (number I32 (pos 6))) (ends Strict NonStrict)) }
    ensures casts { IsInstance five_to_nine 0 (cast (not_of (col "x")) (int_ty I64 Nullable)) (cast (not_of (number I32 (pos 6))) (int_ty I64 Nullable)) }
    ensures membership { IsInstance five_to_nine 0 (list_contains (not_of (col "x")) (not_of (col "x")))
        (list_contains (not_of (number I32 (pos 6))) (not_of (number I32 (pos 7)))) }
    ensures packs { IsInstance five_to_nine 0 (pack_two "a" (not_of (col "x")) "b" (not_of (col "x")))
        (pack_two "a" (not_of (number I32 (pos 6))) "b" (not_of (number I32 (pos 7)))) }
    ensures merges { IsInstance five_to_nine 0 (merge (tree (not_of (col "x")) (tree (not_of (col "x")) no_trees)) Nullable)
        (merge (tree (not_of (number I32 (pos 6))) (tree (not_of (number I32 (pos 7))) no_trees)) Nullable) }
    ensures selects { IsInstance five_to_nine 0 (select (Include (codes "a" ∷ [])) (pack_one "a" (not_of (col "x"))))
        (select (Include (codes "a" ∷ [])) (pack_one "a" (not_of (number I32 (pos 6))))) }
    ensures slot { IsInstance five_to_nine 0 (dynamic (not_of (col "x")) Below 3 (int_ty I32 NonNullable) true)
        (dynamic (not_of (number I32 (pos 6))) Below 3 (int_ty I32 NonNullable) true) }
{}

/// No constant stands for a path that has no strict type, nor one that its own type doesn't have, though it lies between the bounds.
pub fn replaces_by_constants_of_the_type_alone()
    ensures name_twice { ¬
        (IsInstance
        (record {
          columns = field (codes "x") (int_ty I32 NonNullable) (only "x" (int_ty I32 NonNullable));
          lengths = 2 ∷ [];
          stats = statistic ("x" ∷ []) Min (bounds I32 (pos 5 ∷ [])) ∷ statistic ("x" ∷ []) Max (bounds I32 (pos 9 ∷ [])) ∷ [];
        })
        0 (not_of (col "x")) (not_of (number I32 (pos 6)))) }
    ensures out_of_range { ¬
        (IsInstance
        (zones_of (number_table I8 "x" ((pos 5 ∷ []) ∷ []))
        (statistic ("x" ∷ []) Min (bounds I8 (pos 5 ∷ [])) ∷ statistic ("x" ∷ []) Max (bounds I8 (pos 500 ∷ [])) ∷ []))
        0 (not_of (col "x")) (not_of (number I8 (pos 300)))) }
{}

/// A range within a bound of a range is written as its two comparisons too.
pub fn writes_ranges_within_bounds()
    ensures value { without_ranges
        (between (between (col "x") (number I32 (pos 1)) (number I32 (pos 2)) (ends Strict NonStrict)) (col "y") (col "z")
        (ends Strict NonStrict))
        ≡ (col "y" ⟨ Lt ⟩ ((number I32 (pos 1) ⟨ Lt ⟩ col "x") ⟨ And ⟩ (col "x" ⟨ Lte ⟩ number I32 (pos 2))))
        ⟨ And ⟩ (((number I32 (pos 1) ⟨ Lt ⟩ col "x") ⟨ And ⟩ (col "x" ⟨ Lte ⟩ number I32 (pos 2))) ⟨ Lte ⟩ col "z") }
    ensures lower { without_ranges
        (between (col "y") (between (col "x") (number I32 (pos 1)) (number I32 (pos 2)) (ends Strict NonStrict)) (col "z")
        (ends Strict NonStrict))
        ≡ (((number I32 (pos 1) ⟨ Lt ⟩ col "x") ⟨ And ⟩ (col "x" ⟨ Lte ⟩ number I32 (pos 2))) ⟨ Lt ⟩ col "y")
        ⟨ And ⟩ (col "y" ⟨ Lte ⟩ col "z") }
    ensures upper { without_ranges
        (between (col "y") (col "z") (between (col "x") (number I32 (pos 1)) (number I32 (pos 2)) (ends Strict NonStrict))
        (ends Strict NonStrict))
        ≡ (col "z" ⟨ Lt ⟩ col "y")
        ⟨ And ⟩ (col "y" ⟨ Lte ⟩ ((number I32 (pos 1) ⟨ Lt ⟩ col "x") ⟨ And ⟩ (col "x" ⟨ Lte ⟩ number I32 (pos 2)))) }
{}

/// No place within any kind takes a constant out of the bounds.
pub fn replaces_no_place_out_of_bounds()
    ensures item { ¬
        (IsInstance five_to_nine 0 (get_item (codes "a") (pack_one "a" (col "x")))
        (get_item (codes "a") (pack_one "a" (number I32 (pos 10))))) }
    ensures text { ¬ (IsInstance five_to_nine 0 (like (col "x") (col "x") true false) (like (number I32 (pos 10)) (number I32 (pos 6)) true false)) }
    ensures pattern { ¬ (IsInstance five_to_nine 0 (like (col "x") (col "x") true false) (like (number I32 (pos 6)) (number I32 (pos 10)) true false)) }
    ensures casts { ¬ (IsInstance five_to_nine 0 (cast (col "x") (int_ty I64 Nullable)) (cast (number I32 (pos 10)) (int_ty I64 Nullable))) }
    ensures list { ¬ (IsInstance five_to_nine 0 (list_contains (col "x") (col "x")) (list_contains (number I32 (pos 10)) (number I32 (pos 6)))) }
    ensures member { ¬ (IsInstance five_to_nine 0 (list_contains (col "x") (col "x")) (list_contains (number I32 (pos 6)) (number I32 (pos 10)))) }
    ensures packed_first { ¬
        (IsInstance five_to_nine 0 (pack_two "a" (col "x") "b" (col "x")) (pack_two "a" (number I32 (pos 10)) "b" (number I32 (pos 6)))) }
    ensures packed_last { ¬
        (IsInstance five_to_nine 0 (pack_two "a" (col "x") "b" (col "x")) (pack_two "a" (number I32 (pos 6)) "b" (number I32 (pos 10)))) }
    ensures merged_first { ¬
        (IsInstance five_to_nine 0 (merge (tree (col "x") (tree (col "x") no_trees)) Nullable)
        (merge (tree (number I32 (pos 10)) (tree (number I32 (pos 6)) no_trees)) Nullable)) }
    ensures merged_last { ¬
        (IsInstance five_to_nine 0 (merge (tree (col "x") (tree (col "x") no_trees)) Nullable)
        (merge (tree (number I32 (pos 6)) (tree (number I32 (pos 10)) no_trees)) Nullable)) }
    ensures selects { ¬
        (IsInstance five_to_nine 0 (select (Include (codes "a" ∷ [])) (pack_one "a" (col "x")))
        (select (Include (codes "a" ∷ [])) (pack_one "a" (number I32 (pos 10))))) }
    ensures slot { ¬
        (IsInstance five_to_nine 0 (dynamic (col "x") Below 3 (int_ty I32 NonNullable) true)
        (dynamic (number I32 (pos 10)) Below 3 (int_ty I32 NonNullable) true)) }
    ensures value { ¬
        (IsReplaced five_to_nine 0 (between (col "x") (col "x") (col "x") (ends Strict NonStrict))
        (between (number I32 (pos 10)) (number I32 (pos 6)) (number I32 (pos 6)) (ends Strict NonStrict))) }
    ensures lower { ¬
        (IsReplaced five_to_nine 0 (between (col "x") (col "x") (col "x") (ends Strict NonStrict))
        (between (number I32 (pos 6)) (number I32 (pos 10)) (number I32 (pos 6)) (ends Strict NonStrict))) }
    ensures upper { ¬
        (IsReplaced five_to_nine 0 (between (col "x") (col "x") (col "x") (ends Strict NonStrict))
        (between (number I32 (pos 6)) (number I32 (pos 6)) (number I32 (pos 10)) (ends Strict NonStrict))) }
{}
