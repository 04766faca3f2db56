// What filters rule out, worked by hand: tables of a column from five to nine against constants, scans that skip, comparisons with slots.
#![tactic(auto, unfolding(crate::proofs::Computing::all_definitions))]

ghost use Rattle.std.specs.Prelude.{◌≡◌, [], ◌∷◌, codes, pos, map, replicate, true, false, Some, None, negsuc, ◌++◌, Ok};
ghost use Rattle.vx_dtype.specs.declared.PType.TheVariants.{I32, U64, I64};
ghost use Rattle.vx_dtype.specs.declared.Nullability.TheVariants.{NonNullable, Nullable};
ghost use Rattle.vx_dtype.specs.declared.Stat.TheVariants.{Min, Max, NullCount, NaNCount};
ghost use Rattle.vx_dtype.specs.declared.StrictComparison.TheVariants.{Strict, NonStrict};
ghost use Rattle.vx_dtype.specs.Types.{bool_ty, int_ty, list_ty};
ghost use Rattle.vx_dtype.specs.Values.{raw_null, raw_int, raw_list, raw, no_raws, null_val, int_val, fault};
ghost use Rattle.vx_dtype.specs.declared.CompareOperator.TheVariants.{Gt as Above, NotEq as Unequal, Lt as Below};
ghost use Rattle.vx_expr.specs.declared.Operator.TheVariants.{Eq, Gt, Gte, Lt, Lte, And, Or, NotEq};
ghost use Rattle.vx_expr.specs.Trees.{root, literal, get_item, not_of, is_null_of, between, list_contains, like, cast, pack, dynamic};
ghost use Rattle.vx_semantics.specs.Tables.{joined_name, same_stat};
ghost use Rattle.vx_semantics.specs.Pruning.{rules_out, known, comparison_ruled_out, is_zero, dynamic_ruled_out_by};
ghost use Rattle.vx_semantics.specs.Paths.{path_of};
ghost use Rattle.vx_semantics.specs.Scans.{skipped_blocks, kept_blocks};
ghost use Rattle.vx_worked_examples.specs.Samples.{col, number, null_of, quoted, ◌⟨◌⟩◌, number_table, joined_twice, bounds, statistic, zones_of};
ghost use Rattle.vx_worked_examples.specs.Samples.{number_list, pack_one, slot_of, five_to_nine, from_five, up_to_nine, comparisons, with_slot, operators};
ghost use Rattle.vx_worked_examples.specs.Samples.{numbers, nullable_table, answer_of, reads_in, above_ten, ends, one_and_twenty, one_and_twenty_bounds};
ghost use Rattle.vx_worked_examples.specs.Kinds.{range_of, stats};

/// The column on the left of each operator, against the numbers at and beside its bounds.
pub fn column_before_a_constant()
    ensures four { map (λ op. rules_out five_to_nine [] 0 (col "x" ⟨ op ⟩ number I32 (pos 4))) operators
        ≡ true ∷ false ∷ false ∷ false ∷ true ∷ true ∷ false ∷ false ∷ false ∷ false ∷ [] }
    ensures five { map (λ op. rules_out five_to_nine [] 0 (col "x" ⟨ op ⟩ number I32 (pos 5))) operators
        ≡ false ∷ false ∷ false ∷ false ∷ true ∷ false ∷ false ∷ false ∷ false ∷ false ∷ [] }
    ensures nine { map (λ op. rules_out five_to_nine [] 0 (col "x" ⟨ op ⟩ number I32 (pos 9))) operators
        ≡ false ∷ false ∷ true ∷ false ∷ false ∷ false ∷ false ∷ false ∷ false ∷ false ∷ [] }
    ensures ten { map (λ op. rules_out five_to_nine [] 0 (col "x" ⟨ op ⟩ number I32 (pos 10))) operators
        ≡ true ∷ false ∷ true ∷ true ∷ false ∷ false ∷ false ∷ false ∷ false ∷ false ∷ [] }
{}

/// The column on the right.
pub fn column_behind_a_constant()
    ensures four { map (λ op. rules_out five_to_nine [] 0 (number I32 (pos 4) ⟨ op ⟩ col "x")) operators
        ≡ true ∷ false ∷ true ∷ true ∷ false ∷ false ∷ false ∷ false ∷ false ∷ false ∷ [] }
    ensures five { map (λ op. rules_out five_to_nine [] 0 (number I32 (pos 5) ⟨ op ⟩ col "x")) operators
        ≡ false ∷ false ∷ true ∷ false ∷ false ∷ false ∷ false ∷ false ∷ false ∷ false ∷ [] }
    ensures nine { map (λ op. rules_out five_to_nine [] 0 (number I32 (pos 9) ⟨ op ⟩ col "x")) operators
        ≡ false ∷ false ∷ false ∷ false ∷ true ∷ false ∷ false ∷ false ∷ false ∷ false ∷ [] }
    ensures ten { map (λ op. rules_out five_to_nine [] 0 (number I32 (pos 10) ⟨ op ⟩ col "x")) operators
        ≡ true ∷ false ∷ false ∷ false ∷ true ∷ true ∷ false ∷ false ∷ false ∷ false ∷ [] }
{}

/// Its negation rules out as the inverse comparison does; a sum has none.
pub fn negated_column_before_a_constant()
    ensures four { map (λ op. rules_out five_to_nine [] 0 (not_of (col "x" ⟨ op ⟩ number I32 (pos 4)))) operators
        ≡ false ∷ true ∷ true ∷ true ∷ false ∷ false ∷ false ∷ false ∷ false ∷ false ∷ [] }
    ensures five { map (λ op. rules_out five_to_nine [] 0 (not_of (col "x" ⟨ op ⟩ number I32 (pos 5)))) operators
        ≡ false ∷ false ∷ false ∷ true ∷ false ∷ false ∷ false ∷ false ∷ false ∷ false ∷ [] }
    ensures nine { map (λ op. rules_out five_to_nine [] 0 (not_of (col "x" ⟨ op ⟩ number I32 (pos 9)))) operators
        ≡ false ∷ false ∷ false ∷ false ∷ false ∷ true ∷ false ∷ false ∷ false ∷ false ∷ [] }
    ensures ten { map (λ op. rules_out five_to_nine [] 0 (not_of (col "x" ⟨ op ⟩ number I32 (pos 10)))) operators
        ≡ false ∷ true ∷ false ∷ false ∷ true ∷ true ∷ false ∷ false ∷ false ∷ false ∷ [] }
{}

/// Two constants, of which all bounds are known: the inequality of equal ones rules out.
pub fn constant_beside_a_constant()
    ensures equal { map (λ op. rules_out five_to_nine [] 0 (number I32 (pos 7) ⟨ op ⟩ number I32 (pos 7))) operators
        ≡ false ∷ true ∷ true ∷ false ∷ true ∷ false ∷ false ∷ false ∷ false ∷ false ∷ [] }
    ensures negated { map (λ op. rules_out five_to_nine [] 0 (not_of (number I32 (pos 7) ⟨ op ⟩ number I32 (pos 7)))) operators
        ≡ true ∷ false ∷ false ∷ true ∷ false ∷ true ∷ false ∷ false ∷ false ∷ false ∷ [] }
    ensures null { map (λ op. rules_out five_to_nine [] 0 (col "x" ⟨ op ⟩ null_of (int_ty I32 Nullable))) operators ≡ replicate 10 false }
{}

/// An inequality needs both that the least value equals and that the greatest does.
pub fn inequality_needs_both_bounds()
    ensures least_alone { rules_out from_five [] 0 (not_of (col "x" ⟨ Eq ⟩ number I32 (pos 5))) ≡ false }
    ensures greatest_alone { rules_out up_to_nine [] 0 (not_of (col "x" ⟨ Eq ⟩ number I32 (pos 9))) ≡ false }
{}

/// `and` needs one side, `or` both; their negations the other way round.
pub fn joins_sides()
    ensures and_left { rules_out five_to_nine [] 0 ((col "x" ⟨ Lt ⟩ number I32 (pos 5)) ⟨ And ⟩ (col "x" ⟨ Gt ⟩ number I32 (pos 0))) ≡ true }
    ensures and_right { rules_out five_to_nine [] 0 ((col "x" ⟨ Gt ⟩ number I32 (pos 0)) ⟨ And ⟩ (col "x" ⟨ Lt ⟩ number I32 (pos 5))) ≡ true }
    ensures or_both { rules_out five_to_nine [] 0 ((col "x" ⟨ Lt ⟩ number I32 (pos 5)) ⟨ Or ⟩ (col "x" ⟨ Gt ⟩ number I32 (pos 9))) ≡ true }
    ensures or_left { rules_out five_to_nine [] 0 ((col "x" ⟨ Lt ⟩ number I32 (pos 5)) ⟨ Or ⟩ (col "x" ⟨ Gt ⟩ number I32 (pos 0))) ≡ false }
    ensures or_right { rules_out five_to_nine [] 0 ((col "x" ⟨ Gt ⟩ number I32 (pos 0)) ⟨ Or ⟩ (col "x" ⟨ Lt ⟩ number I32 (pos 5))) ≡ false }
    ensures not_and_both { rules_out five_to_nine [] 0
        (not_of ((col "x" ⟨ Gte ⟩ number I32 (pos 5)) ⟨ And ⟩ (col "x" ⟨ Lte ⟩ number I32 (pos 9))))
        ≡ true }
    ensures not_and_left { rules_out five_to_nine [] 0
        (not_of ((col "x" ⟨ Gte ⟩ number I32 (pos 5)) ⟨ And ⟩ (col "x" ⟨ Lte ⟩ number I32 (pos 8))))
        ≡ false }
    ensures not_and_right { rules_out five_to_nine [] 0
        (not_of ((col "x" ⟨ Lte ⟩ number I32 (pos 8)) ⟨ And ⟩ (col "x" ⟨ Gte ⟩ number I32 (pos 5))))
        ≡ false }
    ensures not_or_left { rules_out five_to_nine [] 0 (not_of ((col "x" ⟨ Gte ⟩ number I32 (pos 5)) ⟨ Or ⟩ (col "x" ⟨ Lte ⟩ number I32 (pos 8))))
        ≡ true }
    ensures not_or_right { rules_out five_to_nine [] 0 (not_of ((col "x" ⟨ Lte ⟩ number I32 (pos 8)) ⟨ Or ⟩ (col "x" ⟨ Gte ⟩ number I32 (pos 5))))
        ≡ true }
    ensures not_or_none { rules_out five_to_nine [] 0 (not_of ((col "x" ⟨ Lte ⟩ number I32 (pos 8)) ⟨ Or ⟩ (col "x" ⟨ Gte ⟩ number I32 (pos 6))))
        ≡ false }
    ensures twice { rules_out five_to_nine [] 0 (not_of (not_of (col "x" ⟨ Lt ⟩ number I32 (pos 5)))) ≡ true }
    ensures twice_kept { rules_out five_to_nine [] 0 (not_of (not_of (col "x" ⟨ Lt ⟩ number I32 (pos 6)))) ≡ false }
{}

/// A range, by each of its bounds, strict or not.
pub fn ranges_beside_the_bounds()
    ensures below { rules_out five_to_nine [] 0 (between (col "x") (number I32 (pos 10)) (number I32 (pos 20)) (ends NonStrict NonStrict)) ≡ true }
    ensures at_lower { rules_out five_to_nine [] 0 (between (col "x") (number I32 (pos 9)) (number I32 (pos 20)) (ends NonStrict Strict)) ≡ false }
    ensures at_strict_lower { rules_out five_to_nine [] 0 (between (col "x") (number I32 (pos 9)) (number I32 (pos 20)) (ends Strict NonStrict)) ≡ true }
    ensures above { rules_out five_to_nine [] 0 (between (col "x") (number I32 (pos 0)) (number I32 (pos 4)) (ends NonStrict NonStrict)) ≡ true }
    ensures at_upper { rules_out five_to_nine [] 0 (between (col "x") (number I32 (pos 0)) (number I32 (pos 5)) (ends Strict NonStrict)) ≡ false }
    ensures at_strict_upper { rules_out five_to_nine [] 0 (between (col "x") (number I32 (pos 0)) (number I32 (pos 5)) (ends NonStrict Strict)) ≡ true }
    ensures not_in { rules_out five_to_nine [] 0 (not_of (between (col "x") (number I32 (pos 5)) (number I32 (pos 9)) (ends NonStrict NonStrict))) ≡ true }
    ensures not_above { rules_out five_to_nine [] 0
        (not_of (between (col "x") (number I32 (pos 6)) (number I32 (pos 9)) (ends NonStrict NonStrict)))
        ≡ false }
    ensures not_below { rules_out five_to_nine [] 0
        (not_of (between (col "x") (number I32 (pos 5)) (number I32 (pos 8)) (ends NonStrict NonStrict)))
        ≡ false }
    ensures not_strictly_above { rules_out five_to_nine [] 0
        (not_of (between (col "x") (number I32 (pos 5)) (number I32 (pos 9)) (ends Strict NonStrict)))
        ≡ false }
    ensures not_strictly_above_four { rules_out five_to_nine [] 0
        (not_of (between (col "x") (number I32 (pos 4)) (number I32 (pos 9)) (ends Strict NonStrict)))
        ≡ true }
    ensures not_strictly_below { rules_out five_to_nine [] 0
        (not_of (between (col "x") (number I32 (pos 5)) (number I32 (pos 9)) (ends NonStrict Strict)))
        ≡ false }
    ensures not_strictly_below_ten { rules_out five_to_nine [] 0
        (not_of (between (col "x") (number I32 (pos 5)) (number I32 (pos 10)) (ends NonStrict Strict)))
        ≡ true }
{}

/// A null test, by the count of nulls alone.
pub fn null_tests_by_counts()
    ensures none { rules_out
        (zones_of (number_table I32 "x" ((pos 5 ∷ []) ∷ [])) (statistic ("x" ∷ []) NullCount (bounds U64 (pos 0 ∷ [])) ∷ [])) [] 0
        (is_null_of (col "x"))
        ≡ true }
    ensures one { rules_out
        (zones_of (number_table I32 "x" ((pos 5 ∷ []) ∷ [])) (statistic ("x" ∷ []) NullCount (bounds U64 (pos 1 ∷ [])) ∷ [])) [] 0
        (is_null_of (col "x"))
        ≡ false }
    ensures unknown { rules_out
        (zones_of (number_table I32 "x" ((pos 5 ∷ []) ∷ []))
        (statistic ("x" ∷ []) NullCount (record { ty = int_ty U64 Nullable; value = raw_null } ∷ []) ∷ []))
        [] 0 (is_null_of (col "x"))
        ≡ false }
    ensures missing { rules_out five_to_nine [] 0 (is_null_of (col "x")) ≡ false }
    ensures negated { rules_out
        (zones_of (number_table I32 "x" ((pos 5 ∷ []) ∷ [])) (statistic ("x" ∷ []) NullCount (bounds U64 (pos 0 ∷ [])) ∷ [])) [] 0
        (not_of (is_null_of (col "x")))
        ≡ false }
{}

/// Membership in a constant list: each element has to lie outside, and both bounds have to be available.
pub fn membership_by_bounds()
    ensures outside { rules_out five_to_nine [] 0 (list_contains (number_list I32 (pos 4 ∷ pos 10 ∷ [])) (col "x")) ≡ true }
    ensures at_least { rules_out five_to_nine [] 0 (list_contains (number_list I32 (pos 5 ∷ pos 10 ∷ [])) (col "x")) ≡ false }
    ensures at_greatest { rules_out five_to_nine [] 0 (list_contains (number_list I32 (pos 10 ∷ pos 9 ∷ [])) (col "x")) ≡ false }
    ensures null_element { rules_out five_to_nine [] 0
        (list_contains
        (literal
        (record { ty = list_ty (int_ty I32 Nullable) NonNullable; value = raw_list (raw (raw_int (pos 4)) (raw raw_null no_raws)) }))
        (col "x"))
        ≡ false }
    ensures null_list { rules_out five_to_nine [] 0 (list_contains (null_of (list_ty (int_ty I32 NonNullable) Nullable)) (col "x")) ≡ false }
    ensures no_constant { rules_out five_to_nine [] 0 (list_contains (col "l") (col "x")) ≡ false }
    ensures least_alone { rules_out from_five [] 0 (list_contains (number_list I32 (pos 4 ∷ [])) (col "x")) ≡ false }
    ensures greatest_alone { rules_out up_to_nine [] 0 (list_contains (number_list I32 (pos 10 ∷ [])) (col "x")) ≡ false }
    ensures empty { rules_out (zones_of (number_table I32 "x" ((pos 5 ∷ []) ∷ [])) []) [] 0 (list_contains (number_list I32 []) (col "x")) ≡ true }
    ensures constant { rules_out five_to_nine [] 0 (list_contains (number_list I32 (pos 4 ∷ [])) (number I32 (pos 5))) ≡ true }
    ensures negated { rules_out five_to_nine [] 0 (not_of (list_contains (number_list I32 []) (col "x"))) ≡ false }
    ensures null_greatest { rules_out
        (zones_of (number_table I32 "x" ((pos 5 ∷ []) ∷ []))
        (statistic ("x" ∷ []) Min (bounds I32 (pos 5 ∷ []))
        ∷ statistic ("x" ∷ []) Max (record { ty = int_ty I32 Nullable; value = raw_null } ∷ []) ∷ []))
        [] 0 (list_contains (number_list I32 (pos 4 ∷ [])) (col "x"))
        ≡ true }
{}

/// Comparisons with a slot: by its value, else by the default where the needed bound is available; equality never.
pub fn slots_by_bounds()
    ensures ten { map (λ op. rules_out five_to_nine (slot_of I32 (pos 10) ∷ []) 0 (with_slot op true)) comparisons
        ≡ false ∷ false ∷ true ∷ true ∷ false ∷ false ∷ [] }
    ensures four { map (λ op. rules_out five_to_nine (slot_of I32 (pos 4) ∷ []) 0 (with_slot op true)) comparisons
        ≡ false ∷ false ∷ false ∷ false ∷ true ∷ true ∷ [] }
    ensures nine { map (λ op. rules_out five_to_nine (slot_of I32 (pos 9) ∷ []) 0 (with_slot op false)) comparisons
        ≡ false ∷ false ∷ true ∷ false ∷ false ∷ false ∷ [] }
    ensures null { map
        (λ op. rules_out five_to_nine (Some (record { ty = int_ty I32 Nullable; value = raw_null }) ∷ []) 0 (with_slot op false))
        comparisons
        ≡ replicate 6 false }
    ensures default_of_greatest { map (λ op. rules_out up_to_nine [] 0 (with_slot op false)) comparisons
        ≡ false ∷ false ∷ true ∷ true ∷ false ∷ false ∷ [] }
    ensures default_of_least { map (λ op. rules_out from_five (None ∷ []) 0 (with_slot op false)) comparisons
        ≡ false ∷ false ∷ false ∷ false ∷ true ∷ true ∷ [] }
    ensures true_default { map (λ op. rules_out five_to_nine [] 0 (with_slot op true)) comparisons ≡ replicate 6 false }
    ensures negated { map (λ op. rules_out five_to_nine [] 0 (not_of (with_slot op false))) comparisons ≡ replicate 6 false }
{}

/// Paths are chains of accesses over the row, named from the row on.
pub fn paths_from_the_row()
    ensures row { path_of root ≡ Some [] }
    ensures field { path_of (get_item (codes "b") (col "a")) ≡ Some (codes "a" ∷ codes "b" ∷ []) }
    ensures of_a_pack { path_of (get_item (codes "a") (pack_one "a" (col "x"))) ≡ None }
    ensures constant { path_of (number I32 (pos 1)) ≡ None }
    ensures joined { joined_name (codes "a" ∷ codes "b" ∷ []) Max ≡ codes "a_b_max" }
    ensures joined_alone { map (joined_name (codes "a" ∷ [])) (Min ∷ Max ∷ NullCount ∷ NaNCount ∷ [])
        ≡ codes "a_min" ∷ codes "a_max" ∷ codes "a_null_count" ∷ codes "a_nan_count" ∷ [] }
{}

/// A statistic of a field of a field rules out; one of another path, of another kind or of no such block doesn't.
pub fn takes_the_statistic_of_the_path()
    ensures nested { rules_out (zones_of joined_twice (statistic ("a" ∷ "b" ∷ []) Max (bounds I32 (pos 1 ∷ [])) ∷ [])) [] 0
        (get_item (codes "b") (col "a") ⟨ Gt ⟩ number I32 (pos 5))
        ≡ true }
    ensures other_way { rules_out (zones_of joined_twice (statistic ("b" ∷ "a" ∷ []) Max (bounds I32 (pos 1 ∷ [])) ∷ [])) [] 0
        (get_item (codes "b") (col "a") ⟨ Gt ⟩ number I32 (pos 5))
        ≡ false }
    ensures same_name { rules_out (zones_of joined_twice (statistic ("a_b" ∷ []) Max (bounds I32 (pos 1 ∷ [])) ∷ [])) [] 0
        (get_item (codes "b") (col "a") ⟨ Gt ⟩ number I32 (pos 5))
        ≡ false }
    ensures second_block { rules_out five_to_nine [] 1 (col "x" ⟨ Gt ⟩ number I32 (pos 50)) ≡ false }
    ensures later { rules_out
        (zones_of joined_twice
        (statistic ("a_b" ∷ []) Min (bounds I32 (pos 1 ∷ [])) ∷ statistic ("a_b" ∷ []) Max (bounds I32 (pos 1 ∷ [])) ∷ []))
        [] 0 (col "a_b" ⟨ Gt ⟩ number I32 (pos 5))
        ≡ true }
{}

/// The other kinds of expressions rule nothing out.
pub fn other_kinds_keep()
    ensures column { rules_out five_to_nine [] 0 (col "x") ≡ false }
    ensures constant { rules_out five_to_nine [] 0 (null_of (int_ty I32 Nullable)) ≡ false }
    ensures likeness { rules_out five_to_nine [] 0 (like (quoted "a") (quoted "b") false false) ≡ false }
    ensures casts { rules_out five_to_nine [] 0 (cast (col "x") (int_ty I32 NonNullable)) ≡ false }
{}

/// A range rules a block out by its lower bound.
pub fn range_skips_a_block()
    ensures { answer_of one_and_twenty one_and_twenty_bounds []
        (between (col "x") (number I32 (pos 10)) (number I32 (pos 50)) (ends NonStrict Strict)) (col "x")
        ≡ record {
          filter_type = Ok (bool_ty NonNullable);
          projection_type = Ok (int_ty I32 NonNullable);
          rows = numbers I32 (pos 20 ∷ []);
          skipped = 0 ∷ [];
          columns = codes "x" ∷ [];
          reads = reads_in "x" (1 ∷ []);
        } }
{}

/// The negation of a comparison rules out as its inverse does.
pub fn negation_skips_a_block()
    ensures { answer_of one_and_twenty one_and_twenty_bounds [] (not_of (col "x" ⟨ Lte ⟩ number I32 (pos 10))) (col "x")
        ≡ record {
          filter_type = Ok (bool_ty NonNullable);
          projection_type = Ok (int_ty I32 NonNullable);
          rows = numbers I32 (pos 20 ∷ []);
          skipped = 0 ∷ [];
          columns = codes "x" ∷ [];
          reads = reads_in "x" (1 ∷ []);
        } }
{}

/// The negation of an `or` rules out where the negation of a side does.
pub fn negated_or_skips_both_blocks()
    ensures { answer_of one_and_twenty one_and_twenty_bounds []
        (not_of ((col "x" ⟨ Lt ⟩ number I32 (pos 5)) ⟨ Or ⟩ (col "x" ⟨ Gt ⟩ number I32 (pos 10)))) (col "x")
        ≡ record {
          filter_type = Ok (bool_ty NonNullable);
          projection_type = Ok (int_ty I32 NonNullable);
          rows = [];
          skipped = 0 ∷ 1 ∷ [];
          columns = [];
          reads = [];
        } }
{}

/// A null test rules a block out whose count of nulls is 0.
pub fn null_test_skips_a_block_without_nulls()
    ensures { answer_of (nullable_table "x" ((Some (pos 1) ∷ None ∷ []) ∷ (Some (pos 2) ∷ []) ∷ []))
        (statistic ("x" ∷ []) NullCount (bounds U64 (pos 1 ∷ pos 0 ∷ [])) ∷ []) [] (is_null_of (col "x")) (col "x")
        ≡ record {
          filter_type = Ok (bool_ty NonNullable);
          projection_type = Ok (int_ty I32 Nullable);
          rows = null_val ∷ [];
          skipped = 1 ∷ [];
          columns = codes "x" ∷ [];
          reads = reads_in "x" (0 ∷ []);
        } }
{}

/// The filter as it stands is what rules out: a field of a pack has no path.
pub fn prunes_no_field_of_a_pack()
    ensures { answer_of one_and_twenty one_and_twenty_bounds [] (get_item (codes "b") (pack_one "b" (col "x")) ⟨ Gt ⟩ number I32 (pos 10))
        (col "x")
        ≡ record {
          filter_type = Ok (bool_ty NonNullable);
          projection_type = Ok (int_ty I32 NonNullable);
          rows = numbers I32 (pos 20 ∷ []);
          skipped = [];
          columns = codes "x" ∷ [];
          reads = reads_in "x" (0 ∷ 1 ∷ []);
        } }
{}

/// Two bounds that are null rule nothing out.
pub fn null_bounds_rule_nothing_out()
    ensures { answer_of (number_table I32 "x" ((pos 5 ∷ []) ∷ []))
        (statistic ("x" ∷ []) Min (record { ty = int_ty I32 Nullable; value = raw_null } ∷ [])
        ∷ statistic ("x" ∷ []) Max (record { ty = int_ty I32 Nullable; value = raw_null } ∷ []) ∷ [])
        [] (col "x" ⟨ Eq ⟩ number I32 (pos 5)) (col "x")
        ≡ record {
          filter_type = Ok (bool_ty NonNullable);
          projection_type = Ok (int_ty I32 NonNullable);
          rows = numbers I32 (pos 5 ∷ []);
          skipped = [];
          columns = codes "x" ∷ [];
          reads = reads_in "x" (0 ∷ []);
        } }
{}

/// A least value above the constant rules out beside a null bound.
pub fn minimum_rules_out_beside_null()
    ensures { answer_of (number_table I32 "x" ((pos 5 ∷ []) ∷ []))
        (statistic ("x" ∷ []) Min (record { ty = int_ty I32 Nullable; value = raw_int (pos 9) } ∷ [])
        ∷ statistic ("x" ∷ []) Max (record { ty = int_ty I32 Nullable; value = raw_null } ∷ []) ∷ [])
        [] (col "x" ⟨ Eq ⟩ number I32 (pos 5)) (col "x")
        ≡ record {
          filter_type = Ok (bool_ty NonNullable);
          projection_type = Ok (int_ty I32 NonNullable);
          rows = [];
          skipped = 0 ∷ [];
          columns = [];
          reads = [];
        } }
{}

/// A greatest value below the constant rules out beside a null bound.
pub fn maximum_rules_out_beside_null()
    ensures { answer_of (number_table I32 "x" ((pos 5 ∷ []) ∷ []))
        (statistic ("x" ∷ []) Min (record { ty = int_ty I32 Nullable; value = raw_null } ∷ [])
        ∷ statistic ("x" ∷ []) Max (record { ty = int_ty I32 Nullable; value = raw_int (pos 1) } ∷ []) ∷ [])
        [] (col "x" ⟨ Eq ⟩ number I32 (pos 5)) (col "x")
        ≡ record {
          filter_type = Ok (bool_ty NonNullable);
          projection_type = Ok (int_ty I32 NonNullable);
          rows = [];
          skipped = 0 ∷ [];
          columns = [];
          reads = [];
        } }
{}

/// Bounds that hold the constant rule nothing out.
pub fn equal_bounds_keep()
    ensures { answer_of (number_table I32 "x" ((pos 5 ∷ []) ∷ []))
        (statistic ("x" ∷ []) Min (record { ty = int_ty I32 Nullable; value = raw_int (pos 5) } ∷ [])
        ∷ statistic ("x" ∷ []) Max (record { ty = int_ty I32 Nullable; value = raw_int (pos 5) } ∷ []) ∷ [])
        [] (col "x" ⟨ Eq ⟩ number I32 (pos 5)) (col "x")
        ≡ record {
          filter_type = Ok (bool_ty NonNullable);
          projection_type = Ok (int_ty I32 NonNullable);
          rows = numbers I32 (pos 5 ∷ []);
          skipped = [];
          columns = codes "x" ∷ [];
          reads = reads_in "x" (0 ∷ []);
        } }
{}

/// One bound alone serves where it suffices, and here it doesn't.
pub fn minimum_alone_keeps()
    ensures { answer_of (number_table I32 "x" ((pos 5 ∷ []) ∷ []))
        (statistic ("x" ∷ []) Min (record { ty = int_ty I32 Nullable; value = raw_int (pos 5) } ∷ []) ∷ []) []
        (col "x" ⟨ Eq ⟩ number I32 (pos 5)) (col "x")
        ≡ record {
          filter_type = Ok (bool_ty NonNullable);
          projection_type = Ok (int_ty I32 NonNullable);
          rows = numbers I32 (pos 5 ∷ []);
          skipped = [];
          columns = codes "x" ∷ [];
          reads = reads_in "x" (0 ∷ []);
        } }
{}

/// All rows equal the constant: the inequality rules the block out.
pub fn inequality_skips_a_constant_block()
    ensures { answer_of (number_table I32 "x" ((pos 5 ∷ []) ∷ []))
        (statistic ("x" ∷ []) Min (record { ty = int_ty I32 Nullable; value = raw_int (pos 5) } ∷ [])
        ∷ statistic ("x" ∷ []) Max (record { ty = int_ty I32 Nullable; value = raw_int (pos 5) } ∷ []) ∷ [])
        [] (col "x" ⟨ NotEq ⟩ number I32 (pos 5)) (col "x")
        ≡ record {
          filter_type = Ok (bool_ty NonNullable);
          projection_type = Ok (int_ty I32 NonNullable);
          rows = [];
          skipped = 0 ∷ [];
          columns = [];
          reads = [];
        } }
{}

/// Each element lies outside the bounds: membership rules out.
pub fn membership_skips_a_block()
    ensures { answer_of one_and_twenty one_and_twenty_bounds [] (list_contains (number_list I32 (pos 2 ∷ pos 30 ∷ [])) (col "x")) (col "x")
        ≡ record {
          filter_type = Ok (bool_ty NonNullable);
          projection_type = Ok (int_ty I32 NonNullable);
          rows = [];
          skipped = 0 ∷ 1 ∷ [];
          columns = [];
          reads = [];
        } }
{}

/// An element between the bounds keeps the block.
pub fn membership_keeps_a_block()
    ensures { answer_of one_and_twenty one_and_twenty_bounds [] (list_contains (number_list I32 (pos 1 ∷ pos 30 ∷ [])) (col "x")) (col "x")
        ≡ record {
          filter_type = Ok (bool_ty NonNullable);
          projection_type = Ok (int_ty I32 NonNullable);
          rows = numbers I32 (pos 1 ∷ []);
          skipped = 1 ∷ [];
          columns = codes "x" ∷ [];
          reads = reads_in "x" (0 ∷ []);
        } }
{}

/// A comparison with a slot rules out by its value.
pub fn slot_value_skips_a_block()
    ensures { answer_of one_and_twenty one_and_twenty_bounds (slot_of I32 (pos 10) ∷ [])
        (dynamic (col "x") Above 0 (int_ty I32 NonNullable) true) (col "x")
        ≡ record {
          filter_type = Ok (bool_ty NonNullable);
          projection_type = Ok (int_ty I32 NonNullable);
          rows = numbers I32 (pos 20 ∷ []);
          skipped = 0 ∷ [];
          columns = codes "x" ∷ [];
          reads = reads_in "x" (1 ∷ []);
        } }
{}

/// Without a value the default decides: false rules out, where the bound is available.
pub fn slot_default_skips_both_blocks()
    ensures { answer_of one_and_twenty one_and_twenty_bounds (None ∷ []) (dynamic (col "x") Above 0 (int_ty I32 NonNullable) false)
        (col "x")
        ≡ record {
          filter_type = Ok (bool_ty NonNullable);
          projection_type = Ok (int_ty I32 NonNullable);
          rows = [];
          skipped = 0 ∷ 1 ∷ [];
          columns = [];
          reads = [];
        } }
{}

/// Without a value and with true as default every row is kept.
pub fn slot_default_keeps_both_blocks()
    ensures { answer_of one_and_twenty one_and_twenty_bounds [] (dynamic (col "x") Above 0 (int_ty I32 NonNullable) true) (col "x")
        ≡ record {
          filter_type = Ok (bool_ty NonNullable);
          projection_type = Ok (int_ty I32 NonNullable);
          rows = numbers I32 (pos 1 ∷ pos 20 ∷ []);
          skipped = [];
          columns = codes "x" ∷ [];
          reads = reads_in "x" (0 ∷ 1 ∷ []);
        } }
{}

/// A comparison with a slot takes the value of its own slot, in every block.
pub fn takes_the_value_of_its_own_slot()
    ensures second_slot { rules_out five_to_nine (None ∷ slot_of I32 (pos 10) ∷ []) 0 (dynamic (col "x") Above 1 (int_ty I32 NonNullable) true) ≡ true }
    ensures first_slot { rules_out five_to_nine (slot_of I32 (pos 4) ∷ slot_of I32 (pos 10) ∷ []) 0 (with_slot Above true) ≡ false }
    ensures second_block { rules_out
        (zones_of (number_table I32 "x" ((pos 1 ∷ []) ∷ (pos 2 ∷ []) ∷ []))
        (statistic ("x" ∷ []) Max (bounds I32 (pos 1 ∷ pos 2 ∷ [])) ∷ []))
        (slot_of I32 (pos 10) ∷ []) 1 (with_slot Above true)
        ≡ true }
{}

/// An operand that is no path has no bound: neither a default nor a list rules out. A constant has both.
pub fn asks_a_bound_of_the_operand()
    ensures default_of_a_cast { map
        (λ op. rules_out five_to_nine [] 0 (dynamic (cast (col "x") (int_ty I32 NonNullable)) op 0 (int_ty I32 NonNullable) false))
        comparisons
        ≡ replicate 6 false }
    ensures value_beside_a_cast { map
        (λ op. rules_out five_to_nine (slot_of I32 (pos 10) ∷ []) 0
        (dynamic (cast (col "x") (int_ty I32 NonNullable)) op 0 (int_ty I32 NonNullable) false))
        comparisons
        ≡ replicate 6 false }
    ensures list_of_a_cast { rules_out five_to_nine [] 0 (list_contains (number_list I32 (pos 4 ∷ [])) (cast (col "x") (int_ty I32 NonNullable))) ≡ false }
    ensures default_of_a_constant { map
        (λ op. rules_out five_to_nine [] 0 (dynamic (number I32 (pos 7)) op 0 (int_ty I32 NonNullable) false)) comparisons
        ≡ false ∷ false ∷ true ∷ true ∷ true ∷ true ∷ [] }
{}

/// Comparisons of two ranges by their ends: apart, touching, alike, and the same with the sides exchanged.
pub fn compares_ranges_by_their_ends()
    ensures below { map (λ op. comparison_ruled_out op (range_of 1 3) (range_of 5 7)) comparisons
        ≡ true ∷ false ∷ true ∷ true ∷ false ∷ false ∷ [] }
    ensures above { map (λ op. comparison_ruled_out op (range_of 5 7) (range_of 1 3)) comparisons
        ≡ true ∷ false ∷ false ∷ false ∷ true ∷ true ∷ [] }
    ensures touching_below { map (λ op. comparison_ruled_out op (range_of 1 5) (range_of 5 7)) comparisons
        ≡ false ∷ false ∷ true ∷ false ∷ false ∷ false ∷ [] }
    ensures touching_above { map (λ op. comparison_ruled_out op (range_of 5 7) (range_of 1 5)) comparisons
        ≡ false ∷ false ∷ false ∷ false ∷ true ∷ false ∷ [] }
    ensures overlapping { map (λ op. comparison_ruled_out op (range_of 1 6) (range_of 5 7)) comparisons ≡ replicate 6 false }
    ensures one_number { map (λ op. comparison_ruled_out op (range_of 5 5) (range_of 5 5)) comparisons
        ≡ false ∷ true ∷ true ∷ false ∷ true ∷ false ∷ [] }
{}

/// An inequality is ruled out where both pairs of ends are equal, and not where one pair is and the other stands otherwise.
pub fn rules_out_an_inequality_by_both_ends()
    ensures least_above { comparison_ruled_out Unequal (range_of 7 5) (range_of 5 5) ≡ false }
    ensures least_below { comparison_ruled_out Unequal (range_of 3 5) (range_of 5 5) ≡ false }
    ensures greatest_above { comparison_ruled_out Unequal (range_of 5 7) (range_of 5 5) ≡ false }
    ensures greatest_below { comparison_ruled_out Unequal (range_of 5 3) (range_of 5 5) ≡ false }
{}

/// A known value is any but null, a fault too.
pub fn knows_what_is_not_null()
    ensures null { known null_val ≡ None }
    ensures a_fault { known fault ≡ Some fault }
{}

/// A count is zero where it is 0, not where it is below.
pub fn counts_zero_alone()
    ensures zero { is_zero (Some (int_val I64 (pos 0))) ≡ true }
    ensures below { is_zero (Some (int_val I64 (negsuc 0))) ≡ false }
    ensures above { is_zero (Some (int_val I64 (pos 1))) ≡ false }
{}

/// A list rules out where each of its elements lies outside, the last one too.
pub fn looks_at_each_element()
    ensures last_inside { rules_out five_to_nine [] 0 (list_contains (number_list I32 (pos 1 ∷ pos 6 ∷ [])) (col "x")) ≡ false }
    ensures last_outside { rules_out five_to_nine [] 0 (list_contains (number_list I32 (pos 1 ∷ pos 10 ∷ pos 4 ∷ [])) (col "x")) ≡ true }
{}

/// A comparison with a slot's value goes by both bounds, whichever one its default would need.
pub fn compares_a_slot_by_the_bound_of_its_operator()
    ensures least { dynamic_ruled_out_by five_to_nine 0 (col "x") Below true (Some (int_val I32 (pos 7))) (Some Max) ≡ false }
    ensures greatest { dynamic_ruled_out_by five_to_nine 0 (col "x") Above true (Some (int_val I32 (pos 7))) (Some Min) ≡ false }
{}

/// Each kind of statistic is the same as itself alone.
pub fn tells_statistics_apart()
    ensures { map (λ s. map (same_stat s) stats) stats
        ≡ (true ∷ replicate 3 false) ∷ (false ∷ true ∷ replicate 2 false) ∷ (false ∷ false ∷ true ∷ false ∷ [])
        ∷ (replicate 3 false ++ (true ∷ [])) ∷ [] }
{}

/// Kept and skipped blocks go by their numbers, not by their lengths.
pub fn numbers_blocks()
    ensures kept { kept_blocks
        (zones_of (number_table I32 "x" ((pos 10 ∷ pos 20 ∷ pos 30 ∷ []) ∷ (pos 5 ∷ []) ∷ (pos 11 ∷ pos 12 ∷ []) ∷ []))
        (statistic ("x" ∷ []) Max (bounds I32 (pos 30 ∷ pos 5 ∷ pos 12 ∷ [])) ∷ []))
        [] above_ten
        ≡ 0 ∷ 2 ∷ [] }
    ensures skipped { skipped_blocks
        (zones_of (number_table I32 "x" ((pos 10 ∷ pos 20 ∷ pos 30 ∷ []) ∷ (pos 5 ∷ []) ∷ (pos 11 ∷ pos 12 ∷ []) ∷ []))
        (statistic ("x" ∷ []) Max (bounds I32 (pos 30 ∷ pos 5 ∷ pos 12 ∷ [])) ∷ []))
        [] above_ten
        ≡ 1 ∷ [] }
{}
