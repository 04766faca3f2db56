// Statistics built from tables that were worked out by hand.
#![tactic(auto, unfolding(crate::proofs::Computing::all_definitions))]

ghost use Rattle.std.specs.Prelude.{◌≡◌, true, false, [], ◌∷◌, ◌++◌, codes, length, negsuc, pos, None, Ok};
ghost use Rattle.vx_dtype.specs.declared.Nullability.TheVariants.{NonNullable, Nullable};
ghost use Rattle.vx_dtype.specs.declared.PType.TheVariants.{I32, I64, U64};
ghost use Rattle.vx_dtype.specs.declared.Stat.TheVariants.{Min, Max, NullCount};
ghost use Rattle.vx_dtype.specs.Types.{bool_ty, int_ty, list_ty, struct_ty};
ghost use Rattle.vx_dtype.specs.Values.{bool_val, int_val, list_val, no_vals, null_val, text_val};
ghost use Rattle.vx_expr.specs.declared.Operator.TheVariants.{Eq};
ghost use Rattle.vx_semantics.specs.Honest.{IsHonest};
ghost use Rattle.vx_semantics.specs.Pruning.{available};
ghost use Rattle.vx_laws_stats.specs.BuiltStatistics.{built_stats, built_zones, greatest_of, least_of, stat_paths};
ghost use Rattle.vx_worked_examples.specs.Built.{one_name, unknown};
ghost use Rattle.vx_worked_examples.specs.Catalog.{catalog, catalog_columns, brief_columns, dear_in_oslo, brief, brief_of, filter_reads, all_reads};
ghost use Rattle.vx_worked_examples.specs.Samples.{alone, only, bounds, statistic, col, number, numbers, number_table, ◌⟨◌⟩◌, answer_of};

/// A plain field is a path, a struct's fields follow with their names added, a list gives none.
pub fn goes_through_fields_in_order()
    ensures { stat_paths catalog_columns
        ≡ (codes "id" ∷ []) ∷ (codes "name" ∷ []) ∷ (codes "price" ∷ []) ∷ (codes "address" ∷ codes "city" ∷ [])
        ∷ (codes "address" ∷ codes "zip" ∷ []) ∷ (codes "active" ∷ []) ∷ [] }
{}

/// The least and the greatest value that isn't null: truths, numbers, texts by their bytes; null where all values are null, and where there are none.
pub fn finds_the_ends_of_values()
    ensures truths { least_of (bool_val true ∷ bool_val false ∷ []) ≡ bool_val false }
    ensures one_truth { greatest_of (bool_val false ∷ null_val ∷ bool_val false ∷ []) ≡ bool_val false }
    ensures least_number { least_of (int_val I32 (pos 5) ∷ null_val ∷ int_val I32 (negsuc 8) ∷ []) ≡ int_val I32 (negsuc 8) }
    ensures greatest_number { greatest_of (null_val ∷ int_val I32 (pos 5) ∷ int_val I32 (negsuc 8) ∷ []) ≡ int_val I32 (pos 5) }
    ensures least_of_all { least_of (int_val I64 (pos 9223372036854775807) ∷ int_val I64 (negsuc 9223372036854775807) ∷ [])
        ≡ int_val I64 (negsuc 9223372036854775807) }
    ensures greatest_of_all { greatest_of (int_val I64 (negsuc 9223372036854775807) ∷ int_val I64 (pos 9223372036854775807) ∷ [])
        ≡ int_val I64 (pos 9223372036854775807) }
    ensures least_text { least_of (text_val (codes "b") ∷ text_val (codes "ab") ∷ text_val (codes "B") ∷ []) ≡ text_val (codes "B") }
    ensures greatest_text { greatest_of (text_val (codes "") ∷ text_val (codes "a") ∷ text_val (codes "ab") ∷ []) ≡ text_val (codes "ab") }
    ensures nulls { least_of (null_val ∷ null_val ∷ []) ≡ null_val }
    ensures none { greatest_of [] ≡ null_val }
{}

/// A struct that is null is counted at each of its fields; bounds say nothing of it.
pub fn counts_a_null_struct()
    ensures { built_stats (record {
      columns = only "s" (struct_ty (only "n" (int_ty I32 NonNullable)) Nullable);
      blocks = (alone "s" (alone "n" (int_val I32 (pos 7))) ∷ alone "s" null_val ∷ []) ∷ [];
    })
        ≡ statistic ("s" ∷ "n" ∷ []) Min (bounds I32 (pos 7 ∷ [])) ∷ statistic ("s" ∷ "n" ∷ []) Max (bounds I32 (pos 7 ∷ []))
        ∷ statistic ("s" ∷ "n" ∷ []) NullCount (bounds U64 (pos 1 ∷ [])) ∷ [] }
{}

/// Where all values of a block are null, and where it has no rows, both bounds are null.
pub fn bounds_no_nulls()
    ensures { built_stats (record { columns = only "x" (int_ty I32 Nullable); blocks = (alone "x" null_val ∷ []) ∷ [] ∷ [] })
        ≡ statistic ("x" ∷ []) Min (unknown ∷ unknown ∷ []) ∷ statistic ("x" ∷ []) Max (unknown ∷ unknown ∷ [])
        ∷ statistic ("x" ∷ []) NullCount (bounds U64 (pos 1 ∷ pos 0 ∷ [])) ∷ [] }
{}

/// A list has no statistics.
pub fn builds_none_for_a_list()
    ensures { built_stats (record {
      columns = only "l" (list_ty (int_ty I32 NonNullable) NonNullable);
      blocks = (alone "l" (list_val no_vals) ∷ []) ∷ [];
    })
        ≡ [] }
{}

/// The column `a_b` beside the field `b` of `a`: their statistics have one joined name each, and so none is available.
pub fn builds_two_of_one_joined_name()
    ensures paths { stat_paths one_name.columns ≡ (codes "a_b" ∷ []) ∷ (codes "a" ∷ codes "b" ∷ []) ∷ [] }
    ensures column { available (built_zones one_name) (codes "a_b" ∷ []) Min ≡ None }
    ensures below { available (built_zones one_name) (codes "a" ∷ codes "b" ∷ []) Min ≡ None }
{}

/// Over built statistics no row is lost that lying ones lose.
pub fn finds_what_lying_statistics_lose()
    ensures { answer_of (number_table I32 "x" ((pos 5 ∷ []) ∷ [])) (built_stats (number_table I32 "x" ((pos 5 ∷ []) ∷ []))) []
        (col "x" ⟨ Eq ⟩ number I32 (pos 5)) (col "x")
        ≡ record {
          filter_type = Ok (bool_ty NonNullable);
          projection_type = Ok (int_ty I32 NonNullable);
          rows = numbers I32 (pos 5 ∷ []);
          skipped = [];
          columns = codes "x" ∷ [];
          reads = (0, codes "x") ∷ [];
        } }
{}

/// Built statistics rule out a third block of the catalog: its only city is Rome. 19 reads are left.
pub fn skips_a_third_block_of_the_catalog()
    ensures answer { answer_of catalog (built_stats catalog) [] dear_in_oslo brief
        ≡ record {
          filter_type = Ok (bool_ty Nullable);
          projection_type = Ok (struct_ty brief_columns NonNullable);
          rows = brief_of 3 "alex" "Oslo" ∷ brief_of 6 "ann" "Oslo" ∷ brief_of 13 "arne" "Oslo" ∷ brief_of 16 "aki" "Oslo" ∷ [];
          skipped = 0 ∷ 4 ∷ 5 ∷ [];
          columns = codes "id" ∷ codes "name" ∷ codes "price" ∷ codes "address" ∷ [];
          reads = all_reads 1 ++ (all_reads 2 ++ (filter_reads 3 ++ (all_reads 6 ++ all_reads 7)));
        } }
    ensures reads { length (answer_of catalog (built_stats catalog) [] dear_in_oslo brief).reads ≡ 19 }
    ensures honest { IsHonest (built_zones catalog) catalog }
{}
