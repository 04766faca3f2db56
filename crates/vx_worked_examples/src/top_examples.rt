// The first rows by a key, worked by hand.
#![tactic(auto, unfolding(crate::proofs::Computing::all_definitions))]

ghost use Rattle.std.specs.Prelude.{◌≡◌, true, false, [], ◌∷◌, pos, None, Some};
ghost use Rattle.vx_dtype.specs.declared.Nullability.TheVariants.{NonNullable, Nullable};
ghost use Rattle.vx_dtype.specs.declared.PType.TheVariants.{I32, I64};
ghost use Rattle.vx_dtype.specs.declared.Stat.TheVariants.{Max};
ghost use Rattle.vx_dtype.specs.Types.{int_ty};
ghost use Rattle.vx_dtype.specs.Values.{null_val};
ghost use Rattle.vx_laws_stats.specs.BuiltStatistics.{built_zones};
ghost use Rattle.vx_worked_examples.specs.Samples.{bounds, nullable_table, number_or_null, numbers, one_and_twenty, statistic, zones_of};
ghost use Rattle.vx_worked_examples.specs.Top.{first_of_x, five_numbers, three_ones, top_answer};

/// The two least of five numbers: behind the first block the bound is five, so the second block, from seven on, is skipped. The greatest: behind
/// the second block the bound is nine, so the third, up to three, is skipped. Of no row all blocks are skipped.
pub fn skips_under_the_bound()
    ensures least { top_answer (first_of_x "x" (int_ty I64 NonNullable) false 2) five_numbers (built_zones five_numbers)
        ≡ (numbers I64 (pos 1 ∷ pos 3 ∷ []), 1 ∷ []) }
    ensures greatest { top_answer (first_of_x "x" (int_ty I64 NonNullable) true 1) five_numbers (built_zones five_numbers)
        ≡ (numbers I64 (pos 9 ∷ []), 2 ∷ []) }
    ensures none { top_answer (first_of_x "x" (int_ty I64 NonNullable) false 0) five_numbers (built_zones five_numbers) ≡ ([], 0 ∷ 1 ∷ 2 ∷ []) }
{}

/// Where fewer rows are found than are asked, there is no bound: no block is skipped, and all rows come in order.
pub fn keeps_all_without_a_bound()
    ensures { top_answer (first_of_x "x" (int_ty I64 NonNullable) true 6) five_numbers (built_zones five_numbers)
        ≡ (numbers I64 (pos 9 ∷ pos 7 ∷ pos 5 ∷ pos 3 ∷ pos 1 ∷ []), []) }
{}

/// Null comes last in both directions, and is no bound: the block behind it is kept.
pub fn puts_null_last()
    ensures ascending { top_answer (first_of_x "x" (int_ty I32 Nullable) false 2) (nullable_table "x" ((None ∷ Some (pos 2) ∷ []) ∷ []))
        (built_zones (nullable_table "x" ((None ∷ Some (pos 2) ∷ []) ∷ []))) ≡ (number_or_null (Some (pos 2)) ∷ null_val ∷ [], []) }
    ensures descending { top_answer (first_of_x "x" (int_ty I32 Nullable) true 2) (nullable_table "x" ((None ∷ Some (pos 2) ∷ []) ∷ []))
        (built_zones (nullable_table "x" ((None ∷ Some (pos 2) ∷ []) ∷ []))) ≡ (number_or_null (Some (pos 2)) ∷ null_val ∷ [], []) }
    ensures no_bound { top_answer (first_of_x "x" (int_ty I32 Nullable) false 1) (nullable_table "x" ((None ∷ []) ∷ (Some (pos 9) ∷ []) ∷ []))
        (built_zones (nullable_table "x" ((None ∷ []) ∷ (Some (pos 9) ∷ []) ∷ []))) ≡ (number_or_null (Some (pos 9)) ∷ [], []) }
{}

/// Rows of one key come in their own order, so a block whose keys are at best the bound is skipped.
pub fn keeps_the_order_of_ties()
    ensures all { top_answer (first_of_x "y" (int_ty I32 NonNullable) false 3) three_ones (built_zones three_ones)
        ≡ (numbers I32 (pos 10 ∷ pos 20 ∷ pos 30 ∷ []), []) }
    ensures two { top_answer (first_of_x "y" (int_ty I32 NonNullable) true 2) three_ones (built_zones three_ones)
        ≡ (numbers I32 (pos 10 ∷ pos 20 ∷ []), 1 ∷ []) }
{}

/// A greatest value that lies loses a first row.
pub fn loses_a_row_to_a_lying_bound()
    ensures answer { top_answer (first_of_x "x" (int_ty I32 NonNullable) true 1) one_and_twenty
        (zones_of one_and_twenty (statistic ("x" ∷ []) Max (bounds I32 (pos 1 ∷ pos 1 ∷ [])) ∷ []))
        ≡ (numbers I32 (pos 1 ∷ []), 1 ∷ []) }
{}
