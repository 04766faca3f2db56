// Honest and dishonest statistics, worked by hand: five, null and nine in one block.
#![tactic(auto, unfolding(crate::proofs::Computing::all_definitions))]

ghost use Rattle.std.specs.Prelude.{◌≡◌, [], ◌∷◌, codes, pos, true, false};
ghost use Rattle.vx_dtype.specs.declared.PType.TheVariants.{I32, U64};
ghost use Rattle.vx_dtype.specs.declared.Stat.TheVariants.{Min, Max, NullCount, NaNCount};
ghost use Rattle.vx_dtype.specs.Values.{null_val, int_val};
ghost use Rattle.vx_semantics.specs.Honest.{null_rows, honest_value, honest_values, IsHonest};
ghost use Rattle.vx_semantics.specs.Paths.{path_value};
ghost use Rattle.vx_worked_examples.specs.Samples.{alone, rows_of_numbers, number_table, bounds, statistic, zones_of, rows_with_null};

/// The path of a value, from the row on.
pub fn follows_paths()
    ensures none { path_value [] (int_val I32 (pos 5)) ≡ int_val I32 (pos 5) }
    ensures two { path_value (codes "a" ∷ codes "b" ∷ []) (alone "a" (alone "b" (int_val I32 (pos 5)))) ≡ int_val I32 (pos 5) }
    ensures through_null { path_value (codes "a" ∷ codes "b" ∷ []) (alone "a" null_val) ≡ null_val }
{}

/// A least value is at most each value that isn't null, a greatest at least; null says nothing.
pub fn bounds_what_is_not_null()
    ensures least { honest_value Min (codes "x" ∷ []) (int_val I32 (pos 5)) rows_with_null ≡ true }
    ensures less { honest_value Min (codes "x" ∷ []) (int_val I32 (pos 4)) rows_with_null ≡ true }
    ensures too_high { honest_value Min (codes "x" ∷ []) (int_val I32 (pos 6)) rows_with_null ≡ false }
    ensures far_too_high { honest_value Min (codes "x" ∷ []) (int_val I32 (pos 10)) rows_with_null ≡ false }
    ensures greatest { honest_value Max (codes "x" ∷ []) (int_val I32 (pos 9)) rows_with_null ≡ true }
    ensures more { honest_value Max (codes "x" ∷ []) (int_val I32 (pos 10)) rows_with_null ≡ true }
    ensures too_low { honest_value Max (codes "x" ∷ []) (int_val I32 (pos 8)) rows_with_null ≡ false }
    ensures null_least { honest_value Min (codes "x" ∷ []) null_val rows_with_null ≡ true }
    ensures null_greatest { honest_value Max (codes "x" ∷ []) null_val rows_with_null ≡ true }
{}

/// A count of nulls is at least their number; nothing is asked of a count of what is no number.
pub fn counts_nulls_at_least()
    ensures number { null_rows (codes "x" ∷ []) rows_with_null ≡ 1 }
    ensures exact { honest_value NullCount (codes "x" ∷ []) (int_val U64 (pos 1)) rows_with_null ≡ true }
    ensures more { honest_value NullCount (codes "x" ∷ []) (int_val U64 (pos 2)) rows_with_null ≡ true }
    ensures fewer { honest_value NullCount (codes "x" ∷ []) (int_val U64 (pos 0)) rows_with_null ≡ false }
    ensures null { honest_value NullCount (codes "x" ∷ []) null_val rows_with_null ≡ true }
    ensures of_no_numbers { honest_value NaNCount (codes "x" ∷ []) (int_val U64 (pos 0)) rows_with_null ≡ true }
{}

/// Block by block, as far as there are values and blocks.
pub fn judges_each_block()
    ensures honest { honest_values Min (codes "x" ∷ []) (bounds I32 (pos 5 ∷ pos 6 ∷ []))
        (rows_of_numbers I32 "x" (pos 5 ∷ []) ∷ rows_of_numbers I32 "x" (pos 6 ∷ []) ∷ [])
        ≡ true }
    ensures second { honest_values Min (codes "x" ∷ []) (bounds I32 (pos 5 ∷ pos 7 ∷ []))
        (rows_of_numbers I32 "x" (pos 5 ∷ []) ∷ rows_of_numbers I32 "x" (pos 6 ∷ []) ∷ [])
        ≡ false }
    ensures first { honest_values Min (codes "x" ∷ []) (bounds I32 (pos 6 ∷ pos 6 ∷ []))
        (rows_of_numbers I32 "x" (pos 5 ∷ []) ∷ rows_of_numbers I32 "x" (pos 6 ∷ []) ∷ [])
        ≡ false }
    ensures fewer_values { honest_values Min (codes "x" ∷ []) [] (rows_of_numbers I32 "x" (pos 5 ∷ []) ∷ []) ≡ true }
    ensures more_values { honest_values Min (codes "x" ∷ []) (bounds I32 (pos 5 ∷ [])) [] ≡ true }
{}

/// The statistics of a table are honest where each of them is.
pub fn judges_each_statistic()
    ensures honest { IsHonest
        (zones_of (number_table I32 "x" ((pos 5 ∷ pos 9 ∷ []) ∷ []))
        (statistic ("x" ∷ []) Min (bounds I32 (pos 5 ∷ [])) ∷ statistic ("x" ∷ []) Max (bounds I32 (pos 9 ∷ [])) ∷ []))
        (number_table I32 "x" ((pos 5 ∷ pos 9 ∷ []) ∷ [])) }
    ensures first { ¬
        (IsHonest
        (zones_of (number_table I32 "x" ((pos 5 ∷ pos 9 ∷ []) ∷ []))
        (statistic ("x" ∷ []) Min (bounds I32 (pos 6 ∷ [])) ∷ statistic ("x" ∷ []) Max (bounds I32 (pos 9 ∷ [])) ∷ []))
        (number_table I32 "x" ((pos 5 ∷ pos 9 ∷ []) ∷ []))) }
    ensures second { ¬
        (IsHonest
        (zones_of (number_table I32 "x" ((pos 5 ∷ pos 9 ∷ []) ∷ []))
        (statistic ("x" ∷ []) Min (bounds I32 (pos 5 ∷ [])) ∷ statistic ("x" ∷ []) Max (bounds I32 (pos 8 ∷ [])) ∷ []))
        (number_table I32 "x" ((pos 5 ∷ pos 9 ∷ []) ∷ []))) }
{}
