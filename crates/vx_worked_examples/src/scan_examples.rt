// Scans that were worked out by hand, the last one over a catalog in eight blocks.
#![tactic(auto, unfolding(crate::proofs::Computing::all_definitions))]

ghost use Rattle.std.specs.Prelude.{◌≡◌, pos, negsuc, true, false, [], ◌∷◌, codes, Ok, Err, ◌++◌, length};
ghost use Rattle.vx_dtype.specs.declared.PType.TheVariants.{I8, I32, U8};
ghost use Rattle.vx_dtype.specs.declared.Nullability.TheVariants.{NonNullable, Nullable};
ghost use Rattle.vx_dtype.specs.declared.Stat.TheVariants.{Min, Max};
ghost use Rattle.vx_dtype.specs.Types.{bool_ty, int_ty, struct_ty, field};
ghost use Rattle.vx_dtype.specs.Values.{null_val, int_val, struct_val, no_members, member};
ghost use Rattle.vx_expr.specs.declared.Operator.TheVariants.{Eq, Gt, Gte, Lt, Lte, And, Add};
ghost use Rattle.vx_expr.specs.declared.FieldSelection.TheVariants.{Include, Exclude};
ghost use Rattle.vx_expr.specs.Trees.{get_item, not_of, is_null_of, cast, list_contains, merge, select, no_trees, tree};
ghost use Rattle.vx_semantics.specs.Typing.{typed_of, not_struct, nullable_select, unknown_field, duplicate_field};
ghost use Rattle.vx_semantics.specs.Breaks.{by_sum, by_cast};
ghost use Rattle.vx_semantics.specs.Tables.{row_type};
ghost use Rattle.vx_semantics.specs.Scans.{kept_blocks, skipped_blocks, phase_breaks, phases_of, first_breaks_by, reads_to_break, rows_of};
ghost use Rattle.vx_semantics.specs.Honest.{IsHonest};
ghost use Rattle.vx_worked_examples.specs.Samples.{col, only, number, boolean, null_of, ◌⟨◌⟩◌, numbers, rows_of_numbers, number_table, zones_of, bounds};
ghost use Rattle.vx_worked_examples.specs.Samples.{statistic, answer_of, breaks_in_order, sound, broken_sum, broken_cast, types_of};
ghost use Rattle.vx_worked_examples.specs.Samples.{two_blocks, up_to_127, above_ten};
ghost use Rattle.vx_worked_examples.specs.Samples.{two_structs, joined_twice, two_small, pack_one, pack_two, number_list, reads_in};
ghost use Rattle.vx_worked_examples.specs.Catalog.{catalog, brief_columns, catalog_statistics, dear_in_oslo, brief, brief_of, filter_reads, all_reads};

/// The rows above ten of two blocks without statistics: both blocks are read.
pub fn keeps_rows_above_ten()
    ensures { answer_of two_blocks [] [] above_ten (col "x")
        ≡ record {
          filter_type = Ok (bool_ty NonNullable);
          projection_type = Ok (int_ty I32 NonNullable);
          rows = numbers I32 (pos 12 ∷ pos 20 ∷ []);
          skipped = [];
          columns = codes "x" ∷ [];
          reads = reads_in "x" (0 ∷ 1 ∷ []);
        } }
{}

/// A block whose greatest value is ten is ruled out and not read.
pub fn skips_a_block_by_its_maximum()
    ensures { answer_of (number_table I32 "x" ((pos 1 ∷ pos 10 ∷ []) ∷ (pos 11 ∷ []) ∷ []))
        (statistic ("x" ∷ []) Min (bounds I32 (pos 0 ∷ pos 0 ∷ [])) ∷ statistic ("x" ∷ []) Max (bounds I32 (pos 10 ∷ pos 11 ∷ [])) ∷ []) []
        above_ten (col "x")
        ≡ record {
          filter_type = Ok (bool_ty NonNullable);
          projection_type = Ok (int_ty I32 NonNullable);
          rows = numbers I32 (pos 11 ∷ []);
          skipped = 0 ∷ [];
          columns = codes "x" ∷ [];
          reads = reads_in "x" (1 ∷ []);
        } }
{}

/// The blocks that are kept and those that are skipped, by their numbers.
pub fn sorts_blocks()
    ensures kept { kept_blocks
        (zones_of (number_table I32 "x" ((pos 1 ∷ pos 10 ∷ []) ∷ (pos 11 ∷ []) ∷ []))
        (statistic ("x" ∷ []) Max (bounds I32 (pos 10 ∷ pos 11 ∷ [])) ∷ []))
        [] above_ten
        ≡ 1 ∷ [] }
    ensures skipped { skipped_blocks
        (zones_of (number_table I32 "x" ((pos 1 ∷ pos 10 ∷ []) ∷ (pos 11 ∷ []) ∷ []))
        (statistic ("x" ∷ []) Max (bounds I32 (pos 10 ∷ pos 11 ∷ [])) ∷ []))
        [] above_ten
        ≡ 0 ∷ [] }
{}

/// A scan reads up to the end of the first phase that breaks, and all where none does.
pub fn reads_up_to_a_break()
    ensures sum { first_breaks_by by_sum (row_type up_to_127.columns) []
        (phases_of up_to_127 (zones_of up_to_127 []) [] ((col "x" ⟨ Add ⟩ number I8 (pos 1)) ⟨ Gt ⟩ number I8 (pos 0)) (col "x"))
        ≡ true }
    ensures casting { first_breaks_by by_cast (row_type up_to_127.columns) []
        (phases_of up_to_127 (zones_of up_to_127 []) [] ((col "x" ⟨ Add ⟩ number I8 (pos 1)) ⟨ Gt ⟩ number I8 (pos 0)) (col "x"))
        ≡ false }
    ensures first { reads_to_break up_to_127 (zones_of up_to_127 []) [] ((col "x" ⟨ Add ⟩ number I8 (pos 1)) ⟨ Gt ⟩ number I8 (pos 0)) (col "x")
        ≡ reads_in "x" (0 ∷ []) }
    ensures all { reads_to_break up_to_127 (zones_of up_to_127 []) [] (col "x" ⟨ Gt ⟩ number I8 (pos 0)) (col "x") ≡ reads_in "x" (0 ∷ 1 ∷ []) }
{}

/// A phase breaks by a sum or by a cast.
pub fn phases_that_break()
    ensures sum { phase_breaks (row_type (number_table I8 "x" []).columns) []
        (record { expression = col "x" ⟨ Add ⟩ number I8 (pos 1); reads = []; rows = rows_of_numbers I8 "x" (pos 1 ∷ pos 127 ∷ []) })
        ≡ true }
    ensures casting { phase_breaks (row_type (number_table I8 "x" []).columns) []
        (record { expression = cast (col "x") (int_ty U8 NonNullable); reads = []; rows = rows_of_numbers I8 "x" (pos 1 ∷ negsuc 0 ∷ []) })
        ≡ true }
    ensures none { phase_breaks (row_type (number_table I8 "x" []).columns) []
        (record {
          expression = cast (col "x" ⟨ Add ⟩ number I8 (pos 1)) (int_ty U8 NonNullable);
          reads = [];
          rows = rows_of_numbers I8 "x" (pos 1 ∷ pos 126 ∷ []);
        })
        ≡ false }
{}

/// No blocks: no rows and no reads.
pub fn scans_no_blocks()
    ensures { answer_of (number_table I32 "x" []) [] [] (boolean true) (col "x")
        ≡ record {
          filter_type = Ok (bool_ty NonNullable);
          projection_type = Ok (int_ty I32 NonNullable);
          rows = [];
          skipped = [];
          columns = [];
          reads = [];
        } }
{}

/// Nothing is in the empty list: every block is ruled out.
pub fn skips_all_for_the_empty_list()
    ensures { answer_of two_blocks [] [] (list_contains (number_list I32 []) (col "x")) (col "x")
        ≡ record {
          filter_type = Ok (bool_ty NonNullable);
          projection_type = Ok (int_ty I32 NonNullable);
          rows = [];
          skipped = 0 ∷ 1 ∷ [];
          columns = [];
          reads = [];
        } }
{}

/// No number is at most two and at least five, and only the filter reads.
pub fn keeps_no_row_of_an_empty_range()
    ensures { answer_of (number_table I32 "x" ((pos 1 ∷ pos 3 ∷ pos 6 ∷ []) ∷ [])) [] []
        ((col "x" ⟨ Lte ⟩ number I32 (pos 2)) ⟨ And ⟩ (col "x" ⟨ Gte ⟩ number I32 (pos 5))) (col "x")
        ≡ record {
          filter_type = Ok (bool_ty NonNullable);
          projection_type = Ok (int_ty I32 NonNullable);
          rows = [];
          skipped = [];
          columns = codes "x" ∷ [];
          reads = reads_in "x" (0 ∷ []);
        } }
{}

/// Null and false is false, null and true is null: neither is kept.
pub fn keeps_no_row_beside_null()
    ensures { answer_of (number_table I32 "x" ((pos 3 ∷ pos 1 ∷ []) ∷ [])) [] []
        ((null_of (int_ty I32 Nullable) ⟨ Lte ⟩ col "x") ⟨ And ⟩ (col "x" ⟨ Lte ⟩ number I32 (pos 2))) (col "x")
        ≡ record {
          filter_type = Ok (bool_ty Nullable);
          projection_type = Ok (int_ty I32 NonNullable);
          rows = [];
          skipped = [];
          columns = codes "x" ∷ [];
          reads = reads_in "x" (0 ∷ []);
        } }
{}

/// Its negation is true where it is false, not where it is null.
pub fn keeps_the_negation_of_false_alone()
    ensures { answer_of (number_table I32 "x" ((pos 3 ∷ pos 1 ∷ []) ∷ [])) [] []
        (not_of ((null_of (int_ty I32 Nullable) ⟨ Lte ⟩ col "x") ⟨ And ⟩ (col "x" ⟨ Lte ⟩ number I32 (pos 2)))) (col "x")
        ≡ record {
          filter_type = Ok (bool_ty Nullable);
          projection_type = Ok (int_ty I32 NonNullable);
          rows = numbers I32 (pos 3 ∷ []);
          skipped = [];
          columns = codes "x" ∷ [];
          reads = reads_in "x" (0 ∷ []);
        } }
{}

/// A sum that leaves its type breaks the filter's phase.
pub fn filter_breaks_by_a_sum()
    ensures types { types_of (number_table I8 "x" ((pos 127 ∷ []) ∷ [])) ((col "x" ⟨ Add ⟩ number I8 (pos 1)) ⟨ Gt ⟩ number I8 (pos 0)) (col "x")
        ≡ (Ok (bool_ty NonNullable), Ok (int_ty I8 NonNullable)) }
    ensures breaks { breaks_in_order (number_table I8 "x" ((pos 127 ∷ []) ∷ [])) [] []
        ((col "x" ⟨ Add ⟩ number I8 (pos 1)) ⟨ Gt ⟩ number I8 (pos 0)) (col "x")
        ≡ broken_sum ∷ [] }
{}

/// A sum in a block that the filter rules out is never evaluated.
pub fn skips_a_block_before_its_sum_breaks()
    ensures answer { answer_of two_small (statistic ("y" ∷ []) Max (bounds I8 (pos 5 ∷ [])) ∷ []) []
        ((col "y" ⟨ Gt ⟩ number I8 (pos 9)) ⟨ And ⟩ ((col "x" ⟨ Add ⟩ number I8 (pos 1)) ⟨ Gt ⟩ number I8 (pos 0))) (col "x")
        ≡ record {
          filter_type = Ok (bool_ty NonNullable);
          projection_type = Ok (int_ty I8 NonNullable);
          rows = [];
          skipped = 0 ∷ [];
          columns = [];
          reads = [];
        } }
    ensures breaks { breaks_in_order two_small (statistic ("y" ∷ []) Max (bounds I8 (pos 5 ∷ [])) ∷ []) []
        ((col "y" ⟨ Gt ⟩ number I8 (pos 9)) ⟨ And ⟩ ((col "x" ⟨ Add ⟩ number I8 (pos 1)) ⟨ Gt ⟩ number I8 (pos 0))) (col "x")
        ≡ [] }
{}

/// The projection is evaluated at the matching rows alone.
pub fn projects_matching_rows_alone()
    ensures answer { answer_of (number_table I8 "x" ((pos 127 ∷ pos 1 ∷ []) ∷ [])) [] [] (col "x" ⟨ Lt ⟩ number I8 (pos 5))
        ((col "x" ⟨ Add ⟩ number I8 (pos 1)))
        ≡ record {
          filter_type = Ok (bool_ty NonNullable);
          projection_type = Ok (int_ty I8 NonNullable);
          rows = numbers I8 (pos 2 ∷ []);
          skipped = [];
          columns = codes "x" ∷ [];
          reads = reads_in "x" (0 ∷ []);
        } }
    ensures breaks { breaks_in_order (number_table I8 "x" ((pos 127 ∷ pos 1 ∷ []) ∷ [])) [] [] (col "x" ⟨ Lt ⟩ number I8 (pos 5))
        ((col "x" ⟨ Add ⟩ number I8 (pos 1)))
        ≡ sound ∷ sound ∷ [] }
{}

/// A cast out of its range breaks the projection's phase, and not the filter's.
pub fn projection_breaks_by_a_cast()
    ensures types { types_of (number_table I8 "x" ((negsuc 0 ∷ []) ∷ [])) (col "x" ⟨ Lt ⟩ number I8 (pos 5)) (cast (col "x") (int_ty U8 NonNullable))
        ≡ (Ok (bool_ty NonNullable), Ok (int_ty U8 NonNullable)) }
    ensures breaks { breaks_in_order (number_table I8 "x" ((negsuc 0 ∷ []) ∷ [])) [] [] (col "x" ⟨ Lt ⟩ number I8 (pos 5))
        (cast (col "x") (int_ty U8 NonNullable))
        ≡ sound ∷ broken_cast ∷ [] }
{}

/// A fault in a field that nobody takes is not met.
pub fn takes_one_field_of_a_pack()
    ensures answer { answer_of (number_table I8 "x" ((pos 127 ∷ []) ∷ [])) [] [] (boolean true)
        (get_item (codes "b") (pack_two "a" (col "x" ⟨ Add ⟩ number I8 (pos 1)) "b" (col "x")))
        ≡ record {
          filter_type = Ok (bool_ty NonNullable);
          projection_type = Ok (int_ty I8 NonNullable);
          rows = numbers I8 (pos 127 ∷ []);
          skipped = [];
          columns = codes "x" ∷ [];
          reads = reads_in "x" (0 ∷ []);
        } }
    ensures breaks { breaks_in_order (number_table I8 "x" ((pos 127 ∷ []) ∷ [])) [] [] (boolean true)
        (get_item (codes "b") (pack_two "a" (col "x" ⟨ Add ⟩ number I8 (pos 1)) "b" (col "x")))
        ≡ sound ∷ sound ∷ [] }
{}

/// A null test of a whole struct asks each of its fields.
pub fn null_test_asks_each_field()
    ensures types { types_of (number_table I8 "x" ((pos 127 ∷ []) ∷ [])) (is_null_of (pack_one "a" (col "x" ⟨ Add ⟩ number I8 (pos 1)))) (col "x")
        ≡ (Ok (bool_ty NonNullable), Ok (int_ty I8 NonNullable)) }
    ensures breaks { breaks_in_order (number_table I8 "x" ((pos 127 ∷ []) ∷ [])) [] []
        (is_null_of (pack_one "a" (col "x" ⟨ Add ⟩ number I8 (pos 1)))) (col "x")
        ≡ broken_sum ∷ [] }
{}

/// A merge of a null struct gives null fields.
pub fn merges_a_null_struct()
    ensures { answer_of two_structs [] [] (boolean true) (merge (tree (col "p") (tree (col "q") no_trees)) NonNullable)
        ≡ record {
          filter_type = Ok (bool_ty NonNullable);
          projection_type = Ok (struct_ty (field (codes "a") (int_ty I32 Nullable) (only "b" (int_ty I32 NonNullable))) NonNullable);
          rows = struct_val (member (codes "a") null_val (member (codes "b") (int_val I32 (pos 2)) no_members)) ∷ [];
          skipped = [];
          columns = codes "p" ∷ codes "q" ∷ [];
          reads = (0, codes "p") ∷ (0, codes "q") ∷ [];
        } }
{}

/// A select of a nullable struct has no type.
pub fn refuses_a_select_of_a_nullable_struct()
    ensures { typed_of (row_type two_structs.columns) (select (Include (codes "a" ∷ [])) (col "p")) ≡ Err nullable_select }
{}

/// An excluded name has to be one of the struct's.
pub fn refuses_an_excluded_name_that_is_missing()
    ensures { typed_of (row_type two_structs.columns) (select (Exclude (codes "zz" ∷ [])) (col "q")) ≡ Err unknown_field }
{}

/// A pack may not give one name twice.
pub fn refuses_a_name_twice_in_a_pack()
    ensures { typed_of (row_type two_structs.columns) (pack_two "a" (col "p") "a" (col "q")) ≡ Err duplicate_field }
{}

/// A number has no fields.
pub fn refuses_a_field_of_a_number()
    ensures { typed_of (row_type two_structs.columns) (get_item (codes "c") (get_item (codes "b") (col "q"))) ≡ Err not_struct }
{}

/// A filter of this type is no boolean.
pub fn types_a_filter_as_a_number()
    ensures { typed_of (row_type two_structs.columns) (get_item (codes "b") (col "q")) ≡ Ok (int_ty I32 NonNullable) }
{}

/// Of two statistics with one joined name neither is available.
pub fn trusts_no_statistic_of_a_shared_name()
    ensures { answer_of joined_twice
        (statistic ("a_b" ∷ []) Max (bounds I32 (pos 1 ∷ [])) ∷ statistic ("a" ∷ "b" ∷ []) Max (bounds I32 (pos 1 ∷ [])) ∷ []) []
        ((col "a_b" ⟨ Gt ⟩ number I32 (pos 5)) ⟨ And ⟩ (get_item (codes "b") (col "a") ⟨ Gt ⟩ number I32 (pos 5))) (col "a_b")
        ≡ record {
          filter_type = Ok (bool_ty NonNullable);
          projection_type = Ok (int_ty I32 NonNullable);
          rows = [];
          skipped = [];
          columns = codes "a_b" ∷ codes "a" ∷ [];
          reads = (0, codes "a_b") ∷ (0, codes "a") ∷ [];
        } }
{}

/// Statistics that lie lose rows, and nothing else.
pub fn loses_rows_to_lying_statistics()
    ensures { answer_of (number_table I32 "x" ((pos 5 ∷ []) ∷ []))
        (statistic ("x" ∷ []) Min (bounds I32 (pos 9 ∷ [])) ∷ statistic ("x" ∷ []) Max (bounds I32 (pos 1 ∷ [])) ∷ []) []
        (col "x" ⟨ Eq ⟩ number I32 (pos 5)) (col "x")
        ≡ record {
          filter_type = Ok (bool_ty NonNullable);
          projection_type = Ok (int_ty I32 NonNullable);
          rows = [];
          skipped = 0 ∷ [];
          columns = [];
          reads = [];
        } }
{}

/// Four goods are dear and in Oslo; two blocks are ruled out by their greatest price; 22 reads of four columns.
pub fn finds_dear_goods_in_oslo()
    ensures answer { answer_of catalog catalog_statistics [] dear_in_oslo brief
        ≡ record {
          filter_type = Ok (bool_ty Nullable);
          projection_type = Ok (struct_ty brief_columns NonNullable);
          rows = brief_of 3 "alex" "Oslo" ∷ brief_of 6 "ann" "Oslo" ∷ brief_of 13 "arne" "Oslo" ∷ brief_of 16 "aki" "Oslo" ∷ [];
          skipped = 0 ∷ 4 ∷ [];
          columns = codes "id" ∷ codes "name" ∷ codes "price" ∷ codes "address" ∷ [];
          reads = all_reads 1 ++ (all_reads 2 ++ (filter_reads 3 ++ (filter_reads 5 ++ (all_reads 6 ++ all_reads 7))));
        } }
    ensures reads { length (answer_of catalog catalog_statistics [] dear_in_oslo brief).reads ≡ 22 }
{}

/// Its statistics are honest, so no row is lost in the two blocks.
pub fn loses_no_dear_goods()
    ensures honest { IsHonest (zones_of catalog catalog_statistics) catalog }
    ensures rows { rows_of catalog [] dear_in_oslo brief ≡ (answer_of catalog catalog_statistics [] dear_in_oslo brief).rows }
    ensures phases { breaks_in_order catalog catalog_statistics [] dear_in_oslo brief
        ≡ sound ∷ sound ∷ sound ∷ sound ∷ sound ∷ sound ∷ sound ∷ sound ∷ sound ∷ sound ∷ [] }
{}
