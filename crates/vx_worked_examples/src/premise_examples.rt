// What the laws of scans take as their premises is met: rows that are alike, tables that agree, and paths that are bounded.
#![tactic(auto, unfolding(crate::proofs::Computing::all_definitions))]

ghost use Rattle.std.specs.Prelude.{◌≡◌, [], ◌∷◌, pos, true};
ghost use Rattle.vx_dtype.specs.declared.PType.TheVariants.{I8, I32};
ghost use Rattle.vx_dtype.specs.declared.Nullability.TheVariants.{NonNullable};
ghost use Rattle.vx_dtype.specs.declared.StrictComparison.TheVariants.{Strict, NonStrict};
ghost use Rattle.vx_dtype.specs.Types.{bool_ty};
ghost use Rattle.vx_expr.specs.declared.Operator.TheVariants.{Gt, And};
ghost use Rattle.vx_expr.specs.Trees.{not_of, between, list_contains};
ghost use Rattle.vx_semantics.specs.Honest.{IsHonest};
ghost use Rattle.vx_laws_scan.specs.Agreeing.{AreAlike, TablesAgree, table_of};
ghost use Rattle.vx_laws_scan.specs.Exactness.{is_exact_filter, PathsAreBounded};
ghost use Rattle.vx_worked_examples.specs.Samples.{col, number, ◌⟨◌⟩◌, ends, five_to_nine, number_list};
ghost use Rattle.vx_worked_examples.specs.Agreeing.{two_columns, row_of, blocks, other_blocks, statistics, above_five};

/// Two rows that differ in a column that the filter doesn't ask are alike for it.
pub fn rows_are_alike_but_for_a_column()
    ensures { AreAlike two_columns above_five (bool_ty NonNullable) (row_of 6 1) (row_of 6 2) }
{}

/// Two tables that differ in a column that is not asked, and in whatever of a block that is skipped, agree; the statistics are honest for both.
pub fn tables_agree_but_for_what_is_not_read()
    ensures agree { TablesAgree statistics two_columns [] above_five (col "x") blocks other_blocks }
    ensures honest { IsHonest statistics (table_of two_columns blocks) }
    ensures honest_for_the_other { IsHonest statistics (table_of two_columns other_blocks) }
{}

/// The bounds of each path of a filter are known and in order, through `and`, a negated range and a membership.
pub fn paths_are_bounded_from_five_to_nine()
    ensures exact { is_exact_filter ((col "x" ⟨ Gt ⟩ number I32 (pos 7)) ⟨ And ⟩ list_contains (number_list I32 (pos 1 ∷ pos 8 ∷ [])) (col "x")) ≡ true }
    ensures bounded { PathsAreBounded five_to_nine 0
        ((col "x" ⟨ Gt ⟩ number I32 (pos 7)) ⟨ And ⟩ list_contains (number_list I32 (pos 1 ∷ pos 8 ∷ [])) (col "x")) }
    ensures negated_range { PathsAreBounded five_to_nine 0 (not_of (between (col "x") (number I32 (pos 1)) (number I32 (pos 8)) (ends Strict NonStrict))) }
{}
