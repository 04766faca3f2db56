// What selects, LIKE, merges and comparisons with a slot mean, and where sums break: worked by hand.
#![tactic(auto, unfolding(crate::proofs::Computing::all_definitions))]

ghost use Rattle.std.specs.Prelude.{◌≡◌, List, [], ◌∷◌, codes, pos, true, false, None, Ok, map, replicate, Some};
ghost use Rattle.vx_dtype.specs.declared.PType.TheVariants.{I8, I32, I64};
ghost use Rattle.vx_dtype.specs.declared.Nullability.TheVariants.{NonNullable, Nullable};
ghost use Rattle.vx_dtype.specs.Types.{Bytes, int_ty, text_ty, struct_ty, no_fields, field, bool_ty, list_ty};
ghost use Rattle.vx_dtype.specs.Values.{raw_null, null_val, bool_val, int_val, fault, struct_val, no_members, member, list_val, no_vals, val};
ghost use Rattle.vx_dtype.specs.declared.StrictComparison.TheVariants.{Strict};
ghost use Rattle.vx_dtype.specs.declared.CompareOperator.TheVariants.{Gt as Above};
ghost use Rattle.vx_expr.specs.declared.Operator.TheVariants.{Add, Sub};
ghost use Rattle.vx_expr.specs.declared.FieldSelection.TheVariants.{Include, Exclude};
ghost use Rattle.vx_expr.specs.Trees.{like, merge, select, no_trees, tree, root, get_item, between, cast, list_contains, dynamic};
ghost use Rattle.vx_semantics.specs.Merging.{last_giver, merged_names};
ghost use Rattle.vx_semantics.specs.Typing.{typed_of};
ghost use Rattle.vx_semantics.specs.Meaning.{mean, merged_value};
ghost use Rattle.vx_semantics.specs.Breaks.{break_of, by_sum, by_cast, cause_where};
ghost use Rattle.vx_semantics.specs.Tables.{row_type};
ghost use Rattle.vx_semantics.specs.Scans.{phase_breaks};
ghost use Rattle.vx_worked_examples.specs.Samples.{col, number, quoted, null_of, ◌⟨◌⟩◌, alone, only, pack_one, pack_two, slot_of, comparisons, with_slot};
ghost use Rattle.vx_worked_examples.specs.Samples.{number_list, two_small, ends, mean_of, break_in};

/// A select keeps the included fields, or all but the excluded ones.
pub fn selects_fields()
    ensures included { mean_of (select (Include (codes "b" ∷ [])) (pack_two "a" (number I32 (pos 1)) "b" (number I32 (pos 2))))
        ≡ alone "b" (int_val I32 (pos 2)) }
    ensures excluded { mean_of (select (Exclude (codes "b" ∷ [])) (pack_two "a" (number I32 (pos 1)) "b" (number I32 (pos 2))))
        ≡ alone "a" (int_val I32 (pos 1)) }
{}

/// LIKE is inverted where it is negated, and passes over the case of letters where it folds them; null beside null, a fault for a number.
pub fn matches_in_expressions()
    ensures plain { mean_of (like (quoted "ab") (quoted "a%") false false) ≡ bool_val true }
    ensures negated { mean_of (like (quoted "ab") (quoted "a%") true false) ≡ bool_val false }
    ensures capital { mean_of (like (quoted "ab") (quoted "A%") false false) ≡ bool_val false }
    ensures negated_capital { mean_of (like (quoted "ab") (quoted "A%") true false) ≡ bool_val true }
    ensures folded { mean_of (like (quoted "ab") (quoted "A%") false true) ≡ bool_val true }
    ensures negated_folded { mean_of (like (quoted "ab") (quoted "A%") true true) ≡ bool_val false }
    ensures null_text { mean_of (like (null_of (text_ty Nullable)) (quoted "a%") true false) ≡ null_val }
    ensures null_pattern { mean_of (like (quoted "ab") (null_of (text_ty Nullable)) true false) ≡ null_val }
    ensures number { mean_of (like (number I32 (pos 1)) (quoted "a%") true false) ≡ fault }
    ensures number_as_pattern { mean_of (like (quoted "ab") (number I32 (pos 1)) true false) ≡ fault }
{}

/// A comparison with a slot by each operator, below the slot's value, at it and above it; without a value each answers its default.
pub fn compares_with_a_slot_by_each_operator()
    ensures below { map
        (λ op. mean (struct_ty no_fields NonNullable) (slot_of I32 (pos 9) ∷ []) (alone "x" (int_val I32 (pos 7))) (with_slot op true))
        comparisons
        ≡ bool_val false ∷ bool_val true ∷ bool_val false ∷ bool_val false ∷ bool_val true ∷ bool_val true ∷ [] }
    ensures at { map
        (λ op. mean (struct_ty no_fields NonNullable) (slot_of I32 (pos 9) ∷ []) (alone "x" (int_val I32 (pos 9))) (with_slot op true))
        comparisons
        ≡ bool_val true ∷ bool_val false ∷ bool_val false ∷ bool_val true ∷ bool_val false ∷ bool_val true ∷ [] }
    ensures above { map
        (λ op. mean (struct_ty no_fields NonNullable) (slot_of I32 (pos 9) ∷ []) (alone "x" (int_val I32 (pos 11))) (with_slot op true))
        comparisons
        ≡ bool_val false ∷ bool_val true ∷ bool_val true ∷ bool_val true ∷ bool_val false ∷ bool_val false ∷ [] }
    ensures default_true { map (λ op. mean (struct_ty no_fields NonNullable) [] (alone "x" (int_val I32 (pos 7))) (with_slot op true))
        comparisons
        ≡ replicate 6 (bool_val true) }
    ensures default_false { map (λ op. mean (struct_ty no_fields NonNullable) [] (alone "x" (int_val I32 (pos 7))) (with_slot op false))
        comparisons
        ≡ replicate 6 (bool_val false) }
    ensures default_beside_null { map (λ op. mean (struct_ty no_fields NonNullable) [] (alone "x" null_val) (with_slot op false))
        comparisons
        ≡ replicate 6 (bool_val false) }
    ensures fault_before_default { map (λ op. mean (struct_ty no_fields NonNullable) [] (alone "x" fault) (with_slot op false)) comparisons
        ≡ replicate 6 fault }
{}

/// Of three structs the last that has a field gives it, also where the one between has none.
pub fn merges_three_structs()
    ensures value { mean_of
        (merge
        (tree (pack_one "a" (number I32 (pos 1)))
        (tree (pack_one "b" (number I32 (pos 2))) (tree (pack_one "a" (number I8 (pos 3))) no_trees)))
        NonNullable)
        ≡ struct_val (member (codes "a") (int_val I8 (pos 3)) (member (codes "b") (int_val I32 (pos 2)) no_members)) }
    ensures its_type { typed_of (struct_ty no_fields NonNullable)
        (merge
        (tree (pack_one "a" (number I32 (pos 1)))
        (tree (pack_one "b" (number I32 (pos 2))) (tree (pack_one "a" (number I8 (pos 3))) no_trees)))
        NonNullable)
        ≡ Ok (struct_ty (field (codes "a") (int_ty I8 NonNullable) (only "b" (int_ty I32 NonNullable))) NonNullable) }
{}

/// A field that no struct of a merge has is a fault.
pub fn merges_no_field_that_none_has()
    ensures no_struct { merged_value (codes "a") [] ≡ fault }
    ensures no_field { merged_value (codes "a") (record { names = codes "b" ∷ []; whole = alone "b" (int_val I32 (pos 1)) } ∷ []) ≡ fault }
{}

/// Of lists of names the last one that has a name gives it; the names together stand in order of first appearance.
pub fn finds_the_last_giver()
    ensures last { last_giver (λ ns. ns) (codes "a") ((codes "a" ∷ []) ∷ (codes "b" ∷ []) ∷ (codes "a" ∷ codes "c" ∷ []) ∷ [])
        ≡ Some (codes "a" ∷ codes "c" ∷ []) }
    ensures one_between { last_giver (λ ns. ns) (codes "b") ((codes "a" ∷ []) ∷ (codes "b" ∷ []) ∷ (codes "a" ∷ codes "c" ∷ []) ∷ [])
        ≡ Some (codes "b" ∷ []) }
    ensures missing { last_giver (λ ns. ns) (codes "z") ((codes "a" ∷ []) ∷ (codes "b" ∷ []) ∷ []) ≡ None }
    ensures of_none { last_giver (λ (ns : List Bytes). ns) (codes "a") [] ≡ None }
    ensures names { merged_names (λ ns. ns) ((codes "b" ∷ codes "a" ∷ []) ∷ (codes "c" ∷ codes "b" ∷ []) ∷ (codes "d" ∷ []) ∷ [])
        ≡ codes "b" ∷ codes "a" ∷ codes "c" ∷ codes "d" ∷ [] }
{}

/// A sum or a difference with a faulty operand on either side doesn't break itself.
pub fn breaks_below_the_operand_that_is_a_fault()
    ensures left_of_a_sum { break_in ((number I8 (pos 127) ⟨ Add ⟩ number I8 (pos 1)) ⟨ Add ⟩ number I8 (pos 1)) ≡ None }
    ensures right_of_a_sum { break_in (number I8 (pos 1) ⟨ Add ⟩ (number I8 (pos 127) ⟨ Add ⟩ number I8 (pos 1))) ≡ None }
    ensures left_of_a_difference { break_in ((number I8 (pos 127) ⟨ Add ⟩ number I8 (pos 1)) ⟨ Sub ⟩ number I8 (pos 1)) ≡ None }
    ensures right_of_a_difference { break_in (number I8 (pos 1) ⟨ Sub ⟩ (number I8 (pos 127) ⟨ Add ⟩ number I8 (pos 1))) ≡ None }
{}

/// A range means whether its value lies between its bounds, and not whether a bound does.
pub fn means_ranges()
    ensures inside { mean_of (between (number I32 (pos 5)) (number I32 (pos 1)) (number I32 (pos 9)) (ends Strict Strict)) ≡ bool_val true }
    ensures below { mean_of (between (number I32 (pos 0)) (number I32 (pos 1)) (number I32 (pos 9)) (ends Strict Strict)) ≡ bool_val false }
    ensures above { mean_of (between (number I32 (pos 10)) (number I32 (pos 1)) (number I32 (pos 9)) (ends Strict Strict)) ≡ bool_val false }
    ensures beside_null { mean_of (between (number I32 (pos 5)) (null_of (int_ty I32 Nullable)) (number I32 (pos 9)) (ends Strict Strict)) ≡ null_val }
{}

/// Null beside a value is null: of a slot, and in a list.
pub fn means_null_beside_a_value()
    ensures slot { map (λ op. mean (struct_ty no_fields NonNullable) (slot_of I32 (pos 9) ∷ []) (alone "x" null_val) (with_slot op true))
        comparisons
        ≡ replicate 6 null_val }
    ensures null_in_a_slot { map
        (λ op. mean (struct_ty no_fields NonNullable) (Some (record { ty = int_ty I32 Nullable; value = raw_null }) ∷ [])
        (alone "x" (int_val I32 (pos 7))) (with_slot op true))
        comparisons
        ≡ replicate 6 null_val }
    ensures null_list { mean_of (list_contains (null_of (list_ty (int_ty I32 NonNullable) Nullable)) (number I32 (pos 1))) ≡ null_val }
    ensures null_member { mean_of (list_contains (number_list I32 (pos 1 ∷ [])) (null_of (int_ty I32 Nullable))) ≡ null_val }
{}

/// Casts and slots leave the table's type to what stands in them: a merge in them has the row's names.
pub fn means_merges_of_the_row_in_casts_and_slots()
    ensures casting { mean (row_type two_small.columns) []
        (struct_val (member (codes "x") (int_val I8 (pos 127)) (member (codes "y") (int_val I8 (pos 5)) no_members)))
        (cast (get_item (codes "y") (merge (tree root no_trees) NonNullable)) (int_ty I64 NonNullable))
        ≡ int_val I64 (pos 5) }
    ensures slot { mean (row_type two_small.columns) []
        (struct_val (member (codes "x") (int_val I8 (pos 127)) (member (codes "y") (int_val I8 (pos 5)) no_members)))
        (dynamic (get_item (codes "y") (merge (tree root no_trees) NonNullable)) Above 0 (int_ty I8 NonNullable) true)
        ≡ bool_val true }
    ensures sound_cast { break_of (row_type two_small.columns) []
        (struct_val (member (codes "x") (int_val I8 (pos 127)) (member (codes "y") (int_val I8 (pos 5)) no_members)))
        (cast (get_item (codes "y") (merge (tree root no_trees) NonNullable)) (int_ty I64 NonNullable))
        ≡ None }
    ensures unsound_cast { break_of (row_type two_small.columns) []
        (struct_val (member (codes "x") (int_val I8 (pos 127)) (member (codes "y") (int_val I8 (pos 5)) no_members)))
        (cast (get_item (codes "y") (merge (tree root no_trees) NonNullable)) (bool_ty NonNullable))
        ≡ Some by_cast }
{}

/// A difference that has a value doesn't break.
/// An operand that holds a fault and is none doesn't keep a node from breaking, nor is such a value one that broke.
pub fn breaks_by_faults_alone()
    ensures sound_difference { break_in (number I8 (pos 5) ⟨ Sub ⟩ number I8 (pos 1)) ≡ None }
    ensures left_of_a_sum { break_in ((pack_one "a" (number I8 (pos 127) ⟨ Add ⟩ number I8 (pos 1))) ⟨ Add ⟩ number I8 (pos 1)) ≡ Some by_sum }
    ensures right_of_a_sum { break_in (number I8 (pos 1) ⟨ Add ⟩ (pack_one "a" (number I8 (pos 127) ⟨ Add ⟩ number I8 (pos 1)))) ≡ Some by_sum }
    ensures left_of_a_difference { break_in ((pack_one "a" (number I8 (pos 127) ⟨ Add ⟩ number I8 (pos 1))) ⟨ Sub ⟩ number I8 (pos 1)) ≡ Some by_sum }
    ensures right_of_a_difference { break_in (number I8 (pos 1) ⟨ Sub ⟩ (pack_one "a" (number I8 (pos 127) ⟨ Add ⟩ number I8 (pos 1)))) ≡ Some by_sum }
    ensures casting { break_in (cast (pack_one "a" (number I8 (pos 127) ⟨ Add ⟩ number I8 (pos 1))) (int_ty I8 NonNullable)) ≡ Some by_cast }
    ensures held { cause_where true (list_val (val fault no_vals)) by_sum ≡ None }
{}

/// A phase breaks where a node breaks at one of its rows, by a sum or by a cast.
pub fn breaks_phases_by_either_cause()
    ensures sum { phase_breaks (row_type two_small.columns) []
        (record {
          expression = col "x" ⟨ Add ⟩ col "y";
          reads = [];
          rows = (struct_val (member (codes "x") (int_val I8 (pos 127)) (member (codes "y") (int_val I8 (pos 5)) no_members))) ∷ [];
        })
        ≡ true }
    ensures casting { phase_breaks (row_type two_small.columns) []
        (record {
          expression = cast (col "x") (bool_ty NonNullable);
          reads = [];
          rows = (struct_val (member (codes "x") (int_val I8 (pos 127)) (member (codes "y") (int_val I8 (pos 5)) no_members))) ∷ [];
        })
        ≡ true }
    ensures sound { phase_breaks (row_type two_small.columns) []
        (record {
          expression = col "x" ⟨ Sub ⟩ col "y";
          reads = [];
          rows = (struct_val (member (codes "x") (int_val I8 (pos 127)) (member (codes "y") (int_val I8 (pos 5)) no_members))) ∷ [];
        })
        ≡ false }
    ensures no_row { phase_breaks (row_type two_small.columns) [] (record { expression = col "x" ⟨ Add ⟩ col "y"; reads = []; rows = [] }) ≡ false }
{}
