// Pruning expressions, what they need and what is asked for them, worked by hand.
#![tactic(auto, unfolding(crate::proofs::Computing::all_definitions))]

ghost use Rattle.std.specs.Prelude.{◌≡◌, pos, [], ◌∷◌, codes, true, false, Some, None};
ghost use Rattle.vx_dtype.specs.declared.PType.TheVariants.{I32, U64};
ghost use Rattle.vx_dtype.specs.declared.Nullability.TheVariants.{NonNullable};
ghost use Rattle.vx_dtype.specs.declared.Stat.TheVariants.{Min, Max, NaNCount, NullCount};
ghost use Rattle.vx_dtype.specs.declared.CompareOperator.{CompareOperator};
ghost use Rattle.vx_dtype.specs.Types.{int_ty};
ghost use Rattle.vx_expr.specs.declared.Operator.TheVariants.{Eq, NotEq, Gt, Gte, Lt, Lte, And, Or};
ghost use Rattle.vx_expr.specs.Trees.{binary, not_of, is_null_of, list_contains, dynamic};
ghost use Rattle.vx_worked_examples.specs.Samples.{col, number, number_list, boolean, pack_one};
ghost use Rattle.vx_passes.specs.Catalogs.{every_statistic};
ghost use Rattle.vx_passes.specs.Falsifying.{falsified};
ghost use Rattle.vx_worked_examples.specs.PassSamples.{n, item, ten_to_fifty, none_is_nan, both, column_compared, constant_compared, pruned_with, of_a};

/// Membership in a constant list: each element lies outside the bounds.
pub fn prunes_membership()
    ensures three { pruned_with (Min ∷ Max ∷ []) (list_contains (number_list I32 (pos 1 ∷ pos 2 ∷ pos 3 ∷ [])) (col "a"))
        ≡ Some (
          both (both (binary (binary (col "a_max") Lt (n (pos 1))) Or (binary (col "a_min") Gt (n (pos 1))))
              (binary (binary (col "a_max") Lt (n (pos 2))) Or (binary (col "a_min") Gt (n (pos 2)))))
              (binary (binary (col "a_max") Lt (n (pos 3))) Or (binary (col "a_min") Gt (n (pos 3)))),
          of_a Max ∷ of_a Min ∷ [],
        ) }
    ensures none { pruned_with [] (list_contains (number_list I32 []) (col "a")) ≡ Some (boolean true, []) }
    ensures one_bound { pruned_with (Max ∷ []) (list_contains (number_list I32 (pos 1 ∷ [])) (col "a")) ≡ None }
    ensures other_bound { pruned_with (Min ∷ []) (list_contains (number_list I32 (pos 1 ∷ [])) (col "a")) ≡ None }
    ensures no_constant { pruned_with (Min ∷ Max ∷ []) (list_contains (col "l") (col "a")) ≡ None }
{}

/// Equality by both bounds, or by the one that is there; inequality by both alone.
pub fn prunes_equality()
    ensures both { pruned_with (Min ∷ Max ∷ []) (column_compared "a" Eq (pos 42))
        ≡ Some (binary (binary (col "a_min") Gt (n (pos 42))) Or (binary (n (pos 42)) Gt (col "a_max")), of_a Min ∷ of_a Max ∷ []) }
    ensures greatest { pruned_with (Max ∷ []) (column_compared "a" Eq (pos 42))
        ≡ Some (binary (n (pos 42)) Gt (col "a_max"), of_a Max ∷ []) }
    ensures least { pruned_with (Min ∷ []) (column_compared "a" Eq (pos 42))
        ≡ Some (binary (col "a_min") Gt (n (pos 42)), of_a Min ∷ []) }
    ensures neither { pruned_with [] (column_compared "a" Eq (pos 42)) ≡ None }
    ensures unequal { pruned_with (Min ∷ Max ∷ []) (column_compared "a" NotEq (pos 42))
        ≡ Some (both (binary (col "a_min") Eq (n (pos 42))) (binary (col "a_max") Eq (n (pos 42))), of_a Min ∷ of_a Max ∷ []) }
    ensures unequal_least { pruned_with (Min ∷ []) (column_compared "a" NotEq (pos 42)) ≡ None }
    ensures unequal_greatest { pruned_with (Max ∷ []) (column_compared "a" NotEq (pos 42)) ≡ None }
{}

/// The four comparisons by order, each by the bound that it needs, and without it.
pub fn prunes_comparisons()
    ensures greater { pruned_with (Max ∷ []) (column_compared "a" Gt (pos 1))
        ≡ Some (binary (col "a_max") Lte (n (pos 1)), of_a Max ∷ []) }
    ensures greater_without { pruned_with (Min ∷ []) (column_compared "a" Gt (pos 1)) ≡ None }
    ensures at_least { pruned_with (Max ∷ []) (column_compared "a" Gte (pos 1))
        ≡ Some (binary (col "a_max") Lt (n (pos 1)), of_a Max ∷ []) }
    ensures at_least_without { pruned_with (Min ∷ []) (column_compared "a" Gte (pos 1)) ≡ None }
    ensures less { pruned_with (Min ∷ []) (column_compared "a" Lt (pos 1))
        ≡ Some (binary (col "a_min") Gte (n (pos 1)), of_a Min ∷ []) }
    ensures less_without { pruned_with (Max ∷ []) (column_compared "a" Lt (pos 1)) ≡ None }
    ensures at_most { pruned_with (Min ∷ []) (column_compared "a" Lte (pos 1))
        ≡ Some (binary (col "a_min") Gt (n (pos 1)), of_a Min ∷ []) }
    ensures at_most_without { pruned_with (Max ∷ []) (column_compared "a" Lte (pos 1)) ≡ None }
    ensures exchanged { pruned_with (Min ∷ []) (constant_compared (pos 1) Gt "a")
        ≡ Some (binary (n (pos 1)) Lte (col "a_min"), of_a Min ∷ []) }
{}

/// `and` by the sides that have a falsification, `or` by both; negations exchange the two.
pub fn prunes_logic()
    ensures one_side { pruned_with (Min ∷ Max ∷ []) (both (column_compared "a" Gt (pos 1)) (column_compared "z" Gt (pos 1)))
        ≡ Some (binary (col "a_max") Lte (n (pos 1)), of_a Max ∷ []) }
    ensures other_side { pruned_with (Min ∷ Max ∷ []) (both (column_compared "z" Gt (pos 1)) (column_compared "a" Gt (pos 1)))
        ≡ Some (binary (col "a_max") Lte (n (pos 1)), of_a Max ∷ []) }
    ensures neither { pruned_with (Min ∷ Max ∷ []) (column_compared "z" Gt (pos 1)) ≡ None }
    ensures both_sides { pruned_with (Min ∷ Max ∷ []) (both (column_compared "a" Gt (pos 1)) (column_compared "a" Lt (pos 5)))
        ≡ Some (binary (binary (col "a_max") Lte (n (pos 1))) Or (binary (col "a_min") Gte (n (pos 5))), of_a Max ∷ of_a Min ∷ []) }
    ensures disjunction { pruned_with (Min ∷ Max ∷ []) (binary (column_compared "a" Gt (pos 5)) Or (column_compared "a" Lt (pos 1)))
        ≡ Some (both (binary (col "a_max") Lte (n (pos 5))) (binary (col "a_min") Gte (n (pos 1))), of_a Max ∷ of_a Min ∷ []) }
    ensures half_a_disjunction { pruned_with (Max ∷ []) (binary (column_compared "a" Gt (pos 5)) Or (column_compared "a" Lt (pos 1)))
        ≡ None }
    ensures negated_comparison { pruned_with (Max ∷ []) (not_of (column_compared "a" Lte (pos 1)))
        ≡ Some (binary (col "a_max") Lte (n (pos 1)), of_a Max ∷ []) }
    ensures negated_and { pruned_with (Min ∷ Max ∷ []) (not_of (both (column_compared "a" Lte (pos 5)) (column_compared "a" Gte (pos 1))))
        ≡ Some (both (binary (col "a_max") Lte (n (pos 5))) (binary (col "a_min") Gte (n (pos 1))), of_a Max ∷ of_a Min ∷ []) }
    ensures negated_or { pruned_with (Max ∷ []) (not_of (binary (column_compared "a" Lte (pos 5)) Or (column_compared "a" Gte (pos 1))))
        ≡ Some (binary (col "a_max") Lte (n (pos 5)), of_a Max ∷ []) }
    ensures twice { pruned_with (Max ∷ []) (not_of (not_of (column_compared "a" Gt (pos 1))))
        ≡ Some (binary (col "a_max") Lte (n (pos 1)), of_a Max ∷ []) }
    ensures negated_membership { pruned_with (Min ∷ Max ∷ []) (not_of (list_contains (number_list I32 []) (col "a")))
        ≡ None }
{}

/// A range as its two comparisons, and its negation as theirs.
pub fn prunes_ranges()
    ensures whole { pruned_with (Min ∷ Max ∷ []) ten_to_fifty
        ≡ Some (binary (binary (n (pos 10)) Gt (col "a_max")) Or (binary (col "a_min") Gte (n (pos 50))), of_a Max ∷ of_a Min ∷ []) }
    ensures upper_alone { pruned_with (Min ∷ []) ten_to_fifty
        ≡ Some (binary (col "a_min") Gte (n (pos 50)), of_a Min ∷ []) }
    ensures negated { pruned_with (Min ∷ Max ∷ []) (not_of ten_to_fifty)
        ≡ Some (both (binary (n (pos 10)) Lte (col "a_min")) (binary (col "a_max") Lt (n (pos 50))), of_a Min ∷ of_a Max ∷ []) }
    ensures negated_half { pruned_with (Min ∷ []) (not_of ten_to_fifty)
        ≡ None }
{}

/// A null test by its count; a comparison with a slot by the inverse comparison of the bound that it needs.
pub fn prunes_null_tests_and_slots()
    ensures null_test { pruned_with (NullCount ∷ []) (is_null_of (col "a"))
        ≡ Some (binary (col "a_null_count") Eq (number U64 (pos 0)), of_a NullCount ∷ []) }
    ensures uncounted { pruned_with (Min ∷ Max ∷ []) (is_null_of (col "a")) ≡ None }
    ensures constant { pruned_with (NullCount ∷ []) (is_null_of (n (pos 1))) ≡ None }
    ensures above { pruned_with (Max ∷ []) (dynamic (col "a") CompareOperator.Gt 0 (int_ty I32 NonNullable) false)
        ≡ Some (dynamic (col "a_max") CompareOperator.Lte 0 (int_ty I32 NonNullable) true, of_a Max ∷ []) }
    ensures not_below { pruned_with (Max ∷ []) (dynamic (col "a") CompareOperator.Gte 0 (int_ty I32 NonNullable) true)
        ≡ Some (dynamic (col "a_max") CompareOperator.Lt 0 (int_ty I32 NonNullable) false, of_a Max ∷ []) }
    ensures below { pruned_with (Min ∷ []) (dynamic (col "a") CompareOperator.Lt 1 (int_ty I32 NonNullable) false)
        ≡ Some (dynamic (col "a_min") CompareOperator.Gte 1 (int_ty I32 NonNullable) true, of_a Min ∷ []) }
    ensures not_above { pruned_with (Min ∷ []) (dynamic (col "a") CompareOperator.Lte 1 (int_ty I32 NonNullable) false)
        ≡ Some (dynamic (col "a_min") CompareOperator.Gt 1 (int_ty I32 NonNullable) true, of_a Min ∷ []) }
    ensures without_bound { pruned_with (Min ∷ []) (dynamic (col "a") CompareOperator.Gt 0 (int_ty I32 NonNullable) false)
        ≡ None }
    ensures equal { pruned_with (Min ∷ Max ∷ []) (dynamic (col "a") CompareOperator.Eq 0 (int_ty I32 NonNullable) false)
        ≡ None }
{}

/// The filter as it stands is what falsifies: a field of a pack has no bounds.
pub fn prunes_no_field_of_a_pack()
    ensures { pruned_with (Min ∷ Max ∷ []) (binary (item "b" (pack_one "b" (col "a"))) Gt (n (pos 1))) ≡ None }
{}

/// What is asked, in order, where every statistic has an answer; a comparison's counts of values that are not a number stand before it.
pub fn asks_in_order()
    ensures equality { (falsified every_statistic (column_compared "a" Eq (pos 1))).asked
        ≡ of_a Min ∷ of_a Max ∷ of_a NaNCount ∷ [] }
    ensures guarded { (falsified every_statistic (column_compared "a" Gt (pos 1))).tree
        ≡ Some (both (none_is_nan "a_nan_count") (binary (col "a_max") Lte (n (pos 1)))) }
    ensures both_guarded { (falsified every_statistic (binary (col "a") Gt (col "b"))).tree
        ≡ Some (both (both (none_is_nan "a_nan_count") (none_is_nan "b_nan_count")) (binary (col "a_max") Lte (col "b_min"))) }
    ensures membership { (falsified every_statistic (list_contains (number_list I32 (pos 1 ∷ [])) (col "a"))).asked
        ≡ of_a Max ∷ of_a Min ∷ [] }
    ensures stops { (falsified (λ path. λ stat. None) (column_compared "a" NotEq (pos 1))).asked ≡ of_a Min ∷ [] }
    ensures goes_on { (falsified (λ path. λ stat. None) (column_compared "a" Eq (pos 1))).asked
        ≡ of_a Min ∷ of_a Max ∷ [] }
    ensures either { (falsified (λ path. λ stat. None) (both (column_compared "a" Gt (pos 1)) (column_compared "a" Lt (pos 1)))).asked
        ≡ of_a Max ∷ of_a Min ∷ [] }
    ensures not_either { (falsified (λ path. λ stat. None) (binary (column_compared "a" Gt (pos 1)) Or (column_compared "a" Lt (pos 1)))).asked
        ≡ of_a Max ∷ [] }
{}
