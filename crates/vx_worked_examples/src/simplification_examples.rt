// Replacing, ranges, fields of packs, select and merge removal, worked by hand.
#![tactic(auto, unfolding(crate::proofs::Computing::all_definitions))]

ghost use Rattle.std.specs.Prelude.{◌≡◌, pos, negsuc, [], ◌∷◌, codes, true, false, Ok, Err};
ghost use Rattle.vx_dtype.specs.declared.PType.TheVariants.{I32, I64, U32, U64};
ghost use Rattle.vx_dtype.specs.declared.Nullability.TheVariants.{NonNullable, Nullable};
ghost use Rattle.vx_dtype.specs.declared.StrictComparison.TheVariants.{Strict, NonStrict};
ghost use Rattle.vx_dtype.specs.Types.{int_ty, struct_ty, field, no_fields};
ghost use Rattle.vx_dtype.specs.Values.{bool_val, int_val};
ghost use Rattle.vx_expr.specs.declared.Operator.TheVariants.{Eq, Gt, Gte, Lt, Lte, Or, Add};
ghost use Rattle.vx_expr.specs.declared.FieldSelection.TheVariants.{Include, Exclude};
ghost use Rattle.vx_expr.specs.Trees.{root, get_item, binary, between, pack, merge, select, no_trees, tree};
ghost use Rattle.vx_semantics.specs.Typing.{typed_of, unknown_field, not_struct, nullable_select};
ghost use Rattle.vx_semantics.specs.Meaning.{mean};
ghost use Rattle.vx_worked_examples.specs.Samples.{col, number, alone, only, pack_one, pack_two};
ghost use Rattle.vx_passes.specs.Replacing.{replaced, root_replaced};
ghost use Rattle.vx_passes.specs.Ranges.{ranged};
ghost use Rattle.vx_passes.specs.Simplifying.{simplified};
ghost use Rattle.vx_passes.specs.Selecting.{without_select};
ghost use Rattle.vx_passes.specs.Merging.{without_merge};
ghost use Rattle.vx_passes.specs.TypedSimplifying.{simplified_typed};
ghost use Rattle.vx_worked_examples.specs.PassSamples.{n, item, both, x_alone, nullable_x, x_and_y, two_giving, their_merge, their_type, nullable_giving};
ghost use Rattle.vx_worked_examples.specs.PassSamples.{two_of_a, five_to_two, ten_to_five, column_compared, constant_compared, column_between};

/// The field of a pack is its value of that name; the first one, where a name stands twice.
pub fn takes_fields_of_packs()
    ensures second { simplified (item "b" (pack_two "a" (n (pos 1)) "b" (n (pos 2)))) ≡ Ok (n (pos 2)) }
    ensures first { simplified (item "a" (pack_two "a" (n (pos 1)) "a" (n (pos 2)))) ≡ Ok (n (pos 1)) }
    ensures nested { simplified (item "c" (item "b" (pack_one "b" (pack_one "c" (n (pos 7)))))) ≡ Ok (n (pos 7)) }
    ensures below { simplified (binary (item "b" (pack_one "b" (col "x"))) Gt (n (pos 1)))
        ≡ Ok (column_compared "x" Gt (pos 1)) }
{}

/// A field that a pack doesn't have is refused, also where it stands in a value that nobody takes.
pub fn refuses_unknown_fields_of_packs()
    ensures alone { simplified (item "c" (pack_one "a" (n (pos 1)))) ≡ Err unknown_field }
    ensures untaken { simplified (item "b" (pack_two "a" (item "z" (pack_one "a" (n (pos 1)))) "b" (n (pos 2))))
        ≡ Err unknown_field }
{}

/// Each node that equals the needle is replaced, and the whole where it does.
pub fn replaces_equal_nodes()
    ensures value { replaced (n (pos 2)) (n (pos 42)) (pack_two "a" (n (pos 1)) "b" (n (pos 2)))
        ≡ pack_two "a" (n (pos 1)) "b" (n (pos 42)) }
    ensures whole { replaced (pack_one "a" (n (pos 1))) (n (pos 42)) (pack_one "a" (n (pos 1))) ≡ n (pos 42) }
    ensures upward { replaced (pack_one "a" (n (pos 2))) (n (pos 3)) (replaced (n (pos 1)) (n (pos 2)) (pack_one "a" (n (pos 1))))
        ≡ n (pos 3) }
    ensures other_type { replaced (number I64 (pos 1)) (n (pos 2)) (n (pos 1)) ≡ n (pos 1) }
{}

/// Each row becomes a pack of its columns.
pub fn replaces_the_row()
    ensures bare { root_replaced (field (codes "x") (int_ty I32 NonNullable) (field (codes "y") (int_ty I32 NonNullable) no_fields)) root
        ≡ pack_two "x" (col "x") "y" (col "y") }
    ensures column { root_replaced (only "x" (int_ty I32 NonNullable)) (col "x") ≡ item "x" (pack_one "x" (col "x")) }
{}

/// Two comparisons of one column with constants, from below and from above, are a range, in each of the four ways to write them.
pub fn finds_ranges()
    ensures constant_first { ranged (both (constant_compared (pos 2) Lt "x") (constant_compared (pos 5) Gte "x"))
        ≡ column_between (pos 2) Strict "x" NonStrict (pos 5) }
    ensures column_first { ranged (both (column_compared "x" Gte (pos 2)) (column_compared "x" Lt (pos 5)))
        ≡ column_between (pos 2) NonStrict "x" Strict (pos 5) }
    ensures mixed { ranged (both (column_compared "x" Gte (pos 2)) (constant_compared (pos 5) Gte "x"))
        ≡ column_between (pos 2) NonStrict "x" NonStrict (pos 5) }
    ensures other_mixed { ranged (both (constant_compared (pos 2) Lt "x") (column_compared "x" Lte (pos 5)))
        ≡ column_between (pos 2) Strict "x" NonStrict (pos 5) }
    ensures upper_first { ranged (both (column_compared "x" Lt (pos 5)) (column_compared "x" Gt (pos 2)))
        ≡ column_between (pos 2) Strict "x" Strict (pos 5) }
{}

/// A range stands in the place of its first conjunct; the later one is taken out.
pub fn places_ranges_at_the_first_conjunct()
    ensures later { ranged (both (both (column_compared "y" Gte (pos 10)) (constant_compared (pos 5) Gte "x")) (constant_compared (pos 2) Lt "x"))
        ≡ both (column_compared "y" Gte (pos 10)) (column_between (pos 2) Strict "x" NonStrict (pos 5)) }
    ensures earlier { ranged (both (both (constant_compared (pos 5) Gte "x") (column_compared "y" Gte (pos 10))) (constant_compared (pos 2) Lt "x"))
        ≡ both (column_between (pos 2) Strict "x" NonStrict (pos 5)) (column_compared "y" Gte (pos 10)) }
    ensures first_match { ranged (both (column_compared "x" Gt (pos 1)) (both (column_compared "x" Lt (pos 9)) (column_compared "x" Lt (pos 5))))
        ≡ both (column_between (pos 1) Strict "x" Strict (pos 9)) (column_compared "x" Lt (pos 5)) }
    ensures to_the_left { ranged (both (column_compared "x" Eq (pos 1)) (both (column_compared "y" Eq (pos 2)) (column_compared "z" Eq (pos 3))))
        ≡ both (both (column_compared "x" Eq (pos 1)) (column_compared "y" Eq (pos 2))) (column_compared "z" Eq (pos 3)) }
{}

/// Bounds go by the direction of the comparison, never by which constant is greater: at no number are these ranges true.
pub fn orders_bounds_by_their_operators()
    ensures falling { ranged (both (column_compared "x" Lte (pos 2)) (column_compared "x" Gte (pos 5))) ≡ five_to_two }
    ensures rising { ranged (both (column_compared "x" Gte (pos 10)) (column_compared "x" Lte (pos 5))) ≡ ten_to_five }
    ensures one { mean x_alone [] (alone "x" (int_val I32 (pos 1))) five_to_two ≡ bool_val false }
    ensures three { mean x_alone [] (alone "x" (int_val I32 (pos 3))) five_to_two ≡ bool_val false }
    ensures six { mean x_alone [] (alone "x" (int_val I32 (pos 6))) five_to_two ≡ bool_val false }
    ensures below { mean x_alone [] (alone "x" (int_val I32 (pos 1))) ten_to_five ≡ bool_val false }
    ensures seven { mean x_alone [] (alone "x" (int_val I32 (pos 7))) ten_to_five ≡ bool_val false }
    ensures twelve { mean x_alone [] (alone "x" (int_val I32 (pos 12))) ten_to_five ≡ bool_val false }
{}

/// What makes no range: two bounds of one side, an operand that is no field access, no constant, two equal operands, another column.
pub fn leaves_what_is_no_range()
    ensures one_side { ranged (both (column_compared "x" Gt (pos 1)) (column_compared "x" Gte (pos 2)))
        ≡ both (column_compared "x" Gt (pos 1)) (column_compared "x" Gte (pos 2)) }
    ensures equality { ranged (both (column_compared "x" Eq (pos 1)) (column_compared "x" Lt (pos 2)))
        ≡ both (column_compared "x" Eq (pos 1)) (column_compared "x" Lt (pos 2)) }
    ensures row { ranged (both (binary root Gt (n (pos 1))) (binary root Lt (n (pos 2))))
        ≡ both (binary root Gt (n (pos 1))) (binary root Lt (n (pos 2))) }
    ensures no_constant { ranged (both (binary (col "x") Gt (col "y")) (column_compared "x" Lt (pos 2)))
        ≡ both (binary (col "x") Gt (col "y")) (column_compared "x" Lt (pos 2)) }
    ensures equal_operands { ranged (both (binary (col "x") Gt (col "x")) (column_compared "x" Lt (pos 2)))
        ≡ both (binary (col "x") Gt (col "x")) (column_compared "x" Lt (pos 2)) }
    ensures columns { ranged (both (column_compared "x" Gt (pos 1)) (column_compared "y" Lt (pos 2)))
        ≡ both (column_compared "x" Gt (pos 1)) (column_compared "y" Lt (pos 2)) }
    ensures under_or { ranged (binary (column_compared "x" Gt (pos 1)) Or (column_compared "x" Lt (pos 2)))
        ≡ binary (column_compared "x" Gt (pos 1)) Or (column_compared "x" Lt (pos 2)) }
{}

/// A select becomes a pack of the fields that it takes.
pub fn removes_selects()
    ensures included { without_select x_and_y (select (Include (codes "y" ∷ codes "x" ∷ [])) root) ≡ Ok (pack_two "y" (col "y") "x" (col "x")) }
    ensures excluded { without_select x_and_y (select (Exclude (codes "x" ∷ [])) root) ≡ Ok (pack_one "y" (col "y")) }
    ensures nullable { without_select nullable_x (select (Include (codes "x" ∷ [])) root) ≡ Err nullable_select }
    ensures no_struct { without_select (int_ty I32 NonNullable) (select (Include (codes "x" ∷ [])) root) ≡ Err not_struct }
    ensures unknown { without_select x_alone (select (Exclude (codes "z" ∷ [])) root) ≡ Err unknown_field }
    ensures child_first { without_select nullable_x (select (Include (codes "x" ∷ [])) (col "z")) ≡ Err unknown_field }
{}

/// A merge becomes a pack of the fields that it gives, each of the last child that has it, with the merge's nullability.
pub fn removes_merges()
    ensures last_child { without_merge two_giving (merge (tree (col "0") (tree (col "1") no_trees)) NonNullable) ≡ Ok their_merge }
    ensures its_type { typed_of two_giving their_merge ≡ Ok their_type }
    ensures nullable { without_merge nullable_giving (merge (tree (col "0") no_trees) Nullable)
        ≡ Ok (pack (codes "a" ∷ codes "b" ∷ []) (tree (item "a" (col "0")) (tree (item "b" (col "0")) no_trees)) Nullable) }
    ensures no_struct { without_merge x_alone (merge (tree (col "x") (tree (col "z") no_trees)) NonNullable) ≡ Err not_struct }
    ensures child { without_merge x_alone (merge (tree (col "z") (tree (col "x") no_trees)) NonNullable) ≡ Err unknown_field }
{}

/// All four passes: a select of a pack is the pack of what it takes, and a field of that is its value.
pub fn simplifies_by_types()
    ensures selected { simplified_typed x_alone (select (Include (codes "b" ∷ [])) (pack_two "a" (binary (col "x") Add (n (pos 1))) "b" (col "x")))
        ≡ Ok (pack_one "b" (col "x")) }
    ensures merged_field { simplified_typed two_of_a (item "a" (merge (tree (col "p") (tree (col "q") no_trees)) NonNullable))
        ≡ Ok (item "a" (col "q")) }
    ensures two_selects { simplified_typed x_and_y (select (Include (codes "x" ∷ codes "y" ∷ [])) (select (Include (codes "x" ∷ codes "y" ∷ [])) root))
        ≡ Ok (pack_two "x" (col "x") "y" (col "y")) }
{}
