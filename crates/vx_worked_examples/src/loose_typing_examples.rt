// Types by the looser rules, worked by hand for each kind over a struct of each kind of type.
#![tactic(auto, unfolding(crate::proofs::Computing::all_definitions))]

ghost use Rattle.std.specs.Prelude.{◌≡◌, [], ◌∷◌, codes, pos, Ok, Err, true, false, ◌++◌, map, replicate};
ghost use Rattle.vx_dtype.specs.declared.PType.TheVariants.{I32, U16, U8, I64};
ghost use Rattle.vx_dtype.specs.declared.Nullability.TheVariants.{NonNullable, Nullable};
ghost use Rattle.vx_dtype.specs.Types.{bool_ty, int_ty, text_ty, list_ty, struct_ty, no_fields, field};
ghost use Rattle.vx_dtype.specs.declared.StrictComparison.TheVariants.{Strict};
ghost use Rattle.vx_dtype.specs.declared.CompareOperator.TheVariants.{Gt as Above};
ghost use Rattle.vx_expr.specs.declared.Operator.TheVariants.{Eq, NotEq, Gt, Gte, Lt, Lte, And, Or, Add};
ghost use Rattle.vx_expr.specs.declared.FieldSelection.TheVariants.{Include, Exclude};
ghost use Rattle.vx_expr.specs.Trees.{root, not_of, is_null_of, like, cast, list_contains, select, get_item, between, pack, merge, dynamic, tree};
ghost use Rattle.vx_expr.specs.Trees.{no_trees};
ghost use Rattle.vx_build.specs.Samples.{sample_struct};
ghost use Rattle.vx_semantics.specs.Typing.{typed_of, type_mismatch, unknown_field, nullable_select, duplicate_field, not_struct};
ghost use Rattle.vx_semantics.specs.LooseTyping.{loosely_typed};
ghost use Rattle.vx_worked_examples.specs.Samples.{col, number, quoted, null_of, ◌⟨◌⟩◌, only, pack_two, number_list, struct_p_q, mixed};
ghost use Rattle.vx_worked_examples.specs.Samples.{operators, ends};

/// A constant has its own type.
pub fn types_a_constant()
    ensures { loosely_typed sample_struct (number I32 (pos 10)) ≡ Ok (int_ty I32 NonNullable) }
{}

/// The null of a type has it.
pub fn types_a_null()
    ensures { loosely_typed sample_struct (null_of (bool_ty Nullable)) ≡ Ok (bool_ty Nullable) }
{}

/// `and` of two booleans.
pub fn types_and()
    ensures { loosely_typed sample_struct (col "bool1" ⟨ And ⟩ col "bool2") ≡ Ok (bool_ty NonNullable) }
{}

/// `or` of two booleans.
pub fn types_or()
    ensures { loosely_typed sample_struct (col "bool1" ⟨ Or ⟩ col "bool2") ≡ Ok (bool_ty NonNullable) }
{}

/// A negation.
pub fn types_a_negation()
    ensures { loosely_typed sample_struct (not_of (col "bool1")) ≡ Ok (bool_ty NonNullable) }
{}

/// A cast looks at its target alone.
pub fn types_a_cast()
    ensures { loosely_typed sample_struct (cast root (bool_ty NonNullable)) ≡ Ok (bool_ty NonNullable) }
{}

/// A null test looks at nothing.
pub fn types_a_null_test()
    ensures { loosely_typed sample_struct (is_null_of root) ≡ Ok (bool_ty NonNullable) }
{}

/// A comparison of nullable columns is nullable: equality.
pub fn types_equality()
    ensures { loosely_typed sample_struct (col "col1" ⟨ Eq ⟩ col "col2") ≡ Ok (bool_ty Nullable) }
{}

/// A comparison of nullable columns is nullable: inequality.
pub fn types_inequality()
    ensures { loosely_typed sample_struct (col "col1" ⟨ NotEq ⟩ col "col2") ≡ Ok (bool_ty Nullable) }
{}

/// A comparison of nullable columns is nullable: greater.
pub fn types_greater()
    ensures { loosely_typed sample_struct (col "col1" ⟨ Gt ⟩ col "col2") ≡ Ok (bool_ty Nullable) }
{}

/// A comparison of nullable columns is nullable: greater or equal.
pub fn types_greater_or_equal()
    ensures { loosely_typed sample_struct (col "col1" ⟨ Gte ⟩ col "col2") ≡ Ok (bool_ty Nullable) }
{}

/// A comparison of nullable columns is nullable: less.
pub fn types_less()
    ensures { loosely_typed sample_struct (col "col1" ⟨ Lt ⟩ col "col2") ≡ Ok (bool_ty Nullable) }
{}

/// A comparison of nullable columns is nullable: less or equal.
pub fn types_less_or_equal()
    ensures { loosely_typed sample_struct (col "col1" ⟨ Lte ⟩ col "col2") ≡ Ok (bool_ty Nullable) }
{}

/// `or` of two comparisons.
pub fn types_or_of_comparisons()
    ensures { loosely_typed sample_struct ((col "col1" ⟨ Lt ⟩ col "col2") ⟨ Or ⟩ (col "col1" ⟨ NotEq ⟩ col "col2")) ≡ Ok (bool_ty Nullable) }
{}

/// An included field.
pub fn types_an_included_field()
    ensures { loosely_typed sample_struct (select (Include (codes "a" ∷ [])) root) ≡ Ok (struct_ty (only "a" (int_ty I32 NonNullable)) NonNullable) }
{}

/// All fields but four.
pub fn types_all_but_four()
    ensures { loosely_typed sample_struct (select (Exclude (codes "col1" ∷ codes "col2" ∷ codes "bool1" ∷ codes "bool2" ∷ [])) root)
        ≡ Ok (struct_ty (only "a" (int_ty I32 NonNullable)) NonNullable) }
{}

/// All fields but two.
pub fn types_all_but_two()
    ensures { loosely_typed sample_struct (select (Exclude (codes "col1" ∷ codes "col2" ∷ [])) root)
        ≡ Ok
        (struct_ty
        (field (codes "a") (int_ty I32 NonNullable)
        (field (codes "bool1") (bool_ty NonNullable) (only "bool2" (bool_ty NonNullable))))
        NonNullable) }
{}

/// LIKE of two texts.
pub fn types_like()
    ensures { loosely_typed (text_ty NonNullable) (like root (quoted "%test%") false false) ≡ Ok (bool_ty NonNullable) }
{}

/// Membership in a nullable list.
pub fn types_membership()
    ensures { loosely_typed (struct_ty (only "array" (list_ty (int_ty I32 NonNullable) Nullable)) NonNullable)
        (list_contains (col "array") (number I32 (pos 2)))
        ≡ Ok (bool_ty Nullable) }
{}

/// Comparisons ask equal types by the strict rules alone.
pub fn types_a_comparison_of_two_kinds_loosely()
    ensures strictly { typed_of sample_struct (col "a" ⟨ Eq ⟩ col "bool1") ≡ Err type_mismatch }
    ensures loosely { loosely_typed sample_struct (col "a" ⟨ Eq ⟩ col "bool1") ≡ Ok (bool_ty NonNullable) }
{}

/// A missing excluded name is refused by the strict rules alone.
pub fn passes_over_a_missing_excluded_name_loosely()
    ensures strictly { typed_of sample_struct
        (select (Exclude (codes "zz" ∷ codes "a" ∷ codes "col1" ∷ codes "col2" ∷ codes "bool1" ∷ [])) root)
        ≡ Err unknown_field }
    ensures loosely { loosely_typed sample_struct
        (select (Exclude (codes "zz" ∷ codes "a" ∷ codes "col1" ∷ codes "col2" ∷ codes "bool1" ∷ [])) root)
        ≡ Ok (struct_ty (only "bool2" (bool_ty NonNullable)) NonNullable) }
{}

/// A select of a nullable struct is nullable by the looser rules, and has no strict type.
pub fn types_a_nullable_select_loosely()
    ensures strictly { typed_of (struct_ty (only "a" (int_ty I32 NonNullable)) Nullable) (select (Include (codes "a" ∷ [])) root) ≡ Err nullable_select }
    ensures loosely { loosely_typed (struct_ty (only "a" (int_ty I32 NonNullable)) Nullable) (select (Include (codes "a" ∷ [])) root)
        ≡ Ok (struct_ty (only "a" (int_ty I32 NonNullable)) Nullable) }
{}

/// A name twice in a pack is refused by the strict rules alone; of two fields of one name the first is taken.
pub fn takes_the_first_of_two_fields_loosely()
    ensures strictly { typed_of sample_struct (get_item (codes "n") (pack_two "n" (number I32 (pos 1)) "n" (number U8 (pos 2)))) ≡ Err duplicate_field }
    ensures loosely { loosely_typed sample_struct (get_item (codes "n") (pack_two "n" (number I32 (pos 1)) "n" (number U8 (pos 2))))
        ≡ Ok (int_ty I32 NonNullable) }
{}

/// A sum of two integer types has no type by either rules.
pub fn types_no_sum_of_two_integer_types()
    ensures strictly { typed_of sample_struct (col "a" ⟨ Add ⟩ col "col1") ≡ Err type_mismatch }
    ensures loosely { loosely_typed sample_struct (col "a" ⟨ Add ⟩ col "col1") ≡ Err type_mismatch }
{}

/// A sum of nullable numbers is nullable.
pub fn types_a_sum()
    ensures strictly { typed_of sample_struct (col "col1" ⟨ Add ⟩ col "col2") ≡ Ok (int_ty U16 Nullable) }
    ensures loosely { loosely_typed sample_struct (col "col1" ⟨ Add ⟩ col "col2") ≡ Ok (int_ty U16 Nullable) }
{}

/// The row and constants have their types, whatever stands in them twice or doesn't fit.
pub fn types_rows_and_constants_loosely()
    ensures row { loosely_typed (struct_ty (field (codes "a") (int_ty I32 NonNullable) (only "a" (bool_ty NonNullable))) NonNullable) root
        ≡ Ok (struct_ty (field (codes "a") (int_ty I32 NonNullable) (only "a" (bool_ty NonNullable))) NonNullable) }
    ensures constant { loosely_typed mixed (number U8 (pos 256)) ≡ Ok (int_ty U8 NonNullable) }
    ensures null_test { loosely_typed mixed (is_null_of (col "z")) ≡ Ok (bool_ty NonNullable) }
    ensures null_test_of_a_nullable_row { loosely_typed (struct_ty (only "a" (bool_ty NonNullable)) Nullable) (is_null_of root)
        ≡ Ok (bool_ty NonNullable) }
    ensures casting { loosely_typed mixed (cast (col "z") (int_ty I32 Nullable)) ≡ Ok (int_ty I32 Nullable) }
{}

/// Fields and negations are typed as by the strict rules.
pub fn types_fields_and_negations_loosely()
    ensures of_a_nullable_struct { loosely_typed mixed (get_item (codes "q") (col "n")) ≡ Ok (bool_ty Nullable) }
    ensures missing { loosely_typed mixed (col "z") ≡ Err unknown_field }
    ensures of_a_number { loosely_typed mixed (get_item (codes "q") (col "a")) ≡ Err not_struct }
    ensures nullable_negation { loosely_typed mixed (not_of (col "g")) ≡ Ok (bool_ty Nullable) }
    ensures negated_number { loosely_typed mixed (not_of (col "a")) ≡ Err type_mismatch }
{}

/// Each operator: sums and differences alone ask equal integer types.
pub fn types_operators_loosely()
    ensures numbers { map (λ op. loosely_typed mixed (col "a" ⟨ op ⟩ col "a")) operators
        ≡ replicate 8 (Ok (bool_ty NonNullable)) ++ replicate 2 (Ok (int_ty I32 NonNullable)) }
    ensures nullable_right { map (λ op. loosely_typed mixed (col "a" ⟨ op ⟩ col "b")) operators
        ≡ replicate 8 (Ok (bool_ty Nullable)) ++ replicate 2 (Ok (int_ty I32 Nullable)) }
    ensures nullable_left { map (λ op. loosely_typed mixed (col "b" ⟨ op ⟩ col "a")) operators
        ≡ replicate 8 (Ok (bool_ty Nullable)) ++ replicate 2 (Ok (int_ty I32 Nullable)) }
    ensures boolean_and_number { map (λ op. loosely_typed mixed (col "f" ⟨ op ⟩ col "b")) operators
        ≡ replicate 8 (Ok (bool_ty Nullable)) ++ replicate 2 (Err type_mismatch) }
    ensures number_and_boolean { map (λ op. loosely_typed mixed (col "b" ⟨ op ⟩ col "f")) operators
        ≡ replicate 8 (Ok (bool_ty Nullable)) ++ replicate 2 (Err type_mismatch) }
    ensures two_widths { map (λ op. loosely_typed mixed (col "a" ⟨ op ⟩ number I64 (pos 1))) operators
        ≡ replicate 8 (Ok (bool_ty NonNullable)) ++ replicate 2 (Err type_mismatch) }
    ensures texts { map (λ op. loosely_typed mixed (col "t" ⟨ op ⟩ col "u")) operators
        ≡ replicate 8 (Ok (bool_ty Nullable)) ++ replicate 2 (Err type_mismatch) }
    ensures lists { map (λ op. loosely_typed mixed (col "l" ⟨ op ⟩ col "l")) operators
        ≡ replicate 8 (Ok (bool_ty Nullable)) ++ replicate 2 (Err type_mismatch) }
{}

/// LIKE and membership ask nothing of their operands' types, and are nullable where one is.
pub fn types_likeness_and_membership_loosely()
    ensures texts { loosely_typed mixed (like (col "t") (col "t") false false) ≡ Ok (bool_ty NonNullable) }
    ensures nullable_text { loosely_typed mixed (like (col "u") (col "t") false false) ≡ Ok (bool_ty Nullable) }
    ensures nullable_pattern { loosely_typed mixed (like (col "t") (col "u") false false) ≡ Ok (bool_ty Nullable) }
    ensures numbers { loosely_typed mixed (like (col "a") (col "a") false false) ≡ Ok (bool_ty NonNullable) }
    ensures plain { loosely_typed mixed (list_contains (number_list I32 []) (col "a")) ≡ Ok (bool_ty NonNullable) }
    ensures nullable_list { loosely_typed mixed (list_contains (col "l") (col "a")) ≡ Ok (bool_ty Nullable) }
    ensures nullable_value { loosely_typed mixed (list_contains (number_list I32 []) (col "b")) ≡ Ok (bool_ty Nullable) }
    ensures no_list { loosely_typed mixed (list_contains (col "a") (col "t")) ≡ Ok (bool_ty NonNullable) }
{}

/// A range asks three equal types, lists and structs too.
pub fn types_ranges_loosely()
    ensures numbers { loosely_typed mixed (between (col "a") (col "a") (col "a") (ends Strict Strict)) ≡ Ok (bool_ty NonNullable) }
    ensures nullable_value { loosely_typed mixed (between (col "b") (col "a") (col "a") (ends Strict Strict)) ≡ Ok (bool_ty Nullable) }
    ensures nullable_lower { loosely_typed mixed (between (col "a") (col "b") (col "a") (ends Strict Strict)) ≡ Ok (bool_ty Nullable) }
    ensures nullable_upper { loosely_typed mixed (between (col "a") (col "a") (col "b") (ends Strict Strict)) ≡ Ok (bool_ty Nullable) }
    ensures other_lower { loosely_typed mixed (between (col "a") (col "f") (col "a") (ends Strict Strict)) ≡ Err type_mismatch }
    ensures other_upper { loosely_typed mixed (between (col "a") (col "a") (col "f") (ends Strict Strict)) ≡ Err type_mismatch }
    ensures lists { loosely_typed mixed (between (col "l") (col "l") (col "l") (ends Strict Strict)) ≡ Ok (bool_ty Nullable) }
    ensures structs { loosely_typed mixed (between (col "s") (col "s") (col "s") (ends Strict Strict)) ≡ Ok (bool_ty NonNullable) }
{}

/// A comparison with a slot asks a type equal to the slot's, lists and structs too.
pub fn types_slots_loosely()
    ensures plain { loosely_typed mixed (dynamic (col "a") Above 0 (int_ty I32 NonNullable) true) ≡ Ok (bool_ty NonNullable) }
    ensures nullable_slot { loosely_typed mixed (dynamic (col "a") Above 0 (int_ty I32 Nullable) true) ≡ Ok (bool_ty Nullable) }
    ensures nullable_operand { loosely_typed mixed (dynamic (col "b") Above 0 (int_ty I32 NonNullable) true) ≡ Ok (bool_ty Nullable) }
    ensures other { loosely_typed mixed (dynamic (col "a") Above 0 (text_ty NonNullable) true) ≡ Err type_mismatch }
    ensures lists { loosely_typed mixed (dynamic (col "l") Above 0 (list_ty (int_ty I32 Nullable) NonNullable) true) ≡ Ok (bool_ty Nullable) }
    ensures structs { loosely_typed mixed (dynamic (col "s") Above 0 struct_p_q true) ≡ Ok (bool_ty NonNullable) }
{}

/// A pack has as many names as values, which may stand twice.
pub fn types_packs_loosely()
    ensures twice { loosely_typed mixed (pack_two "x" (col "a") "x" (col "g"))
        ≡ Ok (struct_ty (field (codes "x") (int_ty I32 NonNullable) (only "x" (bool_ty Nullable))) NonNullable) }
    ensures nullable { loosely_typed mixed (pack [] no_trees Nullable) ≡ Ok (struct_ty no_fields Nullable) }
    ensures fewer_names { loosely_typed mixed (pack (codes "x" ∷ []) (tree (col "a") (tree (col "b") no_trees)) NonNullable) ≡ Err type_mismatch }
    ensures more_names { loosely_typed mixed (pack (codes "x" ∷ codes "y" ∷ []) (tree (col "a") no_trees) NonNullable) ≡ Err type_mismatch }
{}

/// A merge is typed as by the strict rules.
pub fn types_merges_loosely()
    ensures nullable_last { loosely_typed mixed (merge (tree (col "s") (tree (col "n") no_trees)) NonNullable)
        ≡ Ok
        (struct_ty (field (codes "p") (int_ty I32 NonNullable) (field (codes "q") (bool_ty Nullable) (only "r" (int_ty I32 Nullable))))
        NonNullable) }
    ensures nullable_first { loosely_typed mixed (merge (tree (col "n") (tree (col "s") no_trees)) Nullable)
        ≡ Ok
        (struct_ty
        (field (codes "q") (text_ty NonNullable) (field (codes "r") (int_ty I32 Nullable) (only "p" (int_ty I32 NonNullable))))
        Nullable) }
    ensures none { loosely_typed mixed (merge no_trees NonNullable) ≡ Ok (struct_ty no_fields NonNullable) }
    ensures number { loosely_typed mixed (merge (tree (col "s") (tree (col "a") no_trees)) NonNullable) ≡ Err not_struct }
{}

/// A select asks a struct that has each included name, which may stand twice.
pub fn types_selects_loosely()
    ensures in_its_order { loosely_typed mixed (select (Include (codes "q" ∷ codes "p" ∷ [])) (col "s"))
        ≡ Ok (struct_ty (field (codes "q") (text_ty NonNullable) (only "p" (int_ty I32 NonNullable))) NonNullable) }
    ensures twice { loosely_typed mixed (select (Include (codes "p" ∷ codes "p" ∷ [])) (col "s"))
        ≡ Ok (struct_ty (field (codes "p") (int_ty I32 NonNullable) (only "p" (int_ty I32 NonNullable))) NonNullable) }
    ensures without { loosely_typed mixed (select (Exclude (codes "q" ∷ [])) (col "n")) ≡ Ok (struct_ty (only "r" (int_ty I32 NonNullable)) Nullable) }
    ensures missing { loosely_typed mixed (select (Include (codes "q" ∷ codes "z" ∷ [])) (col "s")) ≡ Err unknown_field }
    ensures number { loosely_typed mixed (select (Include (codes "p" ∷ [])) (col "a")) ≡ Err not_struct }
    ensures nothing_of_a_number { loosely_typed mixed (select (Exclude []) (col "a")) ≡ Err not_struct }
{}

/// The refusal is that of the first node in post-order.
pub fn refuses_in_post_order_loosely()
    ensures left { loosely_typed mixed (col "z" ⟨ Eq ⟩ not_of (col "a")) ≡ Err unknown_field }
    ensures left_again { loosely_typed mixed (not_of (col "a") ⟨ Eq ⟩ col "z") ≡ Err type_mismatch }
    ensures of_likeness { loosely_typed mixed (like (not_of (col "a")) (col "z") false false) ≡ Err type_mismatch }
    ensures of_a_pattern { loosely_typed mixed (like (col "t") (col "z") false false) ≡ Err unknown_field }
    ensures of_a_range { loosely_typed mixed (between (col "a") (col "z") (not_of (col "a")) (ends Strict Strict)) ≡ Err unknown_field }
    ensures of_a_range_again { loosely_typed mixed (between (not_of (col "a")) (col "a") (col "z") (ends Strict Strict)) ≡ Err type_mismatch }
    ensures of_membership { loosely_typed mixed (list_contains (not_of (col "a")) (col "z")) ≡ Err type_mismatch }
    ensures of_a_member { loosely_typed mixed (list_contains (col "l") (col "z")) ≡ Err unknown_field }
    ensures of_a_pack { loosely_typed mixed (pack_two "x" (not_of (col "a")) "y" (col "z")) ≡ Err type_mismatch }
    ensures of_a_merge { loosely_typed mixed (merge (tree (col "a") (tree (col "z") no_trees)) NonNullable) ≡ Err unknown_field }
    ensures of_a_select { loosely_typed mixed (select (Include []) (col "z")) ≡ Err unknown_field }
    ensures of_a_slot { loosely_typed mixed (dynamic (col "z") Above 0 (int_ty I32 NonNullable) true) ≡ Err unknown_field }
{}

/// Each kind asks the looser type of what stands in it, also where that has no strict type.
pub fn types_children_loosely()
    ensures item { loosely_typed mixed (get_item (codes "a") (select (Exclude (codes "z" ∷ [])) root)) ≡ Ok (int_ty I32 NonNullable) }
    ensures left { map (λ op. loosely_typed mixed ((get_item (codes "a") (select (Exclude (codes "z" ∷ [])) root)) ⟨ op ⟩ col "a"))
        operators
        ≡ replicate 8 (Ok (bool_ty NonNullable)) ++ replicate 2 (Ok (int_ty I32 NonNullable)) }
    ensures right { map (λ op. loosely_typed mixed (col "a" ⟨ op ⟩ (get_item (codes "a") (select (Exclude (codes "z" ∷ [])) root))))
        operators
        ≡ replicate 8 (Ok (bool_ty NonNullable)) ++ replicate 2 (Ok (int_ty I32 NonNullable)) }
    ensures negation { loosely_typed mixed (not_of ((get_item (codes "a") (select (Exclude (codes "z" ∷ [])) root)) ⟨ Eq ⟩ col "a"))
        ≡ Ok (bool_ty NonNullable) }
    ensures text { loosely_typed mixed (like (get_item (codes "a") (select (Exclude (codes "z" ∷ [])) root)) (col "t") false false)
        ≡ Ok (bool_ty NonNullable) }
    ensures pattern { loosely_typed mixed (like (col "t") (get_item (codes "a") (select (Exclude (codes "z" ∷ [])) root)) false false)
        ≡ Ok (bool_ty NonNullable) }
    ensures range { loosely_typed mixed
        (between (get_item (codes "a") (select (Exclude (codes "z" ∷ [])) root)) (col "a") (col "a") (ends Strict Strict))
        ≡ Ok (bool_ty NonNullable) }
    ensures lower { loosely_typed mixed
        (between (col "a") (get_item (codes "a") (select (Exclude (codes "z" ∷ [])) root)) (col "a") (ends Strict Strict))
        ≡ Ok (bool_ty NonNullable) }
    ensures upper { loosely_typed mixed
        (between (col "a") (col "a") (get_item (codes "a") (select (Exclude (codes "z" ∷ [])) root)) (ends Strict Strict))
        ≡ Ok (bool_ty NonNullable) }
    ensures list { loosely_typed mixed (list_contains (get_item (codes "a") (select (Exclude (codes "z" ∷ [])) root)) (col "a"))
        ≡ Ok (bool_ty NonNullable) }
    ensures value { loosely_typed mixed (list_contains (col "a") (get_item (codes "a") (select (Exclude (codes "z" ∷ [])) root)))
        ≡ Ok (bool_ty NonNullable) }
    ensures packed { loosely_typed mixed (pack_two "p" (col "a") "q" (get_item (codes "a") (select (Exclude (codes "z" ∷ [])) root)))
        ≡ Ok (struct_ty (field (codes "p") (int_ty I32 NonNullable) (only "q" (int_ty I32 NonNullable))) NonNullable) }
    ensures packed_first { loosely_typed mixed (pack_two "p" (get_item (codes "a") (select (Exclude (codes "z" ∷ [])) root)) "q" (col "a"))
        ≡ Ok (struct_ty (field (codes "p") (int_ty I32 NonNullable) (only "q" (int_ty I32 NonNullable))) NonNullable) }
    ensures merged { loosely_typed mixed (merge (tree (col "s") (tree (select (Exclude (codes "z" ∷ [])) (col "s")) no_trees)) NonNullable)
        ≡ Ok struct_p_q }
    ensures selected { loosely_typed mixed (select (Include (codes "a" ∷ [])) (select (Exclude (codes "z" ∷ [])) root))
        ≡ Ok (struct_ty (only "a" (int_ty I32 NonNullable)) NonNullable) }
    ensures slot { loosely_typed mixed
        (dynamic (get_item (codes "a") (select (Exclude (codes "z" ∷ [])) root)) Above 0 (int_ty I32 NonNullable) true)
        ≡ Ok (bool_ty NonNullable) }
{}
