// Strict types, worked by hand over a struct of each kind of type.
#![tactic(auto, unfolding(crate::proofs::Computing::all_definitions))]

ghost use Rattle.std.specs.Prelude.{◌≡◌, [], ◌∷◌, ◌++◌, codes, pos, map, replicate, Ok, Err, true, false};
ghost use Rattle.vx_dtype.specs.declared.PType.TheVariants.{I32, U8, I64};
ghost use Rattle.vx_dtype.specs.declared.Nullability.TheVariants.{NonNullable, Nullable};
ghost use Rattle.vx_dtype.specs.declared.StrictComparison.TheVariants.{Strict};
ghost use Rattle.vx_dtype.specs.Types.{bool_ty, int_ty, text_ty, list_ty, struct_ty, no_fields, field};
ghost use Rattle.vx_dtype.specs.Values.{raw_struct, no_raws};
ghost use Rattle.vx_dtype.specs.declared.CompareOperator.TheVariants.{Gt as Above};
ghost use Rattle.vx_expr.specs.declared.Operator.TheVariants.{Eq};
ghost use Rattle.vx_expr.specs.declared.FieldSelection.TheVariants.{Include, Exclude};
ghost use Rattle.vx_expr.specs.Trees.{root, literal, get_item, not_of, is_null_of, like, between, cast, list_contains, pack, merge, select, dynamic, tree};
ghost use Rattle.vx_expr.specs.Trees.{no_trees};
ghost use Rattle.vx_semantics.specs.Typing.{typed_of, given_names, not_struct, nullable_select, unknown_field, duplicate_field, type_mismatch};
ghost use Rattle.vx_worked_examples.specs.Samples.{col, number, null_of, ◌⟨◌⟩◌, only, pack_two, number_list, struct_p_q, mixed, operators, ends};

/// The row has the scope's type, where no struct in it has a name twice.
pub fn types_the_row()
    ensures row { typed_of mixed root ≡ Ok mixed }
    ensures twice { typed_of (struct_ty (field (codes "a") (int_ty I32 NonNullable) (only "a" (bool_ty NonNullable))) NonNullable) root
        ≡ Err duplicate_field }
    ensures twice_below { typed_of
        (struct_ty
        (only "b"
        (list_ty (struct_ty (field (codes "a") (int_ty I32 NonNullable) (only "a" (bool_ty NonNullable))) NonNullable) NonNullable))
        NonNullable)
        root
        ≡ Err duplicate_field }
    ensures twice_behind { typed_of
        (struct_ty
        (field (codes "c") (bool_ty NonNullable)
        (only "b" (struct_ty (field (codes "a") (int_ty I32 NonNullable) (only "a" (bool_ty NonNullable))) NonNullable)))
        NonNullable)
        root
        ≡ Err duplicate_field }
{}

/// A constant has its type where it is a value of it.
pub fn types_constants_that_fit()
    ensures number { typed_of mixed (number I32 (pos 1)) ≡ Ok (int_ty I32 NonNullable) }
    ensures null { typed_of mixed (null_of (int_ty I32 Nullable)) ≡ Ok (int_ty I32 Nullable) }
    ensures null_of_none { typed_of mixed (null_of (int_ty I32 NonNullable)) ≡ Err type_mismatch }
    ensures out_of_range { typed_of mixed (number U8 (pos 256)) ≡ Err type_mismatch }
    ensures twice { typed_of mixed
        (literal
        (record {
          ty = struct_ty (field (codes "a") (int_ty I32 NonNullable) (only "a" (bool_ty NonNullable))) NonNullable;
          value = raw_struct no_raws;
        }))
        ≡ Err duplicate_field }
{}

/// A field is nullable also where its struct is.
pub fn types_fields()
    ensures plain { typed_of mixed (col "a") ≡ Ok (int_ty I32 NonNullable) }
    ensures of_a_struct { typed_of mixed (get_item (codes "q") (col "s")) ≡ Ok (text_ty NonNullable) }
    ensures of_a_nullable_struct { typed_of mixed (get_item (codes "q") (col "n")) ≡ Ok (bool_ty Nullable) }
    ensures missing { typed_of mixed (col "z") ≡ Err unknown_field }
    ensures of_a_number { typed_of mixed (get_item (codes "q") (col "a")) ≡ Err not_struct }
{}

/// Each operator on numbers, on booleans, and on what it doesn't take.
pub fn types_operators()
    ensures numbers { map (λ op. typed_of mixed (col "a" ⟨ op ⟩ col "a")) operators
        ≡ replicate 6 (Ok (bool_ty NonNullable))
        ++ (Err type_mismatch ∷ Err type_mismatch ∷ Ok (int_ty I32 NonNullable) ∷ Ok (int_ty I32 NonNullable) ∷ []) }
    ensures nullable_right { map (λ op. typed_of mixed (col "a" ⟨ op ⟩ col "b")) operators
        ≡ replicate 6 (Ok (bool_ty Nullable))
        ++ (Err type_mismatch ∷ Err type_mismatch ∷ Ok (int_ty I32 Nullable) ∷ Ok (int_ty I32 Nullable) ∷ []) }
    ensures nullable_left { map (λ op. typed_of mixed (col "b" ⟨ op ⟩ col "a")) operators
        ≡ replicate 6 (Ok (bool_ty Nullable))
        ++ (Err type_mismatch ∷ Err type_mismatch ∷ Ok (int_ty I32 Nullable) ∷ Ok (int_ty I32 Nullable) ∷ []) }
    ensures booleans { map (λ op. typed_of mixed (col "f" ⟨ op ⟩ col "f")) operators
        ≡ replicate 8 (Ok (bool_ty NonNullable)) ++ (Err type_mismatch ∷ Err type_mismatch ∷ []) }
    ensures nullable_booleans { map (λ op. typed_of mixed (col "f" ⟨ op ⟩ col "g")) operators
        ≡ replicate 8 (Ok (bool_ty Nullable)) ++ (Err type_mismatch ∷ Err type_mismatch ∷ []) }
    ensures nullable_booleans_left { map (λ op. typed_of mixed (col "g" ⟨ op ⟩ col "f")) operators
        ≡ replicate 8 (Ok (bool_ty Nullable)) ++ (Err type_mismatch ∷ Err type_mismatch ∷ []) }
    ensures texts { map (λ op. typed_of mixed (col "t" ⟨ op ⟩ col "t")) operators
        ≡ replicate 6 (Ok (bool_ty NonNullable)) ++ replicate 4 (Err type_mismatch) }
    ensures boolean_and_number { map (λ op. typed_of mixed (col "f" ⟨ op ⟩ col "a")) operators ≡ replicate 10 (Err type_mismatch) }
    ensures number_and_boolean { map (λ op. typed_of mixed (col "a" ⟨ op ⟩ col "f")) operators ≡ replicate 10 (Err type_mismatch) }
    ensures two_widths { map (λ op. typed_of mixed (col "a" ⟨ op ⟩ number I64 (pos 1))) operators ≡ replicate 10 (Err type_mismatch) }
    ensures lists { map (λ op. typed_of mixed (col "l" ⟨ op ⟩ col "l")) operators ≡ replicate 10 (Err type_mismatch) }
    ensures structs { map (λ op. typed_of mixed (col "s" ⟨ op ⟩ col "s")) operators ≡ replicate 10 (Err type_mismatch) }
{}

/// The refusal is that of the first node in post-order.
pub fn refuses_in_post_order()
    ensures left { typed_of mixed (col "z" ⟨ Eq ⟩ not_of (col "a")) ≡ Err unknown_field }
    ensures left_again { typed_of mixed (not_of (col "a") ⟨ Eq ⟩ col "z") ≡ Err type_mismatch }
    ensures right_before_the_node { typed_of mixed (col "a" ⟨ Eq ⟩ get_item (codes "q") (col "a")) ≡ Err not_struct }
    ensures of_a_range { typed_of mixed (between (col "a") (col "z") (not_of (col "a")) (ends Strict Strict)) ≡ Err unknown_field }
    ensures of_a_pack { typed_of mixed (pack_two "a" (col "z") "a" (not_of (col "a"))) ≡ Err unknown_field }
    ensures of_a_merge { typed_of mixed (merge (tree (col "a") (tree (col "z") no_trees)) NonNullable) ≡ Err unknown_field }
    ensures of_likeness { typed_of mixed (like (col "a") (col "z") false false) ≡ Err unknown_field }
    ensures of_membership { typed_of mixed (list_contains (col "a") (col "z")) ≡ Err unknown_field }
    ensures of_a_cast { typed_of mixed (cast (col "z") (int_ty I32 NonNullable)) ≡ Err unknown_field }
    ensures of_a_select { typed_of mixed (select (Include []) (col "z")) ≡ Err unknown_field }
    ensures of_a_slot { typed_of mixed (dynamic (col "z") Above 0 (list_ty (bool_ty NonNullable) NonNullable) true) ≡ Err unknown_field }
{}

/// Negations and null tests.
pub fn types_negations_and_null_tests()
    ensures negation { typed_of mixed (not_of (col "f")) ≡ Ok (bool_ty NonNullable) }
    ensures nullable_negation { typed_of mixed (not_of (col "g")) ≡ Ok (bool_ty Nullable) }
    ensures of_a_number { typed_of mixed (not_of (col "a")) ≡ Err type_mismatch }
    ensures null_test { typed_of mixed (is_null_of (col "u")) ≡ Ok (bool_ty NonNullable) }
    ensures null_test_of_nothing { typed_of mixed (is_null_of (col "z")) ≡ Err unknown_field }
{}

/// LIKE asks two texts.
pub fn types_likeness()
    ensures texts { typed_of mixed (like (col "t") (col "t") false false) ≡ Ok (bool_ty NonNullable) }
    ensures nullable_text { typed_of mixed (like (col "u") (col "t") true false) ≡ Ok (bool_ty Nullable) }
    ensures nullable_pattern { typed_of mixed (like (col "t") (col "u") false true) ≡ Ok (bool_ty Nullable) }
    ensures number { typed_of mixed (like (col "a") (col "t") false false) ≡ Err type_mismatch }
    ensures number_as_pattern { typed_of mixed (like (col "t") (col "a") false false) ≡ Err type_mismatch }
{}

/// A range asks three equal plain types.
pub fn types_ranges()
    ensures numbers { typed_of mixed (between (col "a") (col "a") (col "a") (ends Strict Strict)) ≡ Ok (bool_ty NonNullable) }
    ensures nullable_value { typed_of mixed (between (col "b") (col "a") (col "a") (ends Strict Strict)) ≡ Ok (bool_ty Nullable) }
    ensures nullable_lower { typed_of mixed (between (col "a") (col "b") (col "a") (ends Strict Strict)) ≡ Ok (bool_ty Nullable) }
    ensures nullable_upper { typed_of mixed (between (col "a") (col "a") (col "b") (ends Strict Strict)) ≡ Ok (bool_ty Nullable) }
    ensures other_lower { typed_of mixed (between (col "a") (col "f") (col "a") (ends Strict Strict)) ≡ Err type_mismatch }
    ensures other_upper { typed_of mixed (between (col "a") (col "a") (col "f") (ends Strict Strict)) ≡ Err type_mismatch }
    ensures lists { typed_of mixed (between (col "l") (col "l") (col "l") (ends Strict Strict)) ≡ Err type_mismatch }
{}

/// A cast asks two integers, two booleans or two texts.
pub fn types_casts()
    ensures number { typed_of mixed (cast (col "b") (int_ty U8 NonNullable)) ≡ Ok (int_ty U8 NonNullable) }
    ensures boolean { typed_of mixed (cast (col "f") (bool_ty Nullable)) ≡ Ok (bool_ty Nullable) }
    ensures word { typed_of mixed (cast (col "t") (text_ty Nullable)) ≡ Ok (text_ty Nullable) }
    ensures number_to_word { typed_of mixed (cast (col "a") (text_ty NonNullable)) ≡ Err type_mismatch }
    ensures boolean_to_number { typed_of mixed (cast (col "f") (int_ty I32 NonNullable)) ≡ Err type_mismatch }
    ensures list { typed_of mixed (cast (col "l") (list_ty (int_ty I32 Nullable) Nullable)) ≡ Err type_mismatch }
    ensures whole_struct { typed_of mixed (cast (col "s") struct_p_q) ≡ Err type_mismatch }
{}

/// Membership asks a list of plain elements and a value of their type.
pub fn types_memberships()
    ensures plain { typed_of mixed (list_contains (number_list I32 []) (col "a")) ≡ Ok (bool_ty NonNullable) }
    ensures nullable_list { typed_of mixed (list_contains (col "l") (col "a")) ≡ Ok (bool_ty Nullable) }
    ensures nullable_value { typed_of mixed (list_contains (number_list I32 []) (col "b")) ≡ Ok (bool_ty Nullable) }
    ensures other_value { typed_of mixed (list_contains (col "l") (col "t")) ≡ Err type_mismatch }
    ensures no_list { typed_of mixed (list_contains (col "a") (col "a")) ≡ Err type_mismatch }
    ensures list_of_lists { typed_of mixed (list_contains (null_of (list_ty (list_ty (int_ty I32 Nullable) Nullable) Nullable)) (col "l"))
        ≡ Err type_mismatch }
{}

/// A pack has as many names as values, each once.
pub fn types_packs()
    ensures two { typed_of mixed (pack_two "x" (col "a") "y" (col "g"))
        ≡ Ok (struct_ty (field (codes "x") (int_ty I32 NonNullable) (only "y" (bool_ty Nullable))) NonNullable) }
    ensures nullable { typed_of mixed (pack [] no_trees Nullable) ≡ Ok (struct_ty no_fields Nullable) }
    ensures twice { typed_of mixed (pack_two "x" (col "a") "x" (col "g")) ≡ Err duplicate_field }
    ensures fewer_names { typed_of mixed (pack (codes "x" ∷ []) (tree (col "a") (tree (col "b") no_trees)) NonNullable) ≡ Err type_mismatch }
    ensures more_names { typed_of mixed (pack (codes "x" ∷ codes "y" ∷ []) (tree (col "a") no_trees) NonNullable) ≡ Err type_mismatch }
    ensures twice_first { typed_of mixed (pack (codes "x" ∷ codes "x" ∷ []) (tree (col "a") no_trees) NonNullable) ≡ Err duplicate_field }
{}

/// A merge has each name once, at the type of the last struct that has it, nullable also where that struct is.
pub fn types_merges()
    ensures nullable_last { typed_of mixed (merge (tree (col "s") (tree (col "n") no_trees)) NonNullable)
        ≡ Ok
        (struct_ty (field (codes "p") (int_ty I32 NonNullable) (field (codes "q") (bool_ty Nullable) (only "r" (int_ty I32 Nullable))))
        NonNullable) }
    ensures nullable_first { typed_of mixed (merge (tree (col "n") (tree (col "s") no_trees)) Nullable)
        ≡ Ok
        (struct_ty
        (field (codes "q") (text_ty NonNullable) (field (codes "r") (int_ty I32 Nullable) (only "p" (int_ty I32 NonNullable))))
        Nullable) }
    ensures none { typed_of mixed (merge no_trees NonNullable) ≡ Ok (struct_ty no_fields NonNullable) }
    ensures number { typed_of mixed (merge (tree (col "s") (tree (col "a") no_trees)) NonNullable) ≡ Err not_struct }
    ensures names { given_names mixed (merge (tree (col "s") (tree (col "n") no_trees)) NonNullable) ≡ codes "p" ∷ codes "q" ∷ codes "r" ∷ [] }
    ensures no_names { given_names mixed (col "z") ≡ [] }
{}

/// A select takes fields of a struct that isn't nullable.
pub fn types_selects()
    ensures in_its_order { typed_of mixed (select (Include (codes "q" ∷ codes "p" ∷ [])) (col "s"))
        ≡ Ok (struct_ty (field (codes "q") (text_ty NonNullable) (only "p" (int_ty I32 NonNullable))) NonNullable) }
    ensures without { typed_of mixed (select (Exclude (codes "p" ∷ [])) (col "s")) ≡ Ok (struct_ty (only "q" (text_ty NonNullable)) NonNullable) }
    ensures without_twice { typed_of mixed (select (Exclude (codes "p" ∷ codes "p" ∷ [])) (col "s"))
        ≡ Ok (struct_ty (only "q" (text_ty NonNullable)) NonNullable) }
    ensures missing { typed_of mixed (select (Include (codes "q" ∷ codes "z" ∷ [])) (col "s")) ≡ Err unknown_field }
    ensures missing_twice { typed_of mixed (select (Include (codes "z" ∷ codes "z" ∷ [])) (col "s")) ≡ Err unknown_field }
    ensures twice { typed_of mixed (select (Include (codes "p" ∷ codes "p" ∷ [])) (col "s")) ≡ Err duplicate_field }
    ensures nullable { typed_of mixed (select (Include (codes "z" ∷ [])) (col "n")) ≡ Err nullable_select }
    ensures number { typed_of mixed (select (Include (codes "p" ∷ [])) (col "a")) ≡ Err not_struct }
{}

/// A comparison with a slot asks a plain type equal to the slot's.
pub fn types_slots()
    ensures plain { typed_of mixed (dynamic (col "a") Above 0 (int_ty I32 NonNullable) true) ≡ Ok (bool_ty NonNullable) }
    ensures nullable_slot { typed_of mixed (dynamic (col "a") Above 0 (int_ty I32 Nullable) true) ≡ Ok (bool_ty Nullable) }
    ensures nullable_operand { typed_of mixed (dynamic (col "b") Above 0 (int_ty I32 NonNullable) true) ≡ Ok (bool_ty Nullable) }
    ensures other { typed_of mixed (dynamic (col "a") Above 0 (text_ty NonNullable) true) ≡ Err type_mismatch }
    ensures lists { typed_of mixed (dynamic (col "l") Above 0 (list_ty (int_ty I32 Nullable) Nullable) true) ≡ Err type_mismatch }
{}

/// Integers of two types are never equal types: in ranges, lists and slots.
pub fn asks_one_integer_type()
    ensures lower { typed_of mixed (between (number I32 (pos 1)) (number I64 (pos 1)) (number I32 (pos 1)) (ends Strict Strict)) ≡ Err type_mismatch }
    ensures upper { typed_of mixed (between (number I32 (pos 1)) (number I32 (pos 1)) (number I64 (pos 1)) (ends Strict Strict)) ≡ Err type_mismatch }
    ensures list { typed_of mixed (list_contains (number_list I32 (pos 1 ∷ [])) (number I64 (pos 1))) ≡ Err type_mismatch }
    ensures slot { typed_of mixed (dynamic (number I32 (pos 1)) Above 0 (int_ty I64 NonNullable) true) ≡ Err type_mismatch }
{}

/// LIKE asks texts, also where its two operands have one type.
pub fn asks_texts()
    ensures numbers { typed_of mixed (like (number I32 (pos 1)) (number I32 (pos 1)) false false) ≡ Err type_mismatch }
    ensures booleans { typed_of mixed (like (col "f") (col "f") false false) ≡ Err type_mismatch }
{}

/// A field of a merge is nullable where it is itself, though its struct is not.
pub fn merges_nullable_fields()
    ensures { typed_of mixed (merge (tree (pack (codes "b" ∷ []) (tree (col "b") no_trees) NonNullable) no_trees) NonNullable)
        ≡ Ok (struct_ty (only "b" (int_ty I32 Nullable)) NonNullable) }
{}
