// The rules on values, worked by hand: logic, comparisons, sums, LIKE, casts, membership, structs and slots.
#![tactic(auto, unfolding(crate::proofs::Computing::all_definitions))]

ghost use Rattle.std.specs.Prelude.{◌≡◌, [], ◌∷◌, ◌++◌, codes, pos, negsuc, true, false, Some, None, replicate, map};
ghost use Rattle.vx_dtype.specs.declared.PType.TheVariants.{U8, U16, U32, U64, I8, I16, I32, I64};
ghost use Rattle.vx_dtype.specs.declared.Nullability.TheVariants.{NonNullable, Nullable};
ghost use Rattle.vx_dtype.specs.declared.CompareOperator.TheVariants.{Gt as Above};
ghost use Rattle.vx_dtype.specs.declared.StrictComparison.TheVariants.{Strict, NonStrict};
ghost use Rattle.vx_dtype.specs.Types.{bool_ty, int_ty, text_ty, struct_ty, no_fields, field};
ghost use Rattle.vx_dtype.specs.Values.{null_val, bool_val, int_val, text_val, list_val, struct_val, fault, no_vals, val, no_members, member};
ghost use Rattle.vx_dtype.specs.Logic.{and3, or3, not3, is_null3};
ghost use Rattle.vx_dtype.specs.Order.{between3};
ghost use Rattle.vx_dtype.specs.Sums.{add3, sub3};
ghost use Rattle.vx_dtype.specs.Like.{text_matches};
ghost use Rattle.vx_dtype.specs.Casts.{cast3, takes_cast};
ghost use Rattle.vx_dtype.specs.Lists.{contains3};
ghost use Rattle.vx_dtype.specs.Structs.{field_of, selected, deselected};
ghost use Rattle.vx_dtype.specs.StructTypes.{is_struct_ty, struct_fields, field_types, projected};
ghost use Rattle.vx_dtype.specs.TypeRules.{distinct_names};
ghost use Rattle.vx_expr.specs.declared.Operator.TheVariants.{Add, Sub};
ghost use Rattle.vx_expr.specs.Trees.{cast, dynamic, merge, tree, no_trees, pack};
ghost use Rattle.vx_expr.specs.declared.FieldSelection.TheVariants.{Include};
ghost use Rattle.vx_semantics.specs.Meaning.{binary3, mean};
ghost use Rattle.vx_semantics.specs.Breaks.{by_sum, by_cast};
ghost use Rattle.vx_semantics.specs.Typing.{selected_fields};
ghost use Rattle.vx_worked_examples.specs.Samples.{col, number, ◌⟨◌⟩◌, alone, pack_two, slot_of, operators, values_of_truth, only, kinds_of_types, ends};
ghost use Rattle.vx_worked_examples.specs.Samples.{mean_of, break_in};

/// `and` at true, false, null and a fault, on both sides: false wins over null, a fault over all.
pub fn tabulates_and()
    ensures { map (λ l. map (and3 l) values_of_truth) values_of_truth
        ≡ ((bool_val true ∷ bool_val false ∷ null_val ∷ fault ∷ []) ∷ (bool_val false ∷ bool_val false ∷ bool_val false ∷ fault ∷ [])
        ∷ (null_val ∷ bool_val false ∷ null_val ∷ fault ∷ []) ∷ (fault ∷ fault ∷ fault ∷ fault ∷ []) ∷ []) }
{}

/// `or` likewise: true wins over null, a fault over all.
pub fn tabulates_or()
    ensures { map (λ l. map (or3 l) values_of_truth) values_of_truth
        ≡ ((bool_val true ∷ bool_val true ∷ bool_val true ∷ fault ∷ []) ∷ (bool_val true ∷ bool_val false ∷ null_val ∷ fault ∷ [])
        ∷ (bool_val true ∷ null_val ∷ null_val ∷ fault ∷ []) ∷ (fault ∷ fault ∷ fault ∷ fault ∷ []) ∷ []) }
{}

/// A negation exchanges true and false; null and a fault stay.
pub fn tabulates_not()
    ensures { map not3 values_of_truth ≡ bool_val false ∷ bool_val true ∷ null_val ∷ fault ∷ [] }
{}

/// A null test is true for null, false for any other value, a fault for a fault.
pub fn tabulates_null_test()
    ensures { map is_null3 values_of_truth ≡ bool_val false ∷ bool_val false ∷ bool_val true ∷ fault ∷ [] }
{}

/// Every operator with null on one side: null, but for `and` with false and `or` with true.
pub fn tabulates_operators_at_null()
    ensures beside_false { map (λ op. binary3 op null_val (bool_val false)) operators
        ≡ null_val ∷ null_val ∷ null_val ∷ null_val ∷ null_val ∷ null_val ∷ bool_val false ∷ null_val ∷ null_val ∷ null_val ∷ [] }
    ensures beside_true { map (λ op. binary3 op (bool_val true) null_val) operators
        ≡ null_val ∷ null_val ∷ null_val ∷ null_val ∷ null_val ∷ null_val ∷ null_val ∷ bool_val true ∷ null_val ∷ null_val ∷ [] }
    ensures both { map (λ op. binary3 op null_val null_val) operators ≡ replicate 10 null_val }
{}

/// Every operator with a fault on one side is a fault, also beside false, true and null.
pub fn tabulates_operators_at_fault()
    ensures beside_false { map (λ op. binary3 op fault (bool_val false)) operators ≡ replicate 10 fault }
    ensures beside_true { map (λ op. binary3 op (bool_val true) fault) operators ≡ replicate 10 fault }
    ensures beside_null { map (λ op. binary3 op fault null_val) operators ≡ replicate 10 fault }
{}

/// Every operator on two numbers; of numbers `and` and `or` mean faults.
pub fn tabulates_operators_on_numbers()
    ensures { map (λ op. binary3 op (int_val I32 (pos 5)) (int_val I32 (negsuc 5))) operators
        ≡ bool_val false ∷ bool_val true ∷ bool_val true ∷ bool_val true ∷ bool_val false ∷ bool_val false ∷ fault ∷ fault
        ∷ int_val I32 (negsuc 0) ∷ int_val I32 (pos 11) ∷ [] }
{}

/// False is before true.
pub fn orders_booleans()
    ensures { map (λ op. binary3 op (bool_val false) (bool_val true)) operators
        ≡ bool_val false ∷ bool_val true ∷ bool_val false ∷ bool_val false ∷ bool_val true ∷ bool_val true ∷ bool_val false ∷ bool_val true
        ∷ fault ∷ fault ∷ [] }
{}

/// Texts are ordered by their bytes: a prefix first, capitals before small letters.
pub fn orders_texts()
    ensures prefix { map (λ op. binary3 op (text_val (codes "ab")) (text_val (codes "abc"))) operators
        ≡ bool_val false ∷ bool_val true ∷ bool_val false ∷ bool_val false ∷ bool_val true ∷ bool_val true ∷ fault ∷ fault ∷ fault ∷ fault
        ∷ [] }
    ensures capitals { map (λ op. binary3 op (text_val (codes "Z")) (text_val (codes "a"))) operators
        ≡ bool_val false ∷ bool_val true ∷ bool_val false ∷ bool_val false ∷ bool_val true ∷ bool_val true ∷ fault ∷ fault ∷ fault ∷ fault
        ∷ [] }
    ensures length { map (λ op. binary3 op (text_val (codes "b")) (text_val (codes "ab"))) operators
        ≡ bool_val false ∷ bool_val true ∷ bool_val true ∷ bool_val true ∷ bool_val false ∷ bool_val false ∷ fault ∷ fault ∷ fault ∷ fault
        ∷ [] }
{}

/// One past the greatest number, and one before the least, a sum and a difference are faults; at the ends they are not.
pub fn faults_past_each_end()
    ensures u8_sum { add3 (int_val U8 (pos 255)) (int_val U8 (pos 1)) ≡ fault }
    ensures u8_difference { sub3 (int_val U8 (pos 0)) (int_val U8 (pos 1)) ≡ fault }
    ensures u8_last { add3 (int_val U8 (pos 254)) (int_val U8 (pos 1)) ≡ int_val U8 (pos 255) }
    ensures u8_first { sub3 (int_val U8 (pos 1)) (int_val U8 (pos 1)) ≡ int_val U8 (pos 0) }
    ensures u16_sum { add3 (int_val U16 (pos 65535)) (int_val U16 (pos 1)) ≡ fault }
    ensures u16_difference { sub3 (int_val U16 (pos 0)) (int_val U16 (pos 1)) ≡ fault }
    ensures u16_last { add3 (int_val U16 (pos 65534)) (int_val U16 (pos 1)) ≡ int_val U16 (pos 65535) }
    ensures u16_first { sub3 (int_val U16 (pos 1)) (int_val U16 (pos 1)) ≡ int_val U16 (pos 0) }
    ensures u32_sum { add3 (int_val U32 (pos 4294967295)) (int_val U32 (pos 1)) ≡ fault }
    ensures u32_difference { sub3 (int_val U32 (pos 0)) (int_val U32 (pos 1)) ≡ fault }
    ensures u32_last { add3 (int_val U32 (pos 4294967294)) (int_val U32 (pos 1)) ≡ int_val U32 (pos 4294967295) }
    ensures u32_first { sub3 (int_val U32 (pos 1)) (int_val U32 (pos 1)) ≡ int_val U32 (pos 0) }
    ensures u64_sum { add3 (int_val U64 (pos 18446744073709551615)) (int_val U64 (pos 1)) ≡ fault }
    ensures u64_difference { sub3 (int_val U64 (pos 0)) (int_val U64 (pos 1)) ≡ fault }
    ensures u64_last { add3 (int_val U64 (pos 18446744073709551614)) (int_val U64 (pos 1)) ≡ int_val U64 (pos 18446744073709551615) }
    ensures u64_first { sub3 (int_val U64 (pos 1)) (int_val U64 (pos 1)) ≡ int_val U64 (pos 0) }
    ensures i8_sum { add3 (int_val I8 (pos 127)) (int_val I8 (pos 1)) ≡ fault }
    ensures i8_difference { sub3 (int_val I8 (negsuc 127)) (int_val I8 (pos 1)) ≡ fault }
    ensures i8_last { add3 (int_val I8 (pos 126)) (int_val I8 (pos 1)) ≡ int_val I8 (pos 127) }
    ensures i8_first { sub3 (int_val I8 (negsuc 126)) (int_val I8 (pos 1)) ≡ int_val I8 (negsuc 127) }
    ensures i16_sum { add3 (int_val I16 (pos 32767)) (int_val I16 (pos 1)) ≡ fault }
    ensures i16_difference { sub3 (int_val I16 (negsuc 32767)) (int_val I16 (pos 1)) ≡ fault }
    ensures i16_last { add3 (int_val I16 (pos 32766)) (int_val I16 (pos 1)) ≡ int_val I16 (pos 32767) }
    ensures i16_first { sub3 (int_val I16 (negsuc 32766)) (int_val I16 (pos 1)) ≡ int_val I16 (negsuc 32767) }
    ensures i32_sum { add3 (int_val I32 (pos 2147483647)) (int_val I32 (pos 1)) ≡ fault }
    ensures i32_difference { sub3 (int_val I32 (negsuc 2147483647)) (int_val I32 (pos 1)) ≡ fault }
    ensures i32_last { add3 (int_val I32 (pos 2147483646)) (int_val I32 (pos 1)) ≡ int_val I32 (pos 2147483647) }
    ensures i32_first { sub3 (int_val I32 (negsuc 2147483646)) (int_val I32 (pos 1)) ≡ int_val I32 (negsuc 2147483647) }
    ensures i64_sum { add3 (int_val I64 (pos 9223372036854775807)) (int_val I64 (pos 1)) ≡ fault }
    ensures i64_difference { sub3 (int_val I64 (negsuc 9223372036854775807)) (int_val I64 (pos 1)) ≡ fault }
    ensures i64_last { add3 (int_val I64 (pos 9223372036854775806)) (int_val I64 (pos 1)) ≡ int_val I64 (pos 9223372036854775807) }
    ensures i64_first { sub3 (int_val I64 (negsuc 9223372036854775806)) (int_val I64 (pos 1)) ≡ int_val I64 (negsuc 9223372036854775807) }
{}

/// LIKE: `%` any run, `_` one character, `\` the next character itself, a last `\` itself.
pub fn matches_patterns()
    ensures any_run { text_matches false (codes "abc") (codes "a%") ≡ true }
    ensures run_in_between { text_matches false (codes "abcd") (codes "a%d") ≡ true }
    ensures run_of_none { text_matches false (codes "ad") (codes "a%d") ≡ true }
    ensures two_runs { text_matches false (codes "abc") (codes "%%") ≡ true }
    ensures run_before { text_matches false (codes "abc") (codes "%bc") ≡ true }
    ensures run_misses { text_matches false (codes "abc") (codes "%b") ≡ false }
    ensures any_one { text_matches false (codes "abc") (codes "a_c") ≡ true }
    ensures one_needs_one { text_matches false (codes "ac") (codes "a_c") ≡ false }
    ensures one_inside_runs { text_matches false (codes "abc") (codes "%_%") ≡ true }
    ensures none_for_one { text_matches false (codes "") (codes "%_%") ≡ false }
    ensures escaped_run { text_matches false (codes "a%c") (codes "a\\%c") ≡ true }
    ensures escaped_run_is_no_run { text_matches false (codes "abc") (codes "a\\%c") ≡ false }
    ensures escaped_one { text_matches false (codes "a_c") (codes "a\\_c") ≡ true }
    ensures escaped_one_is_no_one { text_matches false (codes "abc") (codes "a\\_c") ≡ false }
    ensures escaped_escape { text_matches false (codes "a\\") (codes "a\\\\") ≡ true }
    ensures last_escape { text_matches false (codes "a\\") (codes "a\\") ≡ true }
    ensures empty { text_matches false (codes "") (codes "") ≡ true }
    ensures empty_pattern { text_matches false (codes "a") (codes "") ≡ false }
    ensures empty_text { text_matches false (codes "") (codes "%") ≡ true }
    ensures case_counts { text_matches false (codes "ABC") (codes "abc") ≡ false }
{}

/// Without regard to case ASCII letters are folded, and no others; `_` is one character of several bytes.
pub fn folds_ascii_alone()
    ensures letters { text_matches true (codes "aBC") (codes "Ab_") ≡ true }
    ensures escaped_letter { text_matches true (codes "a") (codes "\\A") ≡ true }
    ensures others { text_matches true (195 ∷ 169 ∷ []) (195 ∷ 137 ∷ []) ≡ false }
    ensures one_character { text_matches false (195 ∷ 169 ∷ []) (codes "_") ≡ true }
    ensures not_two { text_matches false (195 ∷ 169 ∷ []) (codes "__") ≡ false }
{}

/// A number out of the target's range has no value there; the greatest has.
pub fn casts_numbers_in_range()
    ensures u8_above { cast3 (int_ty U8 NonNullable) (int_val I64 (pos 256)) ≡ fault }
    ensures u8_below { cast3 (int_ty U8 Nullable) (int_val I64 (negsuc 0)) ≡ fault }
    ensures u8_greatest { cast3 (int_ty U8 NonNullable) (int_val I64 (pos 255)) ≡ int_val U8 (pos 255) }
    ensures u16_above { cast3 (int_ty U16 NonNullable) (int_val I64 (pos 65536)) ≡ fault }
    ensures u16_below { cast3 (int_ty U16 Nullable) (int_val I64 (negsuc 0)) ≡ fault }
    ensures u16_greatest { cast3 (int_ty U16 NonNullable) (int_val I64 (pos 65535)) ≡ int_val U16 (pos 65535) }
    ensures u32_above { cast3 (int_ty U32 NonNullable) (int_val I64 (pos 4294967296)) ≡ fault }
    ensures u32_below { cast3 (int_ty U32 Nullable) (int_val I64 (negsuc 0)) ≡ fault }
    ensures u32_greatest { cast3 (int_ty U32 NonNullable) (int_val I64 (pos 4294967295)) ≡ int_val U32 (pos 4294967295) }
    ensures u64_above { cast3 (int_ty U64 NonNullable) (int_val I64 (pos 18446744073709551616)) ≡ fault }
    ensures u64_below { cast3 (int_ty U64 Nullable) (int_val I64 (negsuc 0)) ≡ fault }
    ensures u64_greatest { cast3 (int_ty U64 NonNullable) (int_val I64 (pos 18446744073709551615)) ≡ int_val U64 (pos 18446744073709551615) }
    ensures i8_above { cast3 (int_ty I8 NonNullable) (int_val I64 (pos 128)) ≡ fault }
    ensures i8_below { cast3 (int_ty I8 Nullable) (int_val I64 (negsuc 128)) ≡ fault }
    ensures i8_greatest { cast3 (int_ty I8 NonNullable) (int_val I64 (pos 127)) ≡ int_val I8 (pos 127) }
    ensures i16_above { cast3 (int_ty I16 NonNullable) (int_val I64 (pos 32768)) ≡ fault }
    ensures i16_below { cast3 (int_ty I16 Nullable) (int_val I64 (negsuc 32768)) ≡ fault }
    ensures i16_greatest { cast3 (int_ty I16 NonNullable) (int_val I64 (pos 32767)) ≡ int_val I16 (pos 32767) }
    ensures i32_above { cast3 (int_ty I32 NonNullable) (int_val I64 (pos 2147483648)) ≡ fault }
    ensures i32_below { cast3 (int_ty I32 Nullable) (int_val I64 (negsuc 2147483648)) ≡ fault }
    ensures i32_greatest { cast3 (int_ty I32 NonNullable) (int_val I64 (pos 2147483647)) ≡ int_val I32 (pos 2147483647) }
    ensures i64_above { cast3 (int_ty I64 NonNullable) (int_val I64 (pos 9223372036854775808)) ≡ fault }
    ensures i64_below { cast3 (int_ty I64 Nullable) (int_val I64 (negsuc 9223372036854775808)) ≡ fault }
    ensures i64_greatest { cast3 (int_ty I64 NonNullable) (int_val I64 (pos 9223372036854775807)) ≡ int_val I64 (pos 9223372036854775807) }
{}

/// Null has no value in a type that is not nullable, and is null in one that is; booleans and texts stay.
pub fn casts_nulls_where_nullable()
    ensures number { cast3 (int_ty I8 NonNullable) null_val ≡ fault }
    ensures boolean { cast3 (bool_ty NonNullable) null_val ≡ fault }
    ensures word { cast3 (text_ty NonNullable) null_val ≡ fault }
    ensures nullable_number { cast3 (int_ty I8 Nullable) null_val ≡ null_val }
    ensures nullable_boolean { cast3 (bool_ty Nullable) null_val ≡ null_val }
    ensures nullable_word { cast3 (text_ty Nullable) null_val ≡ null_val }
    ensures same_boolean { cast3 (bool_ty NonNullable) (bool_val true) ≡ bool_val true }
    ensures same_word { cast3 (text_ty NonNullable) (text_val (codes "a")) ≡ text_val (codes "a") }
    ensures a_fault { cast3 (int_ty I8 Nullable) fault ≡ fault }
{}

/// Membership: null for a null list or value; a null or faulty element equals nothing.
pub fn finds_elements()
    ensures there { contains3 (list_val (val (int_val I32 (pos 1)) (val null_val (val fault (val (int_val I32 (pos 2)) no_vals)))))
        (int_val I32 (pos 2))
        ≡ bool_val true }
    ensures missing { contains3 (list_val (val (int_val I32 (pos 1)) (val null_val (val fault (val (int_val I32 (pos 2)) no_vals)))))
        (int_val I32 (pos 3))
        ≡ bool_val false }
    ensures null_value { contains3 (list_val (val (int_val I32 (pos 1)) (val null_val (val fault (val (int_val I32 (pos 2)) no_vals)))))
        null_val
        ≡ null_val }
    ensures null_list { contains3 null_val (int_val I32 (pos 2)) ≡ null_val }
    ensures none { contains3 (list_val no_vals) (int_val I32 (pos 2)) ≡ bool_val false }
    ensures a_fault { contains3 (list_val (val (int_val I32 (pos 1)) (val null_val (val fault (val (int_val I32 (pos 2)) no_vals))))) fault ≡ fault }
{}

/// A range: strict bounds are outside, others inside; beside a null bound false wins.
pub fn lies_between()
    ensures at_lower { between3 (ends NonStrict Strict) (int_val I32 (pos 5)) (int_val I32 (pos 5)) (int_val I32 (pos 9)) ≡ bool_val true }
    ensures at_strict_lower { between3 (ends Strict Strict) (int_val I32 (pos 5)) (int_val I32 (pos 5)) (int_val I32 (pos 9)) ≡ bool_val false }
    ensures at_upper { between3 (ends Strict NonStrict) (int_val I32 (pos 5)) (int_val I32 (negsuc 5)) (int_val I32 (pos 5)) ≡ bool_val true }
    ensures at_strict_upper { between3 (ends Strict Strict) (int_val I32 (pos 5)) (int_val I32 (negsuc 5)) (int_val I32 (pos 5)) ≡ bool_val false }
    ensures null_bound { between3 (ends Strict Strict) (int_val I32 (pos 5)) null_val (int_val I32 (pos 9)) ≡ null_val }
    ensures null_bound_and_false { between3 (ends Strict Strict) (int_val I32 (pos 5)) null_val (int_val I32 (negsuc 5)) ≡ bool_val false }
{}

/// Fields of a struct: a null struct gives null; a fault in a field that nobody takes stays where it is.
pub fn takes_fields()
    ensures one { field_of (codes "a")
        (struct_val (member (codes "a") (int_val I32 (pos 5)) (member (codes "b") fault (member (codes "c") null_val no_members))))
        ≡ int_val I32 (pos 5) }
    ensures of_null { field_of (codes "a") null_val ≡ null_val }
    ensures of_fault { field_of (codes "a") fault ≡ fault }
    ensures missing { field_of (codes "z")
        (struct_val (member (codes "a") (int_val I32 (pos 5)) (member (codes "b") fault (member (codes "c") null_val no_members))))
        ≡ fault }
    ensures some { selected (codes "c" ∷ codes "a" ∷ [])
        (struct_val (member (codes "a") (int_val I32 (pos 5)) (member (codes "b") fault (member (codes "c") null_val no_members))))
        ≡ struct_val (member (codes "c") null_val (member (codes "a") (int_val I32 (pos 5)) no_members)) }
    ensures without { deselected (codes "b" ∷ [])
        (struct_val (member (codes "a") (int_val I32 (pos 5)) (member (codes "b") fault (member (codes "c") null_val no_members))))
        ≡ struct_val (member (codes "a") (int_val I32 (pos 5)) (member (codes "c") null_val no_members)) }
{}

/// A merge: names in order of first appearance, the later field in the earlier place.
pub fn merges_in_place()
    ensures two { mean_of
        (merge
        (tree (pack_two "a" (number I32 (pos 1)) "c" (number I32 (pos 2)))
        (tree (pack_two "b" (number I32 (pos 3)) "d" (number I32 (pos 4))) no_trees))
        NonNullable)
        ≡ struct_val
        (member (codes "a") (int_val I32 (pos 1))
        (member (codes "c") (int_val I32 (pos 2))
        (member (codes "b") (int_val I32 (pos 3)) (member (codes "d") (int_val I32 (pos 4)) no_members)))) }
    ensures replaced { mean_of
        (merge
        (tree (pack_two "a" (number I32 (pos 1)) "b" (number I32 (pos 2)))
        (tree (pack_two "b" (number I32 (pos 3)) "c" (number I32 (pos 4))) no_trees))
        NonNullable)
        ≡ struct_val
        (member (codes "a") (int_val I32 (pos 1))
        (member (codes "b") (int_val I32 (pos 3)) (member (codes "c") (int_val I32 (pos 4)) no_members))) }
    ensures none { mean_of (merge no_trees NonNullable) ≡ struct_val no_members }
{}

/// A comparison with a slot: with its value, else the default; a fault of the operand counts.
pub fn compares_with_a_slot()
    ensures with_value { mean (struct_ty no_fields NonNullable) (None ∷ slot_of I32 (pos 9) ∷ []) (struct_val no_members)
        (dynamic (number I32 (pos 7)) Above 1 (int_ty I32 NonNullable) true)
        ≡ bool_val false }
    ensures without_value { mean (struct_ty no_fields NonNullable) (None ∷ None ∷ []) (struct_val no_members)
        (dynamic (number I32 (pos 7)) Above 1 (int_ty I32 NonNullable) true)
        ≡ bool_val true }
    ensures without_slot { mean_of (dynamic (number I32 (pos 7)) Above 1 (int_ty I32 NonNullable) true) ≡ bool_val true }
    ensures of_fault { mean_of (dynamic (number I8 (pos 127) ⟨ Add ⟩ number I8 (pos 1)) Above 0 (int_ty I8 NonNullable) true) ≡ fault }
{}

/// The node breaks that makes the fault, not one above it.
pub fn breaks_where_the_fault_arises()
    ensures sum { break_in (number I8 (pos 127) ⟨ Add ⟩ number I8 (pos 1)) ≡ Some by_sum }
    ensures difference { break_in (number I8 (negsuc 127) ⟨ Sub ⟩ number I8 (pos 1)) ≡ Some by_sum }
    ensures a_cast { break_in (cast (number I8 (negsuc 0)) (int_ty U8 NonNullable)) ≡ Some by_cast }
    ensures a_sound_cast { break_in (cast (number I8 (pos 1)) (int_ty U8 NonNullable)) ≡ None }
    ensures a_cast_of_a_fault { break_in (cast (number I8 (pos 127) ⟨ Add ⟩ number I8 (pos 1)) (int_ty U8 NonNullable)) ≡ None }
    ensures no_other { break_in (number I8 (pos 127)) ≡ None }
{}

/// A pack with fewer names than values, or more, means what both go as far as; a path to nothing means a fault.
pub fn answers_malformed_trees()
    ensures fewer_names { mean_of (pack (codes "a" ∷ []) (tree (number I8 (pos 1)) (tree (number I8 (pos 2)) no_trees)) NonNullable)
        ≡ alone "a" (int_val I8 (pos 1)) }
    ensures more_names { mean_of (pack (codes "a" ∷ codes "b" ∷ []) (tree (number I8 (pos 1)) no_trees) NonNullable) ≡ alone "a" (int_val I8 (pos 1)) }
    ensures no_field { mean_of (col "zz") ≡ fault }
{}

/// A fault on the right of null is a fault under every operator.
pub fn absorbs_null_before_a_fault()
    ensures { map (λ op. binary3 op null_val fault) operators ≡ replicate 10 fault }
{}

/// Values of two kinds, lists and structs have no order and no sum: a fault.
pub fn compares_no_two_kinds()
    ensures number_and_boolean { map (λ op. binary3 op (int_val I32 (pos 1)) (bool_val true)) operators ≡ replicate 10 fault }
    ensures boolean_and_text { map (λ op. binary3 op (bool_val true) (text_val (codes "a"))) operators ≡ replicate 10 fault }
    ensures text_and_number { map (λ op. binary3 op (text_val (codes "a")) (int_val I32 (pos 1))) operators ≡ replicate 10 fault }
    ensures lists { map (λ op. binary3 op (list_val no_vals) (list_val no_vals)) operators ≡ replicate 10 fault }
    ensures structs { map (λ op. binary3 op (struct_val no_members) (struct_val no_members)) operators ≡ replicate 10 fault }
{}

/// Numbers of two integer types are compared by value; a sum and a difference are of the left one's type.
pub fn takes_the_type_of_the_left_number()
    ensures compared { map (λ op. binary3 op (int_val I8 (pos 5)) (int_val I64 (pos 200))) operators
        ≡ (bool_val false ∷ bool_val true ∷ bool_val false ∷ bool_val false ∷ bool_val true ∷ bool_val true ∷ []) ++ replicate 4 fault }
    ensures equal { map (λ op. binary3 op (int_val I8 (pos 5)) (int_val I64 (pos 5))) operators
        ≡ (bool_val true ∷ bool_val false ∷ bool_val false ∷ bool_val true ∷ bool_val false ∷ bool_val true ∷ fault ∷ fault
        ∷ int_val I8 (pos 10) ∷ int_val I8 (pos 0) ∷ []) }
    ensures sum { add3 (int_val I16 (pos 1000)) (int_val I8 (pos 100)) ≡ int_val I16 (pos 1100) }
    ensures sum_past_the_end { add3 (int_val I8 (pos 100)) (int_val I16 (pos 1000)) ≡ fault }
    ensures difference { sub3 (int_val I16 (pos 1000)) (int_val I8 (pos 100)) ≡ int_val I16 (pos 900) }
    ensures difference_past_the_end { sub3 (int_val I8 (pos 100)) (int_val I16 (pos 1000)) ≡ fault }
{}

/// Folded letters are those from A to Z, and not the characters beside them.
pub fn folds_from_the_first_letter_to_the_last()
    ensures first { text_matches true (codes "A") (codes "a") ≡ true }
    ensures last { text_matches true (codes "Z") (codes "z") ≡ true }
    ensures before_the_first { text_matches true (codes "@") (codes "`") ≡ false }
    ensures behind_the_last { text_matches true (codes "[") (codes "{") ≡ false }
{}

/// Casts between two kinds have no value.
pub fn casts_to_no_other_kind()
    ensures taken { map (λ t. map (takes_cast t) kinds_of_types) (bool_ty NonNullable ∷ int_ty I32 Nullable ∷ text_ty NonNullable ∷ [])
        ≡ (true ∷ replicate 8 false) ∷ (false ∷ true ∷ true ∷ replicate 6 false) ∷ (replicate 3 false ++ (true ∷ replicate 5 false)) ∷ [] }
    ensures of_booleans { map (λ t. cast3 t (bool_val true)) kinds_of_types ≡ bool_val true ∷ replicate 8 fault }
    ensures of_numbers { map (λ t. cast3 t (int_val I8 (pos 5))) kinds_of_types ≡ fault ∷ int_val I32 (pos 5) ∷ int_val I64 (pos 5) ∷ replicate 6 fault }
    ensures of_texts { map (λ t. cast3 t (text_val (codes "a"))) kinds_of_types ≡ replicate 3 fault ++ (text_val (codes "a") ∷ replicate 5 fault) }
    ensures of_lists { map (λ t. cast3 t (list_val no_vals)) kinds_of_types ≡ replicate 9 fault }
    ensures of_structs { map (λ t. cast3 t (struct_val no_members)) kinds_of_types ≡ replicate 9 fault }
    ensures of_faults { map (λ t. cast3 t fault) kinds_of_types ≡ replicate 9 fault }
{}

/// What is no list holds nothing, what is no struct has no fields: a fault. Null gives null.
pub fn takes_parts_of_lists_and_structs_alone()
    ensures member_of_a_number { contains3 (int_val I32 (pos 1)) (int_val I32 (pos 1)) ≡ fault }
    ensures member_of_a_fault { contains3 fault (int_val I32 (pos 1)) ≡ fault }
    ensures field_of_a_number { field_of (codes "a") (int_val I32 (pos 1)) ≡ fault }
    ensures first_of_two_fields { field_of (codes "a")
        (struct_val (member (codes "a") (int_val I32 (pos 1)) (member (codes "a") (int_val I32 (pos 2)) no_members)))
        ≡ int_val I32 (pos 1) }
    ensures selected_of_null { selected (codes "a" ∷ []) null_val ≡ null_val }
    ensures selected_of_a_fault { selected (codes "a" ∷ []) fault ≡ fault }
    ensures selected_of_a_number { selected (codes "a" ∷ []) (int_val I32 (pos 1)) ≡ fault }
    ensures selected_missing { selected (codes "z" ∷ []) (alone "a" (int_val I32 (pos 1))) ≡ alone "z" fault }
    ensures deselected_of_null { deselected (codes "a" ∷ []) null_val ≡ null_val }
    ensures deselected_of_a_fault { deselected (codes "a" ∷ []) fault ≡ fault }
    ensures deselected_of_a_number { deselected (codes "a" ∷ []) (int_val I32 (pos 1)) ≡ fault }
{}

/// The fields of a struct type: all, their types in order, and those of some names; where one is missing there are none, but a selection leaves it out.
pub fn takes_fields_of_struct_types()
    ensures structs { map is_struct_ty kinds_of_types ≡ replicate 6 false ++ replicate 3 true }
    ensures all { map struct_fields kinds_of_types
        ≡ replicate 6 None ++ (Some no_fields ∷ Some (only "a" (bool_ty NonNullable)) ∷ Some (only "b" (bool_ty NonNullable)) ∷ []) }
    ensures types { field_types (field (codes "a") (bool_ty NonNullable) (only "b" (text_ty Nullable))) ≡ bool_ty NonNullable ∷ text_ty Nullable ∷ [] }
    ensures some { projected (codes "b" ∷ codes "a" ∷ []) (field (codes "a") (bool_ty NonNullable) (only "b" (text_ty Nullable)))
        ≡ Some (field (codes "b") (text_ty Nullable) (only "a" (bool_ty NonNullable))) }
    ensures left_out { selected_fields (Include (codes "z" ∷ codes "a" ∷ [])) (only "a" (bool_ty NonNullable)) ≡ only "a" (bool_ty NonNullable) }
    ensures of_a_missing_first { projected (codes "z" ∷ codes "b" ∷ []) (only "b" (text_ty Nullable)) ≡ None }
    ensures of_a_missing_name { projected (codes "b" ∷ codes "z" ∷ []) (only "b" (text_ty Nullable)) ≡ None }
{}

/// Folding case leaves a run a run and one character one character.
pub fn folds_no_wildcards()
    ensures run { text_matches true (codes "ABC") (codes "a%") ≡ true }
    ensures run_of_none { text_matches true (codes "") (codes "%") ≡ true }
    ensures one { text_matches true (codes "AB") (codes "a_") ≡ true }
    ensures not_two { text_matches true (codes "ABC") (codes "a_") ≡ false }
{}

/// A greater element of a list is not the value that is looked for.
pub fn finds_no_greater_element()
    ensures alone { contains3 (list_val (val (int_val I32 (pos 5)) no_vals)) (int_val I32 (pos 2)) ≡ bool_val false }
    ensures behind_a_lesser_one { contains3 (list_val (val (int_val I32 (pos 1)) (val (int_val I32 (pos 5)) no_vals))) (int_val I32 (pos 3))
        ≡ bool_val false }
{}

/// A range whose upper bound or value is null is null, but for a lower bound that the value lies below.
pub fn lies_between_unknown_bounds()
    ensures upper_null { between3 (ends Strict Strict) (int_val I32 (pos 5)) (int_val I32 (pos 1)) null_val ≡ null_val }
    ensures below_the_lower { between3 (ends Strict Strict) (int_val I32 (pos 5)) (int_val I32 (pos 6)) null_val ≡ bool_val false }
    ensures no_bound { between3 (ends Strict Strict) (int_val I32 (pos 5)) null_val null_val ≡ null_val }
    ensures null { between3 (ends Strict Strict) null_val (int_val I32 (pos 1)) (int_val I32 (pos 9)) ≡ null_val }
    ensures upper_fault { between3 (ends Strict Strict) (int_val I32 (pos 5)) (int_val I32 (pos 6)) fault ≡ fault }
{}

/// A pattern is taken by characters, with and without regard to case.
pub fn matches_characters_of_several_bytes()
    ensures same { text_matches false (195 ∷ 169 ∷ []) (195 ∷ 169 ∷ []) ≡ true }
    ensures folded { text_matches true (195 ∷ 169 ∷ []) (195 ∷ 169 ∷ []) ≡ true }
    ensures one_folded { text_matches true (195 ∷ 169 ∷ []) (codes "_") ≡ true }
{}

/// A name that stands twice is found behind the first too.
pub fn finds_each_name_that_stands_twice()
    ensures last { distinct_names (codes "a" ∷ codes "b" ∷ codes "b" ∷ []) ≡ false }
    ensures first { distinct_names (codes "a" ∷ codes "b" ∷ codes "a" ∷ []) ≡ false }
    ensures none { distinct_names (codes "a" ∷ codes "b" ∷ codes "c" ∷ []) ≡ true }
{}
