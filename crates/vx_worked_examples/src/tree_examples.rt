// Inverse comparisons, and the children, names and parts of the nodes of expressions: worked by hand.
#![tactic(auto, unfolding(crate::proofs::Computing::all_definitions))]

ghost use Rattle.std.specs.Prelude.{◌≡◌, [], ◌∷◌, codes, pos, true, false, Some, None, map, replicate};
ghost use Rattle.vx_dtype.specs.declared.PType.TheVariants.{I32, I64};
ghost use Rattle.vx_dtype.specs.declared.Nullability.TheVariants.{NonNullable, Nullable};
ghost use Rattle.vx_dtype.specs.declared.StrictComparison.TheVariants.{Strict, NonStrict};
ghost use Rattle.vx_dtype.specs.declared.CompareOperator.TheVariants.{Eq as Equal, NotEq as Unequal, Gt as Above, Gte as NotBelow, Lt as Below};
ghost use Rattle.vx_dtype.specs.declared.CompareOperator.TheVariants.{Lte as NotAbove};
ghost use Rattle.vx_dtype.specs.Types.{int_ty};
ghost use Rattle.vx_dtype.specs.Values.{raw_int};
ghost use Rattle.vx_expr.specs.declared.Operator.TheVariants.{Lt, Lte, And};
ghost use Rattle.vx_expr.specs.declared.FieldSelection.TheVariants.{Include, Exclude};
ghost use Rattle.vx_expr.specs.Trees.{root, get_item, not_of, is_null_of, like, between, cast, list_contains, pack, merge, select, dynamic, tree};
ghost use Rattle.vx_expr.specs.Trees.{no_trees, trees_of, listed, children_of};
ghost use Rattle.vx_expr.specs.Operators.{inverse_comparison, range_as_binary};
ghost use Rattle.vx_expr.specs.Slots.{slot_held};
ghost use Rattle.vx_expr.specs.Children.{with_children_of, id_of, is_get_item, is_root_tree, literal_of, packed_of, packed_field};
ghost use Rattle.vx_expr.specs.Selections.{is_included, listed_names, taken_names, names_where_known};
ghost use Rattle.vx_worked_examples.specs.Samples.{col, number, ◌⟨◌⟩◌, comparisons, slot_of, ends};
ghost use Rattle.vx_worked_examples.specs.Kinds.{kinds_over};

/// The inverse of each comparison, in the order of their numbers.
pub fn inverts_comparisons()
    ensures { map inverse_comparison comparisons ≡ Unequal ∷ Equal ∷ NotAbove ∷ Below ∷ NotBelow ∷ Above ∷ [] }
{}

/// A range as its two comparisons, each bound by its own strictness.
pub fn writes_a_range_as_two_comparisons()
    ensures lower { range_as_binary (col "x") (number I32 (pos 1)) (number I32 (pos 2)) (ends Strict NonStrict)
        ≡ (number I32 (pos 1) ⟨ Lt ⟩ col "x") ⟨ And ⟩ (col "x" ⟨ Lte ⟩ number I32 (pos 2)) }
    ensures upper { range_as_binary (col "x") (number I32 (pos 1)) (number I32 (pos 2)) (ends NonStrict Strict)
        ≡ (number I32 (pos 1) ⟨ Lte ⟩ col "x") ⟨ And ⟩ (col "x" ⟨ Lt ⟩ number I32 (pos 2)) }
{}

/// The children of each kind of node over two expressions, in order.
pub fn children_of_each_kind()
    ensures none { map children_of (root ∷ number I32 (pos 1) ∷ []) ≡ replicate 2 [] }
    ensures some { map children_of (kinds_over (col "x") (col "y"))
        ≡ (col "x" ∷ []) ∷ (col "x" ∷ col "y" ∷ []) ∷ (col "x" ∷ []) ∷ (col "x" ∷ []) ∷ (col "x" ∷ col "y" ∷ []) ∷ (col "x" ∷ [])
        ∷ (col "x" ∷ col "y" ∷ []) ∷ (col "x" ∷ col "y" ∷ []) ∷ (col "x" ∷ col "y" ∷ []) ∷ (col "x" ∷ []) ∷ (col "x" ∷ []) ∷ [] }
    ensures three { children_of (between (col "x") (col "y") (col "z") (ends Strict NonStrict)) ≡ col "x" ∷ col "y" ∷ col "z" ∷ [] }
    ensures list_of_trees { listed (trees_of (col "x" ∷ col "y" ∷ [])) ≡ col "x" ∷ col "y" ∷ [] }
    ensures trees { trees_of (col "x" ∷ col "y" ∷ []) ≡ tree (col "x") (tree (col "y") no_trees) }
{}

/// Each kind of node with other children, and none with another number of them.
pub fn nodes_with_other_children()
    ensures one { map (λ e. with_children_of e (col "u" ∷ [])) (kinds_over (col "x") (col "y"))
        ≡ Some (get_item (codes "a") (col "u")) ∷ None ∷ Some (not_of (col "u")) ∷ Some (is_null_of (col "u")) ∷ None
        ∷ Some (cast (col "u") (int_ty I64 Nullable)) ∷ None ∷ None ∷ None ∷ Some (select (Include (codes "a" ∷ [])) (col "u"))
        ∷ Some (dynamic (col "u") Below 3 (int_ty I32 NonNullable) true) ∷ [] }
    ensures two { map (λ e. with_children_of e (col "u" ∷ col "v" ∷ [])) (kinds_over (col "x") (col "y"))
        ≡ None ∷ Some (col "u" ⟨ And ⟩ col "v") ∷ None ∷ None ∷ Some (like (col "u") (col "v") true false) ∷ None
        ∷ Some (list_contains (col "u") (col "v"))
        ∷ Some (pack (codes "a" ∷ codes "b" ∷ []) (tree (col "u") (tree (col "v") no_trees)) NonNullable)
        ∷ Some (merge (tree (col "u") (tree (col "v") no_trees)) Nullable) ∷ None ∷ None ∷ [] }
    ensures folded_case { with_children_of (like (col "x") (col "y") false true) (col "u" ∷ col "v" ∷ []) ≡ Some (like (col "u") (col "v") false true) }
    ensures three { with_children_of (between (col "x") (col "y") (col "z") (ends Strict NonStrict)) (col "u" ∷ col "v" ∷ col "w" ∷ [])
        ≡ Some (between (col "u") (col "v") (col "w") (ends Strict NonStrict)) }
    ensures too_few { with_children_of (between (col "x") (col "y") (col "z") (ends Strict NonStrict)) (col "u" ∷ col "v" ∷ []) ≡ None }
    ensures none { map (λ e. with_children_of e []) (root ∷ number I32 (pos 1) ∷ []) ≡ Some root ∷ Some (number I32 (pos 1)) ∷ [] }
    ensures no_child { map (λ e. with_children_of e (col "u" ∷ [])) (root ∷ number I32 (pos 1) ∷ []) ≡ replicate 2 None }
    ensures too_many { map (λ e. with_children_of e (col "u" ∷ col "v" ∷ col "w" ∷ [])) (kinds_over (col "x") (col "y")) ≡ replicate 11 None }
{}

/// The name of each kind of node, and which are the row, a field or a constant.
pub fn names_of_kinds()
    ensures ids { map id_of
        (root ∷ number I32 (pos 1) ∷ between (col "x") (col "y") (col "z") (ends Strict NonStrict) ∷ kinds_over (col "x") (col "y"))
        ≡ codes "root" ∷ codes "literal" ∷ codes "between" ∷ codes "get_item" ∷ codes "binary" ∷ codes "not" ∷ codes "is_null"
        ∷ codes "like" ∷ codes "cast" ∷ codes "list_contains" ∷ codes "pack" ∷ codes "merge" ∷ codes "select" ∷ codes "dynamic" ∷ [] }
    ensures fields { map is_get_item (root ∷ col "x" ∷ not_of (col "x") ∷ []) ≡ false ∷ true ∷ false ∷ [] }
    ensures rows { map is_root_tree (root ∷ col "x" ∷ number I32 (pos 1) ∷ []) ≡ true ∷ false ∷ false ∷ [] }
    ensures constants { map literal_of (root ∷ col "x" ∷ number I32 (pos 1) ∷ [])
        ≡ None ∷ None ∷ Some (record { ty = int_ty I32 NonNullable; value = raw_int (pos 1) }) ∷ [] }
{}

/// A pack has as many values as names, and of one name its first value.
pub fn packs_values_by_name()
    ensures as_many { packed_of (codes "a" ∷ codes "b" ∷ []) (col "x" ∷ col "y" ∷ []) Nullable
        ≡ Some (record { names = codes "a" ∷ codes "b" ∷ []; values = col "x" ∷ col "y" ∷ []; nullability = Nullable }) }
    ensures fewer { packed_of (codes "a" ∷ codes "b" ∷ []) (col "x" ∷ []) Nullable ≡ None }
    ensures second { packed_field (codes "b")
        (record { names = codes "a" ∷ codes "b" ∷ codes "b" ∷ []; values = col "x" ∷ col "y" ∷ col "z" ∷ []; nullability = Nullable })
        ≡ Some (col "y") }
    ensures missing { packed_field (codes "c")
        (record { names = codes "a" ∷ codes "b" ∷ []; values = col "x" ∷ col "y" ∷ []; nullability = Nullable })
        ≡ None }
{}

/// What a selection lists and takes, where it knows each name.
pub fn selections_of_names()
    ensures kinds { map is_included (Include (codes "b" ∷ []) ∷ Exclude (codes "b" ∷ []) ∷ []) ≡ true ∷ false ∷ [] }
    ensures lists { map listed_names (Include (codes "b" ∷ []) ∷ Exclude (codes "c" ∷ []) ∷ []) ≡ (codes "b" ∷ []) ∷ (codes "c" ∷ []) ∷ [] }
    ensures included { taken_names (Include (codes "c" ∷ codes "a" ∷ [])) (codes "a" ∷ codes "b" ∷ codes "c" ∷ []) ≡ codes "c" ∷ codes "a" ∷ [] }
    ensures excluded { taken_names (Exclude (codes "c" ∷ codes "a" ∷ [])) (codes "a" ∷ codes "b" ∷ codes "c" ∷ []) ≡ codes "b" ∷ [] }
    ensures known { names_where_known (Exclude (codes "a" ∷ [])) (codes "a" ∷ codes "b" ∷ []) ≡ Some (codes "b" ∷ []) }
    ensures unknown { names_where_known (Exclude (codes "a" ∷ codes "z" ∷ [])) (codes "a" ∷ codes "b" ∷ []) ≡ None }
{}

/// A slot holds its value where there is one, and nothing past the last slot.
pub fn slots_that_hold()
    ensures held { slot_held (None ∷ slot_of I32 (pos 9) ∷ []) 1 ≡ slot_of I32 (pos 9) }
    ensures empty { slot_held (None ∷ slot_of I32 (pos 9) ∷ []) 0 ≡ None }
    ensures past_the_end { slot_held (None ∷ slot_of I32 (pos 9) ∷ []) 2 ≡ None }
{}
