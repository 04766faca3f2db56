// Partitions by column, worked by hand.
#![tactic(auto, unfolding(crate::proofs::Computing::all_definitions))]

ghost use Rattle.std.specs.Prelude.{◌≡◌, pos, [], ◌∷◌, codes, true, Ok};
ghost use Rattle.vx_dtype.specs.declared.PType.TheVariants.{I32};
ghost use Rattle.vx_dtype.specs.declared.Nullability.TheVariants.{NonNullable};
ghost use Rattle.vx_dtype.specs.Types.{int_ty, struct_ty};
ghost use Rattle.vx_expr.specs.declared.Operator.TheVariants.{Eq, Gt, Lt, Or};
ghost use Rattle.vx_expr.specs.Trees.{root, get_item, binary, literal, merge, pack, no_trees, tree};
ghost use Rattle.vx_worked_examples.specs.Samples.{col, only, pack_one, pack_two, boolean};
ghost use Rattle.vx_passes.specs.Annotating.{annotated, column_annotation};
ghost use Rattle.std.specs.Str.{bytes_eq};
ghost use Rattle.vx_worked_examples.specs.PassSamples.{n, item, annotated_by, both, column_compared, three_columns, x_alone, column_parts, part};

/// A field of a column is one part of it.
pub fn parts_of_one_column()
    ensures { column_parts three_columns (item "y" (col "a"))
        ≡ Ok (record { root_expression = part "a" "a_0"; parts = (codes "a", pack_one "a_0" (item "y" (col "a"))) ∷ [] }) }
{}

/// A merge of a column and a pack is put together by the root from two parts.
pub fn parts_of_a_merge()
    ensures { column_parts three_columns (merge (tree (col "a") (tree (pack_one "b" (col "b")) no_trees)) NonNullable)
        ≡ Ok (record {
          root_expression =
              pack (codes "x" ∷ codes "y" ∷ codes "b" ∷ [])
              (tree (item "x" (part "a" "a_0")) (tree (item "y" (part "a" "a_0")) (tree (item "b" (part "b" "b_0")) no_trees))) NonNullable;
          parts = (codes "a", pack_one "a_0" (col "a")) ∷ (codes "b", pack_one "b_0" (pack_one "b" (col "b"))) ∷ [];
        }) }
{}

/// The row itself has all columns: of more than one it is no part, and the root is the row; of one it is a part of this column.
pub fn parts_of_the_row()
    ensures several { column_parts three_columns root ≡ Ok (record { root_expression = root; parts = [] }) }
    ensures one { column_parts x_alone root ≡ Ok (record { root_expression = part "x" "x_0"; parts = (codes "x", pack_one "x_0" root) ∷ [] }) }
{}

/// Two columns under `and` are two parts.
pub fn parts_of_two_columns()
    ensures { column_parts three_columns (both (item "y" (col "a")) (col "b"))
        ≡ Ok (record {
          root_expression = both (part "a" "a_0") (part "b" "b_0");
          parts = (codes "a", pack_one "a_0" (item "y" (col "a"))) ∷ (codes "b", pack_one "b_0" (col "b")) ∷ [];
        }) }
{}

/// A column that is used in two places has two parts under one name, numbered in order; a node that touches it alone is one part, constants included.
pub fn parts_are_numbered()
    ensures { column_parts three_columns (both (both (item "y" (col "a")) (col "b")) (both (binary (item "x" (col "a")) Gt (n (pos 1))) (boolean true)))
        ≡ Ok (record {
          root_expression = both (both (part "a" "a_0") (part "b" "b_0")) (part "a" "a_1");
          parts =
              (codes "a", pack_two "a_0" (item "y" (col "a")) "a_1" (both (binary (item "x" (col "a")) Gt (n (pos 1))) (boolean true)))
              ∷ (codes "b", pack_one "b_0" (col "b"))
              ∷ [];
        }) }
{}

/// What touches no column stays in the root.
pub fn constants_stay_in_the_root()
    ensures { column_parts three_columns (both (both (col "b") (col "c")) (boolean true))
        ≡ Ok (record {
          root_expression = both (both (part "b" "b_0") (part "c" "c_0")) (boolean true);
          parts = (codes "b", pack_one "b_0" (col "b")) ∷ (codes "c", pack_one "c_0" (col "c")) ∷ [];
        }) }
{}

/// The filter and the projection of a scan of one column.
pub fn parts_of_a_scan()
    ensures filter { column_parts (struct_ty (only "x" (int_ty I32 NonNullable)) NonNullable) (column_compared "x" Gt (pos 10))
        ≡ Ok (record { root_expression = part "x" "x_0"; parts = (codes "x", pack_one "x_0" (column_compared "x" Gt (pos 10))) ∷ [] }) }
    ensures projection { column_parts (struct_ty (only "x" (int_ty I32 NonNullable)) NonNullable) (col "x")
        ≡ Ok (record { root_expression = part "x" "x_0"; parts = (codes "x", pack_one "x_0" (col "x")) ∷ [] }) }
{}

/// What is annotated: a column its name, and each node above it what its children have.
pub fn annotations_go_up()
    ensures access { annotated bytes_eq (column_annotation three_columns) (col "b")
        ≡ annotated_by (col "b") (codes "b" ∷ []) ∷ [] }
    ensures field { annotated bytes_eq (column_annotation three_columns) (item "y" (col "a"))
        ≡ annotated_by (col "a") (codes "a" ∷ []) ∷ annotated_by (item "y" (col "a")) (codes "a" ∷ []) ∷ [] }
    ensures constant { annotated bytes_eq (column_annotation three_columns) (boolean true)
        ≡ annotated_by (boolean true) ([]) ∷ [] }
    ensures shared { annotated bytes_eq (column_annotation three_columns) (both (col "b") (col "b"))
        ≡ annotated_by (col "b") (codes "b" ∷ []) ∷ annotated_by (both (col "b") (col "b")) (codes "b" ∷ []) ∷ [] }
    ensures below_a_skip { annotated bytes_eq (column_annotation three_columns) (both (item "x" root) (binary root Eq root))
        ≡ annotated_by (item "x" root) (codes "x" ∷ [])
        ∷ annotated_by (root) (codes "a" ∷ codes "b" ∷ codes "c" ∷ [])
        ∷ annotated_by (binary root Eq root) (codes "a" ∷ codes "b" ∷ codes "c" ∷ [])
        ∷ annotated_by (both (item "x" root) (binary root Eq root)) (codes "x" ∷ codes "a" ∷ codes "b" ∷ codes "c" ∷ []) ∷ [] }
{}
