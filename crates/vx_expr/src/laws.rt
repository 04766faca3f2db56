// What a node with children in place of its own is.
ghost use Rattle.std.specs.Prelude.{◌≡◌, ◌==◌, List, Some, length, is_some};
ghost use Rattle.vx_expr.specs.Trees.{Tree, children_of};
ghost use Rattle.vx_expr.specs.Children.{with_children_of};

/// Law: with its own children in their place a node is as it was.
pub fn own_children_change_nothing()
    ensures { (e : Tree) → with_children_of e (children_of e) ≡ Some e }
{}

/// Law: a node takes as many children as it has, and no other number.
pub fn another_number_of_children_is_refused()
    ensures { (e : Tree) (children : List Tree) → is_some (with_children_of e children) ≡ (length children == length (children_of e)) }
{}
