//! A tree of numbers, the second node beside expressions.
ghost use Rattle.std.specs.Prelude.{◌≡◌, IfOk};

use std::alloc::{AllocError, Global};
use std::marker::Model;
use std::rc::Rc;
use vx_dtype::Mem;
use vx_traversal::{
    CloneContainer, ElementMapper, Holds, Node, NodeContainer, Transformed, TraversalOrder, Walk,
    map_single,
};

/// A number with trees of numbers below it, shared with its clones. It is seen as that tree.
#[derive(Drop)]
pub(crate) struct Numbers {
    value: u64,
    below: Rc<Vec<Numbers>>,
}

impl Model for Numbers {
    ghost use Rattle.vx_base_tests.specs.Numbers.{NumberTree, number, trees_of_list, coded_numbers, number_height, most_le-highest};
    ghost use Rattle.std.proofs.Common.{arith};

    ghost Value = { NumberTree };

    ghost coded = { coded_numbers };

    ghost view = { λ a. number a.value (trees_of_list a.below.value.items) };

    ghost size = { number_height };

    ghost size_decreases = { λ a h. omega (arith, most_le-highest a.below.value.items) };
}

impl Numbers {
    ghost use Rattle.vx_base_tests.specs.Numbers.{number, trees_of_list, number_at, renumbered};

    /// The number with these trees below it.
    pub(crate) fn new(alloc: Global, value: u64, below: Vec<Numbers>) -> Mem<Numbers>
        ensures { IfOk result (λ it. it ≡ number value (trees_of_list below.items)) }
    {
        Ok(Numbers {
            value,
            below: Rc::new(alloc, below)?,
        })
    }

    /// The number itself.
    pub(crate) fn value(&self) -> u64
        ensures { result ≡ number_at self.now }
    {
        self.value
    }

    /// The tree with this number at its top.
    pub(crate) fn renumbered(self, value: u64) -> Numbers
        ensures { result ≡ renumbered value self }
    {
        Numbers {
            value,
            below: self.below,
        }
    }
}

impl Clone for Numbers {
    ghost use Rattle.std.specs.Prelude.{◌≡◌};

    ghost is_clone = { λ it copy. copy ≡ it };

    fn clone(&self) -> Result<Self, AllocError> {
        Ok(Numbers {
            value: self.value,
            below: self.below.clone()?,
        })
    }
}

impl Node for Numbers {
    ghost use Rattle.std.specs.Prelude.{◌≡◌, IfOk, length};
    ghost use Rattle.std.proofs.Common.{◌∙◌, ap};
    ghost use Rattle.vx_base_tests.specs.Numbers.{trees_below, number_height, number_with, below_is_lower, list_of-trees_of};

    ghost children = { trees_below };

    ghost height = { number_height };

    ghost is_with = { λ it below rebuilt. rebuilt ≡ number_with it below };

    fn children_count(&self) -> usize {
        self.below.len()
    }

    fn node_child(&self, i: usize) -> &Numbers {
        &self.below[i]
    }

    fn with_node_children(&self, alloc: Global, replacements: Vec<Numbers>) -> Mem<Numbers>
        requires { length replacements.items ≡ length (trees_below self.now) }
        ensures { IfOk result (λ rebuilt. rebuilt ≡ number_with self.now replacements.items) }
    {
        Numbers::new(alloc, self.value, replacements)
    }

    ghost child_is_lower = { below_is_lower };

    ghost has_given = { λ it rebuilt given as_many is. ap trees_below is ∙ list_of-trees_of given };

    ghost clone_is_equal = { λ it copy is. is };
}

/// A tree of numbers is a container of itself alone.
impl Holds<Numbers> for Numbers {
    ghost use Rattle.std.specs.Prelude.{[], ◌∷◌};
    ghost use Rattle.vx_traversal.specs.ContainerShapes.{one_element};

    ghost elements = { λ it. it ∷ [] };

    ghost shape = { λ _. one_element };
}

impl<'a> NodeContainer<'a, Numbers> for Numbers {
    ghost use Rattle.vx_traversal.specs.Containers.{left_of_one};

    type Cursor = bool;

    ghost left = { λ it passed. left_of_one passed it };

    fn cursor() -> bool {
        false
    }

    fn next_element(&'a self, cursor: &mut bool) -> Option<&'a Numbers> {
        if *cursor {
            return None;
        }
        *cursor = true;
        Some(self)
    }

    fn map_elements_after<M, F: ElementMapper<M, Numbers>>(
        self,
        _alloc: Global,
        last: TraversalOrder,
        f: &mut F,
    ) -> Walk<Transformed<Self>, F::Error> {
        map_single(self, last, f)
    }
}

impl CloneContainer<Numbers> for Numbers {
    ghost use Rattle.std.specs.Prelude.{[], ◌∷◌};
    ghost use Rattle.std.proofs.Common.{ap, refl};

    ghost clone_keeps = { λ it copy is. (ap (λ one. one ∷ []) is, refl) };
}
