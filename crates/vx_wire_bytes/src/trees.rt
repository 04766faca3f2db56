// The trees that the wire form spells, how they are dropped, and their equality: by their whole structure.
ghost use Rattle.std.specs.Prelude.{◌≡◌, ◌<◌, length, Decides, IfSome};
ghost use Rattle.std.specs.Cmp.{on_per, on_equiv, partial_equiv_from_equiv};
ghost use Rattle.vx_wire_bytes.specs.declared.trees.WireTree.{out-WireTree};
ghost use Rattle.vx_wire_bytes.specs.WireEqual.{wire_eq, wires_eq};
ghost use Rattle.vx_wire_bytes.specs.EqualLaws.{wire_eq_equiv};
ghost use Rattle.vx_wire_bytes.specs.Wires.{node};
ghost use Rattle.vx_wire_bytes.specs.WireViews.{tree_view, trees_view};

use vx_dtype::Text;

/// A node of the wire form. Its bytes are its id, its metadata and its children, each with its length before it.
#[derive(Debug)]
pub struct WireTree {
    /// The kind of the node.
    pub id: Text,
    /// What the kind has beside its children.
    pub metadata: Vec<u8>,
    /// The children in order.
    pub children: Vec<WireTree>,
}

impl WireTree {
    /// The id, the metadata and the children. No pattern takes a tree apart, since a loop of the tree's own drops it.
    pub fn into_parts(self) -> (Text, Vec<u8>, Vec<WireTree>)
        ensures parts { out-WireTree self ≡ record { id = result.0; metadata = result.1; children = result.2 } }
        ensures seen { tree_view self ≡ node result.0 result.1.items (trees_view result.2.items) }
    {
        let WireTree {
            id,
            metadata,
            children,
        } = self;
        (id, metadata, children)
    }
}

/// A loop drops the tree and needs no call for each level, however the tree is shaped. It has no memory for a list of what is left, so it
/// turns the tree: the first child of the last child takes the last child's place, and the node takes the place of that first child. So
/// each node comes to stand on the way down first children, and the loop takes that way from its top.
impl Drop for WireTree {
    #[cycle(dropping)]
    fn drop(mut self) {
        loop {
            let WireTree {
                id,
                metadata,
                mut children,
            } = self;
            let Some(last) = children.pop() else {
                return;
            };
            if children.is_empty() {
                self = last;
                continue;
            }
            let (last_id, last_metadata, mut below) = last.into_parts();
            if below.is_empty() {
                self = WireTree {
                    id,
                    metadata,
                    children,
                };
                continue;
            }
            children.push(below.remove(0)).unwrap();
            let node = WireTree {
                id,
                metadata,
                children,
            };
            below.insert(0, node).unwrap();
            self = WireTree {
                id: last_id,
                metadata: last_metadata,
                children: below,
            };
        }
    }
}

/// Where the child stands with which a walk goes on by its loop, so that a chain of nodes needs no call for each link, wherever among
/// the children its links stand: the first child that has children and is of the node's own kind and metadata, else the last that
/// has children. None where no child has any.
fn link(node: &WireTree, children: &[WireTree]) -> Option<usize>
    ensures { IfSome result (λ place. place < length children.now) }
{
    let mut last = None;
    for i in 0..children.len() {
        let child = &children[i];
        if child.children.is_empty() {
            continue;
        }
        if child.id == node.id && child.metadata == node.metadata {
            return Some(i);
        }
        last = Some(i);
    }
    last
}

#[cycle(same)]
fn same(left: &WireTree, right: &WireTree) -> bool
    ensures { result ≡ wire_eq (tree_view left.now) (tree_view right.now) }
{
    let mut first = left;
    let mut second = right;
    loop {
        if first.id != second.id {
            return false;
        }
        if first.metadata != second.metadata {
            return false;
        }
        let lefts = first.children.as_slice();
        let rights = second.children.as_slice();
        if lefts.len() != rights.len() {
            return false;
        }
        let Some(place) = link(first, lefts) else {
            return same_children(lefts, rights);
        };
        if !same_children(&lefts[..place], &rights[..place]) {
            return false;
        }
        if !same_children(&lefts[place + 1..], &rights[place + 1..]) {
            return false;
        }
        first = &lefts[place];
        second = &rights[place];
    }
}

#[cycle(same)]
#[tactic(auto, using(crate::proofs::EqualLemmas::wires_eq_lengths), unfolding(crate::specs::WireEqual::wires_eq))]
fn same_children(left: &[WireTree], right: &[WireTree]) -> bool
    ensures { result ≡ wires_eq (trees_view left.now) (trees_view right.now) }
{
    if left.len() != right.len() {
        return false;
    }
    for i in 0..left.len() {
        if !same(&left[i], &right[i]) {
            return false;
        }
    }
    true
}

impl PartialEq for WireTree {
    ghost eq = { λ x y. wire_eq (tree_view x) (tree_view y) };

    ghost laws = { on_per tree_view (partial_equiv_from_equiv wire_eq_equiv) };

    #[tactic(auto, using(crate::specs::EqualLaws::wire_decides))]
    fn eq(&self, other: &WireTree) -> bool
        ensures gives { result ≡ wire_eq (tree_view self.now) (tree_view other.now) }
        ensures same { Decides result (tree_view self.now ≡ tree_view other.now) }
    {
        same(self, other)
    }
}

impl Eq for WireTree {
    ghost laws = { on_equiv tree_view wire_eq_equiv };
}
