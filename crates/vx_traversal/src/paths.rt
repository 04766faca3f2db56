//! The path of a node: from the node on with the deepest child of each.
ghost use Rattle.std.specs.Prelude.{◌≡◌, ◌<◌, length};
ghost use Rattle.vx_traversal.specs.Paths.{IsBelow, compared_levels, is_as_deep, path_place, reaches};

use crate::node_refs::NodeRef;

// At how many levels the depths of children are compared.
const COMPARED_LEVELS: [usize; 7] = [1, 2, 4, 8, 16, 32, 64];

// Whether a node stands so many levels below this one.
fn reaches<H: NodeRef>(node: H, levels: usize) -> bool
    ensures { result ≡ reaches H.Target.children levels (H.target node) }
{
    if levels == 0 {
        return true;
    }
    for i in 0..node.count() {
        if reaches(node.child(i), levels - 1) {
            return true;
        }
    }
    false
}

// Whether the second node is as deep as the first, as far as depths are compared. Each number of
// levels is tried at both before the next, so that a shallow node next to a deep one costs little.
fn is_as_deep<H: NodeRef>(first: H, second: H) -> bool
    ensures { result ≡ is_as_deep H.Target.children compared_levels (H.target first) (H.target second) }
{
    for levels in COMPARED_LEVELS {
        if !reaches(first, levels) {
            return true;
        }
        if !reaches(second, levels) {
            return false;
        }
    }
    true
}

// The place of the deepest child, as far as depths are compared, and of the last one where several
// are as deep: the path goes on there.
pub(crate) fn path_place<H: NodeRef>(node: H) -> usize
    requires { 0 < length (H.Target.children (H.target node)) }
    ensures place { result ≡ path_place H.Target.children (H.target node) }
    ensures within { result < length (H.Target.children (H.target node)) }
{
    let mut place = 0;
    let mut deepest = node.child(0);
    for i in 1..node.count() {
        let next = node.child(i);
        if is_as_deep(deepest, next) {
            deepest = next;
            place = i;
        }
    }
    place
}

// The node of the path so many links below the top.
pub(crate) fn path_node<H: NodeRef>(top: H, links: usize) -> H
    requires { (low : H.Target) × IsBelow H.Target.children links (H.target top) low }
    ensures { IsBelow H.Target.children links (H.target top) (H.target result) }
{
    let mut node = top;
    for _ in 0..links {
        node = node.child(path_place(node));
    }
    node
}
