// Reading wire texts, with a stack of its own.
ghost use Rattle.std.specs.Prelude.{◌≡◌, [], IfOk, IfErr, IfSome, option_map};
ghost use Rattle.vx_wire_bytes.specs.ReadAnswers.{IsRead, IsRefused};
ghost use Rattle.vx_wire_bytes.specs.Reading.{head_at, closed, begins};
ghost use Rattle.vx_wire_bytes.specs.WireViews.{tree_view};
ghost use Rattle.vx_wire_bytes.specs.OpenViews.{head_view, stack_of, closed_view};

use crate::errors::WireError;
use crate::fields::{number_front, piece_front, text_front};
use crate::trees::WireTree;
use std::alloc::Global;
use vx_dtype::{Mem, Text};

/// The most nodes that may be open when one more begins.
const MOST_OPEN: usize = 256;

/// The most nodes that may be begun when one more begins.
const MOST_NODES: usize = 4096;

/// A node that has been begun, of whose children some are whole.
#[derive(Drop)]
struct OpenNode {
    id: Text,
    metadata: Vec<u8>,
    /// How many children the node has in all.
    children: usize,
    whole: Vec<WireTree>,
}

/// The node that the head at the front begins, and the bytes after the head.
#[tactic(auto, unfolding(crate::specs::Reading::head_at))]
fn head_front(alloc: Global, bytes: &[u8]) -> Mem<Option<(OpenNode, &[u8])>>
    ensures read { IfOk result (λ found. option_map (λ x. (head_view x.0, x.1.now)) found ≡ head_at bytes.now) }
    ensures begun { IfOk result (λ found. IfSome found (λ x. x.0.whole.items ≡ [])) }
{
    let Some((id, rest)) = text_front(bytes) else {
        return Ok(None);
    };
    let Some((metadata, rest)) = piece_front(rest) else {
        return Ok(None);
    };
    let Some((children, rest)) = number_front(rest) else {
        return Ok(None);
    };
    let node = OpenNode {
        id: Text::new(alloc, id)?,
        metadata: Vec::from_slice(alloc, metadata)?,
        children: children as usize,
        whole: Vec::new(alloc),
    };
    Ok(Some((node, rest)))
}

/// Gives a whole node to the innermost open one, and so on outwards where that makes a node whole. Answers the whole tree
/// where no node is open then.
fn close(nodes: &mut Vec<OpenNode>, node: WireTree) -> Mem<Option<WireTree>>
    ensures { IfOk result (λ tree. closed_view tree nodes.new.items ≡ closed (stack_of nodes.old.items) (tree_view node)) }
{
    let mut node = node;
    while let Some(inner) = nodes.pop() {
        let OpenNode {
            id,
            metadata,
            children,
            mut whole,
        } = inner;
        whole.push(node)?;
        if whole.len() < children {
            nodes.push(OpenNode {
                id,
                metadata,
                children,
                whole,
            })?;
            return Ok(None);
        }
        node = WireTree {
            id,
            metadata,
            children: whole,
        };
    }
    Ok(Some(node))
}

/// Begins a node whose head was read: it is open, or whole at once. Answers the whole tree where no node is open then.
fn begin(nodes: &mut Vec<OpenNode>, node: OpenNode) -> Mem<Option<WireTree>>
    requires { node.whole.items ≡ [] }
    ensures { IfOk result (λ tree. closed_view tree nodes.new.items ≡ begins (stack_of nodes.old.items) (head_view node)) }
{
    if node.children > 0 {
        nodes.push(node)?;
        return Ok(None);
    }
    let OpenNode {
        id,
        metadata,
        children: _,
        whole,
    } = node;
    close(
        nodes,
        WireTree {
            id,
            metadata,
            children: whole,
        },
    )
}

/// The tree that the bytes spell, all of them.
///
/// Refuses with `TooDeep` exactly where 256 nodes are open when one more begins, with `TooManyNodes` exactly where 4,096 nodes
/// are begun when one more begins, whichever comes first, and with `BadWire` exactly where the bytes are no node and meet
/// neither limit.
pub fn read_tree(alloc: Global, bytes: &[u8]) -> Result<WireTree, WireError>
    ensures read { IfOk result (λ tree. IsRead bytes.now (tree_view tree)) }
    ensures refused { IfErr result (IsRefused bytes.now) }
{
    let mut nodes: Vec<OpenNode> = Vec::new(alloc);
    let mut rest = bytes;
    for begun in 0..MOST_NODES {
        if nodes.len() == MOST_OPEN {
            return Err(WireError::TooDeep);
        }
        let Some((node, after)) = head_front(alloc, rest)? else {
            return Err(WireError::BadWire);
        };
        rest = after;
        if let Some(tree) = begin(&mut nodes, node)? {
            if rest.is_empty() {
                return Ok(tree);
            }
            return Err(WireError::BadWire);
        }
    }
    Err(WireError::TooManyNodes)
}
