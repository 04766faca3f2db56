// Writing the fields of the wire form, and whole trees.
ghost use Rattle.std.specs.Prelude.{◌≡◌, ◌<◌, ◌^◌, ◌++◌, ◌∷◌, [], List, length, map, vec_len, IfOk, IfErr, OnOk, OnErr};
ghost use Rattle.vx_dtype.specs.Types.{Bytes};
ghost use Rattle.vx_wire_bytes.specs.Numbers.{number_bytes, piece_bytes};
ghost use Rattle.vx_wire_bytes.specs.Fields.{IsShort};
ghost use Rattle.vx_wire_bytes.specs.Wires.{head_bytes, head_of_tree, IsHead, Spells};
ghost use Rattle.vx_wire_bytes.specs.LeftToWrite.{children_in};
ghost use Rattle.vx_wire_bytes.specs.WireViews.{tree_view, trees_view};
ghost use Rattle.vx_wire_bytes.specs.WriteAnswers.{IsUnwritten};

use crate::errors::WireError;
use crate::trees::WireTree;
use std::alloc::{AllocError, Global};
use vx_dtype::{Mem, NoMemory, Text};

/// From this length on nothing has a spelling, since numbers have 32 bits at most.
pub const LONG: usize = 1 << 32;

/// Writes a number at the end, as far as there is memory.
fn push_number(out: &mut Vec<u8>, n: u32) -> Mem<()>
    ensures ok { OnOk result (out.new.items ≡ out.old.items ++ number_bytes n) }
    ensures err { OnErr result ((more : Bytes) × (out.new.items ≡ out.old.items ++ more)) }
{
    let mut rest = n;
    while rest >= 128 {
        out.push((rest % 128 + 128) as u8)?;
        rest /= 128;
    }
    out.push(rest as u8)?;
    Ok(())
}

/// Writes the spelling of a number at the end: LEB128 in the fewest bytes. An `Err` leaves `out` as it was.
pub fn write_number(out: &mut Vec<u8>, n: u32) -> Mem<()>
    ensures ok { OnOk result (out.new.items ≡ out.old.items ++ number_bytes n) }
    ensures err { OnErr result (out.new.items ≡ out.old.items) }
{
    let before = out.len();
    match push_number(out, n) {
        Ok(()) => Ok(()),
        Err(NoMemory) => {
            out.truncate(before);
            Err(NoMemory)
        }
    }
}

/// Writes bytes at the end, and their number before them. An `Err` leaves `out` as it was.
pub(crate) fn write_piece(out: &mut Vec<u8>, bytes: &[u8]) -> Mem<()>
    requires { IsShort bytes.now }
    ensures ok { OnOk result (out.new.items ≡ out.old.items ++ piece_bytes bytes.now) }
    ensures err { OnErr result (out.new.items ≡ out.old.items) }
{
    let before = out.len();
    write_number(out, bytes.len() as u32)?;
    match out.extend_from_slice(bytes) {
        Ok(()) => Ok(()),
        Err(AllocError) => {
            out.truncate(before);
            Err(NoMemory)
        }
    }
}

/// Writes the spelling of a text at the end: how many bytes it has, and these. An `Err` leaves `out` as it was.
pub fn write_text(out: &mut Vec<u8>, text: &Text) -> Mem<()>
    requires { IsShort text.now }
    ensures ok { OnOk result (out.new.items ≡ out.old.items ++ piece_bytes text.now) }
    ensures err { OnErr result (out.new.items ≡ out.old.items) }
{
    write_piece(out, text.as_str().as_bytes())
}

/// Writes the head of a node at the end.
fn push_head(out: &mut Vec<u8>, tree: &WireTree) -> Result<(), WireError>
    ensures ok { OnOk result (IsHead (head_of_tree (tree_view tree.now))
        × (out.new.items ≡ out.old.items ++ head_bytes (head_of_tree (tree_view tree.now)))) }
    ensures err { IfErr result (IsUnwritten (tree_view tree.now)) }
{
    let id = tree.id.as_str().as_bytes();
    if id.len() >= LONG {
        return Err(WireError::TooLong);
    }
    if tree.metadata.len() >= LONG {
        return Err(WireError::TooLong);
    }
    if tree.children.len() >= LONG {
        return Err(WireError::TooLong);
    }
    write_piece(out, id)?;
    write_piece(out, &tree.metadata)?;
    write_number(out, tree.children.len() as u32)?;
    Ok(())
}

/// Writes the head of a node at the end, and adds its children to what is left to write.
fn push_node<'a>(
    out: &mut Vec<u8>,
    left: &mut Vec<&'a [WireTree]>,
    node: &'a WireTree,
) -> Result<(), WireError>
    ensures ok { OnOk result (IsHead (head_of_tree (tree_view node.now))
        × (out.new.items ≡ out.old.items ++ head_bytes (head_of_tree (tree_view node.now)))
        × (map (λ s. trees_view s.now) left.new.items ≡ map (λ s. trees_view s.now) left.old.items ++ children_in (tree_view node.now) ∷ [])) }
    ensures err { IfErr result (IsUnwritten (tree_view node.now)) }
{
    push_head(out, node)?;
    left.push(node.children.as_slice())?;
    Ok(())
}

/// The bytes that spell the tree.
///
/// Refuses with `TooLong` exactly where an id, metadata or a list of children in the tree has 2^32 or more.
pub fn write_tree(alloc: Global, tree: &WireTree) -> Result<Vec<u8>, WireError>
    ensures written { IfOk result (λ bytes. Spells bytes.items (tree_view tree.now)) }
    ensures refused { IfErr result (IsUnwritten (tree_view tree.now)) }
{
    let mut out = Vec::new(alloc);
    let mut left = Vec::new(alloc);
    push_node(&mut out, &mut left, tree)?;
    while let Some(nodes) = left.pop() {
        if let Some((node, others)) = nodes.split_first() {
            left.push(others)?;
            push_node(&mut out, &mut left, node)?;
        }
    }
    Ok(out)
}
