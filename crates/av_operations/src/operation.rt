//! The row of an operation: what each item of its form gives is taken off the stack, from the first item to
//! the last, and given to the operation from the last to the first.

ghost use Rattle.std.specs.Prelude.{◌≡◌, ◌≤◌, [], drop, length, option_map, slice_get, Some, None, IfErr, IfOk, OnOk};
ghost use Rattle.av_tree.specs.declared.node.Node.{roll-Node};
ghost use Rattle.av_values.specs.Made.{blank as the_blank, by_row, unwritten_results as the_unwritten_results};
ghost use Rattle.av_operations.specs.Taking.{parts_taken};

use super::gifts::take_gift;
use av_affine::Seq;
use av_dialects::{Item, Part, Results, form_of, name_at, results_at};
use av_tree::{Node, TypeText};
use av_values::gifts::give;
use av_values::nodes::unwritten;
use av_values::stack::{Fault, Stack, text_of};
use std::alloc::Global;

/// What the row of an operation does to the values of its symbols. The operation stands at `place`.
pub fn reduce_operation(stack: &mut Stack, number: u8, place: u32) -> Result<(), Fault>
    ensures ok { OnOk result (by_row number place stack.old ≡ Some stack.new) }
    ensures misshapen { IfErr result (λ fault. fault ≡ Fault.Misshapen → by_row number place stack.old ≡ None) }
{
    let types = Seq::new(stack.alloc());
    let node = made_of(stack, number, place, form_of(number), types)?;
    stack.push_node(node)?;
    Ok(())
}

// The operation that these parts make, where these types stand before those of their operands.
fn made_of(
    stack: &mut Stack,
    number: u8,
    place: u32,
    parts: &[Part],
    mut types: Seq<Option<TypeText>>,
) -> Result<Node, Fault>
    ensures ok { IfOk result (λ node. parts_taken number place parts.now types stack.old ≡ Some (node, stack.new)) }
    ensures misshapen { IfErr result (λ fault. fault ≡ Fault.Misshapen → parts_taken number place parts.now types stack.old ≡ None) }
{
    let alloc = stack.alloc();
    match parts {
        [_, ..] => {
            let gift = take_gift(stack, first_item(parts))?;
            types.append(unwritten(alloc, gift.operands.as_slice())?)?;
            let mut node = made_of(stack, number, place, behind(parts), types)?;
            give(alloc, &mut node, gift)?;
            Ok(node)
        }
        [] => {
            let node = blank(alloc, number, place, types)?;
            Ok(node)
        }
    }
}

fn first_item(parts: &[Part]) -> Item
    requires { 1 ≤ length parts.now }
    ensures { option_map (λ part. part.1) (slice_get parts.now 0) ≡ Some result }
{
    parts[0].1
}

fn behind(parts: &[Part]) -> &[Part]
    requires { 1 ≤ length parts.now }
    ensures { result.now ≡ drop 1 parts.now }
{
    &parts[1..]
}

fn blank(alloc: Global, number: u8, place: u32, types: Seq<Option<TypeText>>) -> Result<Node, Fault>
    ensures ok { IfOk result (λ node. node ≡ roll-Node (the_blank number place types)) }
    ensures err { IfErr result (λ fault. fault ≡ Fault.NoMemory) }
{
    let name = text_of(alloc, name_at(number).as_bytes())?;
    let out_types = unwritten_results(alloc, results_at(number))?;
    Ok(Node {
        name,
        place,
        results: Seq::new(alloc),
        operands: Seq::new(alloc),
        properties: Seq::new(alloc),
        attrs: Seq::new(alloc),
        regions: Seq::new(alloc),
        in_types: types,
        out_types,
    })
}

fn unwritten_results(alloc: Global, results: Results) -> Result<Seq<Option<TypeText>>, Fault>
    ensures ok { IfOk result (λ types. types ≡ the_unwritten_results results) }
    ensures err { IfErr result (λ fault. fault ≡ Fault.NoMemory) }
{
    let mut types = Seq::new(alloc);
    if matches!(results, Results::One(_)) {
        types.push(None)?;
    }
    Ok(types)
}
