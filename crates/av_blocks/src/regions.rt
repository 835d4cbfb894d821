//! Rows of operations in regions.

ghost use Rattle.std.specs.Prelude.{◌≡◌, [], ◌∷◌, codes, Some, None, IfErr, IfOk, OnOk};
ghost use Rattle.av_values.specs.Nodes.{plain};
ghost use Rattle.av_values.specs.Operations.{name_of_end, named, no_values as none_of, terminator_of, with_typed};
ghost use Rattle.av_values.specs.Forms.{completed as the_completed, is_plain_branch as is_one_plain_branch, lacks_second as lacks_second_of, second_ended as the_second_ended, with_end as the_end};
ghost use Rattle.av_blocks.specs.rows.RegionRows.{by_row};

use av_affine::{Seq, Text};
use av_tree::table::RegionRule;
use av_tree::{Body, Node, TypeText};
use av_values::nodes::{plain_node, written_types};
use av_values::puts::{no_nodes, same_nodes};
use av_values::stack::{Fault, Stack, before, in_order, text_of};
use av_values::value::{Onward, Terminated, TypedValues};
use std::alloc::Global;

/// Does what a row of regions does to the values of its symbols.
pub fn reduce_region(stack: &mut Stack, rule: RegionRule, place: u32) -> Result<(), Fault>
    ensures ok { OnOk result (by_row rule place stack.old ≡ Some stack.new) }
    ensures misshapen { IfErr result (λ fault. fault ≡ Fault.Misshapen → by_row rule place stack.old ≡ None) }
{
    match rule {
        RegionRule::NoMoreOperations => no_nodes(stack),
        RegionRule::WithResults => with_results(stack, place),
        RegionRule::WithoutResults => without_results(stack),
        RegionRule::NamedRegion => same_nodes(stack),
        RegionRule::PlainOperation => onward(stack),
        RegionRule::TerminatorOperation => terminator(stack, place),
        RegionRule::TerminatorWithValues => terminator_with_values(stack),
        RegionRule::TerminatorLast => terminator_last(stack),
        RegionRule::TerminatorThenOperation => terminator_then_operation(stack),
        RegionRule::ValuesAndTypes => values_and_types(stack),
    }
}

/// The names of results for an operation, which then begins with them.
#[tactic(auto, using(av_values::proofs::Replacing::replacing))]
pub(super) fn with_results(stack: &mut Stack, place: u32) -> Result<(), Fault>
    ensures ok { OnOk result (by_row RegionRule.WithResults place stack.old ≡ Some stack.new) }
    ensures misshapen { IfErr result (λ fault. fault ≡ Fault.Misshapen → by_row RegionRule.WithResults place stack.old ≡ None) }
{
    let results = stack.texts()?;
    let first = stack.onward()?;
    let node = named_node(first.node, in_order(results), place);
    let nodes = before(node, first.others)?;
    stack.push_nodes(nodes)?;
    Ok(())
}

/// An operation with the names of its results, with which it begins.
pub(super) fn named_node(mut node: Node, results: Seq<Text>, place: u32) -> Node
    ensures { result ≡ named node results place }
{
    node.results = results;
    node.place = place;
    node
}

/// An operation and those after it, as one list.
#[tactic(auto, using(av_values::proofs::Replacing::replacing))]
fn without_results(stack: &mut Stack) -> Result<(), Fault>
    ensures ok { OnOk result (by_row RegionRule.WithoutResults 0 stack.old ≡ Some stack.new) }
    ensures misshapen { IfErr result (λ fault. fault ≡ Fault.Misshapen → by_row RegionRule.WithoutResults 0 stack.old ≡ None) }
{
    let alloc = stack.alloc();
    let first = stack.onward()?;
    let node = completed(alloc, first.node)?;
    let nodes = before(node, first.others)?;
    stack.push_nodes(nodes)?;
    Ok(())
}

/// An operation and those after it.
#[tactic(auto, using(av_values::proofs::Replacing::replacing))]
pub(super) fn onward(stack: &mut Stack) -> Result<(), Fault>
    ensures ok { OnOk result (by_row RegionRule.PlainOperation 0 stack.old ≡ Some stack.new) }
    ensures misshapen { IfErr result (λ fault. fault ≡ Fault.Misshapen → by_row RegionRule.PlainOperation 0 stack.old ≡ None) }
{
    let node = stack.node()?;
    let others = stack.nodes()?;
    stack.push_onward(Onward { node, others })?;
    Ok(())
}

#[tactic(auto, using(av_values::proofs::Replacing::replacing))]
fn terminator_with_values(stack: &mut Stack) -> Result<(), Fault>
    ensures ok { OnOk result (by_row RegionRule.TerminatorWithValues 0 stack.old ≡ Some stack.new) }
    ensures misshapen { IfErr result (λ fault. fault ≡ Fault.Misshapen → by_row RegionRule.TerminatorWithValues 0 stack.old ≡ None) }
{
    let values = stack.typed_values()?;
    let nodes = stack.nodes()?;
    stack.push_terminated(Terminated { values, nodes })?;
    Ok(())
}

#[tactic(auto, using(av_values::proofs::Replacing::replacing))]
fn terminator_last(stack: &mut Stack) -> Result<(), Fault>
    ensures ok { OnOk result (by_row RegionRule.TerminatorLast 0 stack.old ≡ Some stack.new) }
    ensures misshapen { IfErr result (λ fault. fault ≡ Fault.Misshapen → by_row RegionRule.TerminatorLast 0 stack.old ≡ None) }
{
    let alloc = stack.alloc();
    stack.push_terminated(Terminated {
        values: no_values(alloc),
        nodes: Seq::new(alloc),
    })?;
    Ok(())
}

#[tactic(auto, using(av_values::proofs::Replacing::replacing))]
fn terminator_then_operation(stack: &mut Stack) -> Result<(), Fault>
    ensures ok { OnOk result (by_row RegionRule.TerminatorThenOperation 0 stack.old ≡ Some stack.new) }
    ensures misshapen { IfErr result (λ fault. fault ≡ Fault.Misshapen → by_row RegionRule.TerminatorThenOperation 0 stack.old ≡ None) }
{
    let alloc = stack.alloc();
    let first = stack.onward()?;
    let node = completed(alloc, first.node)?;
    let nodes = before(node, first.others)?;
    stack.push_terminated(Terminated {
        values: no_values(alloc),
        nodes,
    })?;
    Ok(())
}

fn no_values(alloc: Global) -> TypedValues
    ensures { result ≡ none_of }
{
    TypedValues {
        values: Seq::new(alloc),
        types: Seq::new(alloc),
    }
}

#[tactic(auto, using(av_values::proofs::Replacing::replacing))]
fn values_and_types(stack: &mut Stack) -> Result<(), Fault>
    ensures ok { OnOk result (by_row RegionRule.ValuesAndTypes 0 stack.old ≡ Some stack.new) }
    ensures misshapen { IfErr result (λ fault. fault ≡ Fault.Misshapen → by_row RegionRule.ValuesAndTypes 0 stack.old ≡ None) }
{
    let value = stack.text()?;
    let values = stack.texts()?;
    let ty = stack.ty()?;
    let types = stack.types()?;
    let all_values = before(value, values)?;
    let all_types = before(ty, types)?;
    stack.push_typed_values(TypedValues {
        values: all_values,
        types: all_types,
    })?;
    Ok(())
}

#[tactic(auto, using(av_values::proofs::Replacing::replacing))]
fn terminator(stack: &mut Stack, place: u32) -> Result<(), Fault>
    ensures ok { OnOk result (by_row RegionRule.TerminatorOperation place stack.old ≡ Some stack.new) }
    ensures misshapen { IfErr result (λ fault. fault ≡ Fault.Misshapen → by_row RegionRule.TerminatorOperation place stack.old ≡ None) }
{
    let alloc = stack.alloc();
    let word = stack.text()?;
    let rest = stack.terminated()?;
    let node = terminator_node(alloc, word, rest.values, place)?;
    stack.push_onward(Onward {
        node,
        others: rest.nodes,
    })?;
    Ok(())
}

fn terminator_node(
    alloc: Global,
    word: Text,
    values: TypedValues,
    place: u32,
) -> Result<Node, Fault>
    ensures ok { IfOk result (λ node. node ≡ terminator_of word values place) }
    ensures err { IfErr result (λ fault. fault ≡ Fault.NoMemory) }
{
    let name = terminator_name(alloc, word)?;
    let written = in_order(values.types);
    let types = written_types(alloc, written.as_slice())?;
    let operands = in_order(values.values);
    Ok(with_operands_of(plain_node(alloc, name, place), operands, types))
}

fn terminator_name(alloc: Global, word: Text) -> Result<Text, Fault>
    ensures ok { IfOk result (λ name. name ≡ name_of_end word) }
    ensures err { IfErr result (λ fault. fault ≡ Fault.NoMemory) }
{
    if word.as_slice() == b"return".as_slice() {
        text_of(alloc, b"func.return")
    } else {
        Ok(word)
    }
}

fn with_operands_of(mut node: Node, operands: Seq<Text>, types: Seq<Option<TypeText>>) -> Node
    ensures { result ≡ with_typed node operands types }
{
    node.operands = operands;
    node.in_types = types;
    node
}

// An operation without names of results, as it stands among others: the second region of a branch that
// has no results gets a terminator where it is empty.
#[tactic(auto, unfolding(av_values::specs::Forms::completed))]
fn completed(alloc: Global, mut node: Node) -> Result<Node, Fault>
    ensures ok { IfOk result (λ made. made ≡ the_completed node) }
    ensures err { IfErr result (λ fault. fault ≡ Fault.NoMemory) }
{
    if is_plain_branch(&node) {
        node.regions = second_ended(alloc, node.regions)?;
    }
    Ok(node)
}

fn is_plain_branch(node: &Node) -> bool
    ensures { result ≡ is_one_plain_branch node.now }
{
    node.name.as_slice() == b"affine.if".as_slice() && matches!(node.out_types.as_slice(), [])
}

// The second region with an operation; the others as they are.
fn second_ended(alloc: Global, mut regions: Seq<Body>) -> Result<Seq<Body>, Fault>
    ensures ok { IfOk result (λ made. made ≡ the_second_ended regions) }
    ensures err { IfErr result (λ fault. fault ≡ Fault.NoMemory) }
{
    if !lacks_second(regions.as_slice()) {
        return Ok(regions);
    }
    let second = regions.remove(1);
    let ended = with_end(alloc, second)?;
    regions.insert(1, ended)?;
    Ok(regions)
}

// A region with a terminator after its operations.
fn with_end(alloc: Global, mut body: Body) -> Result<Body, Fault>
    ensures ok { IfOk result (λ made. made ≡ the_end body) }
    ensures err { IfErr result (λ fault. fault ≡ Fault.NoMemory) }
{
    let name = text_of(alloc, b"affine.yield")?;
    body.nodes.push(plain_node(alloc, name, 0))?;
    Ok(body)
}

// Whether there is a second region, without operations.
fn lacks_second(regions: &[Body]) -> bool
    ensures { result ≡ lacks_second_of regions.now }
{
    match regions {
        [_, second, ..] => matches!(second.nodes.as_slice(), []),
        _ => false,
    }
}
