//! Operations and regions of a function.

ghost use Rattle.std.specs.Prelude.{◌≡◌, ◌∷◌, [], IfOk, OnOk, map};
ghost use Rattle.av_ir.specs.declared.module.Op.{out-Op};
ghost use Rattle.av_tree.specs.declared.node.Node.{out-Node, roll-Node};
ghost use Rattle.av_totree.specs.Names.{name_of, naming_of, written_type as type_written};
ghost use Rattle.av_totree.specs.Trees.{argument_type as type_of_argument, body_of, in_turn, make_argument, node_of, whole_node as whole_node_of};

use crate::kinds::operation_name;
use crate::names::{Names, written_type};
use crate::properties::{mark_attributes, properties};
use crate::texts::text_of;
use crate::types::scalar;
use av_affine::{Seq, Text};
use av_ir::{Op, Region, Ty, ValueId};
use av_tree::{Body, BodyArg, Node, TypeText};
use std::alloc::{AllocError, Global};

/// A region, whose values get the next names.
#[cycle(nodes)]
pub(crate) fn region_body(
    alloc: Global,
    types: &[Ty],
    region: &Region,
    names: &mut Names,
) -> Result<Body, AllocError>
    ensures made { IfOk result (λ b. b ≡ (body_of types.now region.now (naming_of names.old)).made) }
    ensures naming { OnOk result (naming_of names.new ≡ (body_of types.now region.now (naming_of names.old)).naming) }
{
    let args = arguments(alloc, types, region.args.as_slice(), names)?;
    let nodes = operation_nodes(alloc, types, region.ops.as_slice(), names)?;
    Ok(Body { args, nodes })
}

#[cycle(nodes)]
fn operation_nodes(
    alloc: Global,
    types: &[Ty],
    ops: &[Op],
    names: &mut Names,
) -> Result<Seq<Node>, AllocError>
    ensures made { IfOk result (λ n. n ≡ (in_turn (map (node_of types.now) ops.now) (naming_of names.old)).made) }
    ensures naming { OnOk result (naming_of names.new ≡ (in_turn (map (node_of types.now) ops.now) (naming_of names.old)).naming) }
{
    let mut nodes = Seq::new(alloc);
    for op in ops {
        nodes.push(operation_node(alloc, types, op, names)?)?;
    }
    Ok(nodes)
}

#[cycle(nodes)]
fn operation_node(
    alloc: Global,
    types: &[Ty],
    op: &Op,
    names: &mut Names,
) -> Result<Node, AllocError>
    ensures made { IfOk result (λ n. n ≡ (node_of types.now op.now (naming_of names.old)).made) }
    ensures naming { OnOk result (naming_of names.new ≡ (node_of types.now op.now (naming_of names.old)).naming) }
{
    let node = unnamed_node(alloc, types, op, names)?;
    let results = names.name_results(alloc, op.results.as_slice())?;
    let regions = region_bodies(alloc, types, op.regions.as_slice(), names)?;
    Ok(whole_node(node, results, regions))
}

#[cycle(nodes)]
fn region_bodies(
    alloc: Global,
    types: &[Ty],
    regions: &[Region],
    names: &mut Names,
) -> Result<Seq<Body>, AllocError>
    ensures made { IfOk result (λ b. b ≡ (in_turn (map (body_of types.now) regions.now) (naming_of names.old)).made) }
    ensures naming { OnOk result (naming_of names.new ≡ (in_turn (map (body_of types.now) regions.now) (naming_of names.old)).naming) }
{
    let mut bodies = Seq::new(alloc);
    for region in regions {
        bodies.push(region_body(alloc, types, region, names)?)?;
    }
    Ok(bodies)
}

// The operation without the names of its results and without its regions.
fn unnamed_node(alloc: Global, types: &[Ty], op: &Op, names: &Names) -> Result<Node, AllocError>
    ensures { IfOk result (λ n. n ≡ whole_node_of types.now (out-Op op.now) [] [] (naming_of names.now)) }
{
    Ok(Node {
        name: text_of(alloc, operation_name(&op.kind))?,
        place: 0,
        results: Seq::new(alloc),
        operands: operand_names(alloc, names, op.operands.as_slice())?,
        properties: properties(alloc, types, op)?,
        attrs: mark_attributes(alloc, &op.marks)?,
        regions: Seq::new(alloc),
        in_types: written_types(alloc, types, op.operands.as_slice())?,
        out_types: written_types(alloc, types, op.results.as_slice())?,
    })
}

fn whole_node(node: Node, results: Seq<Text>, regions: Seq<Body>) -> Node
    ensures { result ≡ roll-Node (record (out-Node node) { results = results; regions = regions }) }
{
    let mut whole = node;
    whole.results = results;
    whole.regions = regions;
    whole
}

fn operand_names(
    alloc: Global,
    names: &Names,
    operands: &[ValueId],
) -> Result<Seq<Text>, AllocError>
    ensures { IfOk result (λ t. t ≡ map (name_of (naming_of names.now)) operands.now) }
{
    let mut texts = Seq::new(alloc);
    for operand in operands {
        texts.push(names.name_of(alloc, *operand)?)?;
    }
    Ok(texts)
}

fn written_types(
    alloc: Global,
    types: &[Ty],
    values: &[ValueId],
) -> Result<Seq<Option<TypeText>>, AllocError>
    ensures { IfOk result (λ t. t ≡ map (type_written types.now) values.now) }
{
    let mut texts = Seq::new(alloc);
    for value in values {
        texts.push(written_type(alloc, types, *value)?)?;
    }
    Ok(texts)
}

fn arguments(
    alloc: Global,
    types: &[Ty],
    values: &[ValueId],
    names: &mut Names,
) -> Result<Seq<BodyArg>, AllocError>
    ensures made { IfOk result (λ a. a ≡ (in_turn (map (make_argument types.now) values.now) (naming_of names.old)).made) }
    ensures naming { OnOk result (naming_of names.new ≡ (in_turn (map (make_argument types.now) values.now) (naming_of names.old)).naming) }
{
    let mut args = Seq::new(alloc);
    for value in values {
        args.push(argument(alloc, types, *value, names)?)?;
    }
    Ok(args)
}

fn argument(
    alloc: Global,
    types: &[Ty],
    value: ValueId,
    names: &mut Names,
) -> Result<BodyArg, AllocError>
    ensures made { IfOk result (λ a. a ≡ (make_argument types.now value (naming_of names.old)).made) }
    ensures naming { OnOk result (naming_of names.new ≡ (make_argument types.now value (naming_of names.old)).naming) }
{
    let ty = argument_type(alloc, types, value)?;
    let name = names.name_argument(alloc, value)?;
    Ok(BodyArg { name, ty })
}

/// The type of an argument of a block.
pub(crate) fn argument_type(
    alloc: Global,
    types: &[Ty],
    value: ValueId,
) -> Result<TypeText, AllocError>
    ensures { IfOk result (λ t. t ≡ type_of_argument types.now value) }
{
    match written_type(alloc, types, value)? {
        Some(ty) => Ok(ty),
        None => scalar(alloc, b"index"),
    }
}
