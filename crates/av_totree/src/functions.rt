//! Modules and functions.

ghost use Rattle.std.specs.Prelude.{◌≡◌, IfOk, map};
ghost use Rattle.av_totree.specs.Trees.{argument_type as type_of_argument, body_of, function_of, outer_node as outer_node_of, tree_of};
ghost use Rattle.av_totree.specs.Names.{first_naming};

use crate::names::Names;
use crate::operations::{argument_type, region_body};
use crate::properties::{function_properties, mark_attributes};
use crate::texts::text_of;
use crate::types::type_texts;
use av_affine::Seq;
use av_ir::{Func, Module, Ty, ValueId};
use av_tree::{Body, Named, Node, Tree, TypeText};
use std::alloc::{AllocError, Global};

/// The tree of a module: with every type, without aliases, all at place 0. Arguments of blocks are named
/// `%arg0`, `%arg1`, .. and operations with results `%0`, `%1`, .., each in order through a function.
///
/// # Errors
///
/// Want of memory.
pub fn to_tree(alloc: Global, module: &Module) -> Result<Tree, AllocError>
    ensures { IfOk result (λ tree. tree ≡ tree_of «module».now) }
{
    let nodes = function_nodes(alloc, module.funcs.as_slice())?;
    let content = Body {
        args: Seq::new(alloc),
        nodes,
    };
    Ok(Tree {
        aliases: Seq::new(alloc),
        root: outer_node(
            alloc,
            b"builtin.module",
            Seq::new(alloc),
            Seq::new(alloc),
            content,
        )?,
    })
}

fn function_nodes(alloc: Global, functions: &[Func]) -> Result<Seq<Node>, AllocError>
    ensures { IfOk result (λ n. n ≡ map function_of functions.now) }
{
    let mut nodes = Seq::new(alloc);
    for function in functions {
        nodes.push(function_node(alloc, function)?)?;
    }
    Ok(nodes)
}

fn function_node(alloc: Global, function: &Func) -> Result<Node, AllocError>
    ensures { IfOk result (λ n. n ≡ function_of function.now) }
{
    let types = function.values.as_slice();
    let inputs = argument_types(alloc, types, function.body.args.as_slice())?;
    let results = type_texts(alloc, function.results.as_slice())?;
    let properties = function_properties(alloc, function.name.as_slice(), inputs, results)?;
    let attrs = mark_attributes(alloc, &function.marks)?;
    outer_node(
        alloc,
        b"func.func",
        properties,
        attrs,
        function_body(alloc, function)?,
    )
}

// A node without results and operands, around one region.
fn outer_node(
    alloc: Global,
    name: &[u8],
    properties: Seq<Named>,
    attrs: Seq<Named>,
    body: Body,
) -> Result<Node, AllocError>
    ensures { IfOk result (λ n. n ≡ outer_node_of name.now properties attrs body) }
{
    let mut regions = Seq::new(alloc);
    regions.push(body)?;
    Ok(Node {
        name: text_of(alloc, name)?,
        place: 0,
        results: Seq::new(alloc),
        operands: Seq::new(alloc),
        properties,
        attrs,
        regions,
        in_types: Seq::new(alloc),
        out_types: Seq::new(alloc),
    })
}

fn function_body(alloc: Global, function: &Func) -> Result<Body, AllocError>
    ensures { let f = function.now in IfOk result (λ b. b ≡ (body_of f.values f.body (first_naming f.values)).made) }
{
    let mut names = Names::new(alloc, function.values.as_slice())?;
    region_body(
        alloc,
        function.values.as_slice(),
        &function.body,
        &mut names,
    )
}

fn argument_types(
    alloc: Global,
    types: &[Ty],
    args: &[ValueId],
) -> Result<Seq<TypeText>, AllocError>
    ensures { IfOk result (λ t. t ≡ map (type_of_argument types.now) args.now) }
{
    let mut texts = Seq::new(alloc);
    for arg in args {
        texts.push(argument_type(alloc, types, *arg)?)?;
    }
    Ok(texts)
}
