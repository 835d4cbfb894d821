//! The forms of trees that are taken so far: one function of plain loops over `i32` buffers.

ghost use Rattle.std.specs.Prelude.{◌≡◌, codes};
ghost use Rattle.std.specs.List.{list_all};
ghost use Rattle.std.specs.Option.{option_copied};
ghost use Rattle.av_tree.specs.declared.written.ExprText.{out-ExprText};
ghost use Rattle.av_verify.specs.Entries.{is_dropped};
ghost use Rattle.av_verify.specs.FirstPath.{front, gives_nothing, has_entries, has_no_parameter, has_plain_subscript, is_alone, is_bare, is_block, is_constant_bound, is_end, is_first_path_of, is_function_body, is_in_function, is_in_loop, is_last, is_loop_body, is_module_body, is_named, is_plain_access, is_plain_buffer, is_plain_constant, is_plain_function, is_plain_loop, is_plain_module, is_plain_number, is_subscript, is_variable};

use super::entries::{counted, entry, is_dropped, map_in, number_in};
use super::rows::Row;
use av_affine::Text;
use av_tree::{Attr, Body, BodyArg, ExprText, MapText, Named, Node, SizeText, Tree, TypeText};

/// Whether a tree has only the forms of the first path. It takes no memory.
///
/// There is no alias, and one module without name and attributes, with one function without results,
/// attributes and visibility. Its arguments are `memref<Nxi32>`. In its body stand constants of type
/// `i32` and loops between constant bounds with step 1, which carry no value and have no loop inside. In a
/// loop stand such constants, `arith.addi`, and loads and stores with one subscript: the loop's variable
/// `%i`, `%i + N`, `%i - N` or `N`. Operations have their properties, among the attributes or not, the marks in their
/// places, and what is dropped on every operation; no other attribute stands. Types are not compared here.
pub fn is_first_path(tree: &Tree) -> bool
    ensures { result ≡ is_first_path_of tree.now }
{
    tree.aliases.as_slice().is_empty() && is_plain_module(&tree.root)
}

fn is_plain_module(root: &Node) -> bool
    ensures { result ≡ is_plain_module root.now }
{
    is_bare(root, b"builtin.module")
        && match root.regions.as_slice() {
            [body] => is_module_body(body),
            _ => false,
        }
}

fn is_module_body(body: &Body) -> bool
    ensures { result ≡ is_module_body body.now }
{
    body.args.as_slice().is_empty()
        && match body.nodes.as_slice() {
            [func] => is_plain_function(func),
            _ => false,
        }
}

fn is_named(node: &Node, name: &[u8]) -> bool
    ensures { result ≡ is_named name.now node.now }
{
    node.name.as_slice() == name
}

// Whether an operation has this name, and neither properties nor attributes but those that are dropped.
fn is_bare(node: &Node, name: &[u8]) -> bool
    ensures { result ≡ is_bare name.now node.now }
{
    is_named(node, name)
        && are_dropped(node.properties.as_slice())
        && are_dropped(node.attrs.as_slice())
}

fn are_dropped(entries: &[Named]) -> bool
    ensures { result ≡ list_all is_dropped entries.now }
{
    entries.iter().all(|entry| is_dropped(entry))
}

#[tactic(auto, unfolding(crate::specs::FirstPath::is_plain_function))]
fn is_plain_function(node: &Node) -> bool
    ensures { result ≡ is_plain_function node.now }
{
    is_named(node, b"func.func")
        && counted(Row::Function, node) == 2
        && entry(node, b"sym_name").is_some()
        && gives_nothing(entry(node, b"function_type"))
        && match node.regions.as_slice() {
            [body] => is_function_body(body),
            _ => false,
        }
}

/// Whether a value is a function type without results.
pub(crate) fn gives_nothing(ty: Option<&Attr>) -> bool
    ensures { result ≡ gives_nothing (option_copied ty.entry) }
{
    match ty {
        Some(Attr::Type(TypeText::Func { results, .. })) => results.as_slice().is_empty(),
        _ => false,
    }
}

// Whether a type is `memref<Nxi32>`.
fn is_plain_buffer(ty: &TypeText) -> bool
    ensures { result ≡ is_plain_buffer ty.now }
{
    match ty {
        TypeText::MemRef {
            sizes,
            elem,
            layout: None,
        } => match sizes.as_slice() {
            [SizeText::Fixed(_)] => elem.as_slice() == b"i32".as_slice(),
            _ => false,
        },
        _ => false,
    }
}

fn are_plain_buffers(args: &[BodyArg]) -> bool
    ensures { result ≡ list_all (λ arg. is_plain_buffer arg.ty) args.now }
{
    args.iter().all(|arg| is_plain_buffer(&arg.ty))
}

fn is_function_body(body: &Body) -> bool
    ensures { result ≡ is_function_body body.now }
{
    are_plain_buffers(body.args.as_slice()) && is_function_block(body.nodes.as_slice())
}

fn is_function_block(nodes: &[Node]) -> bool
    ensures { result ≡ is_block is_in_function (is_end (codes "func.return")) nodes.now }
{
    ends(nodes, b"func.return") && are_in_function(front(nodes))
}

fn are_in_function(nodes: &[Node]) -> bool
    ensures { result ≡ list_all is_in_function nodes.now }
{
    nodes.iter().all(|node| is_in_function(node))
}

fn is_in_function(node: &Node) -> bool
    ensures { result ≡ is_in_function node.now }
{
    is_plain_constant(node) || is_plain_loop(node)
}

// All operations but the last.
fn front(nodes: &[Node]) -> &[Node]
    ensures { result.now ≡ front nodes.now }
{
    &nodes[..nodes.len().saturating_sub(1)]
}

// Whether the last operation is an end of this name.
fn ends(nodes: &[Node], name: &[u8]) -> bool
    ensures { result ≡ is_last (is_end name.now) nodes.now }
{
    match nodes.last() {
        Some(last) => is_end(last, name),
        None => false,
    }
}

// Whether an operation ends a region without giving values.
fn is_end(node: &Node, name: &[u8]) -> bool
    ensures { result ≡ is_end name.now node.now }
{
    is_bare(node, name) && node.operands.as_slice().is_empty()
}

fn is_plain_constant(node: &Node) -> bool
    ensures { result ≡ is_plain_constant node.now }
{
    is_named(node, b"arith.constant")
        && counted(Row::Constant, node) == 1
        && is_plain_number(entry(node, b"value"))
}

// Whether a value is a number of type `i32`.
fn is_plain_number(value: Option<&Attr>) -> bool
    ensures { result ≡ is_plain_number (option_copied value.entry) }
{
    match value {
        Some(
            Attr::Number {
                ty: TypeText::Scalar(name),
                ..
            },
        ) => name.as_slice() == b"i32".as_slice(),
        _ => false,
    }
}

#[tactic(auto, unfolding(crate::specs::FirstPath::is_plain_loop))]
fn is_plain_loop(node: &Node) -> bool
    ensures { result ≡ is_plain_loop node.now }
{
    is_named(node, b"affine.for")
        && counted(Row::Loop, node) == 4
        && node.operands.as_slice().is_empty()
        && is_constant_bound(map_in(node, b"lowerBoundMap"))
        && is_constant_bound(map_in(node, b"upperBoundMap"))
        && number_in(node, b"step") == Some(1)
        && entry(node, b"operandSegmentSizes").is_some()
        && match node.regions.as_slice() {
            [body] => is_loop_body(body),
            _ => false,
        }
}

fn is_constant_bound(bound: Option<&MapText>) -> bool
    ensures { result ≡ is_constant_bound (option_copied bound.entry) }
{
    match bound {
        Some(map) => has_no_parameter(map)
            && matches!(map.results.as_slice(), [ExprText::Const(_)]),
        None => false,
    }
}

fn is_loop_body(body: &Body) -> bool
    ensures { result ≡ is_loop_body body.now }
{
    match body.args.as_slice() {
        [variable] => is_loop_block(body.nodes.as_slice(), variable.name.as_slice()),
        _ => false,
    }
}

fn is_loop_block(nodes: &[Node], variable: &[u8]) -> bool
    ensures { result ≡ is_block (is_in_loop variable.now) (is_end (codes "affine.yield")) nodes.now }
{
    ends(nodes, b"affine.yield") && are_in_loop(front(nodes), variable)
}

fn are_in_loop(nodes: &[Node], variable: &[u8]) -> bool
    ensures { result ≡ list_all (is_in_loop variable.now) nodes.now }
{
    nodes.iter().all(|node| is_in_loop(node, variable))
}

#[tactic(auto, unfolding(crate::specs::FirstPath::is_in_loop))]
fn is_in_loop(node: &Node, variable: &[u8]) -> bool
    ensures { result ≡ is_in_loop variable.now node.now }
{
    is_plain_constant(node)
        || is_bare(node, b"arith.addi")
        || (is_named(node, b"affine.load") && is_plain_access(node, Row::Load, 1, variable))
        || (is_named(node, b"affine.store") && is_plain_access(node, Row::Store, 2, variable))
}

// An access with one subscript, whose values stand after the first operands.
fn is_plain_access(node: &Node, row: Row, first: usize, variable: &[u8]) -> bool
    ensures { result ≡ is_plain_access row first variable.now node.now }
{
    let values = node.operands.as_slice().get(first..).unwrap_or(&[]);
    counted(row, node) == 1 && has_plain_subscript(map_in(node, b"map"), values, variable)
}

fn has_plain_subscript(map: Option<&MapText>, values: &[Text], variable: &[u8]) -> bool
    ensures { result ≡ has_plain_subscript values.now variable.now (option_copied map.entry) }
{
    match map {
        Some(map) => match map.results.as_slice() {
            [expr] => is_plain_subscript(map, expr, values, variable),
            _ => false,
        },
        None => false,
    }
}

// `%i`, `%i + N`, `%i - N` or `N`.
fn is_plain_subscript(map: &MapText, expr: &ExprText, values: &[Text], variable: &[u8]) -> bool
    ensures { result ≡ is_subscript map.now values.now variable.now (out-ExprText expr.now) }
{
    match expr {
        ExprText::Const(_) => has_no_parameter(map) && values.is_empty(),
        ExprText::Name(name) => is_variable(map, name, values, variable),
        ExprText::Add(left, right) | ExprText::Sub(left, right) => match (left.get(), right.get()) {
            (ExprText::Name(name), ExprText::Const(_)) => is_variable(map, name, values, variable),
            _ => false,
        },
        _ => false,
    }
}

fn is_variable(map: &MapText, name: &Text, values: &[Text], variable: &[u8]) -> bool
    ensures { result ≡ is_variable map.now values.now variable.now name.now }
{
    map.syms.as_slice().is_empty()
        && is_alone(map.dims.as_slice(), name.as_slice())
        && is_alone(values, variable)
}

fn is_alone(names: &[Text], name: &[u8]) -> bool
    ensures { result ≡ is_alone name.now names.now }
{
    match names {
        [only] => only.as_slice() == name,
        _ => false,
    }
}

fn has_no_parameter(map: &MapText) -> bool
    ensures { result ≡ has_no_parameter map.now }
{
    map.dims.as_slice().is_empty() && map.syms.as_slice().is_empty()
}
