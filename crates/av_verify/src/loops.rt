//! Loops of the Affine dialect.

ghost use Rattle.std.specs.Prelude.{◌≡◌, [], true, IfOk};
ghost use Rattle.std.specs.List.{list_all};
ghost use Rattle.std.specs.Option.{option_copied};
ghost use Rattle.std.specs.Str.{bytes_eq};
ghost use Rattle.av_tree.specs.declared.node.Node.{out-Node};
ghost use Rattle.av_tree.specs.declared.node.Body.{out-Body};
ghost use Rattle.av_verify.specs.Codes.{Asked, first_failing};
ghost use Rattle.av_verify.specs.FirstPath.{is_last};
ghost use Rattle.av_verify.specs.Loops.{are_fresh, are_new, are_segments, arity_of, bounds_dimensions, end_with, gives_something, has_loop_entries, has_one_variable, is_index, is_index_number, is_parted, is_step, loop_agrees, loop_between, loop_op, loop_rules, lower_values, segments, segments_of, step_of, upper_values, with_names};

use super::access::{after, before, has_few_results, normal_entry};
use super::entries::{entry, has_good_entries, has_needed, map_in, marks_of, number_in};
use super::expressions::is_affine;
use super::maps::{MapUse, are_map_operands};
use super::names::{Names, are_visible, is_visible, values_named};
use super::operations::op_of;
use super::refusal::{Code, VerifyRefusal, ask_all, asks};
use super::results::has_no_result;
use super::rows::Row;
use super::scope::{Scope, agree_on_operands};
use super::types::{is_elem, written_scalar};
use av_affine::{No, Seq};
use av_ir::{Elem, Op, OpKind, Region, ValueId};
use av_tree::{Attr, Body, BodyArg, MapText, Node, TypeText};
use std::alloc::{AllocError, Global};

/// The greatest step.
const MAX_STEP: i128 = 0x7FFF_FFFF;

/// Asks all rules of a loop, where it is known whether the names of its arguments are new and whether a region
/// may be opened. Loops carry no values yet.
pub(crate) fn ask_loop(
    scope: &Scope,
    node: &Node,
    values: &[ValueId],
    new: bool,
    has_room: bool,
    number: No,
) -> Result<(), VerifyRefusal>
    ensures { Asked number (first_failing (loop_rules new has_room scope.now node.now values.now)) result (λ u. Unit {0}) }
{
    let lower = map_in(node, b"lowerBoundMap");
    let upper = map_in(node, b"upperBoundMap");
    let few = has_few_results(lower) && has_few_results(upper) && has_room;
    let rules = [
        asks(Code::Results, has_no_result(node)),
        asks(
            Code::Visible,
            are_visible(&scope.names, node.operands.as_slice()),
        ),
        asks(Code::New, new),
        asks(Code::Types, loop_agrees(scope, node, values)),
        asks(Code::Needed, has_needed(Row::Loop, node)),
        asks(Code::Property, has_loop_entries(node)),
        asks(Code::Arity, is_parted(node, values.len())),
        asks(Code::Dimension, bounds_dimensions(scope, node, values)),
        asks(Code::Step, is_step(number_in(node, b"step"))),
        asks(
            Code::Terminator,
            end_with(node.regions.as_slice(), b"affine.yield"),
        ),
        asks(Code::Regions, has_one_variable(node.regions.as_slice())),
        asks(Code::Expression, is_affine(lower) && is_affine(upper)),
        asks(Code::Limit, few),
    ];
    ask_all(&rules, number)
}

fn bounds_dimensions(scope: &Scope, node: &Node, values: &[ValueId]) -> bool
    ensures { result ≡ bounds_dimensions scope.now node.now values.now }
{
    let roles = scope.roles.as_slice();
    are_map_operands(
        roles,
        map_in(node, b"lowerBoundMap"),
        lower_values(node, values),
    ) && are_map_operands(
        roles,
        map_in(node, b"upperBoundMap"),
        upper_values(node, values),
    )
}

/// A loop around regions, all of whose rules hold.
pub(crate) fn loop_op(
    alloc: Global,
    node: &Node,
    values: &[ValueId],
    regions: Seq<Region>,
    number: No,
) -> Result<Op, AllocError>
    ensures { IfOk result (λ op. op ≡ loop_op node.now values.now regions number) }
{
    let lower = normal_entry(alloc, node, b"lowerBoundMap", lower_values(node, values))?;
    let upper = normal_entry(alloc, node, b"upperBoundMap", upper_values(node, values))?;
    loop_between(alloc, lower, upper, node, regions, number)
}

fn loop_between(
    alloc: Global,
    lower: MapUse,
    upper: MapUse,
    node: &Node,
    regions: Seq<Region>,
    number: No,
) -> Result<Op, AllocError>
    ensures { IfOk result (λ op. op ≡ loop_between lower upper node.now regions number) }
{
    let mut operands = lower.operands;
    operands.append(upper.operands)?;
    let kind = OpKind::AffineFor {
        lower: lower.map,
        upper: upper.map,
        step: step_of(number_in(node, b"step")),
    };
    let none = Seq::new(alloc);
    let marks = marks_of(Row::Loop, node);
    Ok(op_of(number, kind, operands, none, regions, marks))
}

/// Whether the names of the arguments of regions are new: none is visible, and none stands twice.
pub(crate) fn are_new(alloc: Global, names: &Names, bodies: &[Body]) -> Result<bool, AllocError>
    ensures { IfOk result (λ new. new ≡ are_new names.now [] bodies.now) }
{
    let mut seen = Names::new(alloc);
    for body in bodies {
        if !declare(alloc, names, &mut seen, body.args.as_slice())? {
            return Ok(false);
        }
    }
    Ok(true)
}

// Whether the names of arguments are new, which are then seen.
fn declare(
    alloc: Global,
    names: &Names,
    seen: &mut Names,
    args: &[BodyArg],
) -> Result<bool, AllocError>
    ensures fresh { IfOk result (λ fresh. fresh ≡ are_fresh names.now seen.old args.now) }
    ensures seen { IfOk result (λ fresh. fresh ≡ true → seen.new ≡ with_names seen.old args.now) }
{
    for arg in args {
        let name = Vec::from_slice(alloc, arg.name.as_slice())?;
        if is_visible(names, name.as_slice()) || is_visible(seen, name.as_slice()) {
            return Ok(false);
        }
        seen.bind(name, ValueId(0))?;
    }
    Ok(true)
}

fn loop_agrees(scope: &Scope, node: &Node, values: &[ValueId]) -> bool
    ensures { result ≡ loop_agrees scope.now node.now values.now }
{
    agree_on_operands(scope.values.as_slice(), node.in_types.as_slice(), values)
        && have_indices(node.regions.as_slice())
        && node.out_types.as_slice().is_empty()
}

fn have_indices(bodies: &[Body]) -> bool
    ensures { result ≡ list_all (λ body. list_all is_index (out-Body body).args) bodies.now }
{
    bodies.iter().all(|body| are_indices(body.args.as_slice()))
}

fn are_indices(args: &[BodyArg]) -> bool
    ensures { result ≡ list_all is_index args.now }
{
    args.iter().all(|arg| is_index(arg))
}

fn is_index(arg: &BodyArg) -> bool
    ensures { result ≡ is_index arg.now }
{
    match written_scalar(&arg.ty) {
        Some(elem) => is_elem(Elem::Index, elem),
        None => false,
    }
}

// Whether all entries of a loop have their forms.
fn has_loop_entries(node: &Node) -> bool
    ensures { result ≡ has_loop_entries node.now }
{
    has_good_entries(Row::Loop, node)
        && map_in(node, b"lowerBoundMap").is_some()
        && map_in(node, b"upperBoundMap").is_some()
        && is_index_number(entry(node, b"step"))
        && segments(node).is_some()
}

fn has_one_variable(bodies: &[Body]) -> bool
    ensures { result ≡ has_one_variable bodies.now }
{
    match bodies {
        [body] => body.args.len() == 1,
        _ => false,
    }
}

/// Whether each region ends with an operation of this name.
pub(crate) fn end_with(bodies: &[Body], name: &[u8]) -> bool
    ensures { result ≡ end_with name.now bodies.now }
{
    bodies
        .iter()
        .all(|body| ends_with(body.nodes.as_slice(), name))
}

fn ends_with(nodes: &[Node], name: &[u8]) -> bool
    ensures { result ≡ is_last (λ node. bytes_eq (out-Node node).name name.now) nodes.now }
{
    match nodes.last() {
        Some(last) => last.name.as_slice() == name,
        None => false,
    }
}

// Whether an entry is a number of type `index`.
fn is_index_number(value: Option<&Attr>) -> bool
    ensures { result ≡ is_index_number (option_copied value.entry) }
{
    match value {
        Some(
            Attr::Number {
                ty: TypeText::Scalar(name),
                ..
            },
        ) => name.as_slice() == b"index".as_slice(),
        _ => false,
    }
}

// The numbers of the operands of both bounds and of the carried values.
fn segments(node: &Node) -> Option<&[i128]>
    ensures { option_copied result ≡ segments node.now }
{
    numbers_of(entry(node, b"operandSegmentSizes"))
}

// The numbers of an array of type `i32`.
fn numbers_of(value: Option<&Attr>) -> Option<&[i128]>
    ensures { option_copied result ≡ segments_of (option_copied value.entry) }
{
    match value {
        Some(
            Attr::Array {
                elem: TypeText::Scalar(name),
                numbers,
            },
        ) => {
            if name.as_slice() == b"i32".as_slice() {
                Some(numbers.as_slice())
            } else {
                None
            }
        }
        _ => None,
    }
}

// The number of dimensions and symbols of a map.
fn arity_of(map: Option<&MapText>) -> usize
    ensures { result ≡ arity_of (option_copied map.entry) }
{
    match map {
        Some(map) => map.dims.as_slice().len() + map.syms.as_slice().len(),
        None => 0,
    }
}

// Whether the operands are parted as the bounds' maps take them, and each map gives something.
fn is_parted(node: &Node, operands: usize) -> bool
    ensures { result ≡ is_parted node.now operands }
{
    let lowers = arity_of(map_in(node, b"lowerBoundMap"));
    let uppers = arity_of(map_in(node, b"upperBoundMap"));
    are_segments(segments(node), lowers, uppers)
        && lowers <= operands
        && operands - lowers == uppers
        && gives_something(map_in(node, b"lowerBoundMap"))
        && gives_something(map_in(node, b"upperBoundMap"))
}

fn are_segments(counts: Option<&[i128]>, lowers: usize, uppers: usize) -> bool
    ensures { result ≡ are_segments (option_copied counts.entry) lowers uppers }
{
    match counts {
        Some([lower, upper, carried]) => *lower == lowers as i128
            && *upper == uppers as i128
            && *carried == 0,
        _ => false,
    }
}

fn gives_something(map: Option<&MapText>) -> bool
    ensures { result ≡ gives_something (option_copied map.entry) }
{
    match map {
        Some(map) => !map.results.as_slice().is_empty(),
        None => false,
    }
}

// The operands of the lower bound.
fn lower_values<'v>(node: &Node, values: &'v [ValueId]) -> &'v [ValueId]
    ensures { result.now ≡ lower_values node.now values.now }
{
    before(values, arity_of(map_in(node, b"lowerBoundMap")))
}

// The operands of the upper bound.
fn upper_values<'v>(node: &Node, values: &'v [ValueId]) -> &'v [ValueId]
    ensures { result.now ≡ upper_values node.now values.now }
{
    after(values, arity_of(map_in(node, b"lowerBoundMap")))
}

fn is_step(step: Option<i128>) -> bool
    ensures { result ≡ is_step step }
{
    match step {
        Some(step) => 1 <= step && step <= MAX_STEP,
        None => false,
    }
}

fn step_of(step: Option<i128>) -> u64
    ensures { result ≡ step_of step }
{
    match step {
        Some(step) => u64::try_from(step).unwrap_or(0),
        None => 0,
    }
}
