//! Operations and regions, in the order of the text.

ghost use Rattle.std.specs.Prelude.{◌≡◌, ◌+◌, [], length, unwrap_or, IfOk, OnOk};
ghost use Rattle.av_ir.specs.declared.ty.Elem.TheVariants.{Index};
ghost use Rattle.av_ir.specs.declared.ty.Ty.TheVariants.{Scalar};
ghost use Rattle.av_verify.specs.Arith.{operands_of};
ghost use Rattle.av_verify.specs.Codes.{Asked, first_failing};
ghost use Rattle.av_verify.specs.Elaboration.{Elaborates, argument_values, in_order, known_with, loop_of, only_region, operation_with, region_of, region_with, with_arguments};
ghost use Rattle.av_verify.specs.Ends.{end_agrees, end_kind, end_op, end_rules};
ghost use Rattle.av_verify.specs.Ops.{op_of};
ghost use Rattle.av_verify.specs.Scopes.{defined, next_value};
ghost use Rattle.av_verify.specs.Types.{type_of};

use super::access::{load, store};
use super::arith::{binary, constant};
use super::entries::{has_good_entries, has_needed};
use super::loops::{are_new, ask_loop, loop_op};
use super::names::{are_visible, values_named};
use super::refusal::{Code, VerifyRefusal, ask_all, asks, bad};
use super::results::has_no_result;
use super::rows::{Row, row_of};
use super::scope::{Role, Scope, agree_on_operands, define, take_number};
use super::types::type_of;
use av_affine::{No, Seq};
use av_ir::{Elem, Marks, Op, OpKind, Region, Ty, ValueId};
use av_tree::{Body, BodyArg, Node};
use std::alloc::{AllocError, Global};

/// The marks of an operation that has none.
pub(crate) const NO_MARKS: Marks = Marks {
    loop_no: None,
    source: None,
    distinct: false,
};

/// An operation of these parts.
#[tactic(auto, unfolding(crate::specs::Ops::op_of))]
pub(crate) fn op_of(
    number: No,
    kind: OpKind,
    operands: Seq<ValueId>,
    results: Seq<ValueId>,
    regions: Seq<Region>,
    marks: Marks,
) -> Op
    ensures { result ≡ op_of number kind operands results regions marks }
{
    Op {
        number,
        kind,
        operands,
        results,
        regions,
        marks,
    }
}

/// The one region of an operation, in which so many more regions may be opened; nothing where there isn't one.
#[cycle(elaborating)]
pub(crate) fn only_region(
    alloc: Global,
    scope: &mut Scope,
    bodies: &[Body],
    role: Role,
    room: u32,
) -> Result<Region, VerifyRefusal>
    ensures { Elaborates (only_region (region_with (operation_with (loop_of room)) role) scope.old bodies.now) result scope.new }
{
    match bodies {
        [body] => region(alloc, scope, body, role, room),
        _ => Ok(region_of(Seq::new(alloc), Seq::new(alloc))),
    }
}

fn region_of(args: Seq<ValueId>, ops: Seq<Op>) -> Region
    ensures { result ≡ region_of args ops }
{
    Region { args, ops }
}

// A region, whose names are visible in it alone.
#[cycle(elaborating)]
fn region(
    alloc: Global,
    scope: &mut Scope,
    body: &Body,
    role: Role,
    room: u32,
) -> Result<Region, VerifyRefusal>
    ensures { Elaborates (region_with (operation_with (loop_of room)) role scope.old body.now) result scope.new }
{
    let outer = scope.names.len();
    let args = add_arguments(alloc, scope, body.args.as_slice(), role)?;
    let ops = operations(alloc, scope, body.nodes.as_slice(), room)?;
    scope.names.truncate(outer);
    Ok(region_of(args, ops))
}

// The operations of a region, each in the scope after the one before it.
#[cycle(elaborating)]
fn operations(
    alloc: Global,
    scope: &mut Scope,
    nodes: &[Node],
    room: u32,
) -> Result<Seq<Op>, VerifyRefusal>
    ensures { Elaborates (in_order (operation_with (loop_of room)) [] scope.old nodes.now) result scope.new }
{
    let mut ops = Seq::new(alloc);
    for at in 0..nodes.len() {
        let op = operation(alloc, scope, &nodes[at], nodes.len() - at == 1, room)?;
        ops.push(op)?;
    }
    Ok(ops)
}

// The values of the arguments of a region.
fn add_arguments(
    alloc: Global,
    scope: &mut Scope,
    args: &[BodyArg],
    role: Role,
) -> Result<Seq<ValueId>, AllocError>
    ensures values { IfOk result (λ values. values ≡ argument_values (length scope.old.values) args.now) }
    ensures scope { OnOk result (scope.new ≡ with_arguments scope.old role args.now) }
{
    let mut values = Seq::new(alloc);
    for arg in args {
        let value = add_argument(alloc, scope, arg, role)?;
        values.push(value)?;
    }
    Ok(values)
}

fn add_argument(
    alloc: Global,
    scope: &mut Scope,
    arg: &BodyArg,
    role: Role,
) -> Result<ValueId, AllocError>
    ensures value { IfOk result (λ value. value ≡ next_value scope.old) }
    ensures scope { OnOk result (scope.new ≡ defined scope.old arg.now.name (unwrap_or (type_of arg.now.ty) (Scalar Index)) role) }
{
    let name = Vec::from_slice(alloc, arg.name.as_slice())?;
    let ty = type_of(alloc, &arg.ty)?.unwrap_or(Ty::Scalar(Elem::Index));
    define(scope, name, ty, role)
}

// An operation in a region, at its end or not.
#[cycle(elaborating)]
fn operation(
    alloc: Global,
    scope: &mut Scope,
    node: &Node,
    is_last: bool,
    room: u32,
) -> Result<Op, VerifyRefusal>
    ensures { Elaborates (operation_with (loop_of room) is_last scope.old node.now) result scope.new }
{
    let number = take_number(&mut scope.owners, 0)?;
    match row_of(node.name.as_slice()) {
        Some(row) => known(alloc, scope, node, row, is_last, room, number),
        None => Err(bad(number, Code::Name)),
    }
}

// An operation of a known name.
#[cycle(elaborating)]
fn known(
    alloc: Global,
    scope: &mut Scope,
    node: &Node,
    row: Row,
    is_last: bool,
    room: u32,
    number: No,
) -> Result<Op, VerifyRefusal>
    ensures { Elaborates (known_with (loop_of room) row number is_last scope.old node.now) result scope.new }
{
    match row {
        Row::Constant => constant(alloc, scope, node, number),
        Row::Binary(op) => binary(alloc, scope, node, op, number),
        Row::Load => load(alloc, scope, node, number),
        Row::Store => store(alloc, scope, node, number),
        Row::Return => terminator(alloc, scope, node, Row::Return, is_last, number),
        Row::Yield => terminator(alloc, scope, node, Row::Yield, is_last, number),
        Row::Module => Err(bad(number, Code::Place)),
        Row::Function => Err(bad(number, Code::Place)),
        Row::Loop => affine_for(alloc, scope, node, room, number),
    }
}

// A loop, where so many more regions may be opened.
#[cycle(elaborating)]
fn affine_for(
    alloc: Global,
    scope: &mut Scope,
    node: &Node,
    room: u32,
    number: No,
) -> Result<Op, VerifyRefusal>
    ensures { Elaborates (loop_of room number scope.old node.now) result scope.new }
{
    if room == 0 {
        loop_without_room(alloc, scope, node, number)
    } else {
        loop_with_room(alloc, scope, node, room - 1, number)
    }
}

// No region may be opened: a loop fails by this limit at the latest.
fn loop_without_room(
    alloc: Global,
    scope: &Scope,
    node: &Node,
    number: No,
) -> Result<Op, VerifyRefusal>
    ensures { Elaborates (loop_of 0 number scope.now node.now) result scope.now }
{
    let values = values_named(alloc, &scope.names, node.operands.as_slice())?;
    let new = are_new(alloc, &scope.names, node.regions.as_slice())?;
    ask_loop(scope, node, values.as_slice(), new, false, number)?;
    Err(bad(number, Code::Limit))
}

// In the loop's region so many more may be opened.
#[cycle(elaborating)]
fn loop_with_room(
    alloc: Global,
    scope: &mut Scope,
    node: &Node,
    room: u32,
    number: No,
) -> Result<Op, VerifyRefusal>
    ensures { Elaborates (loop_of (room + 1) number scope.old node.now) result scope.new }
{
    let values = values_named(alloc, &scope.names, node.operands.as_slice())?;
    let new = are_new(alloc, &scope.names, node.regions.as_slice())?;
    ask_loop(scope, node, values.as_slice(), new, true, number)?;
    let inside = only_region(alloc, scope, node.regions.as_slice(), Role::Dimension, room)?;
    let mut regions = Seq::new(alloc);
    regions.push(inside)?;
    Ok(loop_op(alloc, node, values.as_slice(), regions, number)?)
}

// An operation that ends a region, without operands. That it is of the region's own kind is asked at
// the operation around it.
fn terminator(
    alloc: Global,
    scope: &Scope,
    node: &Node,
    row: Row,
    is_last: bool,
    number: No,
) -> Result<Op, VerifyRefusal>
    ensures { Asked number (first_failing (end_rules row is_last scope.now node.now)) result (λ op. op ≡ end_op row scope.now node.now number) }
{
    let operands = values_named(alloc, &scope.names, node.operands.as_slice())?;
    ask_terminator(scope, node, row, operands.as_slice(), is_last, number)?;
    let none = Seq::new(alloc);
    let regions = Seq::new(alloc);
    Ok(op_of(number, end_kind(row), operands, none, regions, NO_MARKS))
}

fn end_kind(row: Row) -> OpKind
    ensures { result ≡ end_kind row }
{
    match row {
        Row::Return => OpKind::FuncReturn,
        _ => OpKind::AffineYield,
    }
}

fn ask_terminator(
    scope: &Scope,
    node: &Node,
    row: Row,
    operands: &[ValueId],
    is_last: bool,
    number: No,
) -> Result<(), VerifyRefusal>
    requires { operands.now ≡ operands_of scope.now node.now }
    ensures { Asked number (first_failing (end_rules row is_last scope.now node.now)) result (λ u. Unit {0}) }
{
    let rules = [
        asks(
            Code::Operands,
            node.operands.as_slice().is_empty() || !is_last,
        ),
        asks(Code::Results, has_no_result(node)),
        asks(
            Code::Visible,
            are_visible(&scope.names, node.operands.as_slice()),
        ),
        asks(Code::Types, end_agrees(scope, node, operands)),
        asks(Code::Needed, has_needed(row, node)),
        asks(Code::Property, has_good_entries(row, node)),
        asks(Code::Terminator, is_last),
        asks(Code::Regions, node.regions.as_slice().is_empty()),
    ];
    ask_all(&rules, number)
}

fn end_agrees(scope: &Scope, node: &Node, operands: &[ValueId]) -> bool
    ensures { result ≡ end_agrees scope.now node.now operands.now }
{
    agree_on_operands(scope.values.as_slice(), node.in_types.as_slice(), operands)
        && node.out_types.as_slice().is_empty()
}
