//! Loads and stores of the Affine dialect.

ghost use Rattle.std.specs.Prelude.{◌≡◌, ◌++◌, take, drop, IfOk, OnOk};
ghost use Rattle.std.specs.Option.{option_copied};
ghost use Rattle.av_ir.specs.declared.ty.Ty.TheVariants.{Scalar};
ghost use Rattle.av_verify.specs.declared.scope.Role.TheVariants.{Plain};
ghost use Rattle.av_verify.specs.Accesses.{elem_of_buffer, has_few_results, is_buffer, load_agrees, load_op, load_rules, load_rules_at, load_with, loaded_elem, no_map, normal_entry, operand_type, rank_of, store_agrees, store_op, store_rules, store_rules_at, store_with, stores_elem, used_map};
ghost use Rattle.av_verify.specs.Codes.{Asked, first_failing};
ghost use Rattle.av_verify.specs.Results.{result_name};
ghost use Rattle.av_verify.specs.Scopes.{defined};

use super::arith::{agrees_on_result, only};
use super::entries::{has_good_entries, has_needed, map_in, marks_of};
use super::expressions::is_affine;
use super::maps::{MapUse, are_map_operands, has_arity, normalised};
use super::names::{are_visible, is_visible, values_named};
use super::operations::op_of;
use super::refusal::{Code, VerifyRefusal, ask_all, asks};
use super::results::{has_no_result, has_one_result, result_name};
use super::rows::Row;
use super::scope::{Role, Scope, agree_on_operands, define, type_at};
use super::types::{is_elem, scalar_of};
use av_affine::{AffMap, No, Seq};
use av_ir::{Elem, Op, OpKind, Ty, ValueId};
use av_tree::{MapText, Node};
use std::alloc::{AllocError, Global};

/// The greatest number of results of a map.
const MAX_RESULTS: usize = 8;

/// A load: its operands are the buffer and the values in the subscripts.
pub(crate) fn load(
    alloc: Global,
    scope: &mut Scope,
    node: &Node,
    number: No,
) -> Result<Op, VerifyRefusal>
    ensures op { Asked number (first_failing (load_rules scope.old node.now)) result (λ op. op ≡ load_op scope.old node.now number) }
    ensures scope { OnOk result (scope.new ≡ defined scope.old (result_name node.now) (Scalar (loaded_elem scope.old node.now)) Plain) }
{
    let name = result_name(alloc, node)?;
    let values = values_named(alloc, &scope.names, node.operands.as_slice())?;
    ask_load(scope, node, name.as_slice(), values.as_slice(), number)?;
    let elem = elem_at(scope.values.as_slice(), values.as_slice(), 0);
    let used = used_map(alloc, node, values.as_slice(), 1)?;
    let result = define(scope, name, Ty::Scalar(elem), Role::Plain)?;
    Ok(load_with(alloc, number, result, node, used)?)
}

fn load_with(
    alloc: Global,
    number: No,
    value: ValueId,
    node: &Node,
    used: MapUse,
) -> Result<Op, AllocError>
    ensures { IfOk result (λ op. op ≡ load_with number value node.now used) }
{
    let results = only(alloc, value)?;
    let kind = OpKind::AffineLoad(used.map);
    let regions = Seq::new(alloc);
    let marks = marks_of(Row::Load, node);
    Ok(op_of(number, kind, used.operands, results, regions, marks))
}

fn ask_load(
    scope: &Scope,
    node: &Node,
    name: &[u8],
    values: &[ValueId],
    number: No,
) -> Result<(), VerifyRefusal>
    requires { name.now ≡ result_name node.now }
    ensures { Asked number (first_failing (load_rules_at scope.now node.now values.now)) result (λ u. Unit {0}) }
{
    let map = map_in(node, b"map");
    let rank = rank_at(scope.values.as_slice(), values, 0);
    let subscripts = after(values, 1);
    let rules = [
        asks(Code::Operands, !node.operands.as_slice().is_empty()),
        asks(Code::Results, has_one_result(node)),
        asks(
            Code::Visible,
            are_visible(&scope.names, node.operands.as_slice()),
        ),
        asks(Code::New, !is_visible(&scope.names, name)),
        asks(
            Code::Types,
            load_agrees(scope.values.as_slice(), node, values),
        ),
        asks(Code::Needed, has_needed(Row::Load, node)),
        asks(
            Code::Property,
            has_good_entries(Row::Load, node) && map.is_some(),
        ),
        asks(Code::Arity, has_arity(map, subscripts.len(), rank)),
        asks(
            Code::Dimension,
            are_map_operands(scope.roles.as_slice(), map, subscripts),
        ),
        asks(Code::Regions, node.regions.as_slice().is_empty()),
        asks(Code::Expression, is_affine(map)),
        asks(Code::Limit, has_few_results(map)),
    ];
    ask_all(&rules, number)
}

// The rank of the buffer at a place of the operands; 0 where it is none.
fn rank_at(values: &[Ty], operands: &[ValueId], at: usize) -> usize
    ensures { result ≡ rank_of (operand_type values.now operands.now at) }
{
    match operand_type(values, operands, at) {
        Some(Ty::MemRef { sizes, .. }) => sizes.len(),
        _ => 0,
    }
}

// The element type of the buffer at a place of the operands; `index` where it is none.
fn elem_at(values: &[Ty], operands: &[ValueId], at: usize) -> Elem
    ensures { result ≡ elem_of_buffer (operand_type values.now operands.now at) }
{
    match operand_type(values, operands, at) {
        Some(Ty::MemRef { elem, .. }) => *elem,
        _ => Elem::Index,
    }
}

fn is_buffer(values: &[Ty], operands: &[ValueId], at: usize) -> bool
    ensures { result ≡ is_buffer (operand_type values.now operands.now at) }
{
    matches!(operand_type(values, operands, at), Some(Ty::MemRef { .. }))
}

fn operand_type<'v>(values: &'v [Ty], operands: &[ValueId], at: usize) -> Option<&'v Ty>
    ensures { option_copied result ≡ operand_type values.now operands.now at }
{
    match operands.get(at) {
        Some(value) => type_at(values, *value),
        None => None,
    }
}

fn load_agrees(values: &[Ty], node: &Node, operands: &[ValueId]) -> bool
    ensures { result ≡ load_agrees values.now node.now operands.now }
{
    is_buffer(values, operands, 0)
        && agrees_on_result(node, &Ty::Scalar(elem_at(values, operands, 0)))
        && agree_on_operands(values, node.in_types.as_slice(), operands)
}

/// A store: its operands are the value, the buffer and the values in the subscripts.
pub(crate) fn store(
    alloc: Global,
    scope: &Scope,
    node: &Node,
    number: No,
) -> Result<Op, VerifyRefusal>
    ensures { Asked number (first_failing (store_rules scope.now node.now)) result (λ op. op ≡ store_op scope.now node.now number) }
{
    let values = values_named(alloc, &scope.names, node.operands.as_slice())?;
    ask_store(scope, node, values.as_slice(), number)?;
    let used = used_map(alloc, node, values.as_slice(), 2)?;
    Ok(store_with(alloc, number, node, used))
}

fn store_with(alloc: Global, number: No, node: &Node, used: MapUse) -> Op
    ensures { result ≡ store_with number node.now used }
{
    let kind = OpKind::AffineStore(used.map);
    let none = Seq::new(alloc);
    let regions = Seq::new(alloc);
    let marks = marks_of(Row::Store, node);
    op_of(number, kind, used.operands, none, regions, marks)
}

fn ask_store(
    scope: &Scope,
    node: &Node,
    values: &[ValueId],
    number: No,
) -> Result<(), VerifyRefusal>
    ensures { Asked number (first_failing (store_rules_at scope.now node.now values.now)) result (λ u. Unit {0}) }
{
    let map = map_in(node, b"map");
    let rank = rank_at(scope.values.as_slice(), values, 1);
    let subscripts = after(values, 2);
    let rules = [
        asks(Code::Operands, node.operands.len() >= 2),
        asks(Code::Results, has_no_result(node)),
        asks(
            Code::Visible,
            are_visible(&scope.names, node.operands.as_slice()),
        ),
        asks(
            Code::Types,
            store_agrees(scope.values.as_slice(), node, values),
        ),
        asks(Code::Needed, has_needed(Row::Store, node)),
        asks(
            Code::Property,
            has_good_entries(Row::Store, node) && map.is_some(),
        ),
        asks(Code::Arity, has_arity(map, subscripts.len(), rank)),
        asks(
            Code::Dimension,
            are_map_operands(scope.roles.as_slice(), map, subscripts),
        ),
        asks(Code::Regions, node.regions.as_slice().is_empty()),
        asks(Code::Expression, is_affine(map)),
        asks(Code::Limit, has_few_results(map)),
    ];
    ask_all(&rules, number)
}

fn store_agrees(values: &[Ty], node: &Node, operands: &[ValueId]) -> bool
    ensures { result ≡ store_agrees values.now node.now operands.now }
{
    is_buffer(values, operands, 1)
        && stores_elem(values, operands)
        && node.out_types.as_slice().is_empty()
        && agree_on_operands(values, node.in_types.as_slice(), operands)
}

// Whether the stored value is a scalar of the buffer's element type.
fn stores_elem(values: &[Ty], operands: &[ValueId]) -> bool
    ensures { result ≡ stores_elem values.now operands.now }
{
    let elem = elem_at(values, operands, 1);
    match operand_type(values, operands, 0) {
        Some(ty) => match scalar_of(ty) {
            Some(stored) => is_elem(elem, stored),
            None => false,
        },
        None => false,
    }
}

/// The values after the first operands.
pub(crate) fn after(values: &[ValueId], first: usize) -> &[ValueId]
    ensures { result.now ≡ drop first values.now }
{
    values.get(first..).unwrap_or(&[])
}

/// The first operands.
pub(crate) fn before(values: &[ValueId], first: usize) -> &[ValueId]
    ensures { result.now ≡ take first values.now }
{
    values.get(..first).unwrap_or(values)
}

/// Whether a map has no more results than it may have.
pub(crate) fn has_few_results(map: Option<&MapText>) -> bool
    ensures { result ≡ has_few_results (option_copied map.entry) }
{
    match map {
        Some(map) => map.results.len() <= MAX_RESULTS,
        None => false,
    }
}

// The normal form of an access's map, and all operands of the access.
fn used_map(
    alloc: Global,
    node: &Node,
    values: &[ValueId],
    first: usize,
) -> Result<MapUse, AllocError>
    ensures { IfOk result (λ used. used ≡ used_map node.now values.now first) }
{
    let used = normal_entry(alloc, node, b"map", after(values, first))?;
    after_first(alloc, before(values, first), used)
}

fn after_first(alloc: Global, first: &[ValueId], used: MapUse) -> Result<MapUse, AllocError>
    ensures { IfOk result (λ all. all ≡ record { map = used.map; operands = first.now ++ used.operands }) }
{
    let mut operands = Seq::from_slice(alloc, first)?;
    operands.append(used.operands)?;
    Ok(MapUse {
        map: used.map,
        operands,
    })
}

/// The normal form of the map in an entry; a map of no results where there is none.
pub(crate) fn normal_entry(
    alloc: Global,
    node: &Node,
    name: &[u8],
    values: &[ValueId],
) -> Result<MapUse, AllocError>
    ensures { IfOk result (λ used. used ≡ normal_entry node.now name.now values.now) }
{
    match map_in(node, name) {
        Some(map) => normalised(alloc, map, values),
        None => Ok(MapUse {
            map: no_map(alloc),
            operands: Seq::new(alloc),
        }),
    }
}

fn no_map(alloc: Global) -> AffMap
    ensures { result ≡ no_map }
{
    AffMap {
        dims: 0,
        syms: 0,
        results: Seq::new(alloc),
    }
}
