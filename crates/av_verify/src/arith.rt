//! Operations of the Arith dialect.

ghost use Rattle.std.specs.Prelude.{◌≡◌, ◌∷◌, [], IfOk, OnOk};
ghost use Rattle.std.specs.Option.{option_copied};
ghost use Rattle.av_ir.specs.declared.ty.Ty.TheVariants.{Scalar};
ghost use Rattle.av_tree.specs.declared.node.Node.{out-Node};
ghost use Rattle.av_verify.specs.declared.scope.Role.TheVariants.{Plain};
ghost use Rattle.av_verify.specs.Arith.{agrees_on_result, are_alike, binary_agrees, binary_op, binary_rules, constant_agrees, constant_elem, constant_op, constant_rules, fits, fits_value, first_elem, left_elem, operands_of, scalar_at, value_agrees, written_result};
ghost use Rattle.av_verify.specs.Codes.{Asked, first_failing};
ghost use Rattle.av_verify.specs.Results.{result_name};
ghost use Rattle.av_verify.specs.Scopes.{defined};

use super::entries::{entry, has_good_entries, has_needed, number_in};
use super::names::{are_visible, is_visible, values_named};
use super::operations::{NO_MARKS, op_of};
use super::refusal::{Code, VerifyRefusal, ask_all, asks};
use super::results::{has_one_result, result_name};
use super::rows::Row;
use super::scope::{Role, Scope, agree_on_operands, define, type_at};
use super::types::{agrees, is_elem, scalar_of, written_scalar};
use av_affine::{No, Seq};
use av_bits::{BinOp, Width, wrap};
use av_ir::{Const, Elem, Op, OpKind, Ty, ValueId, width};
use av_tree::{Attr, Node, TypeText};
use std::alloc::{AllocError, Global};

/// A constant: one number of a scalar type.
pub(crate) fn constant(
    alloc: Global,
    scope: &mut Scope,
    node: &Node,
    number: No,
) -> Result<Op, VerifyRefusal>
    ensures op { Asked number (first_failing (constant_rules scope.old node.now)) result (λ op. op ≡ constant_op scope.old node.now number) }
    ensures scope { OnOk result (scope.new ≡ defined scope.old (result_name node.now) (Scalar (constant_elem node.now)) Plain) }
{
    let name = result_name(alloc, node)?;
    ask_constant(scope, node, name.as_slice(), number)?;
    let elem = constant_elem(node);
    let pattern = wrap(width(elem), number_in(node, b"value").unwrap_or(0));
    let result = define(scope, name, Ty::Scalar(elem), Role::Plain)?;
    let results = only(alloc, result)?;
    let kind = OpKind::ArithConstant(Const::Splat(pattern));
    let none = Seq::new(alloc);
    Ok(op_of(number, kind, none, results, Seq::new(alloc), NO_MARKS))
}

fn ask_constant(scope: &Scope, node: &Node, name: &[u8], number: No) -> Result<(), VerifyRefusal>
    requires { name.now ≡ result_name node.now }
    ensures { Asked number (first_failing (constant_rules scope.now node.now)) result (λ u. Unit {0}) }
{
    let value = number_in(node, b"value");
    let rules = [
        asks(Code::Operands, node.operands.as_slice().is_empty()),
        asks(Code::Results, has_one_result(node)),
        asks(Code::New, !is_visible(&scope.names, name)),
        asks(Code::Types, constant_agrees(node)),
        asks(Code::Needed, has_needed(Row::Constant, node)),
        asks(
            Code::Property,
            has_good_entries(Row::Constant, node) && value.is_some(),
        ),
        asks(Code::Regions, node.regions.as_slice().is_empty()),
        asks(Code::Constant, fits_value(constant_elem(node), value)),
    ];
    ask_all(&rules, number)
}

/// A list of one value.
pub(crate) fn only(alloc: Global, value: ValueId) -> Result<Seq<ValueId>, AllocError>
    ensures { IfOk result (λ values. values ≡ value ∷ []) }
{
    let mut values = Seq::new(alloc);
    values.push(value)?;
    Ok(values)
}

// The type that the one result is written with.
fn written_result(types: &[Option<TypeText>]) -> Option<Elem>
    ensures { result ≡ written_result types.now }
{
    match types {
        [Some(ty)] => written_scalar(ty),
        _ => None,
    }
}

// The type of a constant; `index` where it has none.
fn constant_elem(node: &Node) -> Elem
    ensures { result ≡ constant_elem node.now }
{
    written_result(node.out_types.as_slice()).unwrap_or(Elem::Index)
}

// Whether a constant is written with a type, and its number with the same.
fn constant_agrees(node: &Node) -> bool
    ensures { result ≡ constant_agrees node.now }
{
    value_agrees(
        written_result(node.out_types.as_slice()),
        entry(node, b"value"),
    ) && node.in_types.as_slice().is_empty()
}

fn value_agrees(elem: Option<Elem>, value: Option<&Attr>) -> bool
    ensures { result ≡ value_agrees elem (option_copied value.entry) }
{
    match elem {
        Some(elem) => match value {
            Some(Attr::Number { ty, .. }) => match written_scalar(ty) {
                Some(written) => is_elem(elem, written),
                None => false,
            },
            _ => true,
        },
        None => false,
    }
}

fn fits_value(elem: Elem, value: Option<i128>) -> bool
    ensures { result ≡ fits_value elem value }
{
    match value {
        Some(value) => fits(width(elem), value),
        None => false,
    }
}

// Whether a number is the signed or the unsigned value of a pattern of the width.
fn fits(width: Width, value: i128) -> bool
    ensures { result ≡ fits width value }
{
    match width {
        Width::W1 => -1 <= value && value < 2,
        Width::W8 => -0x80 <= value && value < 0x100,
        Width::W16 => -0x8000 <= value && value < 0x1_0000,
        Width::W32 => -0x8000_0000 <= value && value < 0x1_0000_0000,
        Width::W64 => -0x8000_0000_0000_0000 <= value && value < 0x1_0000_0000_0000_0000,
    }
}

/// A binary operation on scalars.
pub(crate) fn binary(
    alloc: Global,
    scope: &mut Scope,
    node: &Node,
    op: BinOp,
    number: No,
) -> Result<Op, VerifyRefusal>
    ensures op { Asked number (first_failing (binary_rules op scope.old node.now)) result (λ made. made ≡ binary_op op scope.old node.now number) }
    ensures scope { OnOk result (scope.new ≡ defined scope.old (result_name node.now) (Scalar (left_elem scope.old node.now)) Plain) }
{
    let name = result_name(alloc, node)?;
    let operands = values_named(alloc, &scope.names, node.operands.as_slice())?;
    ask_binary(
        scope,
        node,
        op,
        name.as_slice(),
        operands.as_slice(),
        number,
    )?;
    let elem = left_elem(scope.values.as_slice(), operands.as_slice());
    let result = define(scope, name, Ty::Scalar(elem), Role::Plain)?;
    let results = only(alloc, result)?;
    let kind = OpKind::ArithBinary(op);
    Ok(op_of(number, kind, operands, results, Seq::new(alloc), NO_MARKS))
}

fn ask_binary(
    scope: &Scope,
    node: &Node,
    op: BinOp,
    name: &[u8],
    operands: &[ValueId],
    number: No,
) -> Result<(), VerifyRefusal>
    requires name { name.now ≡ result_name node.now }
    requires operands { operands.now ≡ operands_of scope.now node.now }
    ensures { Asked number (first_failing (binary_rules op scope.now node.now)) result (λ u. Unit {0}) }
{
    let row = Row::Binary(op);
    let rules = [
        asks(Code::Operands, node.operands.len() == 2),
        asks(Code::Results, has_one_result(node)),
        asks(
            Code::Visible,
            are_visible(&scope.names, node.operands.as_slice()),
        ),
        asks(Code::New, !is_visible(&scope.names, name)),
        asks(
            Code::Types,
            binary_agrees(scope.values.as_slice(), node, operands),
        ),
        asks(Code::Needed, has_needed(row, node)),
        asks(Code::Property, has_good_entries(row, node)),
        asks(Code::Regions, node.regions.as_slice().is_empty()),
    ];
    ask_all(&rules, number)
}

// The element type of the first operand; `index` where it has none.
fn left_elem(values: &[Ty], operands: &[ValueId]) -> Elem
    ensures { result ≡ first_elem values.now operands.now }
{
    match operands {
        [left, ..] => scalar_at(values, *left).unwrap_or(Elem::Index),
        [] => Elem::Index,
    }
}

// The element type of a value, if it is a scalar.
fn scalar_at(values: &[Ty], value: ValueId) -> Option<Elem>
    ensures { result ≡ scalar_at values.now value }
{
    match type_at(values, value) {
        Some(ty) => scalar_of(ty),
        None => None,
    }
}

// Whether both operands and the result have one type, and are written with it.
fn binary_agrees(values: &[Ty], node: &Node, operands: &[ValueId]) -> bool
    ensures { result ≡ binary_agrees values.now node.now operands.now }
{
    are_alike(values, operands)
        && agrees_on_result(node, &Ty::Scalar(left_elem(values, operands)))
        && agree_on_operands(values, node.in_types.as_slice(), operands)
}

// Whether two values are scalars of one type.
fn are_alike(values: &[Ty], operands: &[ValueId]) -> bool
    ensures { result ≡ are_alike values.now operands.now }
{
    match operands {
        [left, right] => match scalar_at(values, *left) {
            Some(left) => match scalar_at(values, *right) {
                Some(right) => is_elem(left, right),
                None => false,
            },
            None => false,
        },
        _ => false,
    }
}

/// Whether the one result of an operation is written with this type, or with none.
pub(crate) fn agrees_on_result(node: &Node, ty: &Ty) -> bool
    ensures { result ≡ agrees_on_result node.now ty.now }
{
    match node.out_types.as_slice() {
        [written] => agrees(written, ty),
        _ => false,
    }
}
