//! The module and its functions.

ghost use Rattle.std.specs.Prelude.{◌≡◌, ◌&&◌, ◌-◌, ◌^◌, min, map, sum, Some, IfOk};
ghost use Rattle.std.specs.Cmp.Lexicographic.{pointwise};
ghost use Rattle.std.specs.List.{list_all};
ghost use Rattle.std.specs.Option.{option_copied};
ghost use Rattle.av_tree.specs.declared.node.Body.{out-Body};
ghost use Rattle.av_verify.specs.Codes.{Asked, first_failing};
ghost use Rattle.av_verify.specs.Elaboration.{Elaborates, Ends, elaborated, function_of, module_of};
ghost use Rattle.av_verify.specs.Modules.{are_inputs, are_within_limits, func_of, function_rules, goes_on, has_function_entries, has_function_types, has_plain_region, inputs_of, is_function, is_module, is_symbol, is_symbol_byte, is_within_size, module_rules, most_regions, name_of, only_function, only_node, operations_in, operations_within, results_of};
ghost use Rattle.av_verify.specs.Types.{is_type, is_within_limits, same_type};

use super::entries::{entry, has_good_entries, has_needed};
use super::form::gives_nothing;
use super::loops::{are_new, end_with};
use super::operations::{NO_MARKS, only_region};
use super::refusal::{Code, VerifyRefusal, ask_all, asks, bad};
use super::results::has_no_result;
use super::rows::{Row, row_of};
use super::scope::{Role, Scope, new_scope, take_number};
use super::types::{is_type, is_within_limits, same_type};
use av_affine::{No, Seq, duplicate_all};
use av_ir::{Func, Module, Region, Ty};
use av_shapes::Shape;
use av_tree::{Attr, Body, BodyArg, Node, Tree, TypeText};
use std::alloc::{AllocError, Global};

/// What a tree is checked for.
#[derive(Debug, Drop)]
pub enum Mode {
    /// A module of scalars, to be vectorized by this shape.
    Scalar(Shape),
    /// A module with vectors of any rank.
    Vector,
    /// A module that can be run.
    Run,
}

/// The greatest number of operations times lanes.
const MAX_SIZE: u64 = 0x8_0000;

/// The typed module of a tree. So far it takes trees of the first path, which have one function.
///
/// # Errors
///
/// A rule fails, at the operation and with the code that the refusal names; or memory lacks.
pub fn verify(alloc: Global, tree: &Tree, mode: &Mode) -> Result<Module, VerifyRefusal>
    ensures { Ends (elaborated tree.now mode.now) result }
{
    ask_module(&tree.root, mode)?;
    module_of(alloc, mode, only_function(&tree.root))
}

// The module of its one function.
fn module_of(alloc: Global, mode: &Mode, node: Option<&Node>) -> Result<Module, VerifyRefusal>
    ensures { Ends (module_of mode.now (option_copied node.entry)) result }
{
    match node {
        Some(node) => module_with(alloc, mode, node),
        None => Err(bad(0, Code::Place)),
    }
}

fn module_with(alloc: Global, mode: &Mode, node: &Node) -> Result<Module, VerifyRefusal>
    ensures { Ends (module_of mode.now (Some node.now)) result }
{
    let mut scope = new_scope(alloc);
    // The module's own number.
    let _module = take_number(&mut scope.owners, 0)?;
    let func = function(alloc, &mut scope, node, most_regions(mode))?;
    let mut funcs = Seq::new(alloc);
    funcs.push(func)?;
    Ok(Module {
        funcs,
        owners: scope.owners,
    })
}

// The regions that may be open within a function's.
fn most_regions(mode: &Mode) -> u32
    ensures { result ≡ most_regions mode.now }
{
    match mode {
        Mode::Scalar(_) => 30,
        Mode::Vector | Mode::Run => 38,
    }
}

// Whether the operations times the lanes of the shape are few enough.
fn is_within_size(root: &Node, mode: &Mode) -> bool
    ensures { result ≡ is_within_size root.now mode.now }
{
    match mode {
        Mode::Scalar(shape) => operations_in(root).saturating_mul(u64::from(shape.lanes(1)))
            <= MAX_SIZE,
        Mode::Vector => operations_in(root) <= MAX_SIZE,
        Mode::Run => true,
    }
}

// The number of operations in a node, itself included, or the greatest number.
#[cycle(counting)]
fn operations_in(node: &Node) -> u64
    ensures { result ≡ min (operations_in node.now) (2 ^ 64 - 1) }
{
    operations_within(node.regions.as_slice()).saturating_add(1)
}

#[cycle(counting)]
fn operations_within(bodies: &[Body]) -> u64
    ensures { result ≡ min (sum (map operations_within bodies.now)) (2 ^ 64 - 1) }
{
    let mut count: u64 = 0;
    for body in bodies {
        count = count.saturating_add(operations_of(body.nodes.as_slice()));
    }
    count
}

#[cycle(counting)]
fn operations_of(nodes: &[Node]) -> u64
    ensures { result ≡ min (sum (map operations_in nodes.now)) (2 ^ 64 - 1) }
{
    let mut count: u64 = 0;
    for node in nodes {
        count = count.saturating_add(operations_in(node));
    }
    count
}

// The name and the attributes of the module are dropped.
fn ask_module(root: &Node, mode: &Mode) -> Result<(), VerifyRefusal>
    ensures { Asked 0 (first_failing (module_rules root.now mode.now)) result (λ u. Unit {0}) }
{
    let rules = [
        asks(Code::Name, is_module(row_of(root.name.as_slice()))),
        asks(Code::Operands, root.operands.as_slice().is_empty()),
        asks(Code::Results, has_no_result(root)),
        asks(
            Code::Types,
            root.in_types.as_slice().is_empty() && root.out_types.as_slice().is_empty(),
        ),
        asks(Code::Regions, has_plain_region(root)),
        // More functions aren't taken yet.
        asks(Code::Place, only_function(root).is_some()),
        asks(Code::Size, is_within_size(root, mode)),
    ];
    ask_all(&rules, 0)
}

fn is_module(row: Option<Row>) -> bool
    ensures { result ≡ is_module row }
{
    matches!(row, Some(Row::Module))
}

fn is_function(row: Option<Row>) -> bool
    ensures { result ≡ is_function row }
{
    matches!(row, Some(Row::Function))
}

// The one operation in the module.
fn only_function(root: &Node) -> Option<&Node>
    ensures { option_copied result ≡ only_function root.now }
{
    match root.regions.as_slice() {
        [body] => only_node(body.nodes.as_slice()),
        _ => None,
    }
}

fn only_node(nodes: &[Node]) -> Option<&Node>
    ensures { option_copied result ≡ only_node nodes.now }
{
    match nodes {
        [node] => Some(node),
        _ => None,
    }
}

// Whether an operation has one region, without arguments.
fn has_plain_region(node: &Node) -> bool
    ensures { result ≡ has_plain_region node.now }
{
    match node.regions.as_slice() {
        [body] => body.args.as_slice().is_empty(),
        _ => false,
    }
}

// A function, in whose region so many more regions may be opened.
fn function(alloc: Global, scope: &mut Scope, node: &Node, room: u32) -> Result<Func, VerifyRefusal>
    ensures { Elaborates (function_of room scope.old node.now) result scope.new }
{
    let number = take_number(&mut scope.owners, 0)?;
    let new = are_new(alloc, &scope.names, node.regions.as_slice())?;
    ask_function(node, new, number)?;
    let body = only_region(alloc, scope, node.regions.as_slice(), Role::Plain, room)?;
    Ok(func_of(alloc, node, number, scope.values.as_slice(), body)?)
}

// A function whose body has been walked: its scope has the types of all its values.
fn func_of(
    alloc: Global,
    node: &Node,
    number: No,
    values: &[Ty],
    body: Region,
) -> Result<Func, AllocError>
    ensures { IfOk result (λ func. func ≡ func_of node.now number values.now body) }
{
    Ok(Func {
        name: Seq::from_slice(alloc, name_of(node))?,
        number,
        values: duplicate_all(alloc, values)?,
        results: Seq::new(alloc),
        body,
        marks: NO_MARKS,
    })
}

// Asks the rules of a function; those of its body are asked there.
fn ask_function(node: &Node, new: bool, number: No) -> Result<(), VerifyRefusal>
    ensures { Asked number (first_failing (function_rules new node.now)) result (λ u. Unit {0}) }
{
    let rules = [
        asks(Code::Name, is_function(row_of(node.name.as_slice()))),
        asks(Code::Operands, node.operands.as_slice().is_empty()),
        asks(Code::Results, has_no_result(node)),
        asks(Code::New, new),
        asks(Code::Types, has_function_types(node)),
        asks(Code::Needed, has_needed(Row::Function, node)),
        asks(Code::Property, has_function_entries(node)),
        asks(
            Code::Terminator,
            end_with(node.regions.as_slice(), b"func.return"),
        ),
        asks(Code::Regions, node.regions.as_slice().len() == 1),
        asks(Code::Limit, are_within_limits(node)),
        // Functions give no results yet.
        asks(Code::Place, gives_nothing(entry(node, b"function_type"))),
    ];
    ask_all(&rules, number)
}

fn has_function_entries(node: &Node) -> bool
    ensures { result ≡ has_function_entries node.now }
{
    has_good_entries(Row::Function, node)
        && is_symbol(name_of(node))
        && results_of(entry(node, b"function_type")).is_some()
}

fn has_function_types(node: &Node) -> bool
    ensures { result ≡ has_function_types node.now }
{
    have_types(
        node.regions.as_slice(),
        inputs_of(entry(node, b"function_type")),
    ) && node.in_types.as_slice().is_empty()
        && node.out_types.as_slice().is_empty()
}

// Whether the arguments have types of values, and those that the function type says.
fn have_types(bodies: &[Body], inputs: Option<&[TypeText]>) -> bool
    ensures { result ≡ list_all (λ body. list_all (λ arg. is_type arg.ty) (out-Body body).args && are_inputs (option_copied inputs.entry) (out-Body body).args) bodies.now }
{
    bodies.iter().all(|body| are_types(body.args.as_slice())
        && are_inputs(inputs, body.args.as_slice()))
}

fn are_types(args: &[BodyArg]) -> bool
    ensures { result ≡ list_all (λ arg. is_type arg.ty) args.now }
{
    args.iter().all(|arg| is_type(&arg.ty))
}

// Where no function type is written, a later rule refuses.
fn are_inputs(inputs: Option<&[TypeText]>, args: &[BodyArg]) -> bool
    ensures { result ≡ are_inputs (option_copied inputs.entry) args.now }
{
    match inputs {
        Some(types) => are_of_types(types, args),
        None => true,
    }
}

fn are_of_types(types: &[TypeText], args: &[BodyArg]) -> bool
    ensures { result ≡ pointwise (λ ty arg. same_type ty arg.ty) types.now args.now }
{
    if types.len() != args.len() {
        return false;
    }
    for at in 0..types.len() {
        if !same_type(&types[at], &args[at].ty) {
            return false;
        }
    }
    true
}

// The types of the arguments of a function type.
fn inputs_of(ty: Option<&Attr>) -> Option<&[TypeText]>
    ensures { option_copied result ≡ inputs_of (option_copied ty.entry) }
{
    match ty {
        Some(Attr::Type(TypeText::Func { inputs, .. })) => Some(inputs.as_slice()),
        _ => None,
    }
}

// Whether the types of all arguments are within their limits.
fn are_within_limits(node: &Node) -> bool
    ensures { result ≡ are_within_limits node.now }
{
    node.regions
        .as_slice()
        .iter()
        .all(|body| are_arguments_within(body.args.as_slice()))
}

fn are_arguments_within(args: &[BodyArg]) -> bool
    ensures { result ≡ list_all (λ arg. is_within_limits arg.ty) args.now }
{
    args.iter().all(|arg| is_within_limits(&arg.ty))
}

// The name of a function, without its `@`; no name where it has none.
fn name_of(node: &Node) -> &[u8]
    ensures { result.now ≡ name_of node.now }
{
    match entry(node, b"sym_name") {
        Some(Attr::Quoted(name)) => name.as_slice(),
        _ => &[],
    }
}

// Digits alone, or a letter or one of `$._-` followed by any of these and digits.
fn is_symbol(name: &[u8]) -> bool
    ensures { result ≡ is_symbol name.now }
{
    match name {
        [] => false,
        [first, rest @ ..] => is_symbol_byte(*first) && go_on(*first, rest),
    }
}

fn go_on(first: u8, rest: &[u8]) -> bool
    ensures { result ≡ list_all (goes_on first) rest.now }
{
    rest.iter().all(|b| goes_on(first, *b))
}

fn goes_on(first: u8, b: u8) -> bool
    ensures { result ≡ goes_on first b }
{
    if first.is_ascii_digit() {
        b.is_ascii_digit()
    } else {
        is_symbol_byte(b)
    }
}

fn is_symbol_byte(b: u8) -> bool
    ensures { result ≡ is_symbol_byte b }
{
    b.is_ascii_alphanumeric() || b == b'$' || b == b'.' || b == b'_' || b == b'-'
}

// The types of the results of a function type.
fn results_of(ty: Option<&Attr>) -> Option<&[TypeText]>
    ensures { option_copied result ≡ results_of (option_copied ty.entry) }
{
    match ty {
        Some(Attr::Type(TypeText::Func { results, .. })) => Some(results.as_slice()),
        _ => None,
    }
}
