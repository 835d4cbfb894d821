//! Maps with the values of their parameters, normalised: parameters that don't occur are dropped, one
//! stands for each value, and they are numbered by first occurrence. No value is a symbol yet.

ghost use Rattle.std.specs.Prelude.{◌≡◌, ◌==◌, position, IfOk};
ghost use Rattle.std.specs.Prelude.{map as map_list};
ghost use Rattle.std.specs.List.{list_all};
ghost use Rattle.std.specs.Option.{option_copied};
ghost use Rattle.av_verify.specs.Maps.{are_map_operands, has_arity, normalised, occur, occurring, parameter, parameter_value, place_among, renamed, takes, with_value};
ghost use Rattle.av_verify.specs.Scopes.{is_dimension};

use super::expressions::place_of;
use super::scope::{Role, is_dimension};
use av_affine::{AffMap, Expr, Held, Leaf, No, Seq};
use av_ir::ValueId;
use av_tree::{ExprText, MapText};
use std::alloc::{AllocError, Global};

/// Whether a map takes so many operands and gives so many results.
pub(crate) fn has_arity(map: Option<&MapText>, operands: usize, results: usize) -> bool
    ensures { result ≡ has_arity (option_copied map.entry) operands results }
{
    match map {
        Some(map) => { takes(map, operands) && map.results.len() == results }
        None => false,
    }
}

/// Whether a map takes so many operands.
pub(crate) fn takes(map: &MapText, operands: usize) -> bool
    ensures { result ≡ takes map.now operands }
{
    map.dims.as_slice().len() + map.syms.as_slice().len() == operands
}

/// Whether the operands of a map may be its dimensions.
pub(crate) fn are_map_operands(roles: &[Role], map: Option<&MapText>, operands: &[ValueId]) -> bool
    ensures { result ≡ are_map_operands roles.now (option_copied map.entry) operands.now }
{
    match map {
        Some(map) => operands.len() <= map.dims.len() && are_dimensions(roles, operands),
        None => false,
    }
}

fn are_dimensions(roles: &[Role], operands: &[ValueId]) -> bool
    ensures { result ≡ list_all (is_dimension roles.now) operands.now }
{
    operands.iter().all(|value| is_dimension(roles, *value))
}

/// A normalised map and the values of its parameters.
#[derive(Drop)]
pub(crate) struct MapUse {
    pub(crate) map: AffMap,
    pub(crate) operands: Seq<ValueId>,
}

/// The normal form of a map whose parameters have these values.
pub(crate) fn normalised(
    alloc: Global,
    map: &MapText,
    operands: &[ValueId],
) -> Result<MapUse, AllocError>
    ensures { IfOk result (λ u. u ≡ normalised map.now operands.now) }
{
    let used = occurring(alloc, map, operands)?;
    let results = renamed_all(alloc, map, operands, used.as_slice())?;
    let map = AffMap {
        dims: used.len() as No,
        syms: 0,
        results,
    };
    Ok(MapUse {
        map,
        operands: used,
    })
}

// The values that occur in a map, each once, in the order of their first occurrences.
fn occurring(alloc: Global, map: &MapText, operands: &[ValueId]) -> Result<Seq<ValueId>, AllocError>
    ensures { IfOk result (λ used. used ≡ occurring map.now operands.now) }
{
    let mut used = Seq::new(alloc);
    for expr in map.results.as_slice() {
        used = occur(map, operands, used, expr)?;
    }
    Ok(used)
}

// The values that occur in an expression, after others.
#[tactic(auto, using(crate::proofs::TextVariants::occurs))]
fn occur(
    map: &MapText,
    operands: &[ValueId],
    used: Seq<ValueId>,
    expr: &ExprText,
) -> Result<Seq<ValueId>, AllocError>
    ensures { IfOk result (λ values. values ≡ occur map.now operands.now used expr.now) }
{
    match expr {
        ExprText::Name(name) => with_parameter(map, operands, used, name.as_slice()),
        ExprText::Add(a, b) => {
            let used = occur(map, operands, used, a.get())?;
            occur(map, operands, used, b.get())
        }
        ExprText::Sub(a, b) => {
            let used = occur(map, operands, used, a.get())?;
            occur(map, operands, used, b.get())
        }
        ExprText::Const(_)
        | ExprText::Neg(_)
        | ExprText::Mul(_, _)
        | ExprText::Mod(_, _)
        | ExprText::Floor(_, _)
        | ExprText::Ceil(_, _) => Ok(used),
    }
}

// The value of a parameter at the end, where it isn't there yet.
fn with_parameter(
    map: &MapText,
    operands: &[ValueId],
    used: Seq<ValueId>,
    name: &[u8],
) -> Result<Seq<ValueId>, AllocError>
    ensures { IfOk result (λ values. values ≡ with_value used (parameter_value map.now operands.now name.now)) }
{
    with_value(used, parameter_value(map, operands, name))
}

fn with_value(mut used: Seq<ValueId>, value: ValueId) -> Result<Seq<ValueId>, AllocError>
    ensures { IfOk result (λ values. values ≡ with_value used value) }
{
    if place_among(used.as_slice(), value) == used.len() {
        used.push(value)?;
    }
    Ok(used)
}

// The value of a dimension; the first of all where the name is none.
fn parameter_value(map: &MapText, operands: &[ValueId], name: &[u8]) -> ValueId
    ensures { result ≡ parameter_value map.now operands.now name.now }
{
    match place_of(map.dims.as_slice(), name) {
        Some(at) => operands.get(at).copied().unwrap_or(ValueId(0)),
        None => ValueId(0),
    }
}

// The place of a value among others, or their number.
fn place_among(values: &[ValueId], value: ValueId) -> usize
    ensures { result ≡ place_among values.now value }
{
    first_place(values, value).unwrap_or(values.len())
}

fn first_place(values: &[ValueId], value: ValueId) -> Option<usize>
    ensures { result ≡ position (λ one. one.0 == value.0) values.now }
{
    values.iter().position(|one| one.0 == value.0)
}

fn renamed_all(
    alloc: Global,
    map: &MapText,
    operands: &[ValueId],
    used: &[ValueId],
) -> Result<Seq<Expr>, AllocError>
    ensures { IfOk result (λ results. results ≡ map_list (renamed map.now operands.now used.now) map.now.results) }
{
    let mut results = Seq::new(alloc);
    for expr in map.results.as_slice() {
        results.push(renamed(alloc, map, operands, used, expr)?)?;
    }
    Ok(results)
}

// The parameter of the normal form for a name.
fn parameter(map: &MapText, operands: &[ValueId], used: &[ValueId], name: &[u8]) -> Expr
    ensures { result ≡ parameter map.now operands.now used.now name.now }
{
    let value = parameter_value(map, operands, name);
    Expr::Param(Leaf::Dim(place_among(used, value) as No))
}

// The expression over the parameters of the normal form, which has only sums.
#[cycle(renaming)]
#[tactic(auto, using(crate::proofs::TextVariants::renames))]
fn renamed(
    alloc: Global,
    map: &MapText,
    operands: &[ValueId],
    used: &[ValueId],
    expr: &ExprText,
) -> Result<Expr, AllocError>
    ensures { IfOk result (λ e. e ≡ renamed map.now operands.now used.now expr.now) }
{
    match expr {
        ExprText::Name(name) => Ok(parameter(map, operands, used, name.as_slice())),
        ExprText::Const(value) => Ok(Expr::Const(*value)),
        ExprText::Add(a, b) => Ok(Expr::Add(
            side(alloc, map, operands, used, a)?,
            side(alloc, map, operands, used, b)?,
        )),
        ExprText::Sub(a, b) => Ok(Expr::Sub(
            side(alloc, map, operands, used, a)?,
            side(alloc, map, operands, used, b)?,
        )),
        ExprText::Neg(_)
        | ExprText::Mul(_, _)
        | ExprText::Mod(_, _)
        | ExprText::Floor(_, _)
        | ExprText::Ceil(_, _) => Ok(Expr::Const(0)),
    }
}

#[cycle(renaming)]
#[tactic(auto, using(crate::proofs::TextVariants::renames))]
fn side(
    alloc: Global,
    map: &MapText,
    operands: &[ValueId],
    used: &[ValueId],
    expr: &Held<ExprText>,
) -> Result<Held<Expr>, AllocError>
    ensures { IfOk result (λ e. e ≡ renamed map.now operands.now used.now expr.now) }
{
    let expr = renamed(alloc, map, operands, used, expr.get())?;
    Held::new(alloc, expr)
}
