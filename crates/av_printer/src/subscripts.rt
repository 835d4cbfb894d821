//! Uses of maps: the names of values in the places of parameters.
ghost use Rattle.std.specs.Prelude.{◌≡◌, [], ◌++◌, map, length, take, drop, option_copied, IfOk};
ghost use Rattle.av_printer.specs.Pieces.{spelt, commas, in_square};
ghost use Rattle.av_printer.specs.Expressions.{leaf, lone_symbol, placed, expression, first_value, operands_pieces, map_use, set_use, constant_bound, named_bound, single_bound, several_bound, bound, subscripts};

use crate::expressions::{print_expression, print_if_any, print_in_round, print_map, print_set};
use crate::writer::Writer;
use av_affine::Text;
use av_tree::{ExprText, MapText, SetText};
use std::alloc::AllocError;

/// What stands in the places of parameters: their values, as far as there are some.
#[derive(Clone, Copy)]
pub(crate) struct Leaves<'a> {
    pub(crate) dims: &'a [Text],
    pub(crate) dim_values: &'a [Text],
    pub(crate) syms: &'a [Text],
    pub(crate) sym_values: &'a [Text],
}

impl Leaves<'_> {
    /// Names that stay as they are.
    pub(crate) fn parameters() -> Leaves<'static>
        ensures dims { result.dims.now ≡ [] }
        ensures dim_values { result.dim_values.now ≡ [] }
        ensures syms { result.syms.now ≡ [] }
        ensures sym_values { result.sym_values.now ≡ [] }
    {
        Leaves {
            dims: &[],
            dim_values: &[],
            syms: &[],
            sym_values: &[],
        }
    }

    #[tactic(auto, using(crate::proofs::Steps::steps, crate::proofs::ExpressionSteps::leaf_steps))]
    pub(crate) fn print_name(&self, out: &mut Writer, name: &Text) -> Result<(), AllocError>
        ensures { IfOk result (λ _. out.new ≡ out.old ++ spelt (leaf self.now.dims.now self.now.dim_values.now self.now.syms.now self.now.sym_values.now name.now)) }
    {
        if let Some(value) = value_of(self.dims, self.dim_values, name) {
            out.push_text(value)?;
            return Ok(());
        }
        match value_of(self.syms, self.sym_values, name) {
            Some(value) => {
                out.push_bytes(b"symbol(")?;
                out.push_text(value)?;
                out.push_bytes(b")")?;
            }
            None => out.push_text(name)?,
        }
        Ok(())
    }
}

// What stands in the place of the first parameter of this name.
#[tactic(auto, using(crate::proofs::ExpressionSteps::placed_steps))]
fn value_of<'a>(parameters: &[Text], values: &'a [Text], name: &Text) -> Option<&'a Text>
    ensures { option_copied result ≡ placed parameters.now values.now name.now }
{
    for (i, parameter) in parameters.iter().enumerate() {
        if parameter.as_slice() == name.as_slice() {
            return if i < values.len() {
                Some(&values[i])
            } else {
                None
            };
        }
    }
    None
}

/// The subscripts of an access, in square brackets.
#[tactic(auto, using(crate::proofs::Steps::steps), unfolding(crate::specs::Expressions::subscripts))]
pub(crate) fn print_subscripts(
    out: &mut Writer,
    map: &MapText,
    operands: &[Text],
) -> Result<(), AllocError>
    ensures { IfOk result (λ _. out.new ≡ out.old ++ spelt (subscripts map.now operands.now)) }
{
    let (dim_values, sym_values) = operands_of(map, operands);
    let leaves = Leaves {
        dims: map.dims.as_slice(),
        dim_values,
        syms: map.syms.as_slice(),
        sym_values,
    };
    print_expressions(out, map.results.as_slice(), &leaves)?;
    Ok(())
}

// Expressions in square brackets.
fn print_expressions(
    out: &mut Writer,
    exprs: &[ExprText],
    leaves: &Leaves,
) -> Result<(), AllocError>
    ensures { IfOk result (λ _. out.new ≡ out.old ++ spelt (in_square (commas (map (expression (leaf leaves.now.dims.now leaves.now.dim_values.now leaves.now.syms.now leaves.now.sym_values.now)) exprs.now)))) }
{
    out.push_bytes(b"[")?;
    for (i, expr) in exprs.iter().enumerate() {
        out.push_comma_after(i)?;
        print_expression(out, expr, leaves)?;
    }
    out.push_bytes(b"]")?;
    Ok(())
}

/// A bound of a loop: a number, a value, or a map with its operands, before which `max` stands in a
/// lower bound, and `min` in an upper one, where it has several results.
#[tactic(auto, using(crate::proofs::Steps::steps, crate::proofs::ExpressionSteps::bound_steps))]
pub(crate) fn print_bound(
    out: &mut Writer,
    lower: bool,
    map: &MapText,
    operands: &[Text],
) -> Result<(), AllocError>
    ensures { IfOk result (λ _. out.new ≡ out.old ++ spelt (bound lower map.now operands.now)) }
{
    match map.results.as_slice() {
        [] => print_several_bound(out, lower, map, operands)?,
        [only] => print_single_bound(out, map, only, operands)?,
        [_, _, ..] => print_several_bound(out, lower, map, operands)?,
    }
    Ok(())
}

#[tactic(auto, using(crate::proofs::Steps::steps), unfolding(crate::specs::Expressions::several_bound))]
fn print_several_bound(
    out: &mut Writer,
    lower: bool,
    map: &MapText,
    operands: &[Text],
) -> Result<(), AllocError>
    ensures { IfOk result (λ _. out.new ≡ out.old ++ spelt (several_bound lower map.now operands.now)) }
{
    if lower {
        out.push_bytes(b"max ")?;
    } else {
        out.push_bytes(b"min ")?;
    }
    print_map_use(out, map, operands)?;
    Ok(())
}

#[tactic(auto, using(crate::proofs::Steps::steps, crate::proofs::ExpressionSteps::bound_steps))]
fn print_single_bound(
    out: &mut Writer,
    map: &MapText,
    only: &ExprText,
    operands: &[Text],
) -> Result<(), AllocError>
    ensures { IfOk result (λ _. out.new ≡ out.old ++ spelt (single_bound map.now operands.now only.now)) }
{
    match only {
        ExprText::Const(value) => print_constant_bound(out, map, *value, operands)?,
        ExprText::Name(name) => print_named_bound(out, map, name, operands)?,
        ExprText::Neg(_)
        | ExprText::Add(_, _)
        | ExprText::Sub(_, _)
        | ExprText::Mul(_, _)
        | ExprText::Mod(_, _)
        | ExprText::Floor(_, _)
        | ExprText::Ceil(_, _) => print_map_use(out, map, operands)?,
    }
    Ok(())
}

#[tactic(auto, using(crate::proofs::Steps::steps, crate::proofs::ExpressionSteps::expression_steps), unfolding(crate::specs::Expressions::constant_bound))]
fn print_constant_bound(
    out: &mut Writer,
    map: &MapText,
    value: i128,
    operands: &[Text],
) -> Result<(), AllocError>
    ensures { IfOk result (λ _. out.new ≡ out.old ++ spelt (constant_bound map.now operands.now value)) }
{
    if operands.is_empty() {
        out.push_number(value)?;
    } else {
        print_map_use(out, map, operands)?;
    }
    Ok(())
}

#[tactic(auto, using(crate::proofs::Steps::steps, crate::proofs::ExpressionSteps::leaf_steps), unfolding(crate::specs::Expressions::named_bound))]
fn print_named_bound(
    out: &mut Writer,
    map: &MapText,
    name: &Text,
    operands: &[Text],
) -> Result<(), AllocError>
    ensures { IfOk result (λ _. out.new ≡ out.old ++ spelt (named_bound map.now operands.now name.now)) }
{
    if is_lone_symbol(map.dims.as_slice(), map.syms.as_slice(), name) {
        print_first(out, operands)?;
    } else {
        print_map_use(out, map, operands)?;
    }
    Ok(())
}

// Whether this is the only parameter, and a symbol.
#[tactic(auto, using(crate::proofs::ExpressionSteps::lone_steps))]
fn is_lone_symbol(dims: &[Text], syms: &[Text], name: &Text) -> bool
    ensures { result ≡ lone_symbol dims.now syms.now name.now }
{
    match syms {
        [] => false,
        [only] => dims.is_empty() && only.as_slice() == name.as_slice(),
        [_, _, ..] => false,
    }
}

#[tactic(auto, using(crate::proofs::Steps::steps, crate::proofs::ExpressionSteps::leaf_steps))]
pub(crate) fn print_first(out: &mut Writer, values: &[Text]) -> Result<(), AllocError>
    ensures { IfOk result (λ _. out.new ≡ out.old ++ spelt (first_value values.now)) }
{
    match values {
        [value, ..] => out.push_text(value)?,
        [] => {}
    }
    Ok(())
}

/// A map with its operands.
#[tactic(auto, using(crate::proofs::Steps::steps, crate::proofs::ExpressionSteps::leaf_steps), unfolding(crate::specs::Expressions::map_use))]
pub(crate) fn print_map_use(
    out: &mut Writer,
    map: &MapText,
    operands: &[Text],
) -> Result<(), AllocError>
    ensures { IfOk result (λ _. out.new ≡ out.old ++ spelt (map_use map.now operands.now)) }
{
    print_map(out, map)?;
    print_operands(out, map.dims.len(), operands)?;
    Ok(())
}

/// A set with its operands.
#[tactic(auto, using(crate::proofs::Steps::steps, crate::proofs::ExpressionSteps::leaf_steps), unfolding(crate::specs::Expressions::set_use))]
pub(crate) fn print_set_use(
    out: &mut Writer,
    set: &SetText,
    operands: &[Text],
) -> Result<(), AllocError>
    ensures { IfOk result (λ _. out.new ≡ out.old ++ spelt (set_use set.now operands.now)) }
{
    print_set(out, set)?;
    print_operands(out, set.dims.len(), operands)?;
    Ok(())
}

// Operands, of which the first so many are those of dimensions.
#[tactic(auto, using(crate::proofs::Steps::steps, crate::proofs::ExpressionSteps::leaf_steps))]
fn print_operands(out: &mut Writer, dims: usize, operands: &[Text]) -> Result<(), AllocError>
    ensures { IfOk result (λ _. out.new ≡ out.old ++ spelt (operands_pieces dims operands.now)) }
{
    let (dim_values, sym_values) = split(dims, operands);
    print_in_round(out, dim_values)?;
    print_if_any(out, sym_values)?;
    Ok(())
}

// The operands of a map's dimensions, and those of its symbols.
fn operands_of<'a>(map: &MapText, operands: &'a [Text]) -> (&'a [Text], &'a [Text])
    ensures dims { result.0.now ≡ take (length map.now.dims) operands.now }
    ensures syms { result.1.now ≡ drop (length map.now.dims) operands.now }
{
    split(map.dims.len(), operands)
}

// The operands of so many dimensions, and those of the symbols.
fn split(dims: usize, operands: &[Text]) -> (&[Text], &[Text])
    ensures dims { result.0.now ≡ take dims operands.now }
    ensures syms { result.1.now ≡ drop dims operands.now }
{
    operands.split_at(dims.min(operands.len()))
}
