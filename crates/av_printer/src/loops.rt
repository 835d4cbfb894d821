//! The parts of loops: counters, bounds, steps and carried values.
ghost use Rattle.std.specs.Prelude.{◌≡◌, ◌++◌, Some, option_copied, IfOk};
ghost use Rattle.av_dialects.specs.declared.item.Item.TheVariants.{LowerBound, UpperBound};
ghost use Rattle.av_printer.specs.Pieces.{spelt};
ghost use Rattle.av_printer.specs.Operations.{head_of, step_of, variable, step_behind, carried_pair, carried_in_round, carried_behind};
ghost use Rattle.av_printer.specs.Parts.{alias_bound, bound_of, item_pieces};

use crate::entries::property;
use crate::generic::{print_known_in_round, print_values_in_round};
use crate::slices::behind;
use crate::subscripts::print_bound;
use crate::writer::Writer;
use av_affine::Text;
use av_tree::{Attr, BodyArg, Node, TypeText};
use std::alloc::AllocError;

#[tactic(auto, using(crate::proofs::Steps::steps, crate::proofs::OperationSteps::behind_steps))]
pub(crate) fn print_variable(out: &mut Writer, args: &[BodyArg]) -> Result<(), AllocError>
    ensures { IfOk result (λ _. out.new ≡ out.old ++ spelt (variable args.now)) }
{
    match args {
        [first, ..] => out.push_text(&first.name)?,
        [] => {}
    }
    Ok(())
}

#[tactic(auto, using(crate::proofs::Steps::steps))]
pub(crate) fn print_lower_bound(
    out: &mut Writer,
    node: &Node,
    operands: &[Text],
) -> Result<(), AllocError>
    ensures { IfOk result (λ _. out.new ≡ out.old ++ spelt (item_pieces (head_of node.now) LowerBound operands.now)) }
{
    let map = property(node.properties.as_slice(), b"lowerBoundMap");
    print_bound_of(out, true, map, operands)?;
    Ok(())
}

#[tactic(auto, using(crate::proofs::Steps::steps))]
pub(crate) fn print_upper_bound(
    out: &mut Writer,
    node: &Node,
    operands: &[Text],
) -> Result<(), AllocError>
    ensures { IfOk result (λ _. out.new ≡ out.old ++ spelt (item_pieces (head_of node.now) UpperBound operands.now)) }
{
    let map = property(node.properties.as_slice(), b"upperBoundMap");
    print_bound_of(out, false, map, operands)?;
    Ok(())
}

// A bound, lower or upper.
#[tactic(auto, using(crate::proofs::Steps::steps, crate::proofs::PartSteps::bound_of_steps))]
fn print_bound_of(
    out: &mut Writer,
    lower: bool,
    attr: Option<&Attr>,
    operands: &[Text],
) -> Result<(), AllocError>
    ensures { IfOk result (λ _. out.new ≡ out.old ++ spelt (bound_of lower (option_copied attr.entry) operands.now)) }
{
    match attr {
        Some(attr) => print_bound_in(out, lower, attr, operands)?,
        None => {}
    }
    Ok(())
}

// An alias may have several results.
#[tactic(auto, using(crate::proofs::Steps::steps, crate::proofs::PartSteps::bound_of_steps))]
fn print_bound_in(
    out: &mut Writer,
    lower: bool,
    attr: &Attr,
    operands: &[Text],
) -> Result<(), AllocError>
    ensures { IfOk result (λ _. out.new ≡ out.old ++ spelt (bound_of lower (Some attr.now) operands.now)) }
{
    match attr {
        Attr::Map(map) => print_bound(out, lower, map, operands)?,
        Attr::AliasUse(name) => print_alias_bound(out, lower, name, operands)?,
        _ => {}
    }
    Ok(())
}

#[tactic(auto, using(crate::proofs::Steps::steps))]
fn print_alias_bound(
    out: &mut Writer,
    lower: bool,
    name: &Text,
    operands: &[Text],
) -> Result<(), AllocError>
    ensures { IfOk result (λ _. out.new ≡ out.old ++ spelt (alias_bound lower name.now operands.now)) }
{
    if lower {
        out.push_bytes(b"max ")?;
    } else {
        out.push_bytes(b"min ")?;
    }
    out.push_text(name)?;
    print_values_in_round(out, operands)?;
    Ok(())
}

/// The step, where it isn't 1.
#[tactic(auto, using(crate::proofs::Steps::steps), unfolding(crate::specs::Operations::step_behind))]
pub(crate) fn print_step_of(out: &mut Writer, attr: Option<&Attr>) -> Result<(), AllocError>
    ensures { IfOk result (λ _. out.new ≡ out.old ++ spelt (step_behind (step_of (option_copied attr.entry)))) }
{
    print_step(out, step_of(attr))?;
    Ok(())
}

#[tactic(auto, using(crate::proofs::OperationSteps::step_steps))]
fn step_of(attr: Option<&Attr>) -> i128
    ensures { result ≡ step_of (option_copied attr.entry) }
{
    match attr {
        Some(attr) => step_in(attr),
        None => 1,
    }
}

#[tactic(auto, using(crate::proofs::OperationSteps::step_steps))]
fn step_in(attr: &Attr) -> i128
    ensures { result ≡ step_of (Some attr.now) }
{
    match attr {
        Attr::Number { value, ty: _ } => *value,
        _ => 1,
    }
}

#[tactic(auto, using(crate::proofs::Steps::steps, crate::proofs::ExpressionSteps::expression_steps), unfolding(crate::specs::Operations::step_behind))]
fn print_step(out: &mut Writer, step: i128) -> Result<(), AllocError>
    ensures { IfOk result (λ _. out.new ≡ out.old ++ spelt (step_behind step)) }
{
    if step != 1 {
        out.push_bytes(b" step ")?;
        out.push_number(step)?;
    }
    Ok(())
}

/// The carried arguments with their initial values, and their types.
#[tactic(auto, using(crate::proofs::Steps::steps, crate::proofs::OperationSteps::behind_steps, crate::proofs::Steps::signs_between))]
pub(crate) fn print_carried(
    out: &mut Writer,
    args: &[BodyArg],
    initial: &[Text],
    types: &[Option<TypeText>],
) -> Result<(), AllocError>
    ensures { IfOk result (λ _. out.new ≡ out.old ++ spelt (carried_behind args.now initial.now types.now)) }
{
    if !initial.is_empty() {
        out.push_bytes(b" iter_args")?;
        print_carried_args(out, behind(args, 1), initial)?;
        out.push_bytes(b" -> ")?;
        print_known_in_round(out, types)?;
    }
    Ok(())
}

#[tactic(auto, using(crate::proofs::Steps::steps, crate::proofs::OperationSteps::carried_steps), unfolding(crate::specs::Operations::carried_in_round))]
fn print_carried_args(out: &mut Writer, args: &[BodyArg], values: &[Text]) -> Result<(), AllocError>
    ensures { IfOk result (λ _. out.new ≡ out.old ++ spelt (carried_in_round args.now values.now)) }
{
    out.push_bytes(b"(")?;
    let count = args.len().min(values.len());
    for i in 0..count {
        out.push_comma_after(i)?;
        print_carried_arg(out, &args[i], &values[i])?;
    }
    out.push_bytes(b")")?;
    Ok(())
}

#[tactic(auto, using(crate::proofs::Steps::steps, crate::proofs::ExpressionSteps::leaf_steps, crate::proofs::Steps::signs_between), unfolding(crate::specs::Operations::carried_pair))]
fn print_carried_arg(out: &mut Writer, arg: &BodyArg, value: &Text) -> Result<(), AllocError>
    ensures { IfOk result (λ _. out.new ≡ out.old ++ spelt (carried_pair arg.now value.now)) }
{
    out.push_text(&arg.name)?;
    out.push_bytes(b" = ")?;
    out.push_text(value)?;
    Ok(())
}
