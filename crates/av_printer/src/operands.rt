//! Parts that are operands with what belongs to them.
ghost use Rattle.std.specs.Prelude.{◌≡◌, ◌++◌, map, option_copied, IfOk};
ghost use Rattle.av_printer.specs.Pieces.{spelt, behind as behind_commas};
ghost use Rattle.av_printer.specs.Expressions.{value};
ghost use Rattle.av_printer.specs.Operations.{values_behind, subscripts_if_any, buffer};
ghost use Rattle.av_printer.specs.Parts.{element};

use crate::generic::{print_known_types, print_values};
use crate::slices::behind;
use crate::subscripts::print_subscripts;
use crate::writer::Writer;
use av_affine::Text;
use av_tree::{MapText, TypeText};
use std::alloc::AllocError;

/// Values, each with a comma before it.
#[tactic(auto, using(crate::proofs::Steps::steps, crate::proofs::ExpressionSteps::leaf_steps))]
pub(crate) fn print_more(out: &mut Writer, operands: &[Text]) -> Result<(), AllocError>
    ensures { IfOk result (λ _. out.new ≡ out.old ++ spelt (behind_commas (map value operands.now))) }
{
    for operand in operands {
        out.push_bytes(b", ")?;
        out.push_text(operand)?;
    }
    Ok(())
}

/// The values with their types, where there are some.
#[tactic(auto, using(crate::proofs::Steps::steps, crate::proofs::OperationSteps::behind_steps, crate::proofs::Steps::signs_between))]
pub(crate) fn print_values_behind(
    out: &mut Writer,
    values: &[Text],
    types: &[Option<TypeText>],
) -> Result<(), AllocError>
    ensures { IfOk result (λ _. out.new ≡ out.old ++ spelt (values_behind values.now types.now)) }
{
    if !values.is_empty() {
        out.push_bytes(b" ")?;
        print_values(out, values)?;
        out.push_bytes(b" : ")?;
        print_known_types(out, types)?;
    }
    Ok(())
}

/// A buffer and its indices.
#[tactic(auto, using(crate::proofs::Steps::steps, crate::proofs::ExpressionSteps::leaf_steps, crate::proofs::PartSteps::part_steps))]
pub(crate) fn print_element(out: &mut Writer, operands: &[Text]) -> Result<(), AllocError>
    ensures { IfOk result (λ _. out.new ≡ out.old ++ spelt (element operands.now)) }
{
    match operands {
        [buffer, ..] => {
            out.push_text(buffer)?;
            out.push_bytes(b"[")?;
            print_values(out, behind(operands, 1))?;
            out.push_bytes(b"]")?;
        }
        [] => {}
    }
    Ok(())
}

/// A buffer and its subscripts.
#[tactic(auto, using(crate::proofs::Steps::steps, crate::proofs::ExpressionSteps::leaf_steps, crate::proofs::OperationSteps::behind_steps))]
pub(crate) fn print_buffer(
    out: &mut Writer,
    map: Option<&MapText>,
    operands: &[Text],
) -> Result<(), AllocError>
    ensures { IfOk result (λ _. out.new ≡ out.old ++ spelt (buffer (option_copied map.entry) operands.now)) }
{
    match operands {
        [first, ..] => {
            out.push_text(first)?;
            print_subscripts_of(out, map, behind(operands, 1))?;
        }
        [] => {}
    }
    Ok(())
}

#[tactic(auto, using(crate::proofs::Steps::steps), unfolding(crate::specs::Operations::subscripts_if_any))]
fn print_subscripts_of(
    out: &mut Writer,
    map: Option<&MapText>,
    operands: &[Text],
) -> Result<(), AllocError>
    ensures { IfOk result (λ _. out.new ≡ out.old ++ spelt (subscripts_if_any (option_copied map.entry) operands.now)) }
{
    match map {
        Some(map) => print_subscripts(out, map, operands)?,
        None => {}
    }
    Ok(())
}
