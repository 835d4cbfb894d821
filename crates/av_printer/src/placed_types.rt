//! Types in forms.
ghost use Rattle.std.specs.Prelude.{◌≡◌, ◌++◌, ◌-◌, suc, length, drop, IfOk};
ghost use Rattle.av_tree.specs.declared.written.TypeText.{out-TypeText};
ghost use Rattle.av_printer.specs.Pieces.{spelt};
ghost use Rattle.av_printer.specs.Operations.{head_of};
ghost use Rattle.av_printer.specs.Parts.{first_known, first_slot, types_from, condition_type, selected_types, written_results, is_vector};

use crate::generic::{print_known_results, print_known_type};
use crate::slices::behind;
use crate::types::print_type;
use crate::writer::Writer;
use av_dialects::{Slot, Slots};
use av_tree::{Node, TypeText};
use std::alloc::AllocError;

/// The type of these slots.
#[tactic(auto, using(crate::proofs::Steps::steps))]
pub(crate) fn print_type_at(out: &mut Writer, node: &Node, slots: Slots) -> Result<(), AllocError>
    ensures { IfOk result (λ _. out.new ≡ out.old ++ spelt (first_known (types_from (head_of node.now) (first_slot slots)))) }
{
    print_first_known(out, types_from(node, first_slot(slots)))?;
    Ok(())
}

fn first_slot(slots: Slots) -> Slot
    ensures { result ≡ first_slot slots }
{
    match slots {
        Slots::One(slot) => slot,
        Slots::Two(slot, _) => slot,
        Slots::Three(slot, _, _) => slot,
    }
}

// The types from a slot on.
fn types_from(node: &Node, slot: Slot) -> &[Option<TypeText>]
    ensures { result.now ≡ types_from (head_of node.now) slot }
{
    let inputs = node.in_types.as_slice();
    match slot {
        Slot::Input(at) => behind(inputs, at),
        Slot::LastInput(at) => last(inputs, at),
        Slot::Output => node.out_types.as_slice(),
    }
}

// The last, and so many before it.
fn last(types: &[Option<TypeText>], before: u8) -> &[Option<TypeText>]
    ensures { result.now ≡ drop (length types.now - suc before) types.now }
{
    let (_, others) = types.split_at(types.len().saturating_sub(usize::from(before) + 1));
    others
}

#[tactic(auto, using(crate::proofs::Steps::steps, crate::proofs::PartSteps::part_steps))]
fn print_first_known(out: &mut Writer, types: &[Option<TypeText>]) -> Result<(), AllocError>
    ensures { IfOk result (λ _. out.new ≡ out.old ++ spelt (first_known types.now)) }
{
    match types {
        [ty, ..] => print_known_type(out, ty)?,
        [] => {}
    }
    Ok(())
}

#[tactic(auto, using(crate::proofs::Steps::steps, crate::proofs::PartSteps::part_steps))]
/// The types of a choice.
pub(crate) fn print_choice_types(
    out: &mut Writer,
    types: &[Option<TypeText>],
) -> Result<(), AllocError>
    ensures { IfOk result (λ _. out.new ≡ out.old ++ spelt (selected_types types.now)) }
{
    match types {
        [condition, ..] => {
            print_condition_type(out, condition)?;
            print_first_known(out, behind(types, 1))?;
        }
        [] => {}
    }
    Ok(())
}

// The type of a condition and a comma, where it is a vector.
#[tactic(auto, using(crate::proofs::Steps::steps, crate::proofs::PartSteps::condition_steps))]
fn print_condition_type(out: &mut Writer, ty: &Option<TypeText>) -> Result<(), AllocError>
    ensures { IfOk result (λ _. out.new ≡ out.old ++ spelt (condition_type ty.now)) }
{
    match ty {
        Some(ty) => {
            if is_vector(ty) {
                print_type(out, ty)?;
                out.push_bytes(b", ")?;
            }
        }
        None => {}
    }
    Ok(())
}

#[tactic(auto, using(crate::proofs::PartSteps::vector_steps))]
fn is_vector(ty: &TypeText) -> bool
    ensures { result ≡ is_vector (out-TypeText ty.now) }
{
    match ty {
        TypeText::Vector { .. } => true,
        TypeText::Scalar(_) => false,
        TypeText::MemRef { .. } => false,
        TypeText::Func { .. } => false,
    }
}

// The types of results behind an arrow; nothing where there is none.
#[tactic(auto, using(crate::proofs::Steps::steps, crate::proofs::PartSteps::part_steps, crate::proofs::Steps::signs_between))]
pub(crate) fn print_written_results(
    out: &mut Writer,
    types: &[Option<TypeText>],
) -> Result<(), AllocError>
    ensures { IfOk result (λ _. out.new ≡ out.old ++ spelt (written_results types.now)) }
{
    if !types.is_empty() {
        out.push_bytes(b" -> ")?;
        print_known_results(out, types)?;
    }
    Ok(())
}
