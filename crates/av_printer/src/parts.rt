//! The parts of which forms are made, each with what stands before it.
ghost use Rattle.std.specs.Prelude.{◌≡◌, [], ◌++◌, IfOk};
ghost use Rattle.av_printer.specs.Pieces.{spelt};
ghost use Rattle.av_printer.specs.Operations.{head_of};
ghost use Rattle.av_printer.specs.Parts.{lead_pieces, item_pieces, part_pieces, parts_pieces, first_word, form_line, form_end};

use crate::entries::{arguments, map_of, property};
use crate::generic::{print_marks, print_values};
use crate::loops::{
    print_carried, print_lower_bound, print_step_of, print_upper_bound, print_variable,
};
use crate::operands::{print_buffer, print_element, print_more, print_values_behind};
use crate::placed_types::{print_choice_types, print_type_at, print_written_results};
use crate::properties::{
    print_angled, print_applied, print_constant, print_flags, print_numbers, print_word,
};
use crate::shares::{before_regions, behind_regions, shared};
use crate::subscripts::print_first;
use crate::writer::Writer;
use av_affine::Text;
use av_dialects::{Item, Lead, Part, property as name_of};
use av_tree::Node;
use std::alloc::AllocError;

/// What stands before the regions, or all of an operation without one.
#[tactic(auto, using(crate::proofs::Steps::steps), unfolding(crate::specs::Parts::form_line))]
pub(crate) fn open_form(out: &mut Writer, node: &Node, parts: &[Part]) -> Result<(), AllocError>
    ensures { IfOk result (λ _. out.new ≡ out.old ++ spelt (form_line parts.now (head_of node.now))) }
{
    print_first_word(out, &node.name)?;
    print_parts(out, node, before_regions(parts), node.operands.as_slice())?;
    Ok(())
}

/// What stands after the regions.
#[tactic(auto, using(crate::proofs::Steps::steps), unfolding(crate::specs::Parts::form_end))]
pub(crate) fn close_form(out: &mut Writer, node: &Node, parts: &[Part]) -> Result<(), AllocError>
    ensures { IfOk result (λ _. out.new ≡ out.old ++ spelt (form_end parts.now (head_of node.now))) }
{
    print_parts(out, node, behind_regions(parts), &[])?;
    Ok(())
}

// The name, but for the return of a function.
#[tactic(auto, using(crate::proofs::Steps::steps), unfolding(crate::specs::Parts::first_word))]
fn print_first_word(out: &mut Writer, name: &Text) -> Result<(), AllocError>
    ensures { IfOk result (λ _. out.new ≡ out.old ++ first_word name.now) }
{
    if name.as_slice() == b"func.return".as_slice() {
        out.push_bytes(b"return")?;
    } else {
        out.push_text(name)?;
    }
    Ok(())
}

fn print_parts(
    out: &mut Writer,
    node: &Node,
    parts: &[Part],
    operands: &[Text],
) -> Result<(), AllocError>
    ensures { IfOk result (λ _. out.new ≡ out.old ++ spelt (parts_pieces (head_of node.now) parts.now operands.now)) }
{
    let mut left = operands;
    for (i, part) in parts.iter().enumerate() {
        let (_, next) = parts.split_at(i + 1);
        let (taken, others) = shared(node, part.1, left, next);
        print_part(out, node, part, taken)?;
        left = others;
    }
    Ok(())
}

#[tactic(auto, using(crate::proofs::Steps::steps), unfolding(crate::specs::Parts::part_pieces))]
fn print_part(
    out: &mut Writer,
    node: &Node,
    part: &Part,
    operands: &[Text],
) -> Result<(), AllocError>
    ensures { IfOk result (λ _. out.new ≡ out.old ++ spelt (part_pieces (head_of node.now) part.now operands.now)) }
{
    let (lead, item) = *part;
    print_lead(out, lead)?;
    print_item(out, node, item, operands)?;
    Ok(())
}

#[tactic(auto, using(crate::proofs::Steps::steps, crate::proofs::Steps::signs_between))]
fn print_lead(out: &mut Writer, lead: Lead) -> Result<(), AllocError>
    ensures { IfOk result (λ _. out.new ≡ out.old ++ spelt (lead_pieces lead)) }
{
    out.push_bytes(lead_text(lead))?;
    Ok(())
}

#[tactic(auto, unfolding(crate::specs::Pieces::spelt, crate::specs::Pieces::space, crate::specs::Pieces::sign, crate::specs::Pieces::token))]
fn lead_text(lead: Lead) -> &'static [u8]
    ensures { result.now ≡ spelt (lead_pieces lead) }
{
    match lead {
        Lead::Nothing => b"",
        Lead::Blank => b" ",
        Lead::Comma => b", ",
        Lead::Colon => b" : ",
        Lead::Equal => b" = ",
        Lead::To => b" to ",
        Lead::Step => b" step ",
        Lead::Into => b" into ",
        Lead::From => b" from ",
    }
}

#[tactic(auto, using(crate::proofs::Steps::steps))]
fn print_item(
    out: &mut Writer,
    node: &Node,
    item: Item,
    operands: &[Text],
) -> Result<(), AllocError>
    ensures { IfOk result (λ _. out.new ≡ out.old ++ spelt (item_pieces (head_of node.now) item operands.now)) }
{
    let outputs = node.out_types.as_slice();
    let properties = node.properties.as_slice();
    match item {
        Item::Operand(_) => print_first(out, operands)?,
        Item::OptionalOperand => print_more(out, operands)?,
        Item::Operands => print_values(out, operands)?,
        Item::TypedOperands => print_values_behind(out, operands, node.in_types.as_slice())?,
        Item::Element => print_element(out, operands)?,
        Item::Type(_, slots) => print_type_at(out, node, slots)?,
        Item::ChoiceTypes => print_choice_types(out, node.in_types.as_slice())?,
        Item::Word(key) => print_word(out, property(properties, name_of(key).as_bytes()))?,
        Item::Angled(key) => print_angled(out, property(properties, name_of(key).as_bytes()))?,
        Item::Numbers(key) => print_numbers(out, property(properties, name_of(key).as_bytes()))?,
        Item::Overflow => print_flags(out, property(properties, b"overflowFlags"))?,
        Item::Marks => print_marks(out, node.attrs.as_slice())?,
        Item::Constant => print_constant(out, property(properties, b"value"))?,
        Item::Map => print_applied(out, property(properties, b"map"), operands)?,
        Item::Set => print_applied(out, property(properties, b"condition"), operands)?,
        Item::Access => print_buffer(out, map_of(property(properties, b"map")), operands)?,
        Item::Counter => print_variable(out, arguments(node))?,
        Item::LowerBound => print_lower_bound(out, node, operands)?,
        Item::UpperBound => print_upper_bound(out, node, operands)?,
        Item::Step => print_step_of(out, property(properties, b"step"))?,
        Item::Carried => print_carried(out, arguments(node), operands, outputs)?,
        Item::ResultTypes => print_written_results(out, outputs)?,
        Item::ByHand => {}
        Item::Region => {}
        Item::Else => {}
    }
    Ok(())
}
