//! Functions: what stands before their region.
ghost use Rattle.std.specs.Prelude.{◌≡◌, ◌++◌, Some, option_copied, IfOk};
ghost use Rattle.av_printer.specs.Pieces.{spelt};
ghost use Rattle.av_printer.specs.Operations.{head_of, text_of, results_of, results_of_type, results_behind, function_name, attributes_word, function_line};

use crate::entries::{arguments, property};
use crate::generic::{print_arguments, print_marks};
use crate::types::print_result_types;
use crate::writer::Writer;
use av_tree::{Attr, Named, Node, TypeText};
use std::alloc::AllocError;

#[tactic(auto, using(crate::proofs::Steps::steps), unfolding(crate::specs::Operations::function_line))]
pub(crate) fn print_function(out: &mut Writer, node: &Node) -> Result<(), AllocError>
    ensures { IfOk result (λ _. out.new ≡ out.old ++ spelt (function_line (head_of node.now))) }
{
    let properties = node.properties.as_slice();
    print_function_name(out, property(properties, b"sym_name"))?;
    print_arguments(out, arguments(node))?;
    print_function_results(out, property(properties, b"function_type"))?;
    print_attributes_word(out, node.attrs.as_slice())?;
    print_marks(out, node.attrs.as_slice())?;
    Ok(())
}

#[tactic(auto, using(crate::proofs::Steps::steps, crate::proofs::OperationSteps::text_steps), unfolding(crate::specs::Operations::function_name))]
fn print_function_name(out: &mut Writer, name: Option<&Attr>) -> Result<(), AllocError>
    ensures { IfOk result (λ _. out.new ≡ out.old ++ spelt (function_name (text_of (option_copied name.entry)))) }
{
    out.push_bytes(b"func.func @")?;
    match name {
        Some(name) => print_text_in(out, name)?,
        None => {}
    }
    Ok(())
}

#[tactic(auto, using(crate::proofs::OperationSteps::text_steps))]
fn print_text_in(out: &mut Writer, attr: &Attr) -> Result<(), AllocError>
    ensures { IfOk result (λ _. out.new ≡ out.old ++ text_of (Some attr.now)) }
{
    match attr {
        Attr::Quoted(text) => out.push_text(text)?,
        _ => {}
    }
    Ok(())
}

// The types of results behind an arrow; nothing where there is none.
#[tactic(auto, using(crate::proofs::Steps::steps, crate::proofs::OperationSteps::result_steps, crate::proofs::Steps::signs_between))]
fn print_function_results(out: &mut Writer, ty: Option<&Attr>) -> Result<(), AllocError>
    ensures { IfOk result (λ _. out.new ≡ out.old ++ spelt (results_behind (results_of (option_copied ty.entry)))) }
{
    match ty {
        Some(ty) => print_results_behind(out, results_in(ty))?,
        None => {}
    }
    Ok(())
}

#[tactic(auto, using(crate::proofs::Steps::steps, crate::proofs::OperationSteps::behind_steps, crate::proofs::Steps::signs_between))]
fn print_results_behind(out: &mut Writer, types: &[TypeText]) -> Result<(), AllocError>
    ensures { IfOk result (λ _. out.new ≡ out.old ++ spelt (results_behind types.now)) }
{
    if !types.is_empty() {
        out.push_bytes(b" -> ")?;
        print_result_types(out, types)?;
    }
    Ok(())
}

#[tactic(auto, using(crate::proofs::OperationSteps::result_steps))]
fn results_in(attr: &Attr) -> &[TypeText]
    ensures { result.now ≡ results_of (Some attr.now) }
{
    match attr {
        Attr::Type(ty) => results_in_type(ty),
        _ => &[],
    }
}

#[tactic(auto, using(crate::proofs::OperationSteps::result_steps))]
fn results_in_type(ty: &TypeText) -> &[TypeText]
    ensures { result.now ≡ results_of_type ty.now }
{
    match ty {
        TypeText::Func { inputs: _, results } => results.as_slice(),
        _ => &[],
    }
}

#[tactic(auto, using(crate::proofs::Steps::steps, crate::proofs::OperationSteps::behind_steps))]
fn print_attributes_word(out: &mut Writer, entries: &[Named]) -> Result<(), AllocError>
    ensures { IfOk result (λ _. out.new ≡ out.old ++ spelt (attributes_word entries.now)) }
{
    if !entries.is_empty() {
        out.push_bytes(b" attributes")?;
    }
    Ok(())
}
