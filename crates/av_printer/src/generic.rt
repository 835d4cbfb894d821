//! The form that all operations have in common.
ghost use Rattle.std.specs.Prelude.{◌≡◌, ◌++◌, map, IfOk};
ghost use Rattle.av_printer.specs.Pieces.{spelt, commas, in_round};
ghost use Rattle.av_printer.specs.Operations.{head_of, argument, arguments_pieces, values_pieces, values_in_round, known_type, known_types, known_in_round, known_results, quoted_name, properties_behind, marks_behind, common_line, common_end, signature};

use crate::dictionaries::print_dictionary;
use crate::expressions::print_texts;
use crate::types::print_type;
use crate::writer::Writer;
use av_affine::Text;
use av_tree::{BodyArg, Named, Node, TypeText};
use std::alloc::AllocError;

/// The name, the operands and the properties.
#[tactic(auto, using(crate::proofs::Steps::steps), unfolding(crate::specs::Operations::common_line))]
pub(crate) fn open_generic(out: &mut Writer, node: &Node) -> Result<(), AllocError>
    ensures { IfOk result (λ _. out.new ≡ out.old ++ spelt (common_line (head_of node.now))) }
{
    print_quoted_name(out, &node.name)?;
    print_values_in_round(out, node.operands.as_slice())?;
    print_properties(out, node.properties.as_slice())?;
    Ok(())
}

#[tactic(auto, using(crate::proofs::Steps::steps), unfolding(crate::specs::Operations::quoted_name))]
fn print_quoted_name(out: &mut Writer, name: &Text) -> Result<(), AllocError>
    ensures { IfOk result (λ _. out.new ≡ out.old ++ spelt (quoted_name name.now)) }
{
    out.push_bytes(b"\"")?;
    out.push_text(name)?;
    out.push_bytes(b"\"")?;
    Ok(())
}

// Properties in their brackets; nothing where there is none.
#[tactic(auto, using(crate::proofs::Steps::steps, crate::proofs::OperationSteps::dictionary_steps))]
fn print_properties(out: &mut Writer, entries: &[Named]) -> Result<(), AllocError>
    ensures { IfOk result (λ _. out.new ≡ out.old ++ spelt (properties_behind entries.now)) }
{
    if !entries.is_empty() {
        out.push_bytes(b" <{")?;
        print_dictionary(out, entries)?;
        out.push_bytes(b"}>")?;
    }
    Ok(())
}

/// Marks in curly brackets; nothing where there is none.
#[tactic(auto, using(crate::proofs::Steps::steps, crate::proofs::OperationSteps::dictionary_steps))]
pub(crate) fn print_marks(out: &mut Writer, entries: &[Named]) -> Result<(), AllocError>
    ensures { IfOk result (λ _. out.new ≡ out.old ++ spelt (marks_behind entries.now)) }
{
    if !entries.is_empty() {
        out.push_bytes(b" {")?;
        print_dictionary(out, entries)?;
        out.push_bytes(b"}")?;
    }
    Ok(())
}

/// The attributes and the types.
#[tactic(auto, using(crate::proofs::Steps::steps), unfolding(crate::specs::Operations::common_end))]
pub(crate) fn close_generic(out: &mut Writer, node: &Node) -> Result<(), AllocError>
    ensures { IfOk result (λ _. out.new ≡ out.old ++ spelt (common_end (head_of node.now))) }
{
    print_marks(out, node.attrs.as_slice())?;
    print_signature(out, node.in_types.as_slice(), node.out_types.as_slice())?;
    Ok(())
}

#[tactic(auto, using(crate::proofs::Steps::steps, crate::proofs::Steps::signs_between), unfolding(crate::specs::Operations::signature))]
fn print_signature(
    out: &mut Writer,
    inputs: &[Option<TypeText>],
    results: &[Option<TypeText>],
) -> Result<(), AllocError>
    ensures { IfOk result (λ _. out.new ≡ out.old ++ spelt (signature inputs.now results.now)) }
{
    out.push_bytes(b" : ")?;
    print_known_in_round(out, inputs)?;
    out.push_bytes(b" -> ")?;
    print_known_results(out, results)?;
    Ok(())
}

/// The types of results: one alone without brackets.
#[tactic(auto, using(crate::proofs::Steps::steps, crate::proofs::TypeSteps::type_steps), unfolding(crate::specs::Operations::known_results, crate::specs::Operations::known_in_round, crate::specs::Operations::known_types))]
pub(crate) fn print_known_results(
    out: &mut Writer,
    types: &[Option<TypeText>],
) -> Result<(), AllocError>
    ensures { IfOk result (λ _. out.new ≡ out.old ++ spelt (known_results types.now)) }
{
    match types {
        [] => out.push_bytes(b"()")?,
        [ty] => print_known_type(out, ty)?,
        [_, _, ..] => print_known_in_round(out, types)?,
    }
    Ok(())
}

/// Types between commas, in round brackets.
#[tactic(auto, using(crate::proofs::Steps::steps), unfolding(crate::specs::Operations::known_in_round))]
pub(crate) fn print_known_in_round(
    out: &mut Writer,
    types: &[Option<TypeText>],
) -> Result<(), AllocError>
    ensures { IfOk result (λ _. out.new ≡ out.old ++ spelt (known_in_round types.now)) }
{
    out.push_bytes(b"(")?;
    print_known_types(out, types)?;
    out.push_bytes(b")")?;
    Ok(())
}

/// Values between commas.
#[tactic(auto, using(crate::proofs::Steps::steps, crate::proofs::ExpressionSteps::leaf_steps), unfolding(crate::specs::Operations::values_pieces))]
pub(crate) fn print_values(out: &mut Writer, values: &[Text]) -> Result<(), AllocError>
    ensures { IfOk result (λ _. out.new ≡ out.old ++ spelt (values_pieces values.now)) }
{
    print_texts(out, values)?;
    Ok(())
}

#[tactic(auto, using(crate::proofs::Steps::steps), unfolding(crate::specs::Operations::values_in_round))]
pub(crate) fn print_values_in_round(out: &mut Writer, values: &[Text]) -> Result<(), AllocError>
    ensures { IfOk result (λ _. out.new ≡ out.old ++ spelt (values_in_round values.now)) }
{
    out.push_bytes(b"(")?;
    print_values(out, values)?;
    out.push_bytes(b")")?;
    Ok(())
}

/// Arguments of a block with their types, in round brackets.
#[tactic(auto, using(crate::proofs::Steps::steps), unfolding(crate::specs::Operations::arguments_pieces))]
pub(crate) fn print_arguments(out: &mut Writer, args: &[BodyArg]) -> Result<(), AllocError>
    ensures { IfOk result (λ _. out.new ≡ out.old ++ spelt (arguments_pieces args.now)) }
{
    out.push_bytes(b"(")?;
    for (i, arg) in args.iter().enumerate() {
        out.push_comma_after(i)?;
        print_argument(out, arg)?;
    }
    out.push_bytes(b")")?;
    Ok(())
}

#[tactic(auto, using(crate::proofs::Steps::steps), unfolding(crate::specs::Operations::argument))]
fn print_argument(out: &mut Writer, arg: &BodyArg) -> Result<(), AllocError>
    ensures { IfOk result (λ _. out.new ≡ out.old ++ spelt (argument arg.now)) }
{
    out.push_text(&arg.name)?;
    out.push_bytes(b": ")?;
    print_type(out, &arg.ty)?;
    Ok(())
}

/// Types between commas.
#[tactic(auto, using(crate::proofs::Steps::steps), unfolding(crate::specs::Operations::known_types))]
pub(crate) fn print_known_types(
    out: &mut Writer,
    types: &[Option<TypeText>],
) -> Result<(), AllocError>
    ensures { IfOk result (λ _. out.new ≡ out.old ++ spelt (known_types types.now)) }
{
    for (i, ty) in types.iter().enumerate() {
        out.push_comma_after(i)?;
        print_known_type(out, ty)?;
    }
    Ok(())
}

/// A type, or `?` where the tree has none.
#[tactic(auto, using(crate::proofs::Steps::steps, crate::proofs::OperationSteps::known_steps))]
pub(crate) fn print_known_type(out: &mut Writer, ty: &Option<TypeText>) -> Result<(), AllocError>
    ensures { IfOk result (λ _. out.new ≡ out.old ++ spelt (known_type ty.now)) }
{
    match ty {
        Some(ty) => print_type(out, ty)?,
        None => out.push_bytes(b"?")?,
    }
    Ok(())
}
