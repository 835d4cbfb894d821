//! Attributes and dictionaries.
ghost use Rattle.std.specs.Prelude.{◌≡◌, ◌++◌, map, is_none, IfOk};
ghost use Rattle.av_printer.specs.Pieces.{spelt, sign, token, commas, in_square, in_curly};
ghost use Rattle.av_printer.specs.Expressions.{number};
ghost use Rattle.av_printer.specs.Attributes.{attr_of, attribute, entry_pieces, element_pieces, typed, truth, numbers_behind, quoted, hashed, array_of, dense_of};

use crate::expressions::{print_map, print_set, print_texts};
use crate::types::print_type;
use crate::writer::Writer;
use av_affine::Text;
use av_tree::{Attr, Element, Named, TypeText};
use std::alloc::AllocError;

#[tactic(auto, using(crate::proofs::Steps::steps, crate::proofs::AttributeSteps::attribute_steps))]
#[cycle(attributing)]
pub(crate) fn print_attribute(out: &mut Writer, attr: &Attr) -> Result<(), AllocError>
    ensures { IfOk result (λ _. out.new ≡ out.old ++ spelt (attribute attr.now)) }
{
    match attr {
        Attr::Number { value, ty } => {
            out.push_number(*value)?;
            print_type_after(out, ty)?;
        }
        Attr::Bool(value) => print_bool(out, *value)?,
        Attr::Quoted(text) => print_quoted(out, text)?,
        Attr::Symbol(name) => out.push_text(name)?,
        Attr::AliasUse(name) => out.push_text(name)?,
        Attr::Type(ty) => print_type(out, ty)?,
        Attr::Map(map) => print_map(out, map)?,
        Attr::Set(set) => print_set(out, set)?,
        Attr::Hash { name, words } => print_hash(out, name, words.as_slice())?,
        Attr::List(items) => print_list(out, items.as_slice())?,
        Attr::Dictionary(entries) => print_entries(out, entries.as_slice())?,
        Attr::Array { elem, numbers } => print_array(out, elem, numbers.as_slice())?,
        Attr::Dense { elements, ty } => print_dense(out, elements, ty)?,
        Attr::Unit => {}
    }
    Ok(())
}

#[cycle(attributing)]
fn print_list(out: &mut Writer, items: &[Attr]) -> Result<(), AllocError>
    ensures { IfOk result (λ _. out.new ≡ out.old ++ spelt (in_square (commas (map attribute items.now)))) }
{
    out.push_bytes(b"[")?;
    for (i, item) in items.iter().enumerate() {
        out.push_comma_after(i)?;
        print_attribute(out, item)?;
    }
    out.push_bytes(b"]")?;
    Ok(())
}

#[cycle(attributing)]
fn print_entries(out: &mut Writer, entries: &[Named]) -> Result<(), AllocError>
    ensures { IfOk result (λ _. out.new ≡ out.old ++ spelt (in_curly (commas (map entry_pieces entries.now)))) }
{
    out.push_bytes(b"{")?;
    for (i, entry) in entries.iter().enumerate() {
        out.push_comma_after(i)?;
        print_entry(out, entry)?;
    }
    out.push_bytes(b"}")?;
    Ok(())
}

#[tactic(auto, using(crate::proofs::Steps::steps, crate::proofs::AttributeSteps::entry_steps))]
#[cycle(attributing)]
pub(crate) fn print_entry(out: &mut Writer, entry: &Named) -> Result<(), AllocError>
    ensures { IfOk result (λ _. out.new ≡ out.old ++ spelt (entry_pieces entry.now)) }
{
    out.push_text(&entry.name)?;
    if !is_unit(&entry.value) {
        out.push_bytes(b" = ")?;
        print_attribute(out, &entry.value)?;
    }
    Ok(())
}

#[tactic(auto, using(crate::proofs::AttributeSteps::attribute_steps))]
fn is_unit(value: &Attr) -> bool
    ensures { result ≡ is_none (attr_of value.now) }
{
    match value {
        Attr::Number { .. } => false,
        Attr::Bool(_) => false,
        Attr::Quoted(_) => false,
        Attr::Symbol(_) => false,
        Attr::AliasUse(_) => false,
        Attr::Type(_) => false,
        Attr::Map(_) => false,
        Attr::Set(_) => false,
        Attr::Hash { .. } => false,
        Attr::List(_) => false,
        Attr::Dictionary(_) => false,
        Attr::Array { .. } => false,
        Attr::Dense { .. } => false,
        Attr::Unit => true,
    }
}

#[tactic(auto, using(crate::proofs::Steps::steps), unfolding(crate::specs::Attributes::typed))]
fn print_type_after(out: &mut Writer, ty: &TypeText) -> Result<(), AllocError>
    ensures { IfOk result (λ _. out.new ≡ out.old ++ spelt (typed ty.now)) }
{
    out.push_bytes(b" : ")?;
    print_type(out, ty)?;
    Ok(())
}

#[tactic(auto, using(crate::proofs::Steps::steps), unfolding(crate::specs::Attributes::truth))]
fn print_bool(out: &mut Writer, value: bool) -> Result<(), AllocError>
    ensures { IfOk result (λ _. out.new ≡ out.old ++ spelt (truth value)) }
{
    if value {
        out.push_bytes(b"true")?;
    } else {
        out.push_bytes(b"false")?;
    }
    Ok(())
}

#[tactic(auto, using(crate::proofs::Steps::steps), unfolding(crate::specs::Attributes::quoted))]
fn print_quoted(out: &mut Writer, text: &Text) -> Result<(), AllocError>
    ensures { IfOk result (λ _. out.new ≡ out.old ++ spelt (quoted text.now)) }
{
    out.push_bytes(b"\"")?;
    out.push_text(text)?;
    out.push_bytes(b"\"")?;
    Ok(())
}

#[tactic(auto, using(crate::proofs::Steps::steps), unfolding(crate::specs::Attributes::hashed))]
fn print_hash(out: &mut Writer, name: &Text, words: &[Text]) -> Result<(), AllocError>
    ensures { IfOk result (λ _. out.new ≡ out.old ++ spelt (hashed name.now words.now)) }
{
    out.push_text(name)?;
    out.push_bytes(b"<")?;
    print_texts(out, words)?;
    out.push_bytes(b">")?;
    Ok(())
}

#[tactic(auto, using(crate::proofs::Steps::steps), unfolding(crate::specs::Attributes::array_of))]
fn print_array(out: &mut Writer, elem: &TypeText, numbers: &[i128]) -> Result<(), AllocError>
    ensures { IfOk result (λ _. out.new ≡ out.old ++ spelt (array_of elem.now numbers.now)) }
{
    out.push_bytes(b"array<")?;
    print_type(out, elem)?;
    print_numbers(out, numbers)?;
    out.push_bytes(b">")?;
    Ok(())
}

#[tactic(auto, using(crate::proofs::Steps::steps, crate::proofs::AttributeSteps::number_steps))]
fn print_numbers(out: &mut Writer, numbers: &[i128]) -> Result<(), AllocError>
    ensures { IfOk result (λ _. out.new ≡ out.old ++ spelt (numbers_behind numbers.now)) }
{
    if !numbers.is_empty() {
        out.push_bytes(b": ")?;
        print_integers(out, numbers)?;
    }
    Ok(())
}

/// Numbers between commas.
#[tactic(auto, using(crate::proofs::Steps::steps, crate::proofs::AttributeSteps::number_steps))]
pub(crate) fn print_integers(out: &mut Writer, numbers: &[i128]) -> Result<(), AllocError>
    ensures { IfOk result (λ _. out.new ≡ out.old ++ spelt (commas (map number numbers.now))) }
{
    for (i, number) in numbers.iter().enumerate() {
        out.push_comma_after(i)?;
        out.push_number(*number)?;
    }
    Ok(())
}

#[tactic(auto, using(crate::proofs::Steps::steps), unfolding(crate::specs::Attributes::dense_of))]
fn print_dense(out: &mut Writer, elements: &Element, ty: &TypeText) -> Result<(), AllocError>
    ensures { IfOk result (λ _. out.new ≡ out.old ++ spelt (dense_of elements.now ty.now)) }
{
    out.push_bytes(b"dense<")?;
    print_element(out, elements)?;
    out.push_bytes(b">")?;
    print_type_after(out, ty)?;
    Ok(())
}

#[tactic(auto, using(crate::proofs::Steps::steps, crate::proofs::AttributeSteps::element_steps))]
#[cycle(elements)]
fn print_element(out: &mut Writer, element: &Element) -> Result<(), AllocError>
    ensures { IfOk result (λ _. out.new ≡ out.old ++ spelt (element_pieces element.now)) }
{
    match element {
        Element::Number(value) => out.push_number(*value)?,
        Element::Bool(value) => print_bool(out, *value)?,
        Element::List(items) => print_elements(out, items.as_slice())?,
    }
    Ok(())
}

#[cycle(elements)]
fn print_elements(out: &mut Writer, items: &[Element]) -> Result<(), AllocError>
    ensures { IfOk result (λ _. out.new ≡ out.old ++ spelt (in_square (commas (map element_pieces items.now)))) }
{
    out.push_bytes(b"[")?;
    for (i, item) in items.iter().enumerate() {
        out.push_comma_after(i)?;
        print_element(out, item)?;
    }
    out.push_bytes(b"]")?;
    Ok(())
}
