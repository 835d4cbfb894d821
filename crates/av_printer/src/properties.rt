//! What properties say in forms of their own.
ghost use Rattle.std.specs.Prelude.{◌≡◌, [], ◌++◌, get_or, map, option_copied, Some, IfOk};
ghost use Rattle.av_printer.specs.Pieces.{spelt};
ghost use Rattle.av_printer.specs.Operations.{constant_value};
ghost use Rattle.av_printer.specs.Parts.{applied, place_of, predicate_at, word_of, angled, angled_of, flags, flags_of, numbers};

use crate::attributes::{print_attribute, print_integers};
use crate::expressions::print_texts;
use crate::generic::print_values_in_round;
use crate::subscripts::{print_map_use, print_set_use};
use crate::writer::Writer;
use av_affine::Text;
use av_dialects::PREDICATES;
use av_tree::Attr;
use std::alloc::AllocError;

/// A map or set, or the name of one, with its operands.
#[tactic(auto, using(crate::proofs::Steps::steps, crate::proofs::PartSteps::applied_steps))]
pub(crate) fn print_applied(
    out: &mut Writer,
    attr: Option<&Attr>,
    operands: &[Text],
) -> Result<(), AllocError>
    ensures { IfOk result (λ _. out.new ≡ out.old ++ spelt (applied (option_copied attr.entry) operands.now)) }
{
    match attr {
        Some(attr) => print_applied_attr(out, attr, operands)?,
        None => {}
    }
    Ok(())
}

#[tactic(auto, using(crate::proofs::Steps::steps, crate::proofs::PartSteps::applied_steps))]
fn print_applied_attr(out: &mut Writer, attr: &Attr, operands: &[Text]) -> Result<(), AllocError>
    ensures { IfOk result (λ _. out.new ≡ out.old ++ spelt (applied (Some attr.now) operands.now)) }
{
    match attr {
        Attr::Map(map) => print_map_use(out, map, operands)?,
        Attr::Set(set) => print_set_use(out, set, operands)?,
        Attr::AliasUse(name) => {
            out.push_text(name)?;
            print_values_in_round(out, operands)?;
        }
        _ => {}
    }
    Ok(())
}

/// The word that the number of a predicate stands for.
#[tactic(auto, using(crate::proofs::Steps::steps, crate::proofs::PartSteps::word_steps))]
pub(crate) fn print_word(out: &mut Writer, attr: Option<&Attr>) -> Result<(), AllocError>
    ensures { IfOk result (λ _. out.new ≡ out.old ++ spelt (word_of (option_copied attr.entry))) }
{
    match attr {
        Some(attr) => out.push_bytes(word_in(attr))?,
        None => {}
    }
    Ok(())
}

#[tactic(auto, using(crate::proofs::PartSteps::word_steps))]
fn word_in(attr: &Attr) -> &'static [u8]
    ensures { result.now ≡ spelt (word_of (Some attr.now)) }
{
    match attr {
        Attr::Number { value, ty: _ } => predicate_at(*value),
        _ => b"",
    }
}

// The word of the predicate of this number, or nothing.
fn predicate_at(value: i128) -> &'static [u8]
    ensures { result.now ≡ predicate_at value }
{
    match place_of(value) {
        Some(place) => word_at(PREDICATES, place),
        None => b"",
    }
}

fn place_of(value: i128) -> Option<u128>
    ensures { result ≡ place_of value }
{
    if value < 0 { None } else { Some(value as u128) }
}

fn word_at(words: &[&'static str], place: u128) -> &'static [u8]
    ensures { result.now ≡ get_or (map (λ word. word.now) words.now) place [] }
{
    if place < words.len() as u128 {
        words[place as usize].as_bytes()
    } else {
        b""
    }
}

/// The words of a hash, in angle brackets.
#[tactic(auto, using(crate::proofs::Steps::steps, crate::proofs::PartSteps::angled_steps))]
pub(crate) fn print_angled(out: &mut Writer, attr: Option<&Attr>) -> Result<(), AllocError>
    ensures { IfOk result (λ _. out.new ≡ out.old ++ spelt (angled_of (option_copied attr.entry))) }
{
    match attr {
        Some(attr) => print_angled_in(out, attr)?,
        None => {}
    }
    Ok(())
}

#[tactic(auto, using(crate::proofs::Steps::steps, crate::proofs::PartSteps::angled_steps))]
fn print_angled_in(out: &mut Writer, attr: &Attr) -> Result<(), AllocError>
    ensures { IfOk result (λ _. out.new ≡ out.old ++ spelt (angled_of (Some attr.now))) }
{
    match attr {
        Attr::Hash { name: _, words } => print_words(out, words.as_slice())?,
        _ => {}
    }
    Ok(())
}

fn print_words(out: &mut Writer, words: &[Text]) -> Result<(), AllocError>
    ensures { IfOk result (λ _. out.new ≡ out.old ++ spelt (angled words.now)) }
{
    out.push_bytes(b"<")?;
    print_texts(out, words)?;
    out.push_bytes(b">")?;
    Ok(())
}

/// The flags of overflow; nothing where there is none.
#[tactic(auto, using(crate::proofs::Steps::steps, crate::proofs::PartSteps::flag_steps))]
pub(crate) fn print_flags(out: &mut Writer, attr: Option<&Attr>) -> Result<(), AllocError>
    ensures { IfOk result (λ _. out.new ≡ out.old ++ spelt (flags_of (option_copied attr.entry))) }
{
    match attr {
        Some(attr) => print_flags_in(out, attr)?,
        None => {}
    }
    Ok(())
}

#[tactic(auto, using(crate::proofs::Steps::steps, crate::proofs::PartSteps::flag_steps))]
fn print_flags_in(out: &mut Writer, attr: &Attr) -> Result<(), AllocError>
    ensures { IfOk result (λ _. out.new ≡ out.old ++ spelt (flags_of (Some attr.now))) }
{
    match attr {
        Attr::Hash { name: _, words } => print_flag_words(out, words.as_slice())?,
        _ => {}
    }
    Ok(())
}

#[tactic(auto, using(crate::proofs::Steps::steps, crate::proofs::PartSteps::flag_steps))]
fn print_flag_words(out: &mut Writer, words: &[Text]) -> Result<(), AllocError>
    ensures { IfOk result (λ _. out.new ≡ out.old ++ spelt (flags words.now)) }
{
    if !words.is_empty() {
        out.push_bytes(b" overflow")?;
        print_words(out, words)?;
    }
    Ok(())
}

/// The value of a constant.
#[tactic(auto, using(crate::proofs::Steps::steps), unfolding(crate::specs::Operations::constant_value))]
pub(crate) fn print_constant(out: &mut Writer, attr: Option<&Attr>) -> Result<(), AllocError>
    ensures { IfOk result (λ _. out.new ≡ out.old ++ spelt (constant_value (option_copied attr.entry))) }
{
    match attr {
        Some(attr) => print_attribute(out, attr)?,
        None => {}
    }
    Ok(())
}

/// The numbers of an array, in square brackets.
#[tactic(auto, using(crate::proofs::Steps::steps, crate::proofs::PartSteps::number_steps))]
pub(crate) fn print_numbers(out: &mut Writer, attr: Option<&Attr>) -> Result<(), AllocError>
    ensures { IfOk result (λ _. out.new ≡ out.old ++ spelt (numbers (option_copied attr.entry))) }
{
    match attr {
        Some(attr) => print_numbers_in(out, attr)?,
        None => {}
    }
    Ok(())
}

#[tactic(auto, using(crate::proofs::Steps::steps, crate::proofs::PartSteps::number_steps))]
fn print_numbers_in(out: &mut Writer, attr: &Attr) -> Result<(), AllocError>
    ensures { IfOk result (λ _. out.new ≡ out.old ++ spelt (numbers (Some attr.now))) }
{
    match attr {
        Attr::Array { elem: _, numbers } => {
            out.push_bytes(b"[")?;
            print_integers(out, numbers.as_slice())?;
            out.push_bytes(b"]")?;
        }
        _ => {}
    }
    Ok(())
}
