//! Rows of dictionaries and attributes, and of values, numbers and results.

ghost use Rattle.std.specs.Prelude.{◌≡◌, Some, None, IfErr, OnOk};
ghost use Rattle.av_parts.specs.rows.AttributeRows.{by_row, hash_of as hash_of_words};
ghost use Rattle.av_parts.specs.rows.ValueRows.{by_row as by_value_row};

use super::types::same_type;
use av_affine::{Seq, Text};
use av_tree::table::{AttributeRule, ValueRule};
use av_tree::{Attr, Element, Named, TypeText};
use av_values::nodes::property;
use av_values::numbers::integer_of;
use av_values::puts::{no_entries, no_texts, same_entries, text_before};
use av_values::spellings::{is_true, unquoted};
use av_values::stack::{Fault, Stack, before, in_order, text_of};
use av_values::value::Dense;

/// Does what a row of dictionaries and attributes does to the values of its symbols.
pub fn reduce_attribute(stack: &mut Stack, rule: AttributeRule) -> Result<(), Fault>
    ensures ok { OnOk result (by_row rule stack.old ≡ Some stack.new) }
    ensures misshapen { IfErr result (λ fault. fault ≡ Fault.Misshapen → by_row rule stack.old ≡ None) }
{
    match rule {
        AttributeRule::NumberAttribute => number_attribute(stack),
        AttributeRule::NoNumberType => no_number_type(stack),
        AttributeRule::WrittenNumberType => same_type(stack),
        AttributeRule::NoEntries => no_entries(stack),
        AttributeRule::NoMoreEntries => no_entries(stack),
        AttributeRule::NoDictionary => no_entries(stack),
        AttributeRule::NoAttributesPart => no_entries(stack),
        AttributeRule::FirstEntry => entry_before(stack),
        AttributeRule::NextEntry => entry_before(stack),
        AttributeRule::PlainEntry => plain_entry(stack),
        AttributeRule::UnitEntry => unit_entry(stack),
        AttributeRule::WrittenEntry => same_attribute(stack),
        AttributeRule::WrittenDictionary => same_entries(stack),
        AttributeRule::DictionaryHere => same_entries(stack),
        AttributeRule::AttributesPart => same_entries(stack),
        AttributeRule::BoolAttribute => bool_attribute(stack),
        AttributeRule::StringAttribute => string_attribute(stack),
        AttributeRule::SymbolAttribute => symbol_attribute(stack),
        AttributeRule::TypeAttribute => type_attribute(stack),
        AttributeRule::MapAttribute => same_attribute(stack),
        AttributeRule::SetAttribute => same_attribute(stack),
        AttributeRule::AliasAttribute => alias_attribute(stack),
        AttributeRule::HashAttribute => hash_attribute(stack),
        AttributeRule::ListAttribute => list_attribute(stack),
        AttributeRule::DictionaryAttribute => dictionary_attribute(stack),
        AttributeRule::ArrayAttribute => array_attribute(stack),
        AttributeRule::DenseAttribute => dense_attribute(stack),
        AttributeRule::NoHashWords => no_hash_words(stack),
        AttributeRule::WrittenHashWords => hash_words(stack),
        AttributeRule::NoAttributes => no_attrs(stack),
        AttributeRule::NoMoreAttributes => no_attrs(stack),
        AttributeRule::FirstAttribute => attr_before(stack),
        AttributeRule::NextAttribute => attr_before(stack),
        AttributeRule::NoArrayNumbers => no_numbers(stack),
        AttributeRule::WrittenArrayNumbers => number_before(stack),
        AttributeRule::DenseElements => dense_elements(stack),
        AttributeRule::NumberElement => number_element(stack),
        AttributeRule::BoolElement => bool_element(stack),
        AttributeRule::ListElement => list_element(stack),
        AttributeRule::NoElements => no_elements(stack),
        AttributeRule::NoMoreElements => no_elements(stack),
        AttributeRule::FirstElement => element_before(stack),
        AttributeRule::NextElement => element_before(stack),
        AttributeRule::FunctionTypeEntry => function_type_entry(stack),
        AttributeRule::UnitFunctionType => unit_entry(stack),
        AttributeRule::WrittenFunctionType => same_attribute(stack),
        AttributeRule::NoFunctionType => same_attribute(stack),
        AttributeRule::FunctionType => function_type(stack),
    }
}

#[tactic(auto, using(av_values::proofs::Replacing::replacing))]
fn number_attribute(stack: &mut Stack) -> Result<(), Fault>
    ensures ok { OnOk result (by_row AttributeRule.NumberAttribute stack.old ≡ Some stack.new) }
    ensures misshapen { IfErr result (λ fault. fault ≡ Fault.Misshapen → by_row AttributeRule.NumberAttribute stack.old ≡ None) }
{
    let value = stack.number()?;
    let ty = stack.ty()?;
    stack.push_attr(Attr::Number { value, ty })?;
    Ok(())
}

#[tactic(auto, using(av_values::proofs::Replacing::replacing))]
fn no_number_type(stack: &mut Stack) -> Result<(), Fault>
    ensures ok { OnOk result (by_row AttributeRule.NoNumberType stack.old ≡ Some stack.new) }
    ensures misshapen { IfErr result (λ fault. fault ≡ Fault.Misshapen → by_row AttributeRule.NoNumberType stack.old ≡ None) }
{
    let name = text_of(stack.alloc(), b"i64")?;
    stack.push_ty(TypeText::Scalar(name))?;
    Ok(())
}

#[tactic(auto, using(av_values::proofs::Replacing::replacing))]
fn entry_before(stack: &mut Stack) -> Result<(), Fault>
    ensures ok { OnOk result (by_row AttributeRule.NextEntry stack.old ≡ Some stack.new) }
    ensures misshapen { IfErr result (λ fault. fault ≡ Fault.Misshapen → by_row AttributeRule.NextEntry stack.old ≡ None) }
{
    let entry = stack.entry()?;
    let others = stack.entries()?;
    let entries = before(entry, others)?;
    stack.push_entries(entries)?;
    Ok(())
}

#[tactic(auto, using(av_values::proofs::Replacing::replacing))]
fn plain_entry(stack: &mut Stack) -> Result<(), Fault>
    ensures ok { OnOk result (by_row AttributeRule.PlainEntry stack.old ≡ Some stack.new) }
    ensures misshapen { IfErr result (λ fault. fault ≡ Fault.Misshapen → by_row AttributeRule.PlainEntry stack.old ≡ None) }
{
    let name = stack.text()?;
    let value = stack.attr()?;
    stack.push_entry(Named { name, value })?;
    Ok(())
}

#[tactic(auto, using(av_values::proofs::Replacing::replacing))]
fn unit_entry(stack: &mut Stack) -> Result<(), Fault>
    ensures ok { OnOk result (by_row AttributeRule.UnitEntry stack.old ≡ Some stack.new) }
    ensures misshapen { IfErr result (λ fault. fault ≡ Fault.Misshapen → by_row AttributeRule.UnitEntry stack.old ≡ None) }
{
    stack.push_attr(Attr::Unit)?;
    Ok(())
}

#[tactic(auto, using(av_values::proofs::Replacing::replacing))]
fn same_attribute(stack: &mut Stack) -> Result<(), Fault>
    ensures ok { OnOk result (by_row AttributeRule.WrittenEntry stack.old ≡ Some stack.new) }
    ensures misshapen { IfErr result (λ fault. fault ≡ Fault.Misshapen → by_row AttributeRule.WrittenEntry stack.old ≡ None) }
{
    let attr = stack.attr()?;
    stack.push_attr(attr)?;
    Ok(())
}

/// Does what a row of values, numbers and results does to the values of its symbols.
pub fn reduce_value(stack: &mut Stack, rule: ValueRule) -> Result<(), Fault>
    ensures ok { OnOk result (by_value_row rule stack.old ≡ Some stack.new) }
    ensures misshapen { IfErr result (λ fault. fault ≡ Fault.Misshapen → by_value_row rule stack.old ≡ None) }
{
    match rule {
        ValueRule::NamedValue => named_value(stack),
        ValueRule::NoResultNumber => no_text(stack),
        ValueRule::OneResult => no_text(stack),
        ValueRule::WrittenResultNumber => same_text(stack),
        ValueRule::NoValues => no_texts(stack),
        ValueRule::NoMoreValues => no_texts(stack),
        ValueRule::NoMoreResults => no_texts(stack),
        ValueRule::FirstValue => text_before(stack),
        ValueRule::NextValue => text_before(stack),
        ValueRule::PlainInteger => plain_integer(stack),
        ValueRule::NegativeInteger => negative_integer(stack),
        ValueRule::ResultNames => result_before(stack),
        ValueRule::NextResult => result_before(stack),
        ValueRule::CountedResults => counted_results(stack),
        ValueRule::NoFurtherValue => no_texts(stack),
        ValueRule::FurtherValue => further_value(stack),
        ValueRule::NoIntegers => no_numbers(stack),
        ValueRule::NoMoreIntegers => no_numbers(stack),
        ValueRule::FirstInteger => number_before(stack),
        ValueRule::NextInteger => number_before(stack),
    }
}

#[tactic(auto, using(av_values::proofs::Replacing::replacing))]
fn named_value(stack: &mut Stack) -> Result<(), Fault>
    ensures ok { OnOk result (by_value_row ValueRule.NamedValue stack.old ≡ Some stack.new) }
    ensures misshapen { IfErr result (λ fault. fault ≡ Fault.Misshapen → by_value_row ValueRule.NamedValue stack.old ≡ None) }
{
    let mut name = stack.text()?;
    let number = stack.text()?;
    name.append(number)?;
    stack.push_text(name)?;
    Ok(())
}

#[tactic(auto, using(av_values::proofs::Replacing::replacing))]
fn no_text(stack: &mut Stack) -> Result<(), Fault>
    ensures ok { OnOk result (by_value_row ValueRule.NoResultNumber stack.old ≡ Some stack.new) }
    ensures misshapen { IfErr result (λ fault. fault ≡ Fault.Misshapen → by_value_row ValueRule.NoResultNumber stack.old ≡ None) }
{
    stack.push_text(Seq::new(stack.alloc()))?;
    Ok(())
}

#[tactic(auto, using(av_values::proofs::Replacing::replacing))]
fn same_text(stack: &mut Stack) -> Result<(), Fault>
    ensures ok { OnOk result (by_value_row ValueRule.WrittenResultNumber stack.old ≡ Some stack.new) }
    ensures misshapen { IfErr result (λ fault. fault ≡ Fault.Misshapen → by_value_row ValueRule.WrittenResultNumber stack.old ≡ None) }
{
    let text = stack.text()?;
    stack.push_text(text)?;
    Ok(())
}

// A name of results with their number, before the others.
#[tactic(auto, using(av_values::proofs::Replacing::replacing))]
fn result_before(stack: &mut Stack) -> Result<(), Fault>
    ensures ok { OnOk result (by_value_row ValueRule.NextResult stack.old ≡ Some stack.new) }
    ensures misshapen { IfErr result (λ fault. fault ≡ Fault.Misshapen → by_value_row ValueRule.NextResult stack.old ≡ None) }
{
    let mut name = stack.text()?;
    let count = stack.text()?;
    let others = stack.texts()?;
    name.append(count)?;
    let results = before(name, others)?;
    stack.push_texts(results)?;
    Ok(())
}

#[tactic(auto, using(av_values::proofs::Replacing::replacing))]
fn counted_results(stack: &mut Stack) -> Result<(), Fault>
    ensures ok { OnOk result (by_value_row ValueRule.CountedResults stack.old ≡ Some stack.new) }
    ensures misshapen { IfErr result (λ fault. fault ≡ Fault.Misshapen → by_value_row ValueRule.CountedResults stack.old ≡ None) }
{
    let digits = stack.text()?;
    let mut count = text_of(stack.alloc(), b":")?;
    count.append(digits)?;
    stack.push_text(count)?;
    Ok(())
}

#[tactic(auto, using(av_values::proofs::Replacing::replacing))]
fn plain_integer(stack: &mut Stack) -> Result<(), Fault>
    ensures ok { OnOk result (by_value_row ValueRule.PlainInteger stack.old ≡ Some stack.new) }
    ensures misshapen { IfErr result (λ fault. fault ≡ Fault.Misshapen → by_value_row ValueRule.PlainInteger stack.old ≡ None) }
{
    let digits = stack.text()?;
    let value = integer_of(&digits, false);
    stack.push_number(value)?;
    Ok(())
}

#[tactic(auto, using(av_values::proofs::Replacing::replacing))]
fn negative_integer(stack: &mut Stack) -> Result<(), Fault>
    ensures ok { OnOk result (by_value_row ValueRule.NegativeInteger stack.old ≡ Some stack.new) }
    ensures misshapen { IfErr result (λ fault. fault ≡ Fault.Misshapen → by_value_row ValueRule.NegativeInteger stack.old ≡ None) }
{
    let digits = stack.text()?;
    let value = integer_of(&digits, true);
    stack.push_number(value)?;
    Ok(())
}

#[tactic(auto, using(av_values::proofs::Replacing::replacing))]
fn bool_attribute(stack: &mut Stack) -> Result<(), Fault>
    ensures ok { OnOk result (by_row AttributeRule.BoolAttribute stack.old ≡ Some stack.new) }
    ensures misshapen { IfErr result (λ fault. fault ≡ Fault.Misshapen → by_row AttributeRule.BoolAttribute stack.old ≡ None) }
{
    let word = stack.text()?;
    let value = is_true(&word);
    stack.push_attr(Attr::Bool(value))?;
    Ok(())
}

#[tactic(auto, using(av_values::proofs::Replacing::replacing))]
fn string_attribute(stack: &mut Stack) -> Result<(), Fault>
    ensures ok { OnOk result (by_row AttributeRule.StringAttribute stack.old ≡ Some stack.new) }
    ensures misshapen { IfErr result (λ fault. fault ≡ Fault.Misshapen → by_row AttributeRule.StringAttribute stack.old ≡ None) }
{
    let alloc = stack.alloc();
    let string = stack.text()?;
    let text = unquoted(alloc, &string)?;
    stack.push_attr(Attr::Quoted(text))?;
    Ok(())
}

#[tactic(auto, using(av_values::proofs::Replacing::replacing))]
fn symbol_attribute(stack: &mut Stack) -> Result<(), Fault>
    ensures ok { OnOk result (by_row AttributeRule.SymbolAttribute stack.old ≡ Some stack.new) }
    ensures misshapen { IfErr result (λ fault. fault ≡ Fault.Misshapen → by_row AttributeRule.SymbolAttribute stack.old ≡ None) }
{
    let symbol = stack.text()?;
    stack.push_attr(Attr::Symbol(symbol))?;
    Ok(())
}

#[tactic(auto, using(av_values::proofs::Replacing::replacing))]
fn type_attribute(stack: &mut Stack) -> Result<(), Fault>
    ensures ok { OnOk result (by_row AttributeRule.TypeAttribute stack.old ≡ Some stack.new) }
    ensures misshapen { IfErr result (λ fault. fault ≡ Fault.Misshapen → by_row AttributeRule.TypeAttribute stack.old ≡ None) }
{
    let ty = stack.ty()?;
    stack.push_attr(Attr::Type(ty))?;
    Ok(())
}

#[tactic(auto, using(av_values::proofs::Replacing::replacing))]
fn alias_attribute(stack: &mut Stack) -> Result<(), Fault>
    ensures ok { OnOk result (by_row AttributeRule.AliasAttribute stack.old ≡ Some stack.new) }
    ensures misshapen { IfErr result (λ fault. fault ≡ Fault.Misshapen → by_row AttributeRule.AliasAttribute stack.old ≡ None) }
{
    let name = stack.text()?;
    stack.push_attr(Attr::AliasUse(name))?;
    Ok(())
}

#[tactic(auto, using(av_values::proofs::Replacing::replacing))]
fn hash_attribute(stack: &mut Stack) -> Result<(), Fault>
    ensures ok { OnOk result (by_row AttributeRule.HashAttribute stack.old ≡ Some stack.new) }
    ensures misshapen { IfErr result (λ fault. fault ≡ Fault.Misshapen → by_row AttributeRule.HashAttribute stack.old ≡ None) }
{
    let name = stack.text()?;
    let words = stack.words()?;
    let attr = hash_of(name, words);
    stack.push_attr(attr)?;
    Ok(())
}

#[tactic(auto, using(av_values::proofs::Replacing::replacing))]
fn list_attribute(stack: &mut Stack) -> Result<(), Fault>
    ensures ok { OnOk result (by_row AttributeRule.ListAttribute stack.old ≡ Some stack.new) }
    ensures misshapen { IfErr result (λ fault. fault ≡ Fault.Misshapen → by_row AttributeRule.ListAttribute stack.old ≡ None) }
{
    let attrs = stack.attrs()?;
    stack.push_attr(Attr::List(in_order(attrs)))?;
    Ok(())
}

#[tactic(auto, using(av_values::proofs::Replacing::replacing))]
fn dictionary_attribute(stack: &mut Stack) -> Result<(), Fault>
    ensures ok { OnOk result (by_row AttributeRule.DictionaryAttribute stack.old ≡ Some stack.new) }
    ensures misshapen { IfErr result (λ fault. fault ≡ Fault.Misshapen → by_row AttributeRule.DictionaryAttribute stack.old ≡ None) }
{
    let entries = stack.entries()?;
    stack.push_attr(Attr::Dictionary(in_order(entries)))?;
    Ok(())
}

#[tactic(auto, using(av_values::proofs::Replacing::replacing))]
fn array_attribute(stack: &mut Stack) -> Result<(), Fault>
    ensures ok { OnOk result (by_row AttributeRule.ArrayAttribute stack.old ≡ Some stack.new) }
    ensures misshapen { IfErr result (λ fault. fault ≡ Fault.Misshapen → by_row AttributeRule.ArrayAttribute stack.old ≡ None) }
{
    let elem = stack.ty()?;
    let numbers = stack.numbers()?;
    let attr = Attr::Array {
        elem,
        numbers: in_order(numbers),
    };
    stack.push_attr(attr)?;
    Ok(())
}

#[tactic(auto, using(av_values::proofs::Replacing::replacing))]
fn dense_attribute(stack: &mut Stack) -> Result<(), Fault>
    ensures ok { OnOk result (by_row AttributeRule.DenseAttribute stack.old ≡ Some stack.new) }
    ensures misshapen { IfErr result (λ fault. fault ≡ Fault.Misshapen → by_row AttributeRule.DenseAttribute stack.old ≡ None) }
{
    let dense = stack.dense()?;
    let attr = Attr::Dense {
        elements: dense.elements,
        ty: dense.ty,
    };
    stack.push_attr(attr)?;
    Ok(())
}

#[tactic(auto, using(av_values::proofs::Replacing::replacing))]
fn no_hash_words(stack: &mut Stack) -> Result<(), Fault>
    ensures ok { OnOk result (by_row AttributeRule.NoHashWords stack.old ≡ Some stack.new) }
    ensures misshapen { IfErr result (λ fault. fault ≡ Fault.Misshapen → by_row AttributeRule.NoHashWords stack.old ≡ None) }
{
    stack.push_words(None)?;
    Ok(())
}

#[tactic(auto, using(av_values::proofs::Replacing::replacing))]
fn hash_words(stack: &mut Stack) -> Result<(), Fault>
    ensures ok { OnOk result (by_row AttributeRule.WrittenHashWords stack.old ≡ Some stack.new) }
    ensures misshapen { IfErr result (λ fault. fault ≡ Fault.Misshapen → by_row AttributeRule.WrittenHashWords stack.old ≡ None) }
{
    let words = stack.texts()?;
    stack.push_words(Some(words))?;
    Ok(())
}

#[tactic(auto, using(av_values::proofs::Replacing::replacing))]
fn no_attrs(stack: &mut Stack) -> Result<(), Fault>
    ensures ok { OnOk result (by_row AttributeRule.NoAttributes stack.old ≡ Some stack.new) }
    ensures misshapen { IfErr result (λ fault. fault ≡ Fault.Misshapen → by_row AttributeRule.NoAttributes stack.old ≡ None) }
{
    stack.push_attrs(Seq::new(stack.alloc()))?;
    Ok(())
}

#[tactic(auto, using(av_values::proofs::Replacing::replacing))]
fn attr_before(stack: &mut Stack) -> Result<(), Fault>
    ensures ok { OnOk result (by_row AttributeRule.FirstAttribute stack.old ≡ Some stack.new) }
    ensures misshapen { IfErr result (λ fault. fault ≡ Fault.Misshapen → by_row AttributeRule.FirstAttribute stack.old ≡ None) }
{
    let attr = stack.attr()?;
    let others = stack.attrs()?;
    let attrs = before(attr, others)?;
    stack.push_attrs(attrs)?;
    Ok(())
}

/// No numbers.
#[tactic(auto, using(av_values::proofs::Replacing::replacing))]
pub(super) fn no_numbers(stack: &mut Stack) -> Result<(), Fault>
    ensures ok { OnOk result (by_row AttributeRule.NoArrayNumbers stack.old ≡ Some stack.new) }
    ensures misshapen { IfErr result (λ fault. fault ≡ Fault.Misshapen → by_row AttributeRule.NoArrayNumbers stack.old ≡ None) }
{
    stack.push_numbers(Seq::new(stack.alloc()))?;
    Ok(())
}

/// A number before others.
#[tactic(auto, using(av_values::proofs::Replacing::replacing))]
pub(super) fn number_before(stack: &mut Stack) -> Result<(), Fault>
    ensures ok { OnOk result (by_row AttributeRule.WrittenArrayNumbers stack.old ≡ Some stack.new) }
    ensures misshapen { IfErr result (λ fault. fault ≡ Fault.Misshapen → by_row AttributeRule.WrittenArrayNumbers stack.old ≡ None) }
{
    let number = stack.number()?;
    let others = stack.numbers()?;
    let numbers = before(number, others)?;
    stack.push_numbers(numbers)?;
    Ok(())
}

#[tactic(auto, using(av_values::proofs::Replacing::replacing))]
fn dense_elements(stack: &mut Stack) -> Result<(), Fault>
    ensures ok { OnOk result (by_row AttributeRule.DenseElements stack.old ≡ Some stack.new) }
    ensures misshapen { IfErr result (λ fault. fault ≡ Fault.Misshapen → by_row AttributeRule.DenseElements stack.old ≡ None) }
{
    let elements = stack.element()?;
    let ty = stack.ty()?;
    stack.push_dense(Dense { elements, ty })?;
    Ok(())
}

#[tactic(auto, using(av_values::proofs::Replacing::replacing))]
fn number_element(stack: &mut Stack) -> Result<(), Fault>
    ensures ok { OnOk result (by_row AttributeRule.NumberElement stack.old ≡ Some stack.new) }
    ensures misshapen { IfErr result (λ fault. fault ≡ Fault.Misshapen → by_row AttributeRule.NumberElement stack.old ≡ None) }
{
    let number = stack.number()?;
    stack.push_element(Element::Number(number))?;
    Ok(())
}

#[tactic(auto, using(av_values::proofs::Replacing::replacing))]
fn bool_element(stack: &mut Stack) -> Result<(), Fault>
    ensures ok { OnOk result (by_row AttributeRule.BoolElement stack.old ≡ Some stack.new) }
    ensures misshapen { IfErr result (λ fault. fault ≡ Fault.Misshapen → by_row AttributeRule.BoolElement stack.old ≡ None) }
{
    let word = stack.text()?;
    let value = is_true(&word);
    stack.push_element(Element::Bool(value))?;
    Ok(())
}

#[tactic(auto, using(av_values::proofs::Replacing::replacing))]
fn list_element(stack: &mut Stack) -> Result<(), Fault>
    ensures ok { OnOk result (by_row AttributeRule.ListElement stack.old ≡ Some stack.new) }
    ensures misshapen { IfErr result (λ fault. fault ≡ Fault.Misshapen → by_row AttributeRule.ListElement stack.old ≡ None) }
{
    let elements = stack.elements()?;
    stack.push_element(Element::List(in_order(elements)))?;
    Ok(())
}

#[tactic(auto, using(av_values::proofs::Replacing::replacing))]
fn no_elements(stack: &mut Stack) -> Result<(), Fault>
    ensures ok { OnOk result (by_row AttributeRule.NoElements stack.old ≡ Some stack.new) }
    ensures misshapen { IfErr result (λ fault. fault ≡ Fault.Misshapen → by_row AttributeRule.NoElements stack.old ≡ None) }
{
    stack.push_elements(Seq::new(stack.alloc()))?;
    Ok(())
}

#[tactic(auto, using(av_values::proofs::Replacing::replacing))]
fn element_before(stack: &mut Stack) -> Result<(), Fault>
    ensures ok { OnOk result (by_row AttributeRule.FirstElement stack.old ≡ Some stack.new) }
    ensures misshapen { IfErr result (λ fault. fault ≡ Fault.Misshapen → by_row AttributeRule.FirstElement stack.old ≡ None) }
{
    let element = stack.element()?;
    let others = stack.elements()?;
    let elements = before(element, others)?;
    stack.push_elements(elements)?;
    Ok(())
}

#[tactic(auto, using(av_values::proofs::Replacing::replacing))]
fn function_type_entry(stack: &mut Stack) -> Result<(), Fault>
    ensures ok { OnOk result (by_row AttributeRule.FunctionTypeEntry stack.old ≡ Some stack.new) }
    ensures misshapen { IfErr result (λ fault. fault ≡ Fault.Misshapen → by_row AttributeRule.FunctionTypeEntry stack.old ≡ None) }
{
    let alloc = stack.alloc();
    let value = stack.attr()?;
    let entry = property(alloc, b"function_type", value)?;
    stack.push_entry(entry)?;
    Ok(())
}

#[tactic(auto, using(av_values::proofs::Replacing::replacing))]
fn function_type(stack: &mut Stack) -> Result<(), Fault>
    ensures ok { OnOk result (by_row AttributeRule.FunctionType stack.old ≡ Some stack.new) }
    ensures misshapen { IfErr result (λ fault. fault ≡ Fault.Misshapen → by_row AttributeRule.FunctionType stack.old ≡ None) }
{
    let last_inputs = stack.types()?;
    let last_results = stack.types()?;
    let inputs = in_order(last_inputs);
    let results = in_order(last_results);
    stack.push_attr(Attr::Type(TypeText::Func { inputs, results }))?;
    Ok(())
}

#[tactic(auto, using(av_values::proofs::Replacing::replacing))]
fn further_value(stack: &mut Stack) -> Result<(), Fault>
    ensures ok { OnOk result (by_value_row ValueRule.FurtherValue stack.old ≡ Some stack.new) }
    ensures misshapen { IfErr result (λ fault. fault ≡ Fault.Misshapen → by_value_row ValueRule.FurtherValue stack.old ≡ None) }
{
    let alloc = stack.alloc();
    let value = stack.text()?;
    let texts = before(value, Seq::new(alloc))?;
    stack.push_texts(texts)?;
    Ok(())
}

// A name with words, which stand from the last to the first, or of an alias.
fn hash_of(name: Text, words: Option<Seq<Text>>) -> Attr
    ensures { result ≡ hash_of_words name words }
{
    match words {
        Some(words) => Attr::Hash {
            name,
            words: in_order(words),
        },
        None => Attr::AliasUse(name),
    }
}
