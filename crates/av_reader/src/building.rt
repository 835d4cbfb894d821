//! The tree of a derivation.
//!
//! The events are worked out from the last one to the first, on a stack of values: a token puts its
//! spelling there, and a row takes the values of its symbols, the first of them on top, and puts one
//! value in their place. Lists grow at their front, so here they hold their last item first.

ghost use Rattle.std.specs.Prelude.{◌≡◌, Some, None, IfErr, IfOk, OnOk};
ghost use Rattle.av_reader.specs.Building.{by_event, by_row, place_of as the_place_of, tree_of};

use av_blocks::{reduce_file, reduce_function, reduce_generic, reduce_region};
use av_derive::{Event, spelling_of};
use av_lex::Token;
use av_operations::{reduce_affine, reduce_arith, reduce_operation};
use av_parts::{reduce_attribute, reduce_map, reduce_subscript, reduce_type, reduce_value};
use av_tree::Tree;
use av_tree::table::Rule;
use av_values::stack::{Fault, Stack};
use std::alloc::Global;

/// The tree that a derivation makes.
pub(crate) fn build(
    alloc: Global,
    bytes: &[u8],
    tokens: &[Token],
    mut events: Vec<Event>,
) -> Result<Tree, Fault>
    ensures ok { IfOk result (λ tree. tree_of bytes.now tokens.now events.items ≡ Some tree) }
    ensures misshapen { IfErr result (λ fault. fault ≡ Fault.Misshapen → tree_of bytes.now tokens.now events.items ≡ None) }
{
    let mut stack = Stack::new(alloc);
    while let Some(event) = events.pop() {
        work_out(&mut stack, bytes, tokens, event)?;
    }
    stack.only_tree()
}

// What an event does to the values.
fn work_out(stack: &mut Stack, bytes: &[u8], tokens: &[Token], event: Event) -> Result<(), Fault>
    ensures ok { OnOk result (by_event bytes.now tokens.now event stack.old ≡ Some stack.new) }
    ensures misshapen { IfErr result (λ fault. fault ≡ Fault.Misshapen → by_event bytes.now tokens.now event stack.old ≡ None) }
{
    match event {
        Event::Token(at) => {
            let token = tokens.get(at as usize).ok_or(Fault::Misshapen)?;
            stack.push_spelling(spelling_of(bytes, token))
        }
        Event::Row { rule, at } => reduce(stack, rule, place_of(tokens, at)),
    }
}

// The place of the token of a number; 0 at the end of the tokens.
fn place_of(tokens: &[Token], number: u32) -> u32
    ensures { result ≡ the_place_of tokens.now number }
{
    tokens.get(number as usize).map_or(0, |token| token.place)
}

// What a row makes of the values of its symbols. A node of it stands at `place`.
fn reduce(stack: &mut Stack, rule: Rule, place: u32) -> Result<(), Fault>
    ensures ok { OnOk result (by_row rule place stack.old ≡ Some stack.new) }
    ensures misshapen { IfErr result (λ fault. fault ≡ Fault.Misshapen → by_row rule place stack.old ≡ None) }
{
    match rule {
        Rule::File(rule) => reduce_file(stack, rule, place),
        Rule::Function(rule) => reduce_function(stack, rule, place),
        Rule::Region(rule) => reduce_region(stack, rule, place),
        Rule::Generic(rule) => reduce_generic(stack, rule, place),
        Rule::Type(rule) => reduce_type(stack, rule),
        Rule::Attribute(rule) => reduce_attribute(stack, rule),
        Rule::Map(rule) => reduce_map(stack, rule),
        Rule::Value(rule) => reduce_value(stack, rule),
        Rule::Arith(rule) => reduce_arith(stack, rule, place),
        Rule::Affine(rule) => reduce_affine(stack, rule, place),
        Rule::Subscript(rule) => reduce_subscript(stack, rule),
        Rule::Operation(number) => reduce_operation(stack, number, place),
    }
}
