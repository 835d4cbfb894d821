//! The row of an operation: its name, and the symbols of the parts of its form.

ghost use Rattle.std.specs.Prelude.{◌≡◌, ◌++◌, ◌∷◌, reverse, OnOk};
ghost use Rattle.av_dialects.specs.Rows.{form_of as the_form_of};
ghost use Rattle.av_tree.specs.declared.class.Keyword.TheVariants.{Operation};
ghost use Rattle.av_tree.specs.declared.table.Symbol.TheVariants.{Word};
ghost use Rattle.av_tree.specs.Forms.{angled_symbols as the_angled_symbols, form_symbols, item_symbols as the_item_symbols, lead_symbols as the_lead_symbols, need_of_form, needs_bracket as does_need_bracket, type_symbols as the_type_symbols, word_symbols as the_word_symbols};

use super::{
    AffineName, ArithName, AttributeName, Keyword, Name, RegionName, SubscriptName, Symbol, Test,
    TypeName, ValueName, push_row,
};
use av_dialects::{Item, Key, Lead, Part, Wanted, form_of};
use av_lex::Sign;
use std::alloc::AllocError;

/// Puts the symbols of an operation's row on a stack, the first one last.
///
/// # Errors
///
/// Memory lacks.
pub(super) fn push_operation(stack: &mut Vec<Symbol>, number: u8) -> Result<(), AllocError>
    ensures { OnOk result (stack.new.items ≡ stack.old.items ++ reverse (Word (Operation number) ∷ form_symbols (the_form_of number))) }
{
    push_form(stack, form_of(number))?;
    stack.push(Symbol::Word(Keyword::Operation(number)))?;
    Ok(())
}

fn push_form(stack: &mut Vec<Symbol>, parts: &[Part]) -> Result<(), AllocError>
    ensures { OnOk result (stack.new.items ≡ stack.old.items ++ reverse (form_symbols parts.now)) }
{
    if let [part, rest @ ..] = parts {
        push_form(stack, rest)?;
        push_row(stack, item_symbols(part.1))?;
        push_row(stack, lead_symbols(part.0))?;
    }
    Ok(())
}

fn lead_symbols(lead: Lead) -> &'static [Symbol]
    ensures { result.now ≡ the_lead_symbols lead }
{
    match lead {
        Lead::Nothing | Lead::Blank => &[],
        Lead::Comma => &[Symbol::Sign(Sign::Comma)],
        Lead::Colon => &[Symbol::Sign(Sign::Colon)],
        Lead::Equal => &[Symbol::Sign(Sign::Equal)],
        Lead::To => &[Symbol::Word(Keyword::To)],
        Lead::Step => &[Symbol::Word(Keyword::Step)],
        Lead::Into => &[Symbol::Word(Keyword::Into)],
        Lead::From => &[Symbol::Word(Keyword::From)],
    }
}

fn item_symbols(item: Item) -> &'static [Symbol]
    ensures { result.now ≡ the_item_symbols item }
{
    match item {
        Item::ByHand => &[],
        Item::Operand(_) => &[Symbol::Rows(Name::Value(ValueName::Value))],
        Item::OptionalOperand => &[Symbol::Rows(Name::Value(ValueName::OptionalValue))],
        Item::Operands => &[
            Symbol::Rows(Name::Value(ValueName::Value)),
            Symbol::Rows(Name::Value(ValueName::MoreValues)),
        ],
        Item::TypedOperands => &[Symbol::Rows(Name::Region(RegionName::TypedValues))],
        Item::Element => &[
            Symbol::Rows(Name::Value(ValueName::Value)),
            Symbol::Sign(Sign::OpenSquare),
            Symbol::Rows(Name::Value(ValueName::Values)),
            Symbol::Sign(Sign::CloseSquare),
        ],
        Item::Access => &[
            Symbol::Rows(Name::Value(ValueName::Value)),
            Symbol::Sign(Sign::OpenSquare),
            Symbol::Rows(Name::Subscript(SubscriptName::Subscripts)),
            Symbol::Sign(Sign::CloseSquare),
        ],
        Item::Numbers(_) => &[
            Symbol::Sign(Sign::OpenSquare),
            Symbol::Rows(Name::Value(ValueName::Integers)),
            Symbol::Sign(Sign::CloseSquare),
        ],
        Item::Type(wanted, _) => type_symbols(wanted),
        Item::Word(key) => word_symbols(key),
        Item::Angled(key) => angled_symbols(key),
        Item::ChoiceTypes => &[Symbol::Rows(Name::Arith(ArithName::SelectedTypes))],
        Item::Overflow => &[Symbol::Rows(Name::Arith(ArithName::OptionalOverflow))],
        Item::Marks => &[Symbol::Rows(Name::Attribute(AttributeName::OptionalDictionary))],
        Item::Constant => &[Symbol::Rows(Name::Arith(ArithName::Constant))],
        Item::Map => &[Symbol::Rows(Name::Affine(AffineName::MapUse))],
        Item::Set => &[Symbol::Rows(Name::Affine(AffineName::SetUse))],
        Item::Counter => &[Symbol::Token(Test::ValId)],
        Item::LowerBound => &[Symbol::Rows(Name::Affine(AffineName::LowerBound))],
        Item::UpperBound => &[Symbol::Rows(Name::Affine(AffineName::UpperBound))],
        Item::Step => &[Symbol::Rows(Name::Affine(AffineName::OptionalStep))],
        Item::Carried => &[Symbol::Rows(Name::Affine(AffineName::OptionalIterArgs))],
        Item::ResultTypes => &[Symbol::Rows(Name::Type(TypeName::OptionalResultTypes))],
        Item::Region => &[Symbol::Rows(Name::Region(RegionName::Region))],
        Item::Else => &[Symbol::Rows(Name::Affine(AffineName::OptionalElse))],
    }
}

fn type_symbols(wanted: Wanted) -> &'static [Symbol]
    ensures { result.now ≡ the_type_symbols wanted }
{
    match wanted {
        Wanted::Any => &[Symbol::Rows(Name::Type(TypeName::Type))],
        Wanted::Buffer => &[Symbol::Rows(Name::Type(TypeName::MemRef))],
        Wanted::Vector => &[Symbol::Rows(Name::Type(TypeName::Vector))],
    }
}

fn word_symbols(key: Key) -> &'static [Symbol]
    ensures { result.now ≡ the_word_symbols key }
{
    match key {
        Key::Predicate => &[Symbol::Token(Test::Predicate)],
        Key::Kind => &[Symbol::Token(Test::Kind)],
        Key::StaticPosition | Key::Mask => &[],
    }
}

fn angled_symbols(key: Key) -> &'static [Symbol]
    ensures { result.now ≡ the_angled_symbols key }
{
    match key {
        Key::Predicate => &[
            Symbol::Sign(Sign::OpenAngle),
            Symbol::Token(Test::Predicate),
            Symbol::Sign(Sign::CloseAngle),
        ],
        Key::Kind => &[
            Symbol::Sign(Sign::OpenAngle),
            Symbol::Token(Test::Kind),
            Symbol::Sign(Sign::CloseAngle),
        ],
        Key::StaticPosition | Key::Mask => &[
            Symbol::Sign(Sign::OpenAngle),
            Symbol::Sign(Sign::CloseAngle),
        ],
    }
}

/// The least number of further brackets that are open at once in whatever an operation's row derives.
pub(super) fn need(number: u8) -> u32
    ensures { result ≡ need_of_form (the_form_of number) }
{
    need_of_parts(form_of(number))
}

fn need_of_parts(parts: &[Part]) -> u32
    ensures { result ≡ need_of_form parts.now }
{
    match parts {
        [part, rest @ ..] => {
            if needs_bracket(part.1) {
                1
            } else {
                need_of_parts(rest)
            }
        }
        [] => 0,
    }
}

// Whether each text of an item has a bracket.
fn needs_bracket(item: Item) -> bool
    ensures { result ≡ does_need_bracket item }
{
    matches!(
        item,
        Item::Element
            | Item::Access
            | Item::Numbers(_)
            | Item::Angled(_)
            | Item::Map
            | Item::Set
            | Item::Region
            | Item::Type(Wanted::Buffer | Wanted::Vector, _)
    )
}
