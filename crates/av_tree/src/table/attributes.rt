//! The rows of dictionaries and attributes.

ghost use Rattle.std.specs.Prelude.{◌≡◌};
ghost use Rattle.av_tree.specs.rows.AttributeRows.{symbols_of, choice_of};
ghost use Rattle.av_tree.specs.Needs.{need_of};
ghost use Rattle.av_tree.specs.Table.{name_of};

use super::{Class, Keyword, MapName, Name, Rule, Symbol, Test, TypeName, ValueName};
use av_lex::Sign;

/// The names of dictionaries and attributes.
#[derive(Clone, Copy)]
pub enum AttributeName {
    Attribute,
    NumberType,
    HashWords,
    Attributes,
    MoreAttributes,
    ArrayNumbers,
    Dense,
    Element,
    Elements,
    MoreElements,
    Dictionary,
    Entries,
    MoreEntries,
    Entry,
    EntryValue,
    FunctionTypeValue,
    AttributeOrFunctionType,
    OptionalDictionary,
    OptionalAttributes,
}

/// The rows of dictionaries and attributes, each with its symbols.
#[derive(Clone, Copy)]
pub enum AttributeRule {
    /// Attribute: `Integer NumberType`
    NumberAttribute,
    /// Attribute: `Bool`
    BoolAttribute,
    /// Attribute: `String`
    StringAttribute,
    /// Attribute: `SymId`
    SymbolAttribute,
    /// Attribute: `Type`
    TypeAttribute,
    /// Attribute: `AffineMap`
    MapAttribute,
    /// Attribute: `AffineSet`
    SetAttribute,
    /// Attribute: `AliasOnly`
    AliasAttribute,
    /// Attribute: `HashWord HashWords`
    HashAttribute,
    /// Attribute: `'[' Attributes ']'`
    ListAttribute,
    /// Attribute: `Dictionary`
    DictionaryAttribute,
    /// Attribute: `'array' '<' Type ArrayNumbers '>'`
    ArrayAttribute,
    /// Attribute: `Dense`
    DenseAttribute,
    /// NumberType: nothing
    NoNumberType,
    /// NumberType: `':' Type`
    WrittenNumberType,
    /// HashWords: nothing
    NoHashWords,
    /// HashWords: `'<' Words '>'`
    WrittenHashWords,
    /// Attributes: nothing
    NoAttributes,
    /// Attributes: `Attribute MoreAttributes`
    FirstAttribute,
    /// MoreAttributes: nothing
    NoMoreAttributes,
    /// MoreAttributes: `',' Attribute MoreAttributes`
    NextAttribute,
    /// ArrayNumbers: nothing
    NoArrayNumbers,
    /// ArrayNumbers: `':' Integer MoreIntegers`
    WrittenArrayNumbers,
    /// Dense: `'dense' '<' Element '>' ':' Type`
    DenseElements,
    /// Element: `Integer`
    NumberElement,
    /// Element: `Bool`
    BoolElement,
    /// Element: `'[' Elements ']'`
    ListElement,
    /// Elements: nothing
    NoElements,
    /// Elements: `Element MoreElements`
    FirstElement,
    /// MoreElements: nothing
    NoMoreElements,
    /// MoreElements: `',' Element MoreElements`
    NextElement,
    /// Dictionary: `'{' Entries '}'`
    WrittenDictionary,
    /// Entries: nothing
    NoEntries,
    /// Entries: `Entry MoreEntries`
    FirstEntry,
    /// MoreEntries: nothing
    NoMoreEntries,
    /// MoreEntries: `',' Entry MoreEntries`
    NextEntry,
    /// Entry: `EntryName EntryValue`
    PlainEntry,
    /// Entry: `'function_type' FunctionTypeValue`
    FunctionTypeEntry,
    /// EntryValue: nothing
    UnitEntry,
    /// EntryValue: `'=' Attribute`
    WrittenEntry,
    /// FunctionTypeValue: nothing
    UnitFunctionType,
    /// FunctionTypeValue: `'=' AttributeOrFunctionType`
    WrittenFunctionType,
    /// AttributeOrFunctionType: `Attribute`
    NoFunctionType,
    /// AttributeOrFunctionType: `'(' Types ')' '->' ResultTypes`
    FunctionType,
    /// OptionalDictionary: nothing
    NoDictionary,
    /// OptionalDictionary: `Dictionary`
    DictionaryHere,
    /// OptionalAttributes: nothing
    NoAttributesPart,
    /// OptionalAttributes: `'attributes' Dictionary`
    AttributesPart,
}

pub(super) fn symbols(rule: AttributeRule) -> &'static [Symbol]
    ensures { result.now ≡ symbols_of rule }
{
    match rule {
        AttributeRule::NumberAttribute => &[
            Symbol::Rows(Name::Value(ValueName::Integer)),
            Symbol::Rows(Name::Attribute(AttributeName::NumberType)),
        ],
        AttributeRule::BoolAttribute => &[Symbol::Token(Test::Bool)],
        AttributeRule::StringAttribute => &[Symbol::Token(Test::String)],
        AttributeRule::SymbolAttribute => &[Symbol::Token(Test::SymId)],
        AttributeRule::TypeAttribute => &[Symbol::Rows(Name::Type(TypeName::Type))],
        AttributeRule::MapAttribute => &[Symbol::Rows(Name::Map(MapName::AffineMap))],
        AttributeRule::SetAttribute => &[Symbol::Rows(Name::Map(MapName::AffineSet))],
        AttributeRule::AliasAttribute => &[Symbol::Token(Test::AliasOnly)],
        AttributeRule::HashAttribute => &[
            Symbol::Token(Test::HashWord),
            Symbol::Rows(Name::Attribute(AttributeName::HashWords)),
        ],
        AttributeRule::ListAttribute => &[
            Symbol::Sign(Sign::OpenSquare),
            Symbol::Rows(Name::Attribute(AttributeName::Attributes)),
            Symbol::Sign(Sign::CloseSquare),
        ],
        AttributeRule::DictionaryAttribute => &[Symbol::Rows(Name::Attribute(
            AttributeName::Dictionary,
        ))],
        AttributeRule::ArrayAttribute => &[
            Symbol::Word(Keyword::Array),
            Symbol::Sign(Sign::OpenAngle),
            Symbol::Rows(Name::Type(TypeName::Type)),
            Symbol::Rows(Name::Attribute(AttributeName::ArrayNumbers)),
            Symbol::Sign(Sign::CloseAngle),
        ],
        AttributeRule::DenseAttribute => &[Symbol::Rows(Name::Attribute(AttributeName::Dense))],
        AttributeRule::NoNumberType => &[],
        AttributeRule::WrittenNumberType => &[
            Symbol::Sign(Sign::Colon),
            Symbol::Rows(Name::Type(TypeName::Type)),
        ],
        AttributeRule::NoHashWords => &[],
        AttributeRule::WrittenHashWords => &[
            Symbol::Sign(Sign::OpenAngle),
            Symbol::Rows(Name::Map(MapName::Words)),
            Symbol::Sign(Sign::CloseAngle),
        ],
        AttributeRule::NoAttributes => &[],
        AttributeRule::FirstAttribute => &[
            Symbol::Rows(Name::Attribute(AttributeName::Attribute)),
            Symbol::Rows(Name::Attribute(AttributeName::MoreAttributes)),
        ],
        AttributeRule::NoMoreAttributes => &[],
        AttributeRule::NextAttribute => &[
            Symbol::Sign(Sign::Comma),
            Symbol::Rows(Name::Attribute(AttributeName::Attribute)),
            Symbol::Rows(Name::Attribute(AttributeName::MoreAttributes)),
        ],
        AttributeRule::NoArrayNumbers => &[],
        AttributeRule::WrittenArrayNumbers => &[
            Symbol::Sign(Sign::Colon),
            Symbol::Rows(Name::Value(ValueName::Integer)),
            Symbol::Rows(Name::Value(ValueName::MoreIntegers)),
        ],
        AttributeRule::DenseElements => &[
            Symbol::Word(Keyword::Dense),
            Symbol::Sign(Sign::OpenAngle),
            Symbol::Rows(Name::Attribute(AttributeName::Element)),
            Symbol::Sign(Sign::CloseAngle),
            Symbol::Sign(Sign::Colon),
            Symbol::Rows(Name::Type(TypeName::Type)),
        ],
        AttributeRule::NumberElement => &[Symbol::Rows(Name::Value(ValueName::Integer))],
        AttributeRule::BoolElement => &[Symbol::Token(Test::Bool)],
        AttributeRule::ListElement => &[
            Symbol::Sign(Sign::OpenSquare),
            Symbol::Rows(Name::Attribute(AttributeName::Elements)),
            Symbol::Sign(Sign::CloseSquare),
        ],
        AttributeRule::NoElements => &[],
        AttributeRule::FirstElement => &[
            Symbol::Rows(Name::Attribute(AttributeName::Element)),
            Symbol::Rows(Name::Attribute(AttributeName::MoreElements)),
        ],
        AttributeRule::NoMoreElements => &[],
        AttributeRule::NextElement => &[
            Symbol::Sign(Sign::Comma),
            Symbol::Rows(Name::Attribute(AttributeName::Element)),
            Symbol::Rows(Name::Attribute(AttributeName::MoreElements)),
        ],
        AttributeRule::WrittenDictionary => &[
            Symbol::Sign(Sign::OpenCurly),
            Symbol::Rows(Name::Attribute(AttributeName::Entries)),
            Symbol::Sign(Sign::CloseCurly),
        ],
        AttributeRule::NoEntries => &[],
        AttributeRule::FirstEntry => &[
            Symbol::Rows(Name::Attribute(AttributeName::Entry)),
            Symbol::Rows(Name::Attribute(AttributeName::MoreEntries)),
        ],
        AttributeRule::NoMoreEntries => &[],
        AttributeRule::NextEntry => &[
            Symbol::Sign(Sign::Comma),
            Symbol::Rows(Name::Attribute(AttributeName::Entry)),
            Symbol::Rows(Name::Attribute(AttributeName::MoreEntries)),
        ],
        AttributeRule::PlainEntry => &[
            Symbol::Token(Test::EntryName),
            Symbol::Rows(Name::Attribute(AttributeName::EntryValue)),
        ],
        AttributeRule::FunctionTypeEntry => &[
            Symbol::Word(Keyword::FunctionType),
            Symbol::Rows(Name::Attribute(AttributeName::FunctionTypeValue)),
        ],
        AttributeRule::UnitEntry => &[],
        AttributeRule::WrittenEntry => &[
            Symbol::Sign(Sign::Equal),
            Symbol::Rows(Name::Attribute(AttributeName::Attribute)),
        ],
        AttributeRule::UnitFunctionType => &[],
        AttributeRule::WrittenFunctionType => &[
            Symbol::Sign(Sign::Equal),
            Symbol::Rows(Name::Attribute(AttributeName::AttributeOrFunctionType)),
        ],
        AttributeRule::NoFunctionType => &[Symbol::Rows(Name::Attribute(AttributeName::Attribute))],
        AttributeRule::FunctionType => &[
            Symbol::Sign(Sign::OpenRound),
            Symbol::Rows(Name::Type(TypeName::Types)),
            Symbol::Sign(Sign::CloseRound),
            Symbol::Sign(Sign::Arrow),
            Symbol::Rows(Name::Type(TypeName::ResultTypes)),
        ],
        AttributeRule::NoDictionary => &[],
        AttributeRule::DictionaryHere => &[Symbol::Rows(Name::Attribute(
            AttributeName::Dictionary,
        ))],
        AttributeRule::NoAttributesPart => &[],
        AttributeRule::AttributesPart => &[
            Symbol::Word(Keyword::Attributes),
            Symbol::Rows(Name::Attribute(AttributeName::Dictionary)),
        ],
    }
}

pub(super) fn choose(name: AttributeName, class: Class) -> Rule
    ensures name { name_of result ≡ Name.Attribute name }
    ensures choice { result ≡ choice_of name class }
{
    match name {
        AttributeName::Attribute => match class {
            Class::Word(Keyword::Bool) => Rule::Attribute(AttributeRule::BoolAttribute),
            Class::QuotedModule | Class::QuotedFunc | Class::Quoted => Rule::Attribute(
                AttributeRule::StringAttribute,
            ),
            Class::SymId => Rule::Attribute(AttributeRule::SymbolAttribute),
            Class::Word(Keyword::MemRef | Keyword::Vector) | Class::Scalar => Rule::Attribute(
                AttributeRule::TypeAttribute,
            ),
            Class::Word(Keyword::AffineMap) => Rule::Attribute(AttributeRule::MapAttribute),
            Class::Word(Keyword::AffineSet) => Rule::Attribute(AttributeRule::SetAttribute),
            Class::HashDigits | Class::HashOther => Rule::Attribute(AttributeRule::AliasAttribute),
            Class::HashWord => Rule::Attribute(AttributeRule::HashAttribute),
            Class::Sign(Sign::OpenSquare) => Rule::Attribute(AttributeRule::ListAttribute),
            Class::Sign(Sign::OpenCurly) => Rule::Attribute(AttributeRule::DictionaryAttribute),
            Class::Word(Keyword::Array) => Rule::Attribute(AttributeRule::ArrayAttribute),
            Class::Word(Keyword::Dense) => Rule::Attribute(AttributeRule::DenseAttribute),
            _ => Rule::Attribute(AttributeRule::NumberAttribute),
        },
        AttributeName::NumberType => match class {
            Class::Sign(Sign::Colon) => Rule::Attribute(AttributeRule::WrittenNumberType),
            _ => Rule::Attribute(AttributeRule::NoNumberType),
        },
        AttributeName::HashWords => match class {
            Class::Sign(Sign::OpenAngle) => Rule::Attribute(AttributeRule::WrittenHashWords),
            _ => Rule::Attribute(AttributeRule::NoHashWords),
        },
        AttributeName::Attributes => match class {
            Class::Sign(Sign::CloseSquare) => Rule::Attribute(AttributeRule::NoAttributes),
            _ => Rule::Attribute(AttributeRule::FirstAttribute),
        },
        AttributeName::MoreAttributes => match class {
            Class::Sign(Sign::Comma) => Rule::Attribute(AttributeRule::NextAttribute),
            _ => Rule::Attribute(AttributeRule::NoMoreAttributes),
        },
        AttributeName::ArrayNumbers => match class {
            Class::Sign(Sign::Colon) => Rule::Attribute(AttributeRule::WrittenArrayNumbers),
            _ => Rule::Attribute(AttributeRule::NoArrayNumbers),
        },
        AttributeName::Dense => Rule::Attribute(AttributeRule::DenseElements),
        AttributeName::Element => match class {
            Class::Word(Keyword::Bool) => Rule::Attribute(AttributeRule::BoolElement),
            Class::Sign(Sign::OpenSquare) => Rule::Attribute(AttributeRule::ListElement),
            _ => Rule::Attribute(AttributeRule::NumberElement),
        },
        AttributeName::Elements => match class {
            Class::Sign(Sign::CloseSquare) => Rule::Attribute(AttributeRule::NoElements),
            _ => Rule::Attribute(AttributeRule::FirstElement),
        },
        AttributeName::MoreElements => match class {
            Class::Sign(Sign::Comma) => Rule::Attribute(AttributeRule::NextElement),
            _ => Rule::Attribute(AttributeRule::NoMoreElements),
        },
        AttributeName::Dictionary => Rule::Attribute(AttributeRule::WrittenDictionary),
        AttributeName::Entries => match class {
            Class::Sign(Sign::CloseCurly) => Rule::Attribute(AttributeRule::NoEntries),
            _ => Rule::Attribute(AttributeRule::FirstEntry),
        },
        AttributeName::MoreEntries => match class {
            Class::Sign(Sign::Comma) => Rule::Attribute(AttributeRule::NextEntry),
            _ => Rule::Attribute(AttributeRule::NoMoreEntries),
        },
        AttributeName::Entry => match class {
            Class::Word(Keyword::FunctionType) => Rule::Attribute(AttributeRule::FunctionTypeEntry),
            _ => Rule::Attribute(AttributeRule::PlainEntry),
        },
        AttributeName::EntryValue => match class {
            Class::Sign(Sign::Equal) => Rule::Attribute(AttributeRule::WrittenEntry),
            _ => Rule::Attribute(AttributeRule::UnitEntry),
        },
        AttributeName::FunctionTypeValue => match class {
            Class::Sign(Sign::Equal) => Rule::Attribute(AttributeRule::WrittenFunctionType),
            _ => Rule::Attribute(AttributeRule::UnitFunctionType),
        },
        AttributeName::AttributeOrFunctionType => match class {
            Class::Sign(Sign::OpenRound) => Rule::Attribute(AttributeRule::FunctionType),
            _ => Rule::Attribute(AttributeRule::NoFunctionType),
        },
        AttributeName::OptionalDictionary => match class {
            Class::Sign(Sign::OpenCurly) => Rule::Attribute(AttributeRule::DictionaryHere),
            _ => Rule::Attribute(AttributeRule::NoDictionary),
        },
        AttributeName::OptionalAttributes => match class {
            Class::Word(Keyword::Attributes) => Rule::Attribute(AttributeRule::AttributesPart),
            _ => Rule::Attribute(AttributeRule::NoAttributesPart),
        },
    }
}

/// The least number of further brackets that are open at once in whatever a row derives.
pub(super) fn need(rule: AttributeRule) -> u32
    ensures { result ≡ need_of (Rule.Attribute rule) }
{
    match rule {
        AttributeRule::MapAttribute | AttributeRule::SetAttribute => 2,
        AttributeRule::ListAttribute
        | AttributeRule::DictionaryAttribute
        | AttributeRule::ArrayAttribute
        | AttributeRule::DenseAttribute
        | AttributeRule::WrittenHashWords
        | AttributeRule::DenseElements
        | AttributeRule::ListElement
        | AttributeRule::WrittenDictionary
        | AttributeRule::FunctionType
        | AttributeRule::DictionaryHere
        | AttributeRule::AttributesPart => 1,
        _ => 0,
    }
}
