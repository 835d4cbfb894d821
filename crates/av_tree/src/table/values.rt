//! The rows of values, numbers and results.

ghost use Rattle.std.specs.Prelude.{◌≡◌};
ghost use Rattle.av_tree.specs.rows.ValueRows.{symbols_of, choice_of};
ghost use Rattle.av_tree.specs.Table.{name_of};

use super::{Class, Name, Rule, Symbol, Test};
use av_lex::Sign;

/// The names of values, numbers and results.
#[derive(Clone, Copy)]
pub enum ValueName {
    Value,
    ResultNumber,
    Values,
    MoreValues,
    OptionalValue,
    Integer,
    Integers,
    MoreIntegers,
    Results,
    MoreResults,
    ResultCount,
}

/// The rows of values, numbers and results, each with its symbols.
#[derive(Clone, Copy)]
pub enum ValueRule {
    /// Value: `ValId ResultNumber`
    NamedValue,
    /// ResultNumber: nothing
    NoResultNumber,
    /// ResultNumber: `HashDigits`
    WrittenResultNumber,
    /// Values: nothing
    NoValues,
    /// Values: `Value MoreValues`
    FirstValue,
    /// MoreValues: nothing
    NoMoreValues,
    /// MoreValues: `',' Value MoreValues`
    NextValue,
    /// OptionalValue: nothing
    NoFurtherValue,
    /// OptionalValue: `',' Value`
    FurtherValue,
    /// Integer: `Number`
    PlainInteger,
    /// Integer: `'-' Number`
    NegativeInteger,
    /// Integers: nothing
    NoIntegers,
    /// Integers: `Integer MoreIntegers`
    FirstInteger,
    /// MoreIntegers: nothing
    NoMoreIntegers,
    /// MoreIntegers: `',' Integer MoreIntegers`
    NextInteger,
    /// Results: `ValId ResultCount MoreResults '='`
    ResultNames,
    /// MoreResults: nothing
    NoMoreResults,
    /// MoreResults: `',' ValId ResultCount MoreResults`
    NextResult,
    /// ResultCount: nothing
    OneResult,
    /// ResultCount: `':' Number`
    CountedResults,
}

pub(super) fn symbols(rule: ValueRule) -> &'static [Symbol]
    ensures { result.now ≡ symbols_of rule }
{
    match rule {
        ValueRule::NamedValue => &[
            Symbol::Token(Test::ValId),
            Symbol::Rows(Name::Value(ValueName::ResultNumber)),
        ],
        ValueRule::NoResultNumber => &[],
        ValueRule::WrittenResultNumber => &[Symbol::Token(Test::HashDigits)],
        ValueRule::NoValues => &[],
        ValueRule::FirstValue => &[
            Symbol::Rows(Name::Value(ValueName::Value)),
            Symbol::Rows(Name::Value(ValueName::MoreValues)),
        ],
        ValueRule::NoMoreValues => &[],
        ValueRule::NextValue => &[
            Symbol::Sign(Sign::Comma),
            Symbol::Rows(Name::Value(ValueName::Value)),
            Symbol::Rows(Name::Value(ValueName::MoreValues)),
        ],
        ValueRule::NoFurtherValue => &[],
        ValueRule::FurtherValue => &[
            Symbol::Sign(Sign::Comma),
            Symbol::Rows(Name::Value(ValueName::Value)),
        ],
        ValueRule::PlainInteger => &[Symbol::Token(Test::Number)],
        ValueRule::NegativeInteger => &[Symbol::Sign(Sign::Minus), Symbol::Token(Test::Number)],
        ValueRule::NoIntegers => &[],
        ValueRule::FirstInteger => &[
            Symbol::Rows(Name::Value(ValueName::Integer)),
            Symbol::Rows(Name::Value(ValueName::MoreIntegers)),
        ],
        ValueRule::NoMoreIntegers => &[],
        ValueRule::NextInteger => &[
            Symbol::Sign(Sign::Comma),
            Symbol::Rows(Name::Value(ValueName::Integer)),
            Symbol::Rows(Name::Value(ValueName::MoreIntegers)),
        ],
        ValueRule::ResultNames => &[
            Symbol::Token(Test::ValId),
            Symbol::Rows(Name::Value(ValueName::ResultCount)),
            Symbol::Rows(Name::Value(ValueName::MoreResults)),
            Symbol::Sign(Sign::Equal),
        ],
        ValueRule::NoMoreResults => &[],
        ValueRule::NextResult => &[
            Symbol::Sign(Sign::Comma),
            Symbol::Token(Test::ValId),
            Symbol::Rows(Name::Value(ValueName::ResultCount)),
            Symbol::Rows(Name::Value(ValueName::MoreResults)),
        ],
        ValueRule::OneResult => &[],
        ValueRule::CountedResults => &[Symbol::Sign(Sign::Colon), Symbol::Token(Test::Number)],
    }
}

pub(super) fn choose(name: ValueName, class: Class) -> Rule
    ensures name { name_of result ≡ Name.Value name }
    ensures choice { result ≡ choice_of name class }
{
    match name {
        ValueName::Value => Rule::Value(ValueRule::NamedValue),
        ValueName::ResultNumber => match class {
            Class::HashDigits => Rule::Value(ValueRule::WrittenResultNumber),
            _ => Rule::Value(ValueRule::NoResultNumber),
        },
        ValueName::Values => match class {
            Class::ValId => Rule::Value(ValueRule::FirstValue),
            _ => Rule::Value(ValueRule::NoValues),
        },
        ValueName::MoreValues => match class {
            Class::Sign(Sign::Comma) => Rule::Value(ValueRule::NextValue),
            _ => Rule::Value(ValueRule::NoMoreValues),
        },
        ValueName::OptionalValue => match class {
            Class::Sign(Sign::Comma) => Rule::Value(ValueRule::FurtherValue),
            _ => Rule::Value(ValueRule::NoFurtherValue),
        },
        ValueName::Integer => match class {
            Class::Sign(Sign::Minus) => Rule::Value(ValueRule::NegativeInteger),
            _ => Rule::Value(ValueRule::PlainInteger),
        },
        ValueName::Integers => match class {
            Class::Sign(Sign::CloseSquare) => Rule::Value(ValueRule::NoIntegers),
            _ => Rule::Value(ValueRule::FirstInteger),
        },
        ValueName::MoreIntegers => match class {
            Class::Sign(Sign::Comma) => Rule::Value(ValueRule::NextInteger),
            _ => Rule::Value(ValueRule::NoMoreIntegers),
        },
        ValueName::Results => Rule::Value(ValueRule::ResultNames),
        ValueName::MoreResults => match class {
            Class::Sign(Sign::Comma) => Rule::Value(ValueRule::NextResult),
            _ => Rule::Value(ValueRule::NoMoreResults),
        },
        ValueName::ResultCount => match class {
            Class::Sign(Sign::Colon) => Rule::Value(ValueRule::CountedResults),
            _ => Rule::Value(ValueRule::OneResult),
        },
    }
}
