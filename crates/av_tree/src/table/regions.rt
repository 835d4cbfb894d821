//! The rows of operations in regions.

ghost use Rattle.std.specs.Prelude.{◌≡◌};
ghost use Rattle.av_tree.specs.rows.RegionRows.{symbols_of, choice_of};
ghost use Rattle.av_tree.specs.Needs.{need_of};
ghost use Rattle.av_tree.specs.Table.{name_of};

use super::{Class, FunctionName, Keyword, Name, Rule, Symbol, Test, TypeName, ValueName};
use av_lex::Sign;

/// The names of operations in regions.
#[derive(Clone, Copy)]
pub enum RegionName {
    Operations,
    Operation,
    AfterTerminator,
    TypedValues,
    Region,
}

/// The rows of operations in regions, each with its symbols.
#[derive(Clone, Copy)]
pub enum RegionRule {
    /// Operations: nothing
    NoMoreOperations,
    /// Operations: `Results Operation`
    WithResults,
    /// Operations: `Operation`
    WithoutResults,
    /// Operation: `Form Operations`
    PlainOperation,
    /// Operation: `Terminator AfterTerminator`
    TerminatorOperation,
    /// AfterTerminator: `TypedValues Operations`
    TerminatorWithValues,
    /// AfterTerminator: nothing
    TerminatorLast,
    /// AfterTerminator: `Operation`
    TerminatorThenOperation,
    /// TypedValues: `Value MoreValues ':' Type MoreTypes`
    ValuesAndTypes,
    /// Region: `'{' Operations '}'`
    NamedRegion,
}

pub(super) fn symbols(rule: RegionRule) -> &'static [Symbol]
    ensures { result.now ≡ symbols_of rule }
{
    match rule {
        RegionRule::NoMoreOperations => &[],
        RegionRule::WithResults => &[
            Symbol::Rows(Name::Value(ValueName::Results)),
            Symbol::Rows(Name::Region(RegionName::Operation)),
        ],
        RegionRule::WithoutResults => &[Symbol::Rows(Name::Region(RegionName::Operation))],
        RegionRule::PlainOperation => &[
            Symbol::Rows(Name::Function(FunctionName::Form)),
            Symbol::Rows(Name::Region(RegionName::Operations)),
        ],
        RegionRule::TerminatorOperation => &[
            Symbol::Token(Test::Terminator),
            Symbol::Rows(Name::Region(RegionName::AfterTerminator)),
        ],
        RegionRule::TerminatorWithValues => &[
            Symbol::Rows(Name::Region(RegionName::TypedValues)),
            Symbol::Rows(Name::Region(RegionName::Operations)),
        ],
        RegionRule::TerminatorLast => &[],
        RegionRule::TerminatorThenOperation => &[Symbol::Rows(Name::Region(RegionName::Operation))],
        RegionRule::ValuesAndTypes => &[
            Symbol::Rows(Name::Value(ValueName::Value)),
            Symbol::Rows(Name::Value(ValueName::MoreValues)),
            Symbol::Sign(Sign::Colon),
            Symbol::Rows(Name::Type(TypeName::Type)),
            Symbol::Rows(Name::Type(TypeName::MoreTypes)),
        ],
        RegionRule::NamedRegion => &[
            Symbol::Sign(Sign::OpenCurly),
            Symbol::Rows(Name::Region(RegionName::Operations)),
            Symbol::Sign(Sign::CloseCurly),
        ],
    }
}

pub(super) fn choose(name: RegionName, class: Class) -> Rule
    ensures name { name_of result ≡ Name.Region name }
    ensures choice { result ≡ choice_of name class }
{
    match name {
        RegionName::Operations => match class {
            Class::Sign(Sign::CloseCurly) => Rule::Region(RegionRule::NoMoreOperations),
            Class::ValId => Rule::Region(RegionRule::WithResults),
            _ => Rule::Region(RegionRule::WithoutResults),
        },
        RegionName::Operation => match class {
            Class::Word(Keyword::Terminator) => Rule::Region(RegionRule::TerminatorOperation),
            _ => Rule::Region(RegionRule::PlainOperation),
        },
        RegionName::AfterTerminator => match class {
            Class::ValId => Rule::Region(RegionRule::TerminatorWithValues),
            Class::Sign(Sign::CloseCurly) => Rule::Region(RegionRule::TerminatorLast),
            _ => Rule::Region(RegionRule::TerminatorThenOperation),
        },
        RegionName::TypedValues => Rule::Region(RegionRule::ValuesAndTypes),
        RegionName::Region => Rule::Region(RegionRule::NamedRegion),
    }
}

/// The least number of further brackets that are open at once in whatever a row derives.
pub(super) fn need(rule: RegionRule) -> u32
    ensures { result ≡ need_of (Rule.Region rule) }
{
    match rule {
        RegionRule::NamedRegion => 1,
        _ => 0,
    }
}
