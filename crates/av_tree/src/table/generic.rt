//! The rows of generic forms.

ghost use Rattle.std.specs.Prelude.{◌≡◌};
ghost use Rattle.av_tree.specs.rows.GenericRows.{symbols_of, choice_of};
ghost use Rattle.av_tree.specs.Needs.{need_of};
ghost use Rattle.av_tree.specs.Table.{name_of};

use super::{AttributeName, Class, Name, RegionName, Rule, Symbol, Test, TypeName, ValueName};
use av_lex::Sign;

/// The names of generic forms.
#[derive(Clone, Copy)]
pub enum GenericName {
    GenericParts,
    Properties,
    Regions,
    MoreRegions,
    GenericRegion,
    Label,
    Arguments,
    MoreArguments,
}

/// The rows of generic forms, each with its symbols.
#[derive(Clone, Copy)]
pub enum GenericRule {
    /// Form: `String GenericParts`
    GenericForm,
    /// GenericParts: `'(' Values ')' Properties Regions OptionalDictionary ':' '(' Types ')' '->' ResultTypes`
    WholeGeneric,
    /// Properties: nothing
    NoProperties,
    /// Properties: `'<' Dictionary '>'`
    WrittenProperties,
    /// Regions: nothing
    NoRegions,
    /// Regions: `'(' GenericRegion MoreRegions ')'`
    WrittenRegions,
    /// MoreRegions: nothing
    NoMoreRegions,
    /// MoreRegions: `',' GenericRegion MoreRegions`
    NextRegion,
    /// GenericRegion: `'{' Label Operations '}'`
    LabelledRegion,
    /// Label: nothing
    NoLabel,
    /// Label: `CaretId '(' Arguments ')' ':'`
    BlockLabel,
    /// Arguments: nothing
    NoArguments,
    /// Arguments: `ValId ':' Type MoreArguments`
    FirstArgument,
    /// MoreArguments: nothing
    NoMoreArguments,
    /// MoreArguments: `',' ValId ':' Type MoreArguments`
    NextArgument,
}

pub(super) fn symbols(rule: GenericRule) -> &'static [Symbol]
    ensures { result.now ≡ symbols_of rule }
{
    match rule {
        GenericRule::GenericForm => &[
            Symbol::Token(Test::String),
            Symbol::Rows(Name::Generic(GenericName::GenericParts)),
        ],
        GenericRule::WholeGeneric => &[
            Symbol::Sign(Sign::OpenRound),
            Symbol::Rows(Name::Value(ValueName::Values)),
            Symbol::Sign(Sign::CloseRound),
            Symbol::Rows(Name::Generic(GenericName::Properties)),
            Symbol::Rows(Name::Generic(GenericName::Regions)),
            Symbol::Rows(Name::Attribute(AttributeName::OptionalDictionary)),
            Symbol::Sign(Sign::Colon),
            Symbol::Sign(Sign::OpenRound),
            Symbol::Rows(Name::Type(TypeName::Types)),
            Symbol::Sign(Sign::CloseRound),
            Symbol::Sign(Sign::Arrow),
            Symbol::Rows(Name::Type(TypeName::ResultTypes)),
        ],
        GenericRule::NoProperties => &[],
        GenericRule::WrittenProperties => &[
            Symbol::Sign(Sign::OpenAngle),
            Symbol::Rows(Name::Attribute(AttributeName::Dictionary)),
            Symbol::Sign(Sign::CloseAngle),
        ],
        GenericRule::NoRegions => &[],
        GenericRule::WrittenRegions => &[
            Symbol::Sign(Sign::OpenRound),
            Symbol::Rows(Name::Generic(GenericName::GenericRegion)),
            Symbol::Rows(Name::Generic(GenericName::MoreRegions)),
            Symbol::Sign(Sign::CloseRound),
        ],
        GenericRule::NoMoreRegions => &[],
        GenericRule::NextRegion => &[
            Symbol::Sign(Sign::Comma),
            Symbol::Rows(Name::Generic(GenericName::GenericRegion)),
            Symbol::Rows(Name::Generic(GenericName::MoreRegions)),
        ],
        GenericRule::LabelledRegion => &[
            Symbol::Sign(Sign::OpenCurly),
            Symbol::Rows(Name::Generic(GenericName::Label)),
            Symbol::Rows(Name::Region(RegionName::Operations)),
            Symbol::Sign(Sign::CloseCurly),
        ],
        GenericRule::NoLabel => &[],
        GenericRule::BlockLabel => &[
            Symbol::Token(Test::CaretId),
            Symbol::Sign(Sign::OpenRound),
            Symbol::Rows(Name::Generic(GenericName::Arguments)),
            Symbol::Sign(Sign::CloseRound),
            Symbol::Sign(Sign::Colon),
        ],
        GenericRule::NoArguments => &[],
        GenericRule::FirstArgument => &[
            Symbol::Token(Test::ValId),
            Symbol::Sign(Sign::Colon),
            Symbol::Rows(Name::Type(TypeName::Type)),
            Symbol::Rows(Name::Generic(GenericName::MoreArguments)),
        ],
        GenericRule::NoMoreArguments => &[],
        GenericRule::NextArgument => &[
            Symbol::Sign(Sign::Comma),
            Symbol::Token(Test::ValId),
            Symbol::Sign(Sign::Colon),
            Symbol::Rows(Name::Type(TypeName::Type)),
            Symbol::Rows(Name::Generic(GenericName::MoreArguments)),
        ],
    }
}

pub(super) fn choose(name: GenericName, class: Class) -> Rule
    ensures name { name_of result ≡ Name.Generic name }
    ensures choice { result ≡ choice_of name class }
{
    match name {
        GenericName::GenericParts => Rule::Generic(GenericRule::WholeGeneric),
        GenericName::Properties => match class {
            Class::Sign(Sign::OpenAngle) => Rule::Generic(GenericRule::WrittenProperties),
            _ => Rule::Generic(GenericRule::NoProperties),
        },
        GenericName::Regions => match class {
            Class::Sign(Sign::OpenRound) => Rule::Generic(GenericRule::WrittenRegions),
            _ => Rule::Generic(GenericRule::NoRegions),
        },
        GenericName::MoreRegions => match class {
            Class::Sign(Sign::Comma) => Rule::Generic(GenericRule::NextRegion),
            _ => Rule::Generic(GenericRule::NoMoreRegions),
        },
        GenericName::GenericRegion => Rule::Generic(GenericRule::LabelledRegion),
        GenericName::Label => match class {
            Class::CaretId => Rule::Generic(GenericRule::BlockLabel),
            _ => Rule::Generic(GenericRule::NoLabel),
        },
        GenericName::Arguments => match class {
            Class::ValId => Rule::Generic(GenericRule::FirstArgument),
            _ => Rule::Generic(GenericRule::NoArguments),
        },
        GenericName::MoreArguments => match class {
            Class::Sign(Sign::Comma) => Rule::Generic(GenericRule::NextArgument),
            _ => Rule::Generic(GenericRule::NoMoreArguments),
        },
    }
}

/// The least number of further brackets that are open at once in whatever a row derives.
pub(super) fn need(rule: GenericRule) -> u32
    ensures { result ≡ need_of (Rule.Generic rule) }
{
    match rule {
        GenericRule::WrittenProperties | GenericRule::WrittenRegions => 2,
        GenericRule::GenericForm
        | GenericRule::WholeGeneric
        | GenericRule::NextRegion
        | GenericRule::LabelledRegion
        | GenericRule::BlockLabel => 1,
        _ => 0,
    }
}
