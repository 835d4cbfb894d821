//! The rows of operations of the Affine dialect.

ghost use Rattle.std.specs.Prelude.{◌≡◌};
ghost use Rattle.av_tree.specs.rows.AffineRows.{symbols_of, choice_of};
ghost use Rattle.av_tree.specs.Needs.{need_of};
ghost use Rattle.av_tree.specs.Table.{name_of};

use super::{
    AttributeName, Class, Keyword, MapName, Name, RegionName, Rule, SubscriptName, Symbol, Test,
    TypeName, ValueName,
};
use av_lex::Sign;

/// The names of operations of the Affine dialect.
#[derive(Clone, Copy)]
pub enum AffineName {
    LowerBound,
    UpperBound,
    Bound,
    OptionalStep,
    OptionalIterArgs,
    Carried,
    MoreCarried,
    MapUse,
    SetUse,
    MapOperands,
    SymbolOperands,
    OptionalElse,
}

/// The rows of operations of the Affine dialect, each with its symbols.
#[derive(Clone, Copy)]
pub enum AffineRule {
    /// LowerBound: `'max' MapUse`
    GreatestOf,
    /// LowerBound: `Bound`
    PlainLowerBound,
    /// UpperBound: `'min' MapUse`
    LeastOf,
    /// UpperBound: `Bound`
    PlainUpperBound,
    /// Bound: `Integer`
    NumberBound,
    /// Bound: `Value`
    ValueBound,
    /// Bound: `MapUse`
    MapBound,
    /// OptionalStep: nothing
    NoStep,
    /// OptionalStep: `'step' Number`
    WrittenStep,
    /// OptionalIterArgs: nothing
    NoIterArgs,
    /// OptionalIterArgs: `'iter_args' '(' Carried ')'`
    WrittenIterArgs,
    /// Carried: `')' '->' '('`
    NoCarried,
    /// Carried: `ValId '=' Value MoreCarried Type`
    FirstCarried,
    /// MoreCarried: `')' '->' '('`
    NoMoreCarried,
    /// MoreCarried: `',' ValId '=' Value MoreCarried Type ','`
    NextCarried,
    /// MapUse: `AffineMap MapOperands`
    MapWritten,
    /// MapUse: `HashId MapOperands`
    MapByAlias,
    /// SetUse: `AffineSet MapOperands`
    SetWritten,
    /// SetUse: `HashId MapOperands`
    SetByAlias,
    /// MapOperands: `'(' Values ')' SymbolOperands`
    DimensionOperands,
    /// SymbolOperands: nothing
    NoSymbolOperands,
    /// SymbolOperands: `'[' Values ']'`
    WrittenSymbolOperands,
    /// OptionalElse: nothing
    NoElse,
    /// OptionalElse: `'else' Region`
    WrittenElse,
}

pub(super) fn symbols(rule: AffineRule) -> &'static [Symbol]
    ensures { result.now ≡ symbols_of rule }
{
    match rule {
        AffineRule::GreatestOf => &[
            Symbol::Word(Keyword::Max),
            Symbol::Rows(Name::Affine(AffineName::MapUse)),
        ],
        AffineRule::PlainLowerBound => &[Symbol::Rows(Name::Affine(AffineName::Bound))],
        AffineRule::LeastOf => &[
            Symbol::Word(Keyword::Min),
            Symbol::Rows(Name::Affine(AffineName::MapUse)),
        ],
        AffineRule::PlainUpperBound => &[Symbol::Rows(Name::Affine(AffineName::Bound))],
        AffineRule::NumberBound => &[Symbol::Rows(Name::Value(ValueName::Integer))],
        AffineRule::ValueBound => &[Symbol::Rows(Name::Value(ValueName::Value))],
        AffineRule::MapBound => &[Symbol::Rows(Name::Affine(AffineName::MapUse))],
        AffineRule::NoStep => &[],
        AffineRule::WrittenStep => &[Symbol::Word(Keyword::Step), Symbol::Token(Test::Number)],
        AffineRule::NoIterArgs => &[],
        AffineRule::WrittenIterArgs => &[
            Symbol::Word(Keyword::IterArgs),
            Symbol::Sign(Sign::OpenRound),
            Symbol::Rows(Name::Affine(AffineName::Carried)),
            Symbol::Sign(Sign::CloseRound),
        ],
        AffineRule::NoCarried => &[
            Symbol::Sign(Sign::CloseRound),
            Symbol::Sign(Sign::Arrow),
            Symbol::Sign(Sign::OpenRound),
        ],
        AffineRule::FirstCarried => &[
            Symbol::Token(Test::ValId),
            Symbol::Sign(Sign::Equal),
            Symbol::Rows(Name::Value(ValueName::Value)),
            Symbol::Rows(Name::Affine(AffineName::MoreCarried)),
            Symbol::Rows(Name::Type(TypeName::Type)),
        ],
        AffineRule::NoMoreCarried => &[
            Symbol::Sign(Sign::CloseRound),
            Symbol::Sign(Sign::Arrow),
            Symbol::Sign(Sign::OpenRound),
        ],
        AffineRule::NextCarried => &[
            Symbol::Sign(Sign::Comma),
            Symbol::Token(Test::ValId),
            Symbol::Sign(Sign::Equal),
            Symbol::Rows(Name::Value(ValueName::Value)),
            Symbol::Rows(Name::Affine(AffineName::MoreCarried)),
            Symbol::Rows(Name::Type(TypeName::Type)),
            Symbol::Sign(Sign::Comma),
        ],
        AffineRule::MapWritten => &[
            Symbol::Rows(Name::Map(MapName::AffineMap)),
            Symbol::Rows(Name::Affine(AffineName::MapOperands)),
        ],
        AffineRule::MapByAlias => &[
            Symbol::Token(Test::HashId),
            Symbol::Rows(Name::Affine(AffineName::MapOperands)),
        ],
        AffineRule::SetWritten => &[
            Symbol::Rows(Name::Map(MapName::AffineSet)),
            Symbol::Rows(Name::Affine(AffineName::MapOperands)),
        ],
        AffineRule::SetByAlias => &[
            Symbol::Token(Test::HashId),
            Symbol::Rows(Name::Affine(AffineName::MapOperands)),
        ],
        AffineRule::DimensionOperands => &[
            Symbol::Sign(Sign::OpenRound),
            Symbol::Rows(Name::Value(ValueName::Values)),
            Symbol::Sign(Sign::CloseRound),
            Symbol::Rows(Name::Affine(AffineName::SymbolOperands)),
        ],
        AffineRule::NoSymbolOperands => &[],
        AffineRule::WrittenSymbolOperands => &[
            Symbol::Sign(Sign::OpenSquare),
            Symbol::Rows(Name::Value(ValueName::Values)),
            Symbol::Sign(Sign::CloseSquare),
        ],
        AffineRule::NoElse => &[],
        AffineRule::WrittenElse => &[
            Symbol::Word(Keyword::Else),
            Symbol::Rows(Name::Region(RegionName::Region)),
        ],
    }
}

pub(super) fn choose(name: AffineName, class: Class) -> Rule
    ensures name { name_of result ≡ Name.Affine name }
    ensures choice { result ≡ choice_of name class }
{
    match name {
        AffineName::LowerBound => match class {
            Class::Word(Keyword::Max) => Rule::Affine(AffineRule::GreatestOf),
            _ => Rule::Affine(AffineRule::PlainLowerBound),
        },
        AffineName::UpperBound => match class {
            Class::Word(Keyword::Min) => Rule::Affine(AffineRule::LeastOf),
            _ => Rule::Affine(AffineRule::PlainUpperBound),
        },
        AffineName::Bound => match class {
            Class::Sign(Sign::Minus) | Class::Zero | Class::Positive => Rule::Affine(
                AffineRule::NumberBound,
            ),
            Class::ValId => Rule::Affine(AffineRule::ValueBound),
            _ => Rule::Affine(AffineRule::MapBound),
        },
        AffineName::OptionalStep => match class {
            Class::Word(Keyword::Step) => Rule::Affine(AffineRule::WrittenStep),
            _ => Rule::Affine(AffineRule::NoStep),
        },
        AffineName::OptionalIterArgs => match class {
            Class::Word(Keyword::IterArgs) => Rule::Affine(AffineRule::WrittenIterArgs),
            _ => Rule::Affine(AffineRule::NoIterArgs),
        },
        AffineName::Carried => match class {
            Class::ValId => Rule::Affine(AffineRule::FirstCarried),
            _ => Rule::Affine(AffineRule::NoCarried),
        },
        AffineName::MoreCarried => match class {
            Class::Sign(Sign::Comma) => Rule::Affine(AffineRule::NextCarried),
            _ => Rule::Affine(AffineRule::NoMoreCarried),
        },
        AffineName::MapUse => match class {
            Class::Word(Keyword::AffineMap) => Rule::Affine(AffineRule::MapWritten),
            _ => Rule::Affine(AffineRule::MapByAlias),
        },
        AffineName::SetUse => match class {
            Class::Word(Keyword::AffineSet) => Rule::Affine(AffineRule::SetWritten),
            _ => Rule::Affine(AffineRule::SetByAlias),
        },
        AffineName::MapOperands => Rule::Affine(AffineRule::DimensionOperands),
        AffineName::SymbolOperands => match class {
            Class::Sign(Sign::OpenSquare) => Rule::Affine(AffineRule::WrittenSymbolOperands),
            _ => Rule::Affine(AffineRule::NoSymbolOperands),
        },
        AffineName::OptionalElse => match class {
            Class::Word(Keyword::Else) => Rule::Affine(AffineRule::WrittenElse),
            _ => Rule::Affine(AffineRule::NoElse),
        },
    }
}

/// The least number of further brackets that are open at once in whatever a row derives.
pub(super) fn need(rule: AffineRule) -> u32
    ensures { result ≡ need_of (Rule.Affine rule) }
{
    match rule {
        AffineRule::MapWritten | AffineRule::SetWritten => 2,
        | AffineRule::GreatestOf
        | AffineRule::LeastOf
        | AffineRule::MapBound
        | AffineRule::WrittenIterArgs
        | AffineRule::MapByAlias
        | AffineRule::SetByAlias
        | AffineRule::DimensionOperands
        | AffineRule::WrittenSymbolOperands
        | AffineRule::WrittenElse => 1,
        _ => 0,
    }
}
