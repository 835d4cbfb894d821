//! The rows of maps, sets and their expressions.

ghost use Rattle.std.specs.Prelude.{◌≡◌};
ghost use Rattle.av_tree.specs.rows.MapRows.{symbols_of, choice_of};
ghost use Rattle.av_tree.specs.Needs.{need_of};
ghost use Rattle.av_tree.specs.Table.{name_of};

use super::{Class, Keyword, Name, Rule, Symbol, Test};
use av_lex::Sign;

/// The names of maps, sets and their expressions.
#[derive(Clone, Copy)]
pub enum MapName {
    AffineMap,
    AffineSet,
    Parameters,
    SymbolNames,
    Words,
    MoreWords,
    Expressions,
    MoreExpressions,
    SetRows,
    MoreSetRows,
    SetRow,
    RightSide,
    Expression,
    Sum,
    Term,
    Product,
    Factor,
    Negated,
    Base,
}

/// The rows of maps, sets and their expressions, each with its symbols.
#[derive(Clone, Copy)]
pub enum MapRule {
    /// AffineMap: `'affine_map' '<' Parameters '->' '(' Expressions ')' '>'`
    WrittenMap,
    /// AffineSet: `'affine_set' '<' Parameters ':' '(' SetRows ')' '>'`
    WrittenSet,
    /// Parameters: `'(' Words ')' SymbolNames`
    DimensionNames,
    /// SymbolNames: nothing
    NoSymbolNames,
    /// SymbolNames: `'[' Words ']'`
    WrittenSymbolNames,
    /// Words: nothing
    NoWords,
    /// Words: `Word MoreWords`
    FirstWord,
    /// MoreWords: nothing
    NoMoreWords,
    /// MoreWords: `',' Word MoreWords`
    NextWord,
    /// Expressions: nothing
    NoExpressions,
    /// Expressions: `Expression MoreExpressions`
    FirstExpression,
    /// MoreExpressions: nothing
    NoMoreExpressions,
    /// MoreExpressions: `',' Expression MoreExpressions`
    NextExpression,
    /// SetRows: nothing
    NoSetRows,
    /// SetRows: `SetRow MoreSetRows`
    FirstSetRow,
    /// MoreSetRows: nothing
    NoMoreSetRows,
    /// MoreSetRows: `',' SetRow MoreSetRows`
    NextSetRow,
    /// SetRow: `Expression RightSide`
    RowOfSet,
    /// RightSide: `'>=' Zero`
    AtLeastZero,
    /// RightSide: `'==' Zero`
    EqualToZero,
    /// Expression: `Term Sum`
    WholeExpression,
    /// Sum: nothing
    NoMoreTerms,
    /// Sum: `'+' Term Sum`
    PlusTerm,
    /// Sum: `'-' Term Sum`
    MinusTerm,
    /// Term: `Factor Product`
    WholeTerm,
    /// Product: nothing
    NoMoreFactors,
    /// Product: `'*' Factor Product`
    TimesFactor,
    /// Product: `Division Factor Product`
    DivisionFactor,
    /// Factor: `Number`
    NumberFactor,
    /// Factor: `Base`
    PlainFactor,
    /// Factor: `'-' Negated`
    MinusFactor,
    /// Negated: `Number`
    NegativeNumber,
    /// Negated: `Base`
    NegatedBase,
    /// Base: `Parameter`
    ParameterName,
    /// Base: `Division`
    DivisionName,
    /// Base: `'(' Term Sum ')'`
    InBrackets,
}

pub(super) fn symbols(rule: MapRule) -> &'static [Symbol]
    ensures { result.now ≡ symbols_of rule }
{
    match rule {
        MapRule::WrittenMap => &[
            Symbol::Word(Keyword::AffineMap),
            Symbol::Sign(Sign::OpenAngle),
            Symbol::Rows(Name::Map(MapName::Parameters)),
            Symbol::Sign(Sign::Arrow),
            Symbol::Sign(Sign::OpenRound),
            Symbol::Rows(Name::Map(MapName::Expressions)),
            Symbol::Sign(Sign::CloseRound),
            Symbol::Sign(Sign::CloseAngle),
        ],
        MapRule::WrittenSet => &[
            Symbol::Word(Keyword::AffineSet),
            Symbol::Sign(Sign::OpenAngle),
            Symbol::Rows(Name::Map(MapName::Parameters)),
            Symbol::Sign(Sign::Colon),
            Symbol::Sign(Sign::OpenRound),
            Symbol::Rows(Name::Map(MapName::SetRows)),
            Symbol::Sign(Sign::CloseRound),
            Symbol::Sign(Sign::CloseAngle),
        ],
        MapRule::DimensionNames => &[
            Symbol::Sign(Sign::OpenRound),
            Symbol::Rows(Name::Map(MapName::Words)),
            Symbol::Sign(Sign::CloseRound),
            Symbol::Rows(Name::Map(MapName::SymbolNames)),
        ],
        MapRule::NoSymbolNames => &[],
        MapRule::WrittenSymbolNames => &[
            Symbol::Sign(Sign::OpenSquare),
            Symbol::Rows(Name::Map(MapName::Words)),
            Symbol::Sign(Sign::CloseSquare),
        ],
        MapRule::NoWords => &[],
        MapRule::FirstWord => &[
            Symbol::Token(Test::Word),
            Symbol::Rows(Name::Map(MapName::MoreWords)),
        ],
        MapRule::NoMoreWords => &[],
        MapRule::NextWord => &[
            Symbol::Sign(Sign::Comma),
            Symbol::Token(Test::Word),
            Symbol::Rows(Name::Map(MapName::MoreWords)),
        ],
        MapRule::NoExpressions => &[],
        MapRule::FirstExpression => &[
            Symbol::Rows(Name::Map(MapName::Expression)),
            Symbol::Rows(Name::Map(MapName::MoreExpressions)),
        ],
        MapRule::NoMoreExpressions => &[],
        MapRule::NextExpression => &[
            Symbol::Sign(Sign::Comma),
            Symbol::Rows(Name::Map(MapName::Expression)),
            Symbol::Rows(Name::Map(MapName::MoreExpressions)),
        ],
        MapRule::NoSetRows => &[],
        MapRule::FirstSetRow => &[
            Symbol::Rows(Name::Map(MapName::SetRow)),
            Symbol::Rows(Name::Map(MapName::MoreSetRows)),
        ],
        MapRule::NoMoreSetRows => &[],
        MapRule::NextSetRow => &[
            Symbol::Sign(Sign::Comma),
            Symbol::Rows(Name::Map(MapName::SetRow)),
            Symbol::Rows(Name::Map(MapName::MoreSetRows)),
        ],
        MapRule::RowOfSet => &[
            Symbol::Rows(Name::Map(MapName::Expression)),
            Symbol::Rows(Name::Map(MapName::RightSide)),
        ],
        MapRule::AtLeastZero => &[Symbol::Sign(Sign::AtLeast), Symbol::Token(Test::Zero)],
        MapRule::EqualToZero => &[Symbol::Sign(Sign::EqualEqual), Symbol::Token(Test::Zero)],
        MapRule::WholeExpression => &[
            Symbol::Rows(Name::Map(MapName::Term)),
            Symbol::Rows(Name::Map(MapName::Sum)),
        ],
        MapRule::NoMoreTerms => &[],
        MapRule::PlusTerm => &[
            Symbol::Sign(Sign::Plus),
            Symbol::Rows(Name::Map(MapName::Term)),
            Symbol::Rows(Name::Map(MapName::Sum)),
        ],
        MapRule::MinusTerm => &[
            Symbol::Sign(Sign::Minus),
            Symbol::Rows(Name::Map(MapName::Term)),
            Symbol::Rows(Name::Map(MapName::Sum)),
        ],
        MapRule::WholeTerm => &[
            Symbol::Rows(Name::Map(MapName::Factor)),
            Symbol::Rows(Name::Map(MapName::Product)),
        ],
        MapRule::NoMoreFactors => &[],
        MapRule::TimesFactor => &[
            Symbol::Sign(Sign::Star),
            Symbol::Rows(Name::Map(MapName::Factor)),
            Symbol::Rows(Name::Map(MapName::Product)),
        ],
        MapRule::DivisionFactor => &[
            Symbol::Token(Test::Division),
            Symbol::Rows(Name::Map(MapName::Factor)),
            Symbol::Rows(Name::Map(MapName::Product)),
        ],
        MapRule::NumberFactor => &[Symbol::Token(Test::Number)],
        MapRule::PlainFactor => &[Symbol::Rows(Name::Map(MapName::Base))],
        MapRule::MinusFactor => &[
            Symbol::Sign(Sign::Minus),
            Symbol::Rows(Name::Map(MapName::Negated)),
        ],
        MapRule::NegativeNumber => &[Symbol::Token(Test::Number)],
        MapRule::NegatedBase => &[Symbol::Rows(Name::Map(MapName::Base))],
        MapRule::ParameterName => &[Symbol::Token(Test::Parameter)],
        MapRule::DivisionName => &[Symbol::Token(Test::Division)],
        MapRule::InBrackets => &[
            Symbol::Sign(Sign::OpenRound),
            Symbol::Rows(Name::Map(MapName::Term)),
            Symbol::Rows(Name::Map(MapName::Sum)),
            Symbol::Sign(Sign::CloseRound),
        ],
    }
}

pub(super) fn choose(name: MapName, class: Class) -> Rule
    ensures name { name_of result ≡ Name.Map name }
    ensures choice { result ≡ choice_of name class }
{
    match name {
        MapName::AffineMap => Rule::Map(MapRule::WrittenMap),
        MapName::AffineSet => Rule::Map(MapRule::WrittenSet),
        MapName::Parameters => Rule::Map(MapRule::DimensionNames),
        MapName::SymbolNames => match class {
            Class::Sign(Sign::OpenSquare) => Rule::Map(MapRule::WrittenSymbolNames),
            _ => Rule::Map(MapRule::NoSymbolNames),
        },
        MapName::Words => match class {
            Class::Sign(Sign::CloseRound | Sign::CloseSquare | Sign::CloseAngle) => Rule::Map(
                MapRule::NoWords,
            ),
            _ => Rule::Map(MapRule::FirstWord),
        },
        MapName::MoreWords => match class {
            Class::Sign(Sign::Comma) => Rule::Map(MapRule::NextWord),
            _ => Rule::Map(MapRule::NoMoreWords),
        },
        MapName::Expressions => match class {
            Class::Sign(Sign::CloseRound) => Rule::Map(MapRule::NoExpressions),
            _ => Rule::Map(MapRule::FirstExpression),
        },
        MapName::MoreExpressions => match class {
            Class::Sign(Sign::Comma) => Rule::Map(MapRule::NextExpression),
            _ => Rule::Map(MapRule::NoMoreExpressions),
        },
        MapName::SetRows => match class {
            Class::Sign(Sign::CloseRound) => Rule::Map(MapRule::NoSetRows),
            _ => Rule::Map(MapRule::FirstSetRow),
        },
        MapName::MoreSetRows => match class {
            Class::Sign(Sign::Comma) => Rule::Map(MapRule::NextSetRow),
            _ => Rule::Map(MapRule::NoMoreSetRows),
        },
        MapName::SetRow => Rule::Map(MapRule::RowOfSet),
        MapName::RightSide => match class {
            Class::Sign(Sign::EqualEqual) => Rule::Map(MapRule::EqualToZero),
            _ => Rule::Map(MapRule::AtLeastZero),
        },
        MapName::Expression => Rule::Map(MapRule::WholeExpression),
        MapName::Sum => match class {
            Class::Sign(Sign::Plus) => Rule::Map(MapRule::PlusTerm),
            Class::Sign(Sign::Minus) => Rule::Map(MapRule::MinusTerm),
            _ => Rule::Map(MapRule::NoMoreTerms),
        },
        MapName::Term => Rule::Map(MapRule::WholeTerm),
        MapName::Product => match class {
            Class::Sign(Sign::Star) => Rule::Map(MapRule::TimesFactor),
            Class::Word(Keyword::Division) => Rule::Map(MapRule::DivisionFactor),
            _ => Rule::Map(MapRule::NoMoreFactors),
        },
        MapName::Factor => match class {
            Class::Zero | Class::Positive => Rule::Map(MapRule::NumberFactor),
            Class::Sign(Sign::Minus) => Rule::Map(MapRule::MinusFactor),
            _ => Rule::Map(MapRule::PlainFactor),
        },
        MapName::Negated => match class {
            Class::Zero | Class::Positive => Rule::Map(MapRule::NegativeNumber),
            _ => Rule::Map(MapRule::NegatedBase),
        },
        MapName::Base => match class {
            Class::Word(Keyword::Division) => Rule::Map(MapRule::DivisionName),
            Class::Sign(Sign::OpenRound) => Rule::Map(MapRule::InBrackets),
            _ => Rule::Map(MapRule::ParameterName),
        },
    }
}

/// The least number of further brackets that are open at once in whatever a row derives.
pub(super) fn need(rule: MapRule) -> u32
    ensures { result ≡ need_of (Rule.Map rule) }
{
    match rule {
        MapRule::WrittenMap | MapRule::WrittenSet => 2,
        MapRule::DimensionNames | MapRule::WrittenSymbolNames | MapRule::InBrackets => 1,
        _ => 0,
    }
}
