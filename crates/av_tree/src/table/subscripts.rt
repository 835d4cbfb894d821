//! The rows of the subscripts of affine loads and stores.

ghost use Rattle.std.specs.Prelude.{◌≡◌};
ghost use Rattle.av_tree.specs.rows.SubscriptRows.{symbols_of, choice_of};
ghost use Rattle.av_tree.specs.Needs.{need_of};
ghost use Rattle.av_tree.specs.Table.{name_of};

use super::{Class, Keyword, Name, Rule, Symbol, Test, ValueName};
use av_lex::Sign;

/// The names of the subscripts of affine loads and stores.
#[derive(Clone, Copy)]
pub enum SubscriptName {
    Subscripts,
    MoreSubscripts,
    Subscript,
    SubscriptSum,
    SubscriptTerm,
    SubscriptProduct,
    SubscriptFactor,
    NegatedSubscript,
    SubscriptBase,
}

/// The rows of the subscripts of affine loads and stores, each with its symbols.
#[derive(Clone, Copy)]
pub enum SubscriptRule {
    /// Subscripts: nothing
    NoSubscripts,
    /// Subscripts: `Subscript MoreSubscripts`
    FirstSubscript,
    /// MoreSubscripts: nothing
    NoMoreSubscripts,
    /// MoreSubscripts: `',' Subscript MoreSubscripts`
    NextSubscript,
    /// Subscript: `SubscriptTerm SubscriptSum`
    WholeSubscript,
    /// SubscriptSum: nothing
    NoMoreSubscriptTerms,
    /// SubscriptSum: `'+' SubscriptTerm SubscriptSum`
    PlusSubscriptTerm,
    /// SubscriptSum: `'-' SubscriptTerm SubscriptSum`
    MinusSubscriptTerm,
    /// SubscriptTerm: `SubscriptFactor SubscriptProduct`
    WholeSubscriptTerm,
    /// SubscriptProduct: nothing
    NoMoreSubscriptFactors,
    /// SubscriptProduct: `'*' SubscriptFactor SubscriptProduct`
    TimesSubscriptFactor,
    /// SubscriptProduct: `Division SubscriptFactor SubscriptProduct`
    DivisionSubscriptFactor,
    /// SubscriptFactor: `Number`
    NumberSubscriptFactor,
    /// SubscriptFactor: `SubscriptBase`
    PlainSubscriptFactor,
    /// SubscriptFactor: `'-' NegatedSubscript`
    MinusSubscriptFactor,
    /// NegatedSubscript: `Number`
    NegativeSubscriptNumber,
    /// NegatedSubscript: `SubscriptBase`
    NegatedSubscriptBase,
    /// SubscriptBase: `Value`
    DimensionValue,
    /// SubscriptBase: `'symbol' '(' Value ')'`
    SymbolValue,
    /// SubscriptBase: `'(' SubscriptTerm SubscriptSum ')'`
    SubscriptInBrackets,
}

pub(super) fn symbols(rule: SubscriptRule) -> &'static [Symbol]
    ensures { result.now ≡ symbols_of rule }
{
    match rule {
        SubscriptRule::NoSubscripts => &[],
        SubscriptRule::FirstSubscript => &[
            Symbol::Rows(Name::Subscript(SubscriptName::Subscript)),
            Symbol::Rows(Name::Subscript(SubscriptName::MoreSubscripts)),
        ],
        SubscriptRule::NoMoreSubscripts => &[],
        SubscriptRule::NextSubscript => &[
            Symbol::Sign(Sign::Comma),
            Symbol::Rows(Name::Subscript(SubscriptName::Subscript)),
            Symbol::Rows(Name::Subscript(SubscriptName::MoreSubscripts)),
        ],
        SubscriptRule::WholeSubscript => &[
            Symbol::Rows(Name::Subscript(SubscriptName::SubscriptTerm)),
            Symbol::Rows(Name::Subscript(SubscriptName::SubscriptSum)),
        ],
        SubscriptRule::NoMoreSubscriptTerms => &[],
        SubscriptRule::PlusSubscriptTerm => &[
            Symbol::Sign(Sign::Plus),
            Symbol::Rows(Name::Subscript(SubscriptName::SubscriptTerm)),
            Symbol::Rows(Name::Subscript(SubscriptName::SubscriptSum)),
        ],
        SubscriptRule::MinusSubscriptTerm => &[
            Symbol::Sign(Sign::Minus),
            Symbol::Rows(Name::Subscript(SubscriptName::SubscriptTerm)),
            Symbol::Rows(Name::Subscript(SubscriptName::SubscriptSum)),
        ],
        SubscriptRule::WholeSubscriptTerm => &[
            Symbol::Rows(Name::Subscript(SubscriptName::SubscriptFactor)),
            Symbol::Rows(Name::Subscript(SubscriptName::SubscriptProduct)),
        ],
        SubscriptRule::NoMoreSubscriptFactors => &[],
        SubscriptRule::TimesSubscriptFactor => &[
            Symbol::Sign(Sign::Star),
            Symbol::Rows(Name::Subscript(SubscriptName::SubscriptFactor)),
            Symbol::Rows(Name::Subscript(SubscriptName::SubscriptProduct)),
        ],
        SubscriptRule::DivisionSubscriptFactor => &[
            Symbol::Token(Test::Division),
            Symbol::Rows(Name::Subscript(SubscriptName::SubscriptFactor)),
            Symbol::Rows(Name::Subscript(SubscriptName::SubscriptProduct)),
        ],
        SubscriptRule::NumberSubscriptFactor => &[Symbol::Token(Test::Number)],
        SubscriptRule::PlainSubscriptFactor => &[Symbol::Rows(Name::Subscript(
            SubscriptName::SubscriptBase,
        ))],
        SubscriptRule::MinusSubscriptFactor => &[
            Symbol::Sign(Sign::Minus),
            Symbol::Rows(Name::Subscript(SubscriptName::NegatedSubscript)),
        ],
        SubscriptRule::NegativeSubscriptNumber => &[Symbol::Token(Test::Number)],
        SubscriptRule::NegatedSubscriptBase => &[Symbol::Rows(Name::Subscript(
            SubscriptName::SubscriptBase,
        ))],
        SubscriptRule::DimensionValue => &[Symbol::Rows(Name::Value(ValueName::Value))],
        SubscriptRule::SymbolValue => &[
            Symbol::Word(Keyword::Symbol),
            Symbol::Sign(Sign::OpenRound),
            Symbol::Rows(Name::Value(ValueName::Value)),
            Symbol::Sign(Sign::CloseRound),
        ],
        SubscriptRule::SubscriptInBrackets => &[
            Symbol::Sign(Sign::OpenRound),
            Symbol::Rows(Name::Subscript(SubscriptName::SubscriptTerm)),
            Symbol::Rows(Name::Subscript(SubscriptName::SubscriptSum)),
            Symbol::Sign(Sign::CloseRound),
        ],
    }
}

pub(super) fn choose(name: SubscriptName, class: Class) -> Rule
    ensures name { name_of result ≡ Name.Subscript name }
    ensures choice { result ≡ choice_of name class }
{
    match name {
        SubscriptName::Subscripts => match class {
            Class::Sign(Sign::CloseSquare) => Rule::Subscript(SubscriptRule::NoSubscripts),
            _ => Rule::Subscript(SubscriptRule::FirstSubscript),
        },
        SubscriptName::MoreSubscripts => match class {
            Class::Sign(Sign::Comma) => Rule::Subscript(SubscriptRule::NextSubscript),
            _ => Rule::Subscript(SubscriptRule::NoMoreSubscripts),
        },
        SubscriptName::Subscript => Rule::Subscript(SubscriptRule::WholeSubscript),
        SubscriptName::SubscriptSum => match class {
            Class::Sign(Sign::Plus) => Rule::Subscript(SubscriptRule::PlusSubscriptTerm),
            Class::Sign(Sign::Minus) => Rule::Subscript(SubscriptRule::MinusSubscriptTerm),
            _ => Rule::Subscript(SubscriptRule::NoMoreSubscriptTerms),
        },
        SubscriptName::SubscriptTerm => Rule::Subscript(SubscriptRule::WholeSubscriptTerm),
        SubscriptName::SubscriptProduct => match class {
            Class::Sign(Sign::Star) => Rule::Subscript(SubscriptRule::TimesSubscriptFactor),
            Class::Word(Keyword::Division) => Rule::Subscript(
                SubscriptRule::DivisionSubscriptFactor,
            ),
            _ => Rule::Subscript(SubscriptRule::NoMoreSubscriptFactors),
        },
        SubscriptName::SubscriptFactor => match class {
            Class::Zero | Class::Positive => Rule::Subscript(SubscriptRule::NumberSubscriptFactor),
            Class::Sign(Sign::Minus) => Rule::Subscript(SubscriptRule::MinusSubscriptFactor),
            _ => Rule::Subscript(SubscriptRule::PlainSubscriptFactor),
        },
        SubscriptName::NegatedSubscript => match class {
            Class::Zero | Class::Positive => Rule::Subscript(
                SubscriptRule::NegativeSubscriptNumber,
            ),
            _ => Rule::Subscript(SubscriptRule::NegatedSubscriptBase),
        },
        SubscriptName::SubscriptBase => match class {
            Class::Word(Keyword::Symbol) => Rule::Subscript(SubscriptRule::SymbolValue),
            Class::Sign(Sign::OpenRound) => Rule::Subscript(SubscriptRule::SubscriptInBrackets),
            _ => Rule::Subscript(SubscriptRule::DimensionValue),
        },
    }
}

/// The least number of further brackets that are open at once in whatever a row derives.
pub(super) fn need(rule: SubscriptRule) -> u32
    ensures { result ≡ need_of (Rule.Subscript rule) }
{
    match rule {
        SubscriptRule::SymbolValue | SubscriptRule::SubscriptInBrackets => 1,
        _ => 0,
    }
}
