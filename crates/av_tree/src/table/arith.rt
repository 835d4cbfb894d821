//! The rows of operations of the Arith dialect.

ghost use Rattle.std.specs.Prelude.{◌≡◌};
ghost use Rattle.av_tree.specs.rows.ArithRows.{symbols_of, choice_of};
ghost use Rattle.av_tree.specs.Needs.{need_of};
ghost use Rattle.av_tree.specs.Table.{name_of};

use super::{AttributeName, Class, Keyword, Name, Rule, Symbol, Test, TypeName, ValueName};
use av_lex::Sign;

/// The names of operations of the Arith dialect.
#[derive(Clone, Copy)]
pub enum ArithName {
    Constant,
    OptionalOverflow,
    MoreOverflowFlags,
    SelectedTypes,
    AfterVector,
}

/// The rows of operations of the Arith dialect, each with its symbols.
#[derive(Clone, Copy)]
pub enum ArithRule {
    /// Constant: `Bool`
    BoolConstant,
    /// Constant: `Integer ':' Type`
    NumberConstant,
    /// Constant: `Dense`
    DenseConstant,
    /// OptionalOverflow: nothing
    NoOverflow,
    /// OptionalOverflow: `'overflow' '<' OverflowFlag MoreOverflowFlags '>'`
    WrittenOverflow,
    /// MoreOverflowFlags: nothing
    NoMoreOverflowFlags,
    /// MoreOverflowFlags: `',' OverflowFlag MoreOverflowFlags`
    NextOverflowFlag,
    /// SelectedTypes: `Scalar`
    ScalarSelected,
    /// SelectedTypes: `MemRef`
    BufferSelected,
    /// SelectedTypes: `Vector AfterVector`
    VectorThenSelected,
    /// AfterVector: nothing
    OnlySelected,
    /// AfterVector: `',' Type`
    SelectedByVector,
}

pub(super) fn symbols(rule: ArithRule) -> &'static [Symbol]
    ensures { result.now ≡ symbols_of rule }
{
    match rule {
        ArithRule::BoolConstant => &[Symbol::Token(Test::Bool)],
        ArithRule::NumberConstant => &[
            Symbol::Rows(Name::Value(ValueName::Integer)),
            Symbol::Sign(Sign::Colon),
            Symbol::Rows(Name::Type(TypeName::Type)),
        ],
        ArithRule::DenseConstant => &[Symbol::Rows(Name::Attribute(AttributeName::Dense))],
        ArithRule::NoOverflow => &[],
        ArithRule::WrittenOverflow => &[
            Symbol::Word(Keyword::Overflow),
            Symbol::Sign(Sign::OpenAngle),
            Symbol::Token(Test::OverflowFlag),
            Symbol::Rows(Name::Arith(ArithName::MoreOverflowFlags)),
            Symbol::Sign(Sign::CloseAngle),
        ],
        ArithRule::NoMoreOverflowFlags => &[],
        ArithRule::NextOverflowFlag => &[
            Symbol::Sign(Sign::Comma),
            Symbol::Token(Test::OverflowFlag),
            Symbol::Rows(Name::Arith(ArithName::MoreOverflowFlags)),
        ],
        ArithRule::ScalarSelected => &[Symbol::Token(Test::Scalar)],
        ArithRule::BufferSelected => &[Symbol::Rows(Name::Type(TypeName::MemRef))],
        ArithRule::VectorThenSelected => &[
            Symbol::Rows(Name::Type(TypeName::Vector)),
            Symbol::Rows(Name::Arith(ArithName::AfterVector)),
        ],
        ArithRule::OnlySelected => &[],
        ArithRule::SelectedByVector => &[
            Symbol::Sign(Sign::Comma),
            Symbol::Rows(Name::Type(TypeName::Type)),
        ],
    }
}

pub(super) fn choose(name: ArithName, class: Class) -> Rule
    ensures name { name_of result ≡ Name.Arith name }
    ensures choice { result ≡ choice_of name class }
{
    match name {
        ArithName::Constant => match class {
            Class::Word(Keyword::Bool) => Rule::Arith(ArithRule::BoolConstant),
            Class::Word(Keyword::Dense) => Rule::Arith(ArithRule::DenseConstant),
            _ => Rule::Arith(ArithRule::NumberConstant),
        },
        ArithName::OptionalOverflow => match class {
            Class::Word(Keyword::Overflow) => Rule::Arith(ArithRule::WrittenOverflow),
            _ => Rule::Arith(ArithRule::NoOverflow),
        },
        ArithName::MoreOverflowFlags => match class {
            Class::Sign(Sign::Comma) => Rule::Arith(ArithRule::NextOverflowFlag),
            _ => Rule::Arith(ArithRule::NoMoreOverflowFlags),
        },
        ArithName::SelectedTypes => match class {
            Class::Word(Keyword::MemRef) => Rule::Arith(ArithRule::BufferSelected),
            Class::Word(Keyword::Vector) => Rule::Arith(ArithRule::VectorThenSelected),
            _ => Rule::Arith(ArithRule::ScalarSelected),
        },
        ArithName::AfterVector => match class {
            Class::Sign(Sign::Comma) => Rule::Arith(ArithRule::SelectedByVector),
            _ => Rule::Arith(ArithRule::OnlySelected),
        },
    }
}

/// The least number of further brackets that are open at once in whatever a row derives.
pub(super) fn need(rule: ArithRule) -> u32
    ensures { result ≡ need_of (Rule.Arith rule) }
{
    match rule {
        ArithRule::DenseConstant
        | ArithRule::WrittenOverflow
        | ArithRule::BufferSelected
        | ArithRule::VectorThenSelected => 1,
        _ => 0,
    }
}
