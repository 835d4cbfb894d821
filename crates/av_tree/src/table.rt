//! The format as a table of rows, which one token ahead tells apart.
//!
//! A name stands for one of its rows, and a row is a list of symbols: tokens and names. The text of a
//! module is what the rows of `File` derive. `choose` gives the one row of a name that can begin with
//! a token; where none can, any row is given, and its first token refuses that token.

ghost use Rattle.std.specs.Prelude.{◌≡◌, ◌++◌, reverse, IsTrue, OnOk};
ghost use Rattle.av_tree.specs.Classes.{fits_of};
ghost use Rattle.av_tree.specs.Needs.{need_of};
ghost use Rattle.av_tree.specs.Signs.{begins_expression as begins_expression_of, counts_sign as counts_sign_of};
ghost use Rattle.av_tree.specs.Table.{symbols_of, name_of, choice_of, is_lighter};

mod affine;
mod arith;
mod attributes;
mod file;
mod forms;
mod functions;
mod generic;
mod maps;
mod regions;
mod subscripts;
mod types;
mod values;

use super::class::{Class, Keyword, is_word_class};
pub use affine::{AffineName, AffineRule};
pub use arith::{ArithName, ArithRule};
pub use attributes::{AttributeName, AttributeRule};
use av_lex::Sign;
pub use file::{FileName, FileRule};
pub use functions::{FunctionName, FunctionRule};
pub use generic::{GenericName, GenericRule};
pub use maps::{MapName, MapRule};
pub use regions::{RegionName, RegionRule};
use std::alloc::AllocError;
pub use subscripts::{SubscriptName, SubscriptRule};
pub use types::{TypeName, TypeRule};
pub use values::{ValueName, ValueRule};

/// A token of one of several classes, whose spelling matters to what its row makes.
#[derive(Clone, Copy)]
pub enum Test {
    Number,
    Zero,
    DimX,
    ScalX,
    Scalar,
    ValId,
    SymId,
    CaretId,
    HashDigits,
    HashWord,
    /// Any name with a `#`.
    HashId,
    /// A name with a `#` that no `<` can follow.
    AliasOnly,
    /// Any text in quotes.
    String,
    /// `"builtin.module"`.
    ModuleString,
    /// `"func.func"`.
    FuncString,
    /// Any word.
    Word,
    /// Any word but those of divisions: the name of a parameter.
    Parameter,
    /// Any word but `function_type`: the name of an entry in a dictionary.
    EntryName,
    Terminator,
    Predicate,
    Kind,
    Bool,
    Visibility,
    OverflowFlag,
    Division,
}

/// A part of a row: a sign, a word, a token whose spelling matters, or a name.
#[derive(Clone, Copy)]
pub enum Symbol {
    Sign(Sign),
    Word(Keyword),
    Token(Test),
    Rows(Name),
}

/// A name, by the group that it stands in.
#[derive(Clone, Copy)]
pub enum Name {
    File(FileName),
    Function(FunctionName),
    Region(RegionName),
    Generic(GenericName),
    Type(TypeName),
    Attribute(AttributeName),
    Map(MapName),
    Value(ValueName),
    Arith(ArithName),
    Affine(AffineName),
    Subscript(SubscriptName),
}

/// A row, by the group that it stands in.
#[derive(Clone, Copy)]
pub enum Rule {
    File(FileRule),
    Function(FunctionRule),
    Region(RegionRule),
    Generic(GenericRule),
    Type(TypeRule),
    Attribute(AttributeRule),
    Map(MapRule),
    Value(ValueRule),
    Arith(ArithRule),
    Affine(AffineRule),
    Subscript(SubscriptRule),
    /// The row of the operation of this number in the table of operations.
    Operation(u8),
}

/// Puts the symbols of a row on a stack, the first one last.
///
/// # Errors
///
/// Memory lacks.
pub fn push_symbols(stack: &mut Vec<Symbol>, rule: Rule) -> Result<(), AllocError>
    ensures value { OnOk result (stack.new.items ≡ stack.old.items ++ reverse (symbols_of rule)) }
    // Expanding names ends, since each row weighs less than its name.
    ensures lighter { IsTrue (is_lighter rule) }
{
    push_in_group(stack, rule)
}

fn push_in_group(stack: &mut Vec<Symbol>, rule: Rule) -> Result<(), AllocError>
    ensures { OnOk result (stack.new.items ≡ stack.old.items ++ reverse (symbols_of rule)) }
{
    match rule {
        Rule::File(rule) => push_row(stack, file::symbols(rule)),
        Rule::Function(rule) => push_row(stack, functions::symbols(rule)),
        Rule::Region(rule) => push_row(stack, regions::symbols(rule)),
        Rule::Generic(rule) => push_row(stack, generic::symbols(rule)),
        Rule::Type(rule) => push_row(stack, types::symbols(rule)),
        Rule::Attribute(rule) => push_row(stack, attributes::symbols(rule)),
        Rule::Map(rule) => push_row(stack, maps::symbols(rule)),
        Rule::Value(rule) => push_row(stack, values::symbols(rule)),
        Rule::Arith(rule) => push_row(stack, arith::symbols(rule)),
        Rule::Affine(rule) => push_row(stack, affine::symbols(rule)),
        Rule::Subscript(rule) => push_row(stack, subscripts::symbols(rule)),
        Rule::Operation(number) => forms::push_operation(stack, number),
    }
}

// Puts the symbols of a row on a stack, the first one last.
fn push_row(stack: &mut Vec<Symbol>, row: &[Symbol]) -> Result<(), AllocError>
    ensures { OnOk result (stack.new.items ≡ stack.old.items ++ reverse row.now) }
{
    if let [first, rest @ ..] = row {
        push_row(stack, rest)?;
        stack.push(*first)?;
    }
    Ok(())
}

/// The row of a name that can begin with a token of this class, or any of its rows where none can.
pub fn choose(name: Name, class: Class) -> Rule
    ensures name { name_of result ≡ name }
    ensures choice { result ≡ choice_of name class }
{
    match name {
        Name::File(name) => file::choose(name, class),
        Name::Function(name) => functions::choose(name, class),
        Name::Region(name) => regions::choose(name, class),
        Name::Generic(name) => generic::choose(name, class),
        Name::Type(name) => types::choose(name, class),
        Name::Attribute(name) => attributes::choose(name, class),
        Name::Map(name) => maps::choose(name, class),
        Name::Value(name) => values::choose(name, class),
        Name::Arith(name) => arith::choose(name, class),
        Name::Affine(name) => affine::choose(name, class),
        Name::Subscript(name) => subscripts::choose(name, class),
    }
}

/// Whether a token of this class may stand for a test.
pub fn fits(test: Test, class: Class) -> bool
    ensures { result ≡ fits_of test class }
{
    match test {
        Test::Number => matches!(class, Class::Zero | Class::Positive),
        Test::Zero => matches!(class, Class::Zero),
        Test::DimX => matches!(class, Class::DimX),
        Test::ScalX => matches!(class, Class::ScalX),
        Test::Scalar => matches!(class, Class::Scalar),
        Test::ValId => matches!(class, Class::ValId),
        Test::SymId => matches!(class, Class::SymId),
        Test::CaretId => matches!(class, Class::CaretId),
        Test::HashDigits => matches!(class, Class::HashDigits),
        Test::HashWord => matches!(class, Class::HashWord),
        Test::HashId => matches!(
            class,
            Class::HashDigits | Class::HashWord | Class::HashOther
        ),
        Test::AliasOnly => matches!(class, Class::HashDigits | Class::HashOther),
        Test::String => matches!(
            class,
            Class::QuotedModule | Class::QuotedFunc | Class::Quoted
        ),
        Test::ModuleString => matches!(class, Class::QuotedModule),
        Test::FuncString => matches!(class, Class::QuotedFunc),
        Test::Word => is_word_class(class),
        Test::Parameter => !matches!(class, Class::Word(Keyword::Division)) && is_word_class(class),
        Test::EntryName => !matches!(class, Class::Word(Keyword::FunctionType))
            && is_word_class(class),
        Test::Terminator => matches!(class, Class::Word(Keyword::Terminator)),
        Test::Predicate => matches!(class, Class::Word(Keyword::Predicate)),
        Test::Kind => matches!(class, Class::Word(Keyword::Kind)),
        Test::Bool => matches!(class, Class::Word(Keyword::Bool)),
        Test::Visibility => matches!(class, Class::Word(Keyword::Visibility)),
        Test::OverflowFlag => matches!(class, Class::Word(Keyword::OverflowFlag)),
        Test::Division => matches!(class, Class::Word(Keyword::Division)),
    }
}

/// The least number of further brackets that are open at once in whatever a row derives.
pub fn need(rule: Rule) -> u32
    ensures { result ≡ need_of rule }
{
    match rule {
        Rule::File(rule) => file::need(rule),
        Rule::Function(rule) => functions::need(rule),
        Rule::Region(rule) => regions::need(rule),
        Rule::Generic(rule) => generic::need(rule),
        Rule::Type(rule) => types::need(rule),
        Rule::Attribute(rule) => attributes::need(rule),
        Rule::Map(rule) => maps::need(rule),
        Rule::Arith(rule) => arith::need(rule),
        Rule::Affine(rule) => affine::need(rule),
        Rule::Subscript(rule) => subscripts::need(rule),
        Rule::Operation(number) => forms::need(number),
        _ => 0,
    }
}

/// Whether an expression begins with a row, so that the count of its signs begins at 0.
pub fn begins_expression(rule: Rule) -> bool
    ensures { result ≡ begins_expression_of rule }
{
    matches!(
        rule,
        Rule::Map(MapRule::WholeExpression) | Rule::Subscript(SubscriptRule::WholeSubscript)
    )
}

/// Whether a row begins with a sign or word that the limit on signs counts.
pub fn counts_sign(rule: Rule) -> bool
    ensures { result ≡ counts_sign_of rule }
{
    matches!(
        rule,
        Rule::Map(
            MapRule::PlusTerm
                | MapRule::MinusTerm
                | MapRule::TimesFactor
                | MapRule::DivisionFactor
                | MapRule::MinusFactor
                | MapRule::DivisionName
        ) | Rule::Subscript(
            SubscriptRule::PlusSubscriptTerm
                | SubscriptRule::MinusSubscriptTerm
                | SubscriptRule::TimesSubscriptFactor
                | SubscriptRule::DivisionSubscriptFactor
                | SubscriptRule::MinusSubscriptFactor
        )
    )
}
