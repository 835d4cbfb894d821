//! The rows of modules and functions.

ghost use Rattle.std.specs.Prelude.{◌≡◌};
ghost use Rattle.av_tree.specs.rows.FunctionRows.{symbols_of, choice_of};
ghost use Rattle.av_tree.specs.Needs.{need_of};
ghost use Rattle.av_tree.specs.Table.{name_of};

use super::{
    AttributeName, Class, GenericRule, Keyword, Name, RegionName, Rule, Symbol, Test, TypeName,
};
use av_lex::Sign;

/// The names of modules and functions.
#[derive(Clone, Copy)]
pub enum FunctionName {
    Module,
    OptionalSymbol,
    NamedFunction,
    OptionalVisibility,
    FunctionArguments,
    MoreFunctionArguments,
    FunctionArgument,
    Form,
}

/// The rows of modules and functions, each with its symbols.
#[derive(Clone, Copy)]
pub enum FunctionRule {
    /// Module: `'module' OptionalSymbol OptionalAttributes Region`
    BuiltinModule,
    /// OptionalSymbol: nothing
    NoSymbol,
    /// OptionalSymbol: `SymId`
    WrittenSymbol,
    /// NamedFunction: `'func.func' OptionalVisibility SymId '(' FunctionArguments ')' OptionalResultTypes OptionalAttributes Region`
    FuncFunc,
    /// OptionalVisibility: nothing
    NoVisibility,
    /// OptionalVisibility: `Visibility`
    WrittenVisibility,
    /// FunctionArguments: nothing
    NoFunctionArguments,
    /// FunctionArguments: `FunctionArgument MoreFunctionArguments`
    FirstFunctionArgument,
    /// MoreFunctionArguments: nothing
    NoMoreFunctionArguments,
    /// MoreFunctionArguments: `',' FunctionArgument MoreFunctionArguments`
    NextFunctionArgument,
    /// FunctionArgument: `ValId ':' Type OptionalDictionary`
    ArgumentOfFunction,
    /// Form: `Module`
    ModuleForm,
    /// Form: `NamedFunction`
    FunctionForm,
}

pub(super) fn symbols(rule: FunctionRule) -> &'static [Symbol]
    ensures { result.now ≡ symbols_of rule }
{
    match rule {
        FunctionRule::BuiltinModule => &[
            Symbol::Word(Keyword::Module),
            Symbol::Rows(Name::Function(FunctionName::OptionalSymbol)),
            Symbol::Rows(Name::Attribute(AttributeName::OptionalAttributes)),
            Symbol::Rows(Name::Region(RegionName::Region)),
        ],
        FunctionRule::NoSymbol => &[],
        FunctionRule::WrittenSymbol => &[Symbol::Token(Test::SymId)],
        FunctionRule::FuncFunc => &[
            Symbol::Word(Keyword::FuncFunc),
            Symbol::Rows(Name::Function(FunctionName::OptionalVisibility)),
            Symbol::Token(Test::SymId),
            Symbol::Sign(Sign::OpenRound),
            Symbol::Rows(Name::Function(FunctionName::FunctionArguments)),
            Symbol::Sign(Sign::CloseRound),
            Symbol::Rows(Name::Type(TypeName::OptionalResultTypes)),
            Symbol::Rows(Name::Attribute(AttributeName::OptionalAttributes)),
            Symbol::Rows(Name::Region(RegionName::Region)),
        ],
        FunctionRule::NoVisibility => &[],
        FunctionRule::WrittenVisibility => &[Symbol::Token(Test::Visibility)],
        FunctionRule::NoFunctionArguments => &[],
        FunctionRule::FirstFunctionArgument => &[
            Symbol::Rows(Name::Function(FunctionName::FunctionArgument)),
            Symbol::Rows(Name::Function(FunctionName::MoreFunctionArguments)),
        ],
        FunctionRule::NoMoreFunctionArguments => &[],
        FunctionRule::NextFunctionArgument => &[
            Symbol::Sign(Sign::Comma),
            Symbol::Rows(Name::Function(FunctionName::FunctionArgument)),
            Symbol::Rows(Name::Function(FunctionName::MoreFunctionArguments)),
        ],
        FunctionRule::ArgumentOfFunction => &[
            Symbol::Token(Test::ValId),
            Symbol::Sign(Sign::Colon),
            Symbol::Rows(Name::Type(TypeName::Type)),
            Symbol::Rows(Name::Attribute(AttributeName::OptionalDictionary)),
        ],
        FunctionRule::ModuleForm => &[Symbol::Rows(Name::Function(FunctionName::Module))],
        FunctionRule::FunctionForm => &[Symbol::Rows(Name::Function(FunctionName::NamedFunction))],
    }
}

pub(super) fn choose(name: FunctionName, class: Class) -> Rule
    ensures name { name_of result ≡ Name.Function name }
    ensures choice { result ≡ choice_of name class }
{
    match name {
        FunctionName::Module => Rule::Function(FunctionRule::BuiltinModule),
        FunctionName::OptionalSymbol => match class {
            Class::SymId => Rule::Function(FunctionRule::WrittenSymbol),
            _ => Rule::Function(FunctionRule::NoSymbol),
        },
        FunctionName::NamedFunction => Rule::Function(FunctionRule::FuncFunc),
        FunctionName::OptionalVisibility => match class {
            Class::Word(Keyword::Visibility) => Rule::Function(FunctionRule::WrittenVisibility),
            _ => Rule::Function(FunctionRule::NoVisibility),
        },
        FunctionName::FunctionArguments => match class {
            Class::ValId => Rule::Function(FunctionRule::FirstFunctionArgument),
            _ => Rule::Function(FunctionRule::NoFunctionArguments),
        },
        FunctionName::MoreFunctionArguments => match class {
            Class::Sign(Sign::Comma) => Rule::Function(FunctionRule::NextFunctionArgument),
            _ => Rule::Function(FunctionRule::NoMoreFunctionArguments),
        },
        FunctionName::FunctionArgument => Rule::Function(FunctionRule::ArgumentOfFunction),
        FunctionName::Form => match class {
            Class::Word(Keyword::Module) => Rule::Function(FunctionRule::ModuleForm),
            Class::Word(Keyword::FuncFunc) => Rule::Function(FunctionRule::FunctionForm),
            Class::Word(Keyword::Operation(number)) => Rule::Operation(number),
            _ => Rule::Generic(GenericRule::GenericForm),
        },
    }
}

/// The least number of further brackets that are open at once in whatever a row derives.
pub(super) fn need(rule: FunctionRule) -> u32
    ensures { result ≡ need_of (Rule.Function rule) }
{
    match rule {
        FunctionRule::BuiltinModule
        | FunctionRule::FuncFunc
        | FunctionRule::ModuleForm
        | FunctionRule::FunctionForm => 1,
        _ => 0,
    }
}
