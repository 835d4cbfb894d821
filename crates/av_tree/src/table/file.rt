//! The rows of files.

ghost use Rattle.std.specs.Prelude.{◌≡◌};
ghost use Rattle.av_tree.specs.rows.FileRows.{symbols_of, choice_of};
ghost use Rattle.av_tree.specs.Needs.{need_of};
ghost use Rattle.av_tree.specs.Table.{name_of};

use super::{
    Class, FunctionName, GenericName, Keyword, MapName, Name, Rule, Symbol, Test, ValueName,
};
use av_lex::Sign;

/// The names of files.
#[derive(Clone, Copy)]
pub enum FileName {
    File,
    Aliases,
    MapOrSet,
    Content,
    TopLevel,
    MoreFunctions,
    Function,
}

/// The rows of files, each with its symbols.
#[derive(Clone, Copy)]
pub enum FileRule {
    /// File: `Aliases Content`
    WholeFile,
    /// Aliases: nothing
    NoMoreAliases,
    /// Aliases: `HashId '=' MapOrSet Aliases`
    NextAlias,
    /// MapOrSet: `AffineMap`
    AliasOfMap,
    /// MapOrSet: `AffineSet`
    AliasOfSet,
    /// Content: nothing
    NoContent,
    /// Content: `Results TopLevel`
    NamedContent,
    /// Content: `TopLevel`
    PlainContent,
    /// TopLevel: `Module`
    OnlyModule,
    /// TopLevel: `ModuleString GenericParts`
    OnlyGenericModule,
    /// TopLevel: `Function MoreFunctions`
    FirstFunction,
    /// MoreFunctions: nothing
    NoMoreFunctions,
    /// MoreFunctions: `Results Function MoreFunctions`
    NextNamedFunction,
    /// MoreFunctions: `Function MoreFunctions`
    NextFunction,
    /// Function: `NamedFunction`
    WrittenFunction,
    /// Function: `FuncString GenericParts`
    GenericFunction,
}

pub(super) fn symbols(rule: FileRule) -> &'static [Symbol]
    ensures { result.now ≡ symbols_of rule }
{
    match rule {
        FileRule::WholeFile => &[
            Symbol::Rows(Name::File(FileName::Aliases)),
            Symbol::Rows(Name::File(FileName::Content)),
        ],
        FileRule::NoMoreAliases => &[],
        FileRule::NextAlias => &[
            Symbol::Token(Test::HashId),
            Symbol::Sign(Sign::Equal),
            Symbol::Rows(Name::File(FileName::MapOrSet)),
            Symbol::Rows(Name::File(FileName::Aliases)),
        ],
        FileRule::AliasOfMap => &[Symbol::Rows(Name::Map(MapName::AffineMap))],
        FileRule::AliasOfSet => &[Symbol::Rows(Name::Map(MapName::AffineSet))],
        FileRule::NoContent => &[],
        FileRule::NamedContent => &[
            Symbol::Rows(Name::Value(ValueName::Results)),
            Symbol::Rows(Name::File(FileName::TopLevel)),
        ],
        FileRule::PlainContent => &[Symbol::Rows(Name::File(FileName::TopLevel))],
        FileRule::OnlyModule => &[Symbol::Rows(Name::Function(FunctionName::Module))],
        FileRule::OnlyGenericModule => &[
            Symbol::Token(Test::ModuleString),
            Symbol::Rows(Name::Generic(GenericName::GenericParts)),
        ],
        FileRule::FirstFunction => &[
            Symbol::Rows(Name::File(FileName::Function)),
            Symbol::Rows(Name::File(FileName::MoreFunctions)),
        ],
        FileRule::NoMoreFunctions => &[],
        FileRule::NextNamedFunction => &[
            Symbol::Rows(Name::Value(ValueName::Results)),
            Symbol::Rows(Name::File(FileName::Function)),
            Symbol::Rows(Name::File(FileName::MoreFunctions)),
        ],
        FileRule::NextFunction => &[
            Symbol::Rows(Name::File(FileName::Function)),
            Symbol::Rows(Name::File(FileName::MoreFunctions)),
        ],
        FileRule::WrittenFunction => &[Symbol::Rows(Name::Function(FunctionName::NamedFunction))],
        FileRule::GenericFunction => &[
            Symbol::Token(Test::FuncString),
            Symbol::Rows(Name::Generic(GenericName::GenericParts)),
        ],
    }
}

pub(super) fn choose(name: FileName, class: Class) -> Rule
    ensures name { name_of result ≡ Name.File name }
    ensures choice { result ≡ choice_of name class }
{
    match name {
        FileName::File => Rule::File(FileRule::WholeFile),
        FileName::Aliases => match class {
            Class::HashDigits | Class::HashWord | Class::HashOther => Rule::File(
                FileRule::NextAlias,
            ),
            _ => Rule::File(FileRule::NoMoreAliases),
        },
        FileName::MapOrSet => match class {
            Class::Word(Keyword::AffineSet) => Rule::File(FileRule::AliasOfSet),
            _ => Rule::File(FileRule::AliasOfMap),
        },
        FileName::Content => match class {
            Class::End => Rule::File(FileRule::NoContent),
            Class::ValId => Rule::File(FileRule::NamedContent),
            _ => Rule::File(FileRule::PlainContent),
        },
        FileName::TopLevel => match class {
            Class::Word(Keyword::Module) => Rule::File(FileRule::OnlyModule),
            Class::QuotedModule => Rule::File(FileRule::OnlyGenericModule),
            _ => Rule::File(FileRule::FirstFunction),
        },
        FileName::MoreFunctions => match class {
            Class::End => Rule::File(FileRule::NoMoreFunctions),
            Class::ValId => Rule::File(FileRule::NextNamedFunction),
            _ => Rule::File(FileRule::NextFunction),
        },
        FileName::Function => match class {
            Class::QuotedFunc => Rule::File(FileRule::GenericFunction),
            _ => Rule::File(FileRule::WrittenFunction),
        },
    }
}

/// The least number of further brackets that are open at once in whatever a row derives.
pub(super) fn need(rule: FileRule) -> u32
    ensures { result ≡ need_of (Rule.File rule) }
{
    match rule {
        FileRule::NextAlias | FileRule::AliasOfMap | FileRule::AliasOfSet => 2,
        FileRule::NamedContent
        | FileRule::PlainContent
        | FileRule::OnlyModule
        | FileRule::OnlyGenericModule
        | FileRule::FirstFunction
        | FileRule::NextNamedFunction
        | FileRule::NextFunction
        | FileRule::WrittenFunction
        | FileRule::GenericFunction => 1,
        _ => 0,
    }
}
