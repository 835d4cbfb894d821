//! The rows of types.

ghost use Rattle.std.specs.Prelude.{◌≡◌};
ghost use Rattle.av_tree.specs.rows.TypeRows.{symbols_of, choice_of};
ghost use Rattle.av_tree.specs.Needs.{need_of};
ghost use Rattle.av_tree.specs.Table.{name_of};

use super::{Class, Keyword, Name, Rule, Symbol, Test};
use av_lex::Sign;

/// The names of types.
#[derive(Clone, Copy)]
pub enum TypeName {
    Type,
    MemRef,
    Sizes,
    Vector,
    Dims,
    Types,
    MoreTypes,
    ResultTypes,
    OptionalResultTypes,
    Layout,
    Strides,
    MoreStrides,
    Stride,
    OptionalOffset,
}

/// The rows of types, each with its symbols.
#[derive(Clone, Copy)]
pub enum TypeRule {
    /// Type: `Scalar`
    ScalarType,
    /// Type: `MemRef`
    BufferType,
    /// Type: `Vector`
    TileType,
    /// MemRef: `'memref' '<' Sizes Scalar Layout '>'`
    MemRefType,
    /// Sizes: nothing
    NoMoreSizes,
    /// Sizes: `DimX Sizes`
    NextSize,
    /// Vector: `'vector' '<' Dims Scalar '>'`
    VectorType,
    /// Dims: nothing
    NoMoreDims,
    /// Dims: `DimX Dims`
    FixedDim,
    /// Dims: `ScalX Dims`
    ScalableDim,
    /// Types: nothing
    NoTypes,
    /// Types: `Type MoreTypes`
    FirstType,
    /// MoreTypes: nothing
    NoMoreTypes,
    /// MoreTypes: `',' Type MoreTypes`
    NextType,
    /// ResultTypes: `Type`
    OneResultType,
    /// ResultTypes: `'(' Types ')'`
    ResultTypeList,
    /// OptionalResultTypes: nothing
    NoResultTypes,
    /// OptionalResultTypes: `'->' ResultTypes`
    WrittenResultTypes,
    /// Layout: nothing
    NoLayout,
    /// Layout: `',' 'strided' '<' '[' Strides ']' OptionalOffset '>'`
    StridedLayout,
    /// Strides: nothing
    NoStrides,
    /// Strides: `Stride MoreStrides`
    FirstStride,
    /// MoreStrides: nothing
    NoMoreStrides,
    /// MoreStrides: `',' Stride MoreStrides`
    NextStride,
    /// Stride: `Number`
    StaticStride,
    /// Stride: `'?'`
    DynamicStride,
    /// OptionalOffset: nothing
    NoOffset,
    /// OptionalOffset: `',' 'offset' ':' Stride`
    WrittenOffset,
}

pub(super) fn symbols(rule: TypeRule) -> &'static [Symbol]
    ensures { result.now ≡ symbols_of rule }
{
    match rule {
        TypeRule::ScalarType => &[Symbol::Token(Test::Scalar)],
        TypeRule::BufferType => &[Symbol::Rows(Name::Type(TypeName::MemRef))],
        TypeRule::TileType => &[Symbol::Rows(Name::Type(TypeName::Vector))],
        TypeRule::MemRefType => &[
            Symbol::Word(Keyword::MemRef),
            Symbol::Sign(Sign::OpenAngle),
            Symbol::Rows(Name::Type(TypeName::Sizes)),
            Symbol::Token(Test::Scalar),
            Symbol::Rows(Name::Type(TypeName::Layout)),
            Symbol::Sign(Sign::CloseAngle),
        ],
        TypeRule::NoMoreSizes => &[],
        TypeRule::NextSize => &[
            Symbol::Token(Test::DimX),
            Symbol::Rows(Name::Type(TypeName::Sizes)),
        ],
        TypeRule::VectorType => &[
            Symbol::Word(Keyword::Vector),
            Symbol::Sign(Sign::OpenAngle),
            Symbol::Rows(Name::Type(TypeName::Dims)),
            Symbol::Token(Test::Scalar),
            Symbol::Sign(Sign::CloseAngle),
        ],
        TypeRule::NoMoreDims => &[],
        TypeRule::FixedDim => &[
            Symbol::Token(Test::DimX),
            Symbol::Rows(Name::Type(TypeName::Dims)),
        ],
        TypeRule::ScalableDim => &[
            Symbol::Token(Test::ScalX),
            Symbol::Rows(Name::Type(TypeName::Dims)),
        ],
        TypeRule::NoTypes => &[],
        TypeRule::FirstType => &[
            Symbol::Rows(Name::Type(TypeName::Type)),
            Symbol::Rows(Name::Type(TypeName::MoreTypes)),
        ],
        TypeRule::NoMoreTypes => &[],
        TypeRule::NextType => &[
            Symbol::Sign(Sign::Comma),
            Symbol::Rows(Name::Type(TypeName::Type)),
            Symbol::Rows(Name::Type(TypeName::MoreTypes)),
        ],
        TypeRule::OneResultType => &[Symbol::Rows(Name::Type(TypeName::Type))],
        TypeRule::ResultTypeList => &[
            Symbol::Sign(Sign::OpenRound),
            Symbol::Rows(Name::Type(TypeName::Types)),
            Symbol::Sign(Sign::CloseRound),
        ],
        TypeRule::NoResultTypes => &[],
        TypeRule::WrittenResultTypes => &[
            Symbol::Sign(Sign::Arrow),
            Symbol::Rows(Name::Type(TypeName::ResultTypes)),
        ],
        TypeRule::NoLayout => &[],
        TypeRule::StridedLayout => &[
            Symbol::Sign(Sign::Comma),
            Symbol::Word(Keyword::Strided),
            Symbol::Sign(Sign::OpenAngle),
            Symbol::Sign(Sign::OpenSquare),
            Symbol::Rows(Name::Type(TypeName::Strides)),
            Symbol::Sign(Sign::CloseSquare),
            Symbol::Rows(Name::Type(TypeName::OptionalOffset)),
            Symbol::Sign(Sign::CloseAngle),
        ],
        TypeRule::NoStrides => &[],
        TypeRule::FirstStride => &[
            Symbol::Rows(Name::Type(TypeName::Stride)),
            Symbol::Rows(Name::Type(TypeName::MoreStrides)),
        ],
        TypeRule::NoMoreStrides => &[],
        TypeRule::NextStride => &[
            Symbol::Sign(Sign::Comma),
            Symbol::Rows(Name::Type(TypeName::Stride)),
            Symbol::Rows(Name::Type(TypeName::MoreStrides)),
        ],
        TypeRule::StaticStride => &[Symbol::Token(Test::Number)],
        TypeRule::DynamicStride => &[Symbol::Sign(Sign::Question)],
        TypeRule::NoOffset => &[],
        TypeRule::WrittenOffset => &[
            Symbol::Sign(Sign::Comma),
            Symbol::Word(Keyword::Offset),
            Symbol::Sign(Sign::Colon),
            Symbol::Rows(Name::Type(TypeName::Stride)),
        ],
    }
}

pub(super) fn choose(name: TypeName, class: Class) -> Rule
    ensures name { name_of result ≡ Name.Type name }
    ensures choice { result ≡ choice_of name class }
{
    match name {
        TypeName::Type => match class {
            Class::Word(Keyword::MemRef) => Rule::Type(TypeRule::BufferType),
            Class::Word(Keyword::Vector) => Rule::Type(TypeRule::TileType),
            _ => Rule::Type(TypeRule::ScalarType),
        },
        TypeName::MemRef => Rule::Type(TypeRule::MemRefType),
        TypeName::Sizes => match class {
            Class::DimX => Rule::Type(TypeRule::NextSize),
            _ => Rule::Type(TypeRule::NoMoreSizes),
        },
        TypeName::Vector => Rule::Type(TypeRule::VectorType),
        TypeName::Dims => match class {
            Class::DimX => Rule::Type(TypeRule::FixedDim),
            Class::ScalX => Rule::Type(TypeRule::ScalableDim),
            _ => Rule::Type(TypeRule::NoMoreDims),
        },
        TypeName::Types => match class {
            Class::Sign(Sign::CloseRound) => Rule::Type(TypeRule::NoTypes),
            _ => Rule::Type(TypeRule::FirstType),
        },
        TypeName::MoreTypes => match class {
            Class::Sign(Sign::Comma) => Rule::Type(TypeRule::NextType),
            _ => Rule::Type(TypeRule::NoMoreTypes),
        },
        TypeName::ResultTypes => match class {
            Class::Sign(Sign::OpenRound) => Rule::Type(TypeRule::ResultTypeList),
            _ => Rule::Type(TypeRule::OneResultType),
        },
        TypeName::OptionalResultTypes => match class {
            Class::Sign(Sign::Arrow) => Rule::Type(TypeRule::WrittenResultTypes),
            _ => Rule::Type(TypeRule::NoResultTypes),
        },
        TypeName::Layout => match class {
            Class::Sign(Sign::Comma) => Rule::Type(TypeRule::StridedLayout),
            _ => Rule::Type(TypeRule::NoLayout),
        },
        TypeName::Strides => match class {
            Class::Sign(Sign::CloseSquare) => Rule::Type(TypeRule::NoStrides),
            _ => Rule::Type(TypeRule::FirstStride),
        },
        TypeName::MoreStrides => match class {
            Class::Sign(Sign::Comma) => Rule::Type(TypeRule::NextStride),
            _ => Rule::Type(TypeRule::NoMoreStrides),
        },
        TypeName::Stride => match class {
            Class::Sign(Sign::Question) => Rule::Type(TypeRule::DynamicStride),
            _ => Rule::Type(TypeRule::StaticStride),
        },
        TypeName::OptionalOffset => match class {
            Class::Sign(Sign::Comma) => Rule::Type(TypeRule::WrittenOffset),
            _ => Rule::Type(TypeRule::NoOffset),
        },
    }
}

/// The least number of further brackets that are open at once in whatever a row derives.
pub(super) fn need(rule: TypeRule) -> u32
    ensures { result ≡ need_of (Rule.Type rule) }
{
    match rule {
        TypeRule::StridedLayout => 2,
        TypeRule::BufferType
        | TypeRule::TileType
        | TypeRule::MemRefType
        | TypeRule::VectorType
        | TypeRule::ResultTypeList => 1,
        _ => 0,
    }
}
