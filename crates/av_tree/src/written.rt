ghost use Rattle.std.specs.Prelude.{◌≡◌, IfOk};

use av_affine::{Duplicate, Held, Seq, Text};
use std::alloc::{AllocError, Global};

/// A size of a memref as it is written, or a stride or an offset of its layout.
#[derive(Clone, Copy, Debug, Drop, PartialEq)]
pub enum SizeText {
    Fixed(u128),
    /// `?`
    Dynamic,
}

/// A dimension of a vector type as it is written.
#[derive(Clone, Copy, Debug, Drop, PartialEq)]
pub enum DimText {
    Fixed(u128),
    /// `?`, which no vector type can have.
    Dynamic,
    /// A size in brackets, which counts times the scale.
    Scalable(u128),
}

/// A layout `strided<[..], offset: ..>` as it is written.
#[derive(Debug, Drop, PartialEq)]
pub struct LayoutText {
    pub strides: Seq<SizeText>,
    pub offset: SizeText,
}

/// A type as it is written.
#[derive(Debug, Drop, PartialEq)]
pub enum TypeText {
    /// `index`, or `i` and digits.
    Scalar(Text),
    MemRef {
        sizes: Seq<SizeText>,
        elem: Text,
        layout: Option<LayoutText>,
    },
    Vector {
        dims: Seq<DimText>,
        elem: Text,
    },
    /// A function type, of which no part is a function type.
    Func {
        inputs: Seq<TypeText>,
        results: Seq<TypeText>,
    },
}

/// An affine expression as it is written, its parameters by their names.
#[derive(Debug, Drop, PartialEq)]
pub enum ExprText {
    Name(Text),
    /// A number, with a `-` that stands right before it.
    Const(i128),
    Neg(Held<ExprText>),
    Add(Held<ExprText>, Held<ExprText>),
    Sub(Held<ExprText>, Held<ExprText>),
    Mul(Held<ExprText>, Held<ExprText>),
    Mod(Held<ExprText>, Held<ExprText>),
    Floor(Held<ExprText>, Held<ExprText>),
    Ceil(Held<ExprText>, Held<ExprText>),
}

/// `affine_map<(dims)[syms] -> (results)>`.
#[derive(Debug, Drop, PartialEq)]
pub struct MapText {
    pub dims: Seq<Text>,
    pub syms: Seq<Text>,
    pub results: Seq<ExprText>,
}

/// A row of a set: `left == 0` where `equal`, else `left >= 0`.
#[derive(Debug, Drop, PartialEq)]
pub struct RowText {
    pub left: ExprText,
    pub equal: bool,
}

/// `affine_set<(dims)[syms] : (rows)>`.
#[derive(Debug, Drop, PartialEq)]
pub struct SetText {
    pub dims: Seq<Text>,
    pub syms: Seq<Text>,
    pub rows: Seq<RowText>,
}

impl Duplicate for LayoutText {
    fn duplicate(&self, alloc: Global) -> Result<LayoutText, AllocError> {
        Ok(LayoutText {
            strides: self.strides.duplicate(alloc)?,
            offset: self.offset,
        })
    }
}

impl Duplicate for TypeText {
    fn duplicate(&self, alloc: Global) -> Result<TypeText, AllocError> {
        copy_type(alloc, self)
    }
}

fn copy_layout(alloc: Global, layout: &Option<LayoutText>) -> Result<Option<LayoutText>, AllocError>
    ensures { IfOk result (λ c. c ≡ layout.now) }
{
    match layout {
        Some(layout) => Ok(Some(layout.duplicate(alloc)?)),
        None => Ok(None),
    }
}

#[cycle(copying)]
fn copy_type(alloc: Global, ty: &TypeText) -> Result<TypeText, AllocError>
    ensures { IfOk result (λ c. c ≡ ty.now) }
{
    match ty {
        TypeText::Scalar(name) => Ok(TypeText::Scalar(name.duplicate(alloc)?)),
        TypeText::MemRef {
            sizes,
            elem,
            layout,
        } => Ok(TypeText::MemRef {
            sizes: sizes.duplicate(alloc)?,
            elem: elem.duplicate(alloc)?,
            layout: copy_layout(alloc, layout)?,
        }),
        TypeText::Vector { dims, elem } => Ok(TypeText::Vector {
            dims: dims.duplicate(alloc)?,
            elem: elem.duplicate(alloc)?,
        }),
        TypeText::Func { inputs, results } => Ok(TypeText::Func {
            inputs: copy_types(alloc, inputs.as_slice())?,
            results: copy_types(alloc, results.as_slice())?,
        }),
    }
}

#[cycle(copying)]
fn copy_types(alloc: Global, types: &[TypeText]) -> Result<Seq<TypeText>, AllocError>
    ensures { IfOk result (λ c. c ≡ types.now) }
{
    let mut copies = Seq::new(alloc);
    for ty in types {
        copies.push(copy_type(alloc, ty)?)?;
    }
    Ok(copies)
}
