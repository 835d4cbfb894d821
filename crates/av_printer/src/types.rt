//! Types.
ghost use Rattle.std.specs.Prelude.{◌≡◌, ◌++◌, map, IfOk};
ghost use Rattle.av_printer.specs.Pieces.{spelt, commas, joined, in_round};
ghost use Rattle.av_printer.specs.Types.{size_alone, size_x, dim_x, strides_of, is_zero, written_offset, offset_of, layout_behind, one_or_several, type_pieces};

use crate::writer::Writer;
use av_tree::{DimText, LayoutText, SizeText, TypeText};
use std::alloc::AllocError;

#[tactic(auto, using(crate::proofs::Steps::steps, crate::proofs::TypeSteps::type_steps))]
#[cycle(printing)]
pub(crate) fn print_type(out: &mut Writer, ty: &TypeText) -> Result<(), AllocError>
    ensures { IfOk result (λ _. out.new ≡ out.old ++ spelt (type_pieces ty.now)) }
{
    match ty {
        TypeText::Scalar(name) => out.push_text(name)?,
        TypeText::MemRef {
            sizes,
            elem,
            layout,
        } => {
            out.push_bytes(b"memref<")?;
            print_sizes(out, sizes.as_slice())?;
            out.push_text(elem)?;
            print_layout(out, layout)?;
            out.push_bytes(b">")?;
        }
        TypeText::Vector { dims, elem } => {
            out.push_bytes(b"vector<")?;
            print_dims(out, dims.as_slice())?;
            out.push_text(elem)?;
            out.push_bytes(b">")?;
        }
        TypeText::Func { inputs, results } => {
            print_types_in_brackets(out, inputs.as_slice())?;
            out.push_bytes(b" -> ")?;
            print_result_types(out, results.as_slice())?;
        }
    }
    Ok(())
}

/// Types in round brackets.
#[tactic(auto, using(crate::proofs::Steps::steps, crate::proofs::TypeSteps::type_steps))]
#[cycle(printing)]
pub(crate) fn print_types_in_brackets(
    out: &mut Writer,
    types: &[TypeText],
) -> Result<(), AllocError>
    ensures { IfOk result (λ _. out.new ≡ out.old ++ spelt (in_round (commas (map type_pieces types.now)))) }
{
    out.push_bytes(b"(")?;
    for (i, ty) in types.iter().enumerate() {
        out.push_comma_after(i)?;
        print_type(out, ty)?;
    }
    out.push_bytes(b")")?;
    Ok(())
}

/// The types of results: one alone without brackets.
#[tactic(auto, using(crate::proofs::Steps::steps, crate::proofs::TypeSteps::type_steps))]
#[cycle(printing)]
pub(crate) fn print_result_types(out: &mut Writer, types: &[TypeText]) -> Result<(), AllocError>
    ensures { IfOk result (λ _. out.new ≡ out.old ++ spelt (one_or_several (map type_pieces types.now))) }
{
    match types {
        [] => out.push_bytes(b"()")?,
        [ty] => print_type(out, ty)?,
        [_, _, ..] => print_types_in_brackets(out, types)?,
    }
    Ok(())
}

// The sizes of a memref, with an `x` behind each.
fn print_sizes(out: &mut Writer, sizes: &[SizeText]) -> Result<(), AllocError>
    ensures { IfOk result (λ _. out.new ≡ out.old ++ spelt (joined (map size_x sizes.now))) }
{
    for size in sizes {
        print_size_x(out, *size)?;
    }
    Ok(())
}

fn print_size_x(out: &mut Writer, size: SizeText) -> Result<(), AllocError>
    ensures { IfOk result (λ _. out.new ≡ out.old ++ spelt (size_x size)) }
{
    match size {
        SizeText::Fixed(size) => {
            out.push_digits(size)?;
            out.push_bytes(b"x")?;
        }
        SizeText::Dynamic => out.push_bytes(b"?x")?,
    }
    Ok(())
}

fn print_size(out: &mut Writer, size: SizeText) -> Result<(), AllocError>
    ensures { IfOk result (λ _. out.new ≡ out.old ++ spelt (size_alone size)) }
{
    match size {
        SizeText::Fixed(size) => out.push_digits(size)?,
        SizeText::Dynamic => out.push_bytes(b"?")?,
    }
    Ok(())
}

#[tactic(auto, using(crate::proofs::Steps::steps, crate::proofs::TypeSteps::type_steps))]
fn print_layout(out: &mut Writer, layout: &Option<LayoutText>) -> Result<(), AllocError>
    ensures { IfOk result (λ _. out.new ≡ out.old ++ spelt (layout_behind layout.now)) }
{
    match layout {
        Some(layout) => {
            print_strides(out, layout.strides.as_slice())?;
            print_offset(out, layout.offset)?;
            out.push_bytes(b">")?;
        }
        None => {}
    }
    Ok(())
}

#[tactic(auto, using(crate::proofs::Steps::steps), unfolding(crate::specs::Types::strides_of))]
fn print_strides(out: &mut Writer, strides: &[SizeText]) -> Result<(), AllocError>
    ensures { IfOk result (λ _. out.new ≡ out.old ++ spelt (strides_of strides.now)) }
{
    out.push_bytes(b", strided<[")?;
    for (i, stride) in strides.iter().enumerate() {
        out.push_comma_after(i)?;
        print_size(out, *stride)?;
    }
    out.push_bytes(b"]")?;
    Ok(())
}

// The offset, unless it is 0.
#[tactic(auto, using(crate::proofs::Steps::steps), unfolding(crate::specs::Types::offset_of))]
fn print_offset(out: &mut Writer, offset: SizeText) -> Result<(), AllocError>
    ensures { IfOk result (λ _. out.new ≡ out.old ++ spelt (offset_of offset)) }
{
    if !is_zero(offset) {
        print_written_offset(out, offset)?;
    }
    Ok(())
}

fn is_zero(size: SizeText) -> bool
    ensures { result ≡ is_zero size }
{
    matches!(size, SizeText::Fixed(0))
}

#[tactic(auto, using(crate::proofs::Steps::steps), unfolding(crate::specs::Types::written_offset))]
fn print_written_offset(out: &mut Writer, offset: SizeText) -> Result<(), AllocError>
    ensures { IfOk result (λ _. out.new ≡ out.old ++ spelt (written_offset offset)) }
{
    out.push_bytes(b", offset: ")?;
    print_size(out, offset)?;
    Ok(())
}

// The dimensions of a vector, with an `x` behind each.
fn print_dims(out: &mut Writer, dims: &[DimText]) -> Result<(), AllocError>
    ensures { IfOk result (λ _. out.new ≡ out.old ++ spelt (joined (map dim_x dims.now))) }
{
    for dim in dims {
        print_dim_x(out, *dim)?;
    }
    Ok(())
}

fn print_dim_x(out: &mut Writer, dim: DimText) -> Result<(), AllocError>
    ensures { IfOk result (λ _. out.new ≡ out.old ++ spelt (dim_x dim)) }
{
    match dim {
        DimText::Fixed(size) => {
            out.push_digits(size)?;
            out.push_bytes(b"x")?;
        }
        DimText::Dynamic => out.push_bytes(b"?x")?,
        DimText::Scalable(size) => {
            out.push_bytes(b"[")?;
            out.push_digits(size)?;
            out.push_bytes(b"]x")?;
        }
    }
    Ok(())
}
