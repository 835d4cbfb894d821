//! Rows of types.

ghost use Rattle.std.specs.Prelude.{◌≡◌, Some, None, IfErr, OnOk};
ghost use Rattle.av_parts.specs.rows.TypeRows.{by_row};

use av_affine::Seq;
use av_tree::table::TypeRule;
use av_tree::{LayoutText, SizeText, TypeText};
use av_values::numbers::decimal;
use av_values::puts::no_types;
use av_values::spellings::{dim_of, scalable_of, size_of};
use av_values::stack::{Fault, Stack, before, in_order};

/// Does what a row of types does to the values of its symbols.
pub fn reduce_type(stack: &mut Stack, rule: TypeRule) -> Result<(), Fault>
    ensures ok { OnOk result (by_row rule stack.old ≡ Some stack.new) }
    ensures misshapen { IfErr result (λ fault. fault ≡ Fault.Misshapen → by_row rule stack.old ≡ None) }
{
    match rule {
        TypeRule::ScalarType => scalar_type(stack),
        TypeRule::BufferType => same_type(stack),
        TypeRule::ResultTypeList => same_types(stack),
        TypeRule::WrittenResultTypes => same_types(stack),
        TypeRule::MemRefType => memref_type(stack),
        TypeRule::NoLayout => no_layout(stack),
        TypeRule::NoMoreSizes => no_sizes(stack),
        TypeRule::NextSize => next_size(stack),
        TypeRule::NoTypes => no_types(stack),
        TypeRule::NoMoreTypes => no_types(stack),
        TypeRule::NoResultTypes => no_types(stack),
        TypeRule::FirstType => type_before(stack),
        TypeRule::NextType => type_before(stack),
        TypeRule::OneResultType => one_type(stack),
        TypeRule::TileType => same_type(stack),
        TypeRule::VectorType => vector_type(stack),
        TypeRule::NoMoreDims => no_dims(stack),
        TypeRule::FixedDim => fixed_dim(stack),
        TypeRule::ScalableDim => scalable_dim(stack),
        TypeRule::StridedLayout => strided_layout(stack),
        TypeRule::NoStrides => no_sizes(stack),
        TypeRule::NoMoreStrides => no_sizes(stack),
        TypeRule::FirstStride => stride_before(stack),
        TypeRule::NextStride => stride_before(stack),
        TypeRule::StaticStride => static_stride(stack),
        TypeRule::DynamicStride => dynamic_stride(stack),
        TypeRule::NoOffset => no_offset(stack),
        TypeRule::WrittenOffset => same_size(stack),
    }
}

#[tactic(auto, using(av_values::proofs::Replacing::replacing))]
fn scalar_type(stack: &mut Stack) -> Result<(), Fault>
    ensures ok { OnOk result (by_row TypeRule.ScalarType stack.old ≡ Some stack.new) }
    ensures misshapen { IfErr result (λ fault. fault ≡ Fault.Misshapen → by_row TypeRule.ScalarType stack.old ≡ None) }
{
    let name = stack.text()?;
    stack.push_ty(TypeText::Scalar(name))?;
    Ok(())
}

/// A type as it is.
#[tactic(auto, using(av_values::proofs::Replacing::replacing))]
pub(super) fn same_type(stack: &mut Stack) -> Result<(), Fault>
    ensures ok { OnOk result (by_row TypeRule.BufferType stack.old ≡ Some stack.new) }
    ensures misshapen { IfErr result (λ fault. fault ≡ Fault.Misshapen → by_row TypeRule.BufferType stack.old ≡ None) }
{
    let ty = stack.ty()?;
    stack.push_ty(ty)?;
    Ok(())
}

#[tactic(auto, using(av_values::proofs::Replacing::replacing))]
fn same_types(stack: &mut Stack) -> Result<(), Fault>
    ensures ok { OnOk result (by_row TypeRule.ResultTypeList stack.old ≡ Some stack.new) }
    ensures misshapen { IfErr result (λ fault. fault ≡ Fault.Misshapen → by_row TypeRule.ResultTypeList stack.old ≡ None) }
{
    let types = stack.types()?;
    stack.push_types(types)?;
    Ok(())
}

#[tactic(auto, using(av_values::proofs::Replacing::replacing))]
fn memref_type(stack: &mut Stack) -> Result<(), Fault>
    ensures ok { OnOk result (by_row TypeRule.MemRefType stack.old ≡ Some stack.new) }
    ensures misshapen { IfErr result (λ fault. fault ≡ Fault.Misshapen → by_row TypeRule.MemRefType stack.old ≡ None) }
{
    let sizes = stack.sizes()?;
    let elem = stack.text()?;
    let layout = stack.layout()?;
    let sizes = in_order(sizes);
    stack.push_ty(TypeText::MemRef {
        sizes,
        elem,
        layout,
    })?;
    Ok(())
}

#[tactic(auto, using(av_values::proofs::Replacing::replacing))]
fn next_size(stack: &mut Stack) -> Result<(), Fault>
    ensures ok { OnOk result (by_row TypeRule.NextSize stack.old ≡ Some stack.new) }
    ensures misshapen { IfErr result (λ fault. fault ≡ Fault.Misshapen → by_row TypeRule.NextSize stack.old ≡ None) }
{
    let token = stack.text()?;
    let others = stack.sizes()?;
    let sizes = before(size_of(&token), others)?;
    stack.push_sizes(sizes)?;
    Ok(())
}

#[tactic(auto, using(av_values::proofs::Replacing::replacing))]
fn no_layout(stack: &mut Stack) -> Result<(), Fault>
    ensures ok { OnOk result (by_row TypeRule.NoLayout stack.old ≡ Some stack.new) }
    ensures misshapen { IfErr result (λ fault. fault ≡ Fault.Misshapen → by_row TypeRule.NoLayout stack.old ≡ None) }
{
    stack.push_layout(None)?;
    Ok(())
}

#[tactic(auto, using(av_values::proofs::Replacing::replacing))]
fn no_sizes(stack: &mut Stack) -> Result<(), Fault>
    ensures ok { OnOk result (by_row TypeRule.NoMoreSizes stack.old ≡ Some stack.new) }
    ensures misshapen { IfErr result (λ fault. fault ≡ Fault.Misshapen → by_row TypeRule.NoMoreSizes stack.old ≡ None) }
{
    stack.push_sizes(Seq::new(stack.alloc()))?;
    Ok(())
}

#[tactic(auto, using(av_values::proofs::Replacing::replacing))]
fn type_before(stack: &mut Stack) -> Result<(), Fault>
    ensures ok { OnOk result (by_row TypeRule.NextType stack.old ≡ Some stack.new) }
    ensures misshapen { IfErr result (λ fault. fault ≡ Fault.Misshapen → by_row TypeRule.NextType stack.old ≡ None) }
{
    let ty = stack.ty()?;
    let others = stack.types()?;
    let types = before(ty, others)?;
    stack.push_types(types)?;
    Ok(())
}

#[tactic(auto, using(av_values::proofs::Replacing::replacing))]
fn one_type(stack: &mut Stack) -> Result<(), Fault>
    ensures ok { OnOk result (by_row TypeRule.OneResultType stack.old ≡ Some stack.new) }
    ensures misshapen { IfErr result (λ fault. fault ≡ Fault.Misshapen → by_row TypeRule.OneResultType stack.old ≡ None) }
{
    let ty = stack.ty()?;
    let types = before(ty, Seq::new(stack.alloc()))?;
    stack.push_types(types)?;
    Ok(())
}

#[tactic(auto, using(av_values::proofs::Replacing::replacing))]
fn vector_type(stack: &mut Stack) -> Result<(), Fault>
    ensures ok { OnOk result (by_row TypeRule.VectorType stack.old ≡ Some stack.new) }
    ensures misshapen { IfErr result (λ fault. fault ≡ Fault.Misshapen → by_row TypeRule.VectorType stack.old ≡ None) }
{
    let dims = stack.dims()?;
    let elem = stack.text()?;
    let ty = TypeText::Vector {
        dims: in_order(dims),
        elem,
    };
    stack.push_ty(ty)?;
    Ok(())
}

#[tactic(auto, using(av_values::proofs::Replacing::replacing))]
fn no_dims(stack: &mut Stack) -> Result<(), Fault>
    ensures ok { OnOk result (by_row TypeRule.NoMoreDims stack.old ≡ Some stack.new) }
    ensures misshapen { IfErr result (λ fault. fault ≡ Fault.Misshapen → by_row TypeRule.NoMoreDims stack.old ≡ None) }
{
    stack.push_dims(Seq::new(stack.alloc()))?;
    Ok(())
}

#[tactic(auto, using(av_values::proofs::Replacing::replacing))]
fn fixed_dim(stack: &mut Stack) -> Result<(), Fault>
    ensures ok { OnOk result (by_row TypeRule.FixedDim stack.old ≡ Some stack.new) }
    ensures misshapen { IfErr result (λ fault. fault ≡ Fault.Misshapen → by_row TypeRule.FixedDim stack.old ≡ None) }
{
    let token = stack.text()?;
    let others = stack.dims()?;
    let dims = before(dim_of(&token), others)?;
    stack.push_dims(dims)?;
    Ok(())
}

#[tactic(auto, using(av_values::proofs::Replacing::replacing))]
fn scalable_dim(stack: &mut Stack) -> Result<(), Fault>
    ensures ok { OnOk result (by_row TypeRule.ScalableDim stack.old ≡ Some stack.new) }
    ensures misshapen { IfErr result (λ fault. fault ≡ Fault.Misshapen → by_row TypeRule.ScalableDim stack.old ≡ None) }
{
    let token = stack.text()?;
    let others = stack.dims()?;
    let dims = before(scalable_of(&token), others)?;
    stack.push_dims(dims)?;
    Ok(())
}

#[tactic(auto, using(av_values::proofs::Replacing::replacing))]
fn strided_layout(stack: &mut Stack) -> Result<(), Fault>
    ensures ok { OnOk result (by_row TypeRule.StridedLayout stack.old ≡ Some stack.new) }
    ensures misshapen { IfErr result (λ fault. fault ≡ Fault.Misshapen → by_row TypeRule.StridedLayout stack.old ≡ None) }
{
    let sizes = stack.sizes()?;
    let offset = stack.size()?;
    let strides = in_order(sizes);
    stack.push_layout(Some(LayoutText { strides, offset }))?;
    Ok(())
}

#[tactic(auto, using(av_values::proofs::Replacing::replacing))]
fn stride_before(stack: &mut Stack) -> Result<(), Fault>
    ensures ok { OnOk result (by_row TypeRule.FirstStride stack.old ≡ Some stack.new) }
    ensures misshapen { IfErr result (λ fault. fault ≡ Fault.Misshapen → by_row TypeRule.FirstStride stack.old ≡ None) }
{
    let stride = stack.size()?;
    let others = stack.sizes()?;
    let sizes = before(stride, others)?;
    stack.push_sizes(sizes)?;
    Ok(())
}

#[tactic(auto, using(av_values::proofs::Replacing::replacing))]
fn static_stride(stack: &mut Stack) -> Result<(), Fault>
    ensures ok { OnOk result (by_row TypeRule.StaticStride stack.old ≡ Some stack.new) }
    ensures misshapen { IfErr result (λ fault. fault ≡ Fault.Misshapen → by_row TypeRule.StaticStride stack.old ≡ None) }
{
    let digits = stack.text()?;
    let number = decimal(digits.as_slice());
    stack.push_size(SizeText::Fixed(number))?;
    Ok(())
}

#[tactic(auto, using(av_values::proofs::Replacing::replacing))]
fn dynamic_stride(stack: &mut Stack) -> Result<(), Fault>
    ensures ok { OnOk result (by_row TypeRule.DynamicStride stack.old ≡ Some stack.new) }
    ensures misshapen { IfErr result (λ fault. fault ≡ Fault.Misshapen → by_row TypeRule.DynamicStride stack.old ≡ None) }
{
    stack.push_size(SizeText::Dynamic)?;
    Ok(())
}

#[tactic(auto, using(av_values::proofs::Replacing::replacing))]
fn no_offset(stack: &mut Stack) -> Result<(), Fault>
    ensures ok { OnOk result (by_row TypeRule.NoOffset stack.old ≡ Some stack.new) }
    ensures misshapen { IfErr result (λ fault. fault ≡ Fault.Misshapen → by_row TypeRule.NoOffset stack.old ≡ None) }
{
    stack.push_size(SizeText::Fixed(0))?;
    Ok(())
}

#[tactic(auto, using(av_values::proofs::Replacing::replacing))]
fn same_size(stack: &mut Stack) -> Result<(), Fault>
    ensures ok { OnOk result (by_row TypeRule.WrittenOffset stack.old ≡ Some stack.new) }
    ensures misshapen { IfErr result (λ fault. fault ≡ Fault.Misshapen → by_row TypeRule.WrittenOffset stack.old ≡ None) }
{
    let size = stack.size()?;
    stack.push_size(size)?;
    Ok(())
}
