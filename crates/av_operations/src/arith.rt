//! Rows of constants, of the types of a choice and of flags of overflow.

ghost use Rattle.std.specs.Prelude.{◌≡◌, codes, Some, None, IfErr, IfOk, OnOk};
ghost use Rattle.av_values.specs.Nodes.{entry};
ghost use Rattle.av_values.specs.Forms.{dense_constant_of, number_constant_of, selected_of as the_selected_of};
ghost use Rattle.av_operations.specs.rows.ArithRows.{by_row as by_arith_row};

use av_affine::{Duplicate, Seq, Text};
use av_tree::table::ArithRule;
use av_tree::{Attr, Named, TypeText};
use av_values::nodes::property;
use av_values::puts::{no_entries, no_texts, text_before};
use av_values::spellings::is_true;
use av_values::stack::{Fault, Stack, before, in_order, text_of};
use av_values::value::{Constant, Dense, Selected};
use std::alloc::Global;

/// Does what a row of these does to the values of its symbols.
pub fn reduce_arith(stack: &mut Stack, rule: ArithRule, place: u32) -> Result<(), Fault>
    ensures ok { OnOk result (by_arith_row rule place stack.old ≡ Some stack.new) }
    ensures misshapen { IfErr result (λ fault. fault ≡ Fault.Misshapen → by_arith_row rule place stack.old ≡ None) }
{
    match rule {
        ArithRule::NumberConstant => number_constant(stack),
        ArithRule::NoOverflow => no_entries(stack),
        ArithRule::WrittenOverflow => overflow_flags(stack),
        ArithRule::NoMoreOverflowFlags => no_texts(stack),
        ArithRule::NextOverflowFlag => text_before(stack),
        ArithRule::BoolConstant => bool_constant(stack),
        ArithRule::DenseConstant => dense_constant(stack),
        ArithRule::ScalarSelected => scalar_selected(stack),
        ArithRule::BufferSelected => buffer_selected(stack),
        ArithRule::VectorThenSelected => vector_then_selected(stack),
        ArithRule::OnlySelected => no_type(stack),
        ArithRule::SelectedByVector => selected_by_vector(stack),
    }
}

#[tactic(auto, using(av_values::proofs::Replacing::replacing))]
fn overflow_flags(stack: &mut Stack) -> Result<(), Fault>
    ensures ok { OnOk result (by_arith_row ArithRule.WrittenOverflow 0 stack.old ≡ Some stack.new) }
    ensures misshapen { IfErr result (λ fault. fault ≡ Fault.Misshapen → by_arith_row ArithRule.WrittenOverflow 0 stack.old ≡ None) }
{
    let alloc = stack.alloc();
    let first = stack.text()?;
    let others = stack.texts()?;
    let words = before(first, others)?;
    let entry = overflow_entry(alloc, in_order(words))?;
    let entries = before(entry, Seq::new(alloc))?;
    stack.push_entries(entries)?;
    Ok(())
}

fn overflow_entry(alloc: Global, words: Seq<Text>) -> Result<Named, Fault>
    ensures ok { IfOk result (λ one. one ≡ entry (codes "overflowFlags") (Attr.Hash (codes "#arith.overflow") words)) }
    ensures err { IfErr result (λ fault. fault ≡ Fault.NoMemory) }
{
    let name = text_of(alloc, b"#arith.overflow")?;
    property(alloc, b"overflowFlags", Attr::Hash { name, words })
}

// A number with its type, which is also the result's.
fn constant_of_number(alloc: Global, value: i128, ty: TypeText) -> Result<Constant, Fault>
    ensures ok { IfOk result (λ constant. constant ≡ number_constant_of value ty) }
    ensures err { IfErr result (λ fault. fault ≡ Fault.NoMemory) }
{
    let result = ty.duplicate(alloc)?;
    Ok(Constant {
        value: Attr::Number { value, ty },
        ty: Some(result),
    })
}

// What stands in `dense<..>`, with its type, which is also the result's.
fn constant_of_dense(alloc: Global, dense: Dense) -> Result<Constant, Fault>
    ensures ok { IfOk result (λ constant. constant ≡ dense_constant_of dense) }
    ensures err { IfErr result (λ fault. fault ≡ Fault.NoMemory) }
{
    let Dense { elements, ty } = dense;
    let result = ty.duplicate(alloc)?;
    Ok(Constant {
        value: Attr::Dense { elements, ty },
        ty: Some(result),
    })
}

// The types of a choice after a vector type: its condition's and its operands', or the latter alone.
fn selected_of(first: TypeText, next: Option<TypeText>) -> Selected
    ensures { result ≡ the_selected_of first next }
{
    match next {
        Some(operands) => Selected {
            condition: Some(first),
            operands,
        },
        None => Selected {
            condition: None,
            operands: first,
        },
    }
}

#[tactic(auto, using(av_values::proofs::Replacing::replacing))]
fn bool_constant(stack: &mut Stack) -> Result<(), Fault>
    ensures ok { OnOk result (by_arith_row ArithRule.BoolConstant 0 stack.old ≡ Some stack.new) }
    ensures misshapen { IfErr result (λ fault. fault ≡ Fault.Misshapen → by_arith_row ArithRule.BoolConstant 0 stack.old ≡ None) }
{
    let word = stack.text()?;
    let value = Attr::Bool(is_true(&word));
    stack.push_constant(Constant { value, ty: None })?;
    Ok(())
}

#[tactic(auto, using(av_values::proofs::Replacing::replacing))]
fn dense_constant(stack: &mut Stack) -> Result<(), Fault>
    ensures ok { OnOk result (by_arith_row ArithRule.DenseConstant 0 stack.old ≡ Some stack.new) }
    ensures misshapen { IfErr result (λ fault. fault ≡ Fault.Misshapen → by_arith_row ArithRule.DenseConstant 0 stack.old ≡ None) }
{
    let alloc = stack.alloc();
    let dense = stack.dense()?;
    let constant = constant_of_dense(alloc, dense)?;
    stack.push_constant(constant)?;
    Ok(())
}

#[tactic(auto, using(av_values::proofs::Replacing::replacing))]
fn scalar_selected(stack: &mut Stack) -> Result<(), Fault>
    ensures ok { OnOk result (by_arith_row ArithRule.ScalarSelected 0 stack.old ≡ Some stack.new) }
    ensures misshapen { IfErr result (λ fault. fault ≡ Fault.Misshapen → by_arith_row ArithRule.ScalarSelected 0 stack.old ≡ None) }
{
    let name = stack.text()?;
    let selected = Selected {
        condition: None,
        operands: TypeText::Scalar(name),
    };
    stack.push_selected(selected)?;
    Ok(())
}

#[tactic(auto, using(av_values::proofs::Replacing::replacing))]
fn buffer_selected(stack: &mut Stack) -> Result<(), Fault>
    ensures ok { OnOk result (by_arith_row ArithRule.BufferSelected 0 stack.old ≡ Some stack.new) }
    ensures misshapen { IfErr result (λ fault. fault ≡ Fault.Misshapen → by_arith_row ArithRule.BufferSelected 0 stack.old ≡ None) }
{
    let operands = stack.ty()?;
    let selected = Selected {
        condition: None,
        operands,
    };
    stack.push_selected(selected)?;
    Ok(())
}

#[tactic(auto, using(av_values::proofs::Replacing::replacing))]
fn vector_then_selected(stack: &mut Stack) -> Result<(), Fault>
    ensures ok { OnOk result (by_arith_row ArithRule.VectorThenSelected 0 stack.old ≡ Some stack.new) }
    ensures misshapen { IfErr result (λ fault. fault ≡ Fault.Misshapen → by_arith_row ArithRule.VectorThenSelected 0 stack.old ≡ None) }
{
    let first = stack.ty()?;
    let next = stack.optional_type()?;
    let selected = selected_of(first, next);
    stack.push_selected(selected)?;
    Ok(())
}

#[tactic(auto, using(av_values::proofs::Replacing::replacing))]
fn no_type(stack: &mut Stack) -> Result<(), Fault>
    ensures ok { OnOk result (by_arith_row ArithRule.OnlySelected 0 stack.old ≡ Some stack.new) }
    ensures misshapen { IfErr result (λ fault. fault ≡ Fault.Misshapen → by_arith_row ArithRule.OnlySelected 0 stack.old ≡ None) }
{
    stack.push_optional_type(None)?;
    Ok(())
}

#[tactic(auto, using(av_values::proofs::Replacing::replacing))]
fn selected_by_vector(stack: &mut Stack) -> Result<(), Fault>
    ensures ok { OnOk result (by_arith_row ArithRule.SelectedByVector 0 stack.old ≡ Some stack.new) }
    ensures misshapen { IfErr result (λ fault. fault ≡ Fault.Misshapen → by_arith_row ArithRule.SelectedByVector 0 stack.old ≡ None) }
{
    let ty = stack.ty()?;
    stack.push_optional_type(Some(ty))?;
    Ok(())
}

#[tactic(auto, using(av_values::proofs::Replacing::replacing))]
fn number_constant(stack: &mut Stack) -> Result<(), Fault>
    ensures ok { OnOk result (by_arith_row ArithRule.NumberConstant 0 stack.old ≡ Some stack.new) }
    ensures misshapen { IfErr result (λ fault. fault ≡ Fault.Misshapen → by_arith_row ArithRule.NumberConstant 0 stack.old ≡ None) }
{
    let alloc = stack.alloc();
    let value = stack.number()?;
    let ty = stack.ty()?;
    let constant = constant_of_number(alloc, value, ty)?;
    stack.push_constant(constant)?;
    Ok(())
}
