//! Rows of the generic form.

ghost use Rattle.std.specs.Prelude.{◌≡◌, Some, None, IfErr, IfOk, OnOk};
ghost use Rattle.av_values.specs.Forms.{generic_of};
ghost use Rattle.av_blocks.specs.rows.GenericRows.{by_row};

use super::files::no_arguments;
use av_affine::{Seq, Text};
use av_tree::table::GenericRule;
use av_tree::{Body, BodyArg, Node};
use av_values::nodes::written_types;
use av_values::puts::{no_entries, same_entries};
use av_values::spellings::unquoted;
use av_values::stack::{Fault, Stack, before, in_order};
use av_values::value::GenericParts;
use std::alloc::Global;

/// What a row of the generic form makes of the values of its symbols. A node of it stands at `place`.
pub fn reduce_generic(stack: &mut Stack, rule: GenericRule, place: u32) -> Result<(), Fault>
    ensures ok { OnOk result (by_row rule place stack.old ≡ Some stack.new) }
    ensures misshapen { IfErr result (λ fault. fault ≡ Fault.Misshapen → by_row rule place stack.old ≡ None) }
{
    match rule {
        GenericRule::GenericForm => generic_form(stack, place),
        GenericRule::WholeGeneric => whole_generic(stack),
        GenericRule::NoProperties => no_entries(stack),
        GenericRule::WrittenProperties => same_entries(stack),
        GenericRule::NoRegions => no_bodies(stack),
        GenericRule::NoMoreRegions => no_bodies(stack),
        GenericRule::WrittenRegions => body_before(stack),
        GenericRule::NextRegion => body_before(stack),
        GenericRule::LabelledRegion => labelled_region(stack),
        GenericRule::NoLabel => no_arguments(stack),
        GenericRule::BlockLabel => block_label(stack),
        GenericRule::NoArguments => no_arguments(stack),
        GenericRule::NoMoreArguments => no_arguments(stack),
        GenericRule::FirstArgument => argument_before(stack),
        GenericRule::NextArgument => argument_before(stack),
    }
}

/// An operation of this name and all its parts.
pub(super) fn generic_node(
    alloc: Global,
    name: Text,
    parts: GenericParts,
    place: u32,
) -> Result<Node, Fault>
    ensures ok { IfOk result (λ node. node ≡ generic_of name parts place) }
    ensures err { IfErr result (λ fault. fault ≡ Fault.NoMemory) }
{
    let in_types = written_types(alloc, parts.in_types.as_slice())?;
    let out_types = written_types(alloc, parts.out_types.as_slice())?;
    Ok(Node {
        name,
        place,
        results: Seq::new(alloc),
        operands: parts.operands,
        properties: parts.properties,
        attrs: parts.attrs,
        regions: parts.regions,
        in_types,
        out_types,
    })
}

/// An operation of the generic form.
#[tactic(auto, using(av_values::proofs::Replacing::replacing))]
pub(super) fn generic_form(stack: &mut Stack, place: u32) -> Result<(), Fault>
    ensures ok { OnOk result (by_row GenericRule.GenericForm place stack.old ≡ Some stack.new) }
    ensures misshapen { IfErr result (λ fault. fault ≡ Fault.Misshapen → by_row GenericRule.GenericForm place stack.old ≡ None) }
{
    let alloc = stack.alloc();
    let string = stack.text()?;
    let parts = stack.generic()?;
    let name = unquoted(alloc, &string)?;
    let node = generic_node(alloc, name, parts, place)?;
    stack.push_node(node)?;
    Ok(())
}

#[tactic(auto, using(av_values::proofs::Replacing::replacing))]
fn whole_generic(stack: &mut Stack) -> Result<(), Fault>
    ensures ok { OnOk result (by_row GenericRule.WholeGeneric 0 stack.old ≡ Some stack.new) }
    ensures misshapen { IfErr result (λ fault. fault ≡ Fault.Misshapen → by_row GenericRule.WholeGeneric 0 stack.old ≡ None) }
{
    let operands = stack.texts()?;
    let properties = stack.entries()?;
    let regions = stack.bodies()?;
    let attrs = stack.entries()?;
    let ins = stack.types()?;
    let outs = stack.types()?;
    let parts = GenericParts {
        operands: in_order(operands),
        properties: in_order(properties),
        regions: in_order(regions),
        attrs: in_order(attrs),
        in_types: in_order(ins),
        out_types: in_order(outs),
    };
    stack.push_generic(parts)?;
    Ok(())
}

#[tactic(auto, using(av_values::proofs::Replacing::replacing))]
fn no_bodies(stack: &mut Stack) -> Result<(), Fault>
    ensures ok { OnOk result (by_row GenericRule.NoRegions 0 stack.old ≡ Some stack.new) }
    ensures misshapen { IfErr result (λ fault. fault ≡ Fault.Misshapen → by_row GenericRule.NoRegions 0 stack.old ≡ None) }
{
    stack.push_bodies(Seq::new(stack.alloc()))?;
    Ok(())
}

#[tactic(auto, using(av_values::proofs::Replacing::replacing))]
fn body_before(stack: &mut Stack) -> Result<(), Fault>
    ensures ok { OnOk result (by_row GenericRule.WrittenRegions 0 stack.old ≡ Some stack.new) }
    ensures misshapen { IfErr result (λ fault. fault ≡ Fault.Misshapen → by_row GenericRule.WrittenRegions 0 stack.old ≡ None) }
{
    let body = stack.body()?;
    let others = stack.bodies()?;
    let bodies = before(body, others)?;
    stack.push_bodies(bodies)?;
    Ok(())
}

#[tactic(auto, using(av_values::proofs::Replacing::replacing))]
fn labelled_region(stack: &mut Stack) -> Result<(), Fault>
    ensures ok { OnOk result (by_row GenericRule.LabelledRegion 0 stack.old ≡ Some stack.new) }
    ensures misshapen { IfErr result (λ fault. fault ≡ Fault.Misshapen → by_row GenericRule.LabelledRegion 0 stack.old ≡ None) }
{
    let args = stack.args()?;
    let nodes = stack.nodes()?;
    let body = Body {
        args: in_order(args),
        nodes: in_order(nodes),
    };
    stack.push_body(body)?;
    Ok(())
}

#[tactic(auto, using(av_values::proofs::Replacing::replacing))]
fn block_label(stack: &mut Stack) -> Result<(), Fault>
    ensures ok { OnOk result (by_row GenericRule.BlockLabel 0 stack.old ≡ Some stack.new) }
    ensures misshapen { IfErr result (λ fault. fault ≡ Fault.Misshapen → by_row GenericRule.BlockLabel 0 stack.old ≡ None) }
{
    let _label = stack.text()?;
    let args = stack.args()?;
    stack.push_args(args)?;
    Ok(())
}

#[tactic(auto, using(av_values::proofs::Replacing::replacing))]
fn argument_before(stack: &mut Stack) -> Result<(), Fault>
    ensures ok { OnOk result (by_row GenericRule.FirstArgument 0 stack.old ≡ Some stack.new) }
    ensures misshapen { IfErr result (λ fault. fault ≡ Fault.Misshapen → by_row GenericRule.FirstArgument 0 stack.old ≡ None) }
{
    let name = stack.text()?;
    let ty = stack.ty()?;
    let others = stack.args()?;
    let args = before(BodyArg { name, ty }, others)?;
    stack.push_args(args)?;
    Ok(())
}
