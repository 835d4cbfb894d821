//! Rows of maps with their operands, and of the parts of loops.

ghost use Rattle.std.specs.Prelude.{◌≡◌, ◌++◌, Some, None, IfErr, IfOk, OnOk};
ghost use Rattle.av_values.specs.Loops.{bound_of_number, bound_of_value};
ghost use Rattle.av_operations.specs.rows.AffineRows.{by_row};

use av_affine::{Seq, Text};
use av_tree::table::AffineRule;
use av_tree::{Attr, ExprText, MapText};
use av_values::numbers::integer_of;
use av_values::puts::{no_nodes, no_texts, same_nodes, same_texts};
use av_values::stack::{Fault, Stack, before, in_order, text_of};
use av_values::value::{Carried, CarriedPair, MapUse};
use std::alloc::Global;

/// Does what a row of maps or of the parts of loops does to the values of its symbols.
pub fn reduce_affine(stack: &mut Stack, rule: AffineRule, place: u32) -> Result<(), Fault>
    ensures ok { OnOk result (by_row rule place stack.old ≡ Some stack.new) }
    ensures misshapen { IfErr result (λ fault. fault ≡ Fault.Misshapen → by_row rule place stack.old ≡ None) }
{
    match rule {
        AffineRule::GreatestOf => same_map_use(stack),
        AffineRule::PlainLowerBound => same_map_use(stack),
        AffineRule::LeastOf => same_map_use(stack),
        AffineRule::PlainUpperBound => same_map_use(stack),
        AffineRule::MapBound => same_map_use(stack),
        AffineRule::NumberBound => number_bound(stack),
        AffineRule::ValueBound => value_bound(stack),
        AffineRule::NoStep => no_step(stack),
        AffineRule::WrittenStep => written_step(stack),
        AffineRule::NoIterArgs => none_carried(stack),
        AffineRule::NoCarried => none_carried(stack),
        AffineRule::NoMoreCarried => none_carried(stack),
        AffineRule::WrittenIterArgs => same_carried(stack),
        AffineRule::FirstCarried => carried(stack),
        AffineRule::NextCarried => carried(stack),
        AffineRule::MapWritten => map_written(stack),
        AffineRule::DimensionOperands => dimension_operands(stack),
        AffineRule::NoSymbolOperands => no_texts(stack),
        AffineRule::WrittenSymbolOperands => same_texts(stack),
        AffineRule::MapByAlias => map_by_alias(stack),
        AffineRule::SetWritten => map_written(stack),
        AffineRule::SetByAlias => map_by_alias(stack),
        AffineRule::NoElse => no_nodes(stack),
        AffineRule::WrittenElse => same_nodes(stack),
    }
}

#[tactic(auto, using(av_values::proofs::Replacing::replacing))]
fn same_map_use(stack: &mut Stack) -> Result<(), Fault>
    ensures ok { OnOk result (by_row AffineRule.MapBound 0 stack.old ≡ Some stack.new) }
    ensures misshapen { IfErr result (λ fault. fault ≡ Fault.Misshapen → by_row AffineRule.MapBound 0 stack.old ≡ None) }
{
    let map_use = stack.map_use()?;
    stack.push_map_use(map_use)?;
    Ok(())
}

#[tactic(auto, using(av_values::proofs::Replacing::replacing))]
fn no_step(stack: &mut Stack) -> Result<(), Fault>
    ensures ok { OnOk result (by_row AffineRule.NoStep 0 stack.old ≡ Some stack.new) }
    ensures misshapen { IfErr result (λ fault. fault ≡ Fault.Misshapen → by_row AffineRule.NoStep 0 stack.old ≡ None) }
{
    stack.push_number(1)?;
    Ok(())
}

#[tactic(auto, using(av_values::proofs::Replacing::replacing))]
fn written_step(stack: &mut Stack) -> Result<(), Fault>
    ensures ok { OnOk result (by_row AffineRule.WrittenStep 0 stack.old ≡ Some stack.new) }
    ensures misshapen { IfErr result (λ fault. fault ≡ Fault.Misshapen → by_row AffineRule.WrittenStep 0 stack.old ≡ None) }
{
    let digits = stack.text()?;
    let step = integer_of(&digits, false);
    stack.push_number(step)?;
    Ok(())
}

#[tactic(auto, using(av_values::proofs::Replacing::replacing))]
fn none_carried(stack: &mut Stack) -> Result<(), Fault>
    ensures ok { OnOk result (by_row AffineRule.NoIterArgs 0 stack.old ≡ Some stack.new) }
    ensures misshapen { IfErr result (λ fault. fault ≡ Fault.Misshapen → by_row AffineRule.NoIterArgs 0 stack.old ≡ None) }
{
    let alloc = stack.alloc();
    stack.push_carried(Carried {
        pairs: Seq::new(alloc),
        types: Seq::new(alloc),
    })?;
    Ok(())
}

#[tactic(auto, using(av_values::proofs::Replacing::replacing))]
fn same_carried(stack: &mut Stack) -> Result<(), Fault>
    ensures ok { OnOk result (by_row AffineRule.WrittenIterArgs 0 stack.old ≡ Some stack.new) }
    ensures misshapen { IfErr result (λ fault. fault ≡ Fault.Misshapen → by_row AffineRule.WrittenIterArgs 0 stack.old ≡ None) }
{
    let carried = stack.carried()?;
    stack.push_carried(carried)?;
    Ok(())
}

#[tactic(auto, using(av_values::proofs::Replacing::replacing))]
fn map_written(stack: &mut Stack) -> Result<(), Fault>
    ensures ok { OnOk result (by_row AffineRule.MapWritten 0 stack.old ≡ Some stack.new) }
    ensures misshapen { IfErr result (λ fault. fault ≡ Fault.Misshapen → by_row AffineRule.MapWritten 0 stack.old ≡ None) }
{
    let map = stack.attr()?;
    let operands = stack.texts()?;
    let operands = in_order(operands);
    stack.push_map_use(MapUse { map, operands })?;
    Ok(())
}

// The operands of dimensions before those of symbols, both from the last to the first.
#[tactic(auto, using(av_values::proofs::Replacing::replacing))]
fn dimension_operands(stack: &mut Stack) -> Result<(), Fault>
    ensures ok { OnOk result (by_row AffineRule.DimensionOperands 0 stack.old ≡ Some stack.new) }
    ensures misshapen { IfErr result (λ fault. fault ≡ Fault.Misshapen → by_row AffineRule.DimensionOperands 0 stack.old ≡ None) }
{
    let dims = stack.texts()?;
    let syms = stack.texts()?;
    let operands = both(dims, syms)?;
    stack.push_texts(operands)?;
    Ok(())
}

fn both(dims: Seq<Text>, mut syms: Seq<Text>) -> Result<Seq<Text>, Fault>
    ensures ok { IfOk result (λ operands. operands ≡ syms ++ dims) }
    ensures err { IfErr result (λ fault. fault ≡ Fault.NoMemory) }
{
    syms.append(dims)?;
    Ok(syms)
}

#[tactic(auto, using(av_values::proofs::Replacing::replacing))]
fn number_bound(stack: &mut Stack) -> Result<(), Fault>
    ensures ok { OnOk result (by_row AffineRule.NumberBound 0 stack.old ≡ Some stack.new) }
    ensures misshapen { IfErr result (λ fault. fault ≡ Fault.Misshapen → by_row AffineRule.NumberBound 0 stack.old ≡ None) }
{
    let alloc = stack.alloc();
    let number = stack.number()?;
    let bound = constant_map(alloc, number)?;
    stack.push_map_use(bound)?;
    Ok(())
}

// `() -> (number)`
fn constant_map(alloc: Global, number: i128) -> Result<MapUse, Fault>
    ensures ok { IfOk result (λ bound. bound ≡ bound_of_number number) }
    ensures err { IfErr result (λ fault. fault ≡ Fault.NoMemory) }
{
    let mut results = Seq::new(alloc);
    results.push(ExprText::Const(number))?;
    let map = MapText {
        dims: Seq::new(alloc),
        syms: Seq::new(alloc),
        results,
    };
    Ok(MapUse {
        map: Attr::Map(map),
        operands: Seq::new(alloc),
    })
}

#[tactic(auto, using(av_values::proofs::Replacing::replacing))]
fn value_bound(stack: &mut Stack) -> Result<(), Fault>
    ensures ok { OnOk result (by_row AffineRule.ValueBound 0 stack.old ≡ Some stack.new) }
    ensures misshapen { IfErr result (λ fault. fault ≡ Fault.Misshapen → by_row AffineRule.ValueBound 0 stack.old ≡ None) }
{
    let alloc = stack.alloc();
    let value = stack.text()?;
    let bound = symbol_map(alloc, value)?;
    stack.push_map_use(bound)?;
    Ok(())
}

// `()[s0] -> (s0)` of the value
fn symbol_map(alloc: Global, value: Text) -> Result<MapUse, Fault>
    ensures ok { IfOk result (λ bound. bound ≡ bound_of_value value) }
    ensures err { IfErr result (λ fault. fault ≡ Fault.NoMemory) }
{
    let mut syms = Seq::new(alloc);
    syms.push(text_of(alloc, b"s0")?)?;
    let mut results = Seq::new(alloc);
    results.push(ExprText::Name(text_of(alloc, b"s0")?))?;
    let map = MapText {
        dims: Seq::new(alloc),
        syms,
        results,
    };
    let mut operands = Seq::new(alloc);
    operands.push(value)?;
    Ok(MapUse {
        map: Attr::Map(map),
        operands,
    })
}

#[tactic(auto, using(av_values::proofs::Replacing::replacing))]
fn carried(stack: &mut Stack) -> Result<(), Fault>
    ensures ok { OnOk result (by_row AffineRule.NextCarried 0 stack.old ≡ Some stack.new) }
    ensures misshapen { IfErr result (λ fault. fault ≡ Fault.Misshapen → by_row AffineRule.NextCarried 0 stack.old ≡ None) }
{
    let name = stack.text()?;
    let init = stack.text()?;
    let carried = stack.carried()?;
    let ty = stack.ty()?;
    let pairs = before(CarriedPair { name, init }, carried.pairs)?;
    let types = before(ty, carried.types)?;
    stack.push_carried(Carried { pairs, types })?;
    Ok(())
}

#[tactic(auto, using(av_values::proofs::Replacing::replacing))]
fn map_by_alias(stack: &mut Stack) -> Result<(), Fault>
    ensures ok { OnOk result (by_row AffineRule.MapByAlias 0 stack.old ≡ Some stack.new) }
    ensures misshapen { IfErr result (λ fault. fault ≡ Fault.Misshapen → by_row AffineRule.MapByAlias 0 stack.old ≡ None) }
{
    let name = stack.text()?;
    let operands = stack.texts()?;
    let map_use = MapUse {
        map: Attr::AliasUse(name),
        operands: in_order(operands),
    };
    stack.push_map_use(map_use)?;
    Ok(())
}
