//! Rows of maps and expressions, and of subscripts, which are expressions with values for names.

ghost use Rattle.std.specs.Prelude.{◌≡◌, Some, None, IfErr, IfOk, OnOk};
ghost use Rattle.av_parts.specs.rows.MapRows.{by_row, leaf_put, map_of as map_of_rows, number_put, part_put, set_of as set_of_rows};
ghost use Rattle.av_parts.specs.rows.SubscriptRows.{by_row as by_subscript_row};

use av_affine::{Held, Seq};
use av_tree::table::{MapRule, SubscriptRule};
use av_tree::{Attr, ExprText, MapText, RowText, SetText};
use av_values::joining::{division, joined, results_of};
use av_values::numbers::integer_of;
use av_values::puts::{no_texts, same_texts, text_before};
use av_values::stack::{Fault, Stack, before, in_order};
use av_values::value::{Expression, LeafKind, Operator, Parameters, Part};
use std::alloc::Global;

/// Does what a row of maps and expressions does to the values of its symbols.
pub fn reduce_map(stack: &mut Stack, rule: MapRule) -> Result<(), Fault>
    ensures ok { OnOk result (by_row rule stack.old ≡ Some stack.new) }
    ensures misshapen { IfErr result (λ fault. fault ≡ Fault.Misshapen → by_row rule stack.old ≡ None) }
{
    match rule {
        MapRule::WrittenMap => written_map(stack),
        MapRule::DimensionNames => dimension_names(stack),
        MapRule::NoSymbolNames => no_texts(stack),
        MapRule::WrittenSymbolNames => same_texts(stack),
        MapRule::NoWords => no_texts(stack),
        MapRule::FirstWord => text_before(stack),
        MapRule::NoMoreWords => no_texts(stack),
        MapRule::NextWord => text_before(stack),
        MapRule::NoExpressions => no_expressions(stack),
        MapRule::FirstExpression => expression_before(stack),
        MapRule::NoMoreExpressions => no_expressions(stack),
        MapRule::NextExpression => expression_before(stack),
        MapRule::WholeExpression => whole(stack),
        MapRule::NoMoreTerms => no_parts(stack),
        MapRule::PlusTerm => part_before(stack, Operator::Add),
        MapRule::MinusTerm => part_before(stack, Operator::Sub),
        MapRule::WholeTerm => whole(stack),
        MapRule::NoMoreFactors => no_parts(stack),
        MapRule::TimesFactor => part_before(stack, Operator::Mul),
        MapRule::DivisionFactor => division_before(stack),
        MapRule::NumberFactor => constant(stack, false),
        MapRule::PlainFactor => same_expression(stack),
        MapRule::MinusFactor => same_expression(stack),
        MapRule::NegativeNumber => constant(stack, true),
        MapRule::NegatedBase => negated(stack),
        MapRule::ParameterName => parameter(stack),
        MapRule::DivisionName => parameter(stack),
        MapRule::InBrackets => whole(stack),
        MapRule::WrittenSet => written_set(stack),
        MapRule::NoSetRows => no_rows(stack),
        MapRule::NoMoreSetRows => no_rows(stack),
        MapRule::FirstSetRow => row_before(stack),
        MapRule::NextSetRow => row_before(stack),
        MapRule::RowOfSet => set_row(stack),
        MapRule::AtLeastZero => at_least_zero(stack),
        MapRule::EqualToZero => equal_to_zero(stack),
    }
}

/// Does what a row of subscripts does to the values of its symbols.
pub fn reduce_subscript(stack: &mut Stack, rule: SubscriptRule) -> Result<(), Fault>
    ensures ok { OnOk result (by_subscript_row rule stack.old ≡ Some stack.new) }
    ensures misshapen { IfErr result (λ fault. fault ≡ Fault.Misshapen → by_subscript_row rule stack.old ≡ None) }
{
    match rule {
        SubscriptRule::NoSubscripts => no_expressions(stack),
        SubscriptRule::FirstSubscript => expression_before(stack),
        SubscriptRule::NoMoreSubscripts => no_expressions(stack),
        SubscriptRule::NextSubscript => expression_before(stack),
        SubscriptRule::WholeSubscript => whole(stack),
        SubscriptRule::NoMoreSubscriptTerms => no_parts(stack),
        SubscriptRule::PlusSubscriptTerm => part_before(stack, Operator::Add),
        SubscriptRule::MinusSubscriptTerm => part_before(stack, Operator::Sub),
        SubscriptRule::WholeSubscriptTerm => whole(stack),
        SubscriptRule::NoMoreSubscriptFactors => no_parts(stack),
        SubscriptRule::TimesSubscriptFactor => part_before(stack, Operator::Mul),
        SubscriptRule::DivisionSubscriptFactor => division_before(stack),
        SubscriptRule::NumberSubscriptFactor => constant(stack, false),
        SubscriptRule::PlainSubscriptFactor => same_expression(stack),
        SubscriptRule::MinusSubscriptFactor => same_expression(stack),
        SubscriptRule::NegativeSubscriptNumber => constant(stack, true),
        SubscriptRule::NegatedSubscriptBase => negated(stack),
        SubscriptRule::DimensionValue => leaf(stack, LeafKind::Dimension),
        SubscriptRule::SymbolValue => leaf(stack, LeafKind::Symbol),
        SubscriptRule::SubscriptInBrackets => whole(stack),
    }
}

#[tactic(auto, using(av_values::proofs::Replacing::replacing))]
fn written_map(stack: &mut Stack) -> Result<(), Fault>
    ensures ok { OnOk result (by_row MapRule.WrittenMap stack.old ≡ Some stack.new) }
    ensures misshapen { IfErr result (λ fault. fault ≡ Fault.Misshapen → by_row MapRule.WrittenMap stack.old ≡ None) }
{
    let alloc = stack.alloc();
    let parameters = stack.parameters()?;
    let expressions = stack.expressions()?;
    let map = map_of(alloc, parameters, expressions)?;
    stack.push_attr(Attr::Map(map))?;
    Ok(())
}

fn map_of(
    alloc: Global,
    parameters: Parameters,
    expressions: Seq<Expression>,
) -> Result<MapText, Fault>
    ensures ok { IfOk result (λ map. map ≡ map_of_rows parameters expressions) }
    ensures err { IfErr result (λ fault. fault ≡ Fault.NoMemory) }
{
    Ok(MapText {
        dims: in_order(parameters.dims),
        syms: in_order(parameters.syms),
        results: results_of(alloc, expressions)?,
    })
}

#[tactic(auto, using(av_values::proofs::Replacing::replacing))]
fn dimension_names(stack: &mut Stack) -> Result<(), Fault>
    ensures ok { OnOk result (by_row MapRule.DimensionNames stack.old ≡ Some stack.new) }
    ensures misshapen { IfErr result (λ fault. fault ≡ Fault.Misshapen → by_row MapRule.DimensionNames stack.old ≡ None) }
{
    let dims = stack.texts()?;
    let syms = stack.texts()?;
    stack.push_parameters(Parameters { dims, syms })?;
    Ok(())
}

#[tactic(auto, using(av_values::proofs::Replacing::replacing))]
fn parameter(stack: &mut Stack) -> Result<(), Fault>
    ensures ok { OnOk result (by_row MapRule.ParameterName stack.old ≡ Some stack.new) }
    ensures misshapen { IfErr result (λ fault. fault ≡ Fault.Misshapen → by_row MapRule.ParameterName stack.old ≡ None) }
{
    let name = stack.text()?;
    let leaves = Seq::new(stack.alloc());
    stack.push_expression(Expression {
        expr: ExprText::Name(name),
        leaves,
    })?;
    Ok(())
}

#[tactic(auto, using(av_values::proofs::Replacing::replacing))]
fn same_expression(stack: &mut Stack) -> Result<(), Fault>
    ensures ok { OnOk result (by_row MapRule.PlainFactor stack.old ≡ Some stack.new) }
    ensures misshapen { IfErr result (λ fault. fault ≡ Fault.Misshapen → by_row MapRule.PlainFactor stack.old ≡ None) }
{
    let expression = stack.expression()?;
    stack.push_expression(expression)?;
    Ok(())
}

#[tactic(auto, using(av_values::proofs::Replacing::replacing))]
fn no_expressions(stack: &mut Stack) -> Result<(), Fault>
    ensures ok { OnOk result (by_row MapRule.NoExpressions stack.old ≡ Some stack.new) }
    ensures misshapen { IfErr result (λ fault. fault ≡ Fault.Misshapen → by_row MapRule.NoExpressions stack.old ≡ None) }
{
    stack.push_expressions(Seq::new(stack.alloc()))?;
    Ok(())
}

#[tactic(auto, using(av_values::proofs::Replacing::replacing))]
fn expression_before(stack: &mut Stack) -> Result<(), Fault>
    ensures ok { OnOk result (by_row MapRule.NextExpression stack.old ≡ Some stack.new) }
    ensures misshapen { IfErr result (λ fault. fault ≡ Fault.Misshapen → by_row MapRule.NextExpression stack.old ≡ None) }
{
    let expression = stack.expression()?;
    let others = stack.expressions()?;
    let expressions = before(expression, others)?;
    stack.push_expressions(expressions)?;
    Ok(())
}

#[tactic(auto, using(av_values::proofs::Replacing::replacing))]
fn no_parts(stack: &mut Stack) -> Result<(), Fault>
    ensures ok { OnOk result (by_row MapRule.NoMoreTerms stack.old ≡ Some stack.new) }
    ensures misshapen { IfErr result (λ fault. fault ≡ Fault.Misshapen → by_row MapRule.NoMoreTerms stack.old ≡ None) }
{
    stack.push_parts(Seq::new(stack.alloc()))?;
    Ok(())
}

#[tactic(auto, using(av_values::proofs::Replacing::replacing))]
fn part_before(stack: &mut Stack, operator: Operator) -> Result<(), Fault>
    ensures ok { OnOk result (part_put operator stack.old ≡ Some stack.new) }
    ensures misshapen { IfErr result (λ fault. fault ≡ Fault.Misshapen → part_put operator stack.old ≡ None) }
{
    let right = stack.expression()?;
    let others = stack.parts()?;
    let parts = before(Part { operator, right }, others)?;
    stack.push_parts(parts)?;
    Ok(())
}

#[tactic(auto, using(av_values::proofs::Replacing::replacing))]
fn division_before(stack: &mut Stack) -> Result<(), Fault>
    ensures ok { OnOk result (by_row MapRule.DivisionFactor stack.old ≡ Some stack.new) }
    ensures misshapen { IfErr result (λ fault. fault ≡ Fault.Misshapen → by_row MapRule.DivisionFactor stack.old ≡ None) }
{
    let word = stack.text()?;
    let right = stack.expression()?;
    let others = stack.parts()?;
    let operator = division(&word);
    let parts = before(Part { operator, right }, others)?;
    stack.push_parts(parts)?;
    Ok(())
}

#[tactic(auto, using(av_values::proofs::Replacing::replacing))]
fn constant(stack: &mut Stack, negative: bool) -> Result<(), Fault>
    ensures ok { OnOk result (number_put negative stack.old ≡ Some stack.new) }
    ensures misshapen { IfErr result (λ fault. fault ≡ Fault.Misshapen → number_put negative stack.old ≡ None) }
{
    let digits = stack.text()?;
    let value = integer_of(&digits, negative);
    let leaves = Seq::new(stack.alloc());
    stack.push_expression(Expression {
        expr: ExprText::Const(value),
        leaves,
    })?;
    Ok(())
}

#[tactic(auto, using(av_values::proofs::Replacing::replacing))]
fn negated(stack: &mut Stack) -> Result<(), Fault>
    ensures ok { OnOk result (by_row MapRule.NegatedBase stack.old ≡ Some stack.new) }
    ensures misshapen { IfErr result (λ fault. fault ≡ Fault.Misshapen → by_row MapRule.NegatedBase stack.old ≡ None) }
{
    let alloc = stack.alloc();
    let whole = stack.expression()?;
    let held = Held::new(alloc, whole.expr)?;
    stack.push_expression(Expression {
        expr: ExprText::Neg(held),
        leaves: whole.leaves,
    })?;
    Ok(())
}

#[tactic(auto, using(av_values::proofs::Replacing::replacing))]
fn leaf(stack: &mut Stack, kind: LeafKind) -> Result<(), Fault>
    ensures ok { OnOk result (leaf_put kind stack.old ≡ Some stack.new) }
    ensures misshapen { IfErr result (λ fault. fault ≡ Fault.Misshapen → leaf_put kind stack.old ≡ None) }
{
    let name = stack.text()?;
    let mut leaves = Seq::new(stack.alloc());
    leaves.push(kind)?;
    stack.push_expression(Expression {
        expr: ExprText::Name(name),
        leaves,
    })?;
    Ok(())
}

// The expression on top with the parts under it, joined from the left.
#[tactic(auto, using(av_values::proofs::Replacing::replacing))]
fn whole(stack: &mut Stack) -> Result<(), Fault>
    ensures ok { OnOk result (by_row MapRule.WholeTerm stack.old ≡ Some stack.new) }
    ensures misshapen { IfErr result (λ fault. fault ≡ Fault.Misshapen → by_row MapRule.WholeTerm stack.old ≡ None) }
{
    let alloc = stack.alloc();
    let first = stack.expression()?;
    let parts = stack.parts()?;
    let whole = joined(alloc, first, parts)?;
    stack.push_expression(whole)?;
    Ok(())
}

#[tactic(auto, using(av_values::proofs::Replacing::replacing))]
fn written_set(stack: &mut Stack) -> Result<(), Fault>
    ensures ok { OnOk result (by_row MapRule.WrittenSet stack.old ≡ Some stack.new) }
    ensures misshapen { IfErr result (λ fault. fault ≡ Fault.Misshapen → by_row MapRule.WrittenSet stack.old ≡ None) }
{
    let parameters = stack.parameters()?;
    let rows = stack.rows()?;
    let set = set_of(parameters, rows);
    stack.push_attr(Attr::Set(set))?;
    Ok(())
}

#[tactic(auto, using(av_values::proofs::Replacing::replacing))]
fn no_rows(stack: &mut Stack) -> Result<(), Fault>
    ensures ok { OnOk result (by_row MapRule.NoSetRows stack.old ≡ Some stack.new) }
    ensures misshapen { IfErr result (λ fault. fault ≡ Fault.Misshapen → by_row MapRule.NoSetRows stack.old ≡ None) }
{
    stack.push_rows(Seq::new(stack.alloc()))?;
    Ok(())
}

#[tactic(auto, using(av_values::proofs::Replacing::replacing))]
fn row_before(stack: &mut Stack) -> Result<(), Fault>
    ensures ok { OnOk result (by_row MapRule.FirstSetRow stack.old ≡ Some stack.new) }
    ensures misshapen { IfErr result (λ fault. fault ≡ Fault.Misshapen → by_row MapRule.FirstSetRow stack.old ≡ None) }
{
    let row = stack.row()?;
    let others = stack.rows()?;
    let rows = before(row, others)?;
    stack.push_rows(rows)?;
    Ok(())
}

#[tactic(auto, using(av_values::proofs::Replacing::replacing))]
fn set_row(stack: &mut Stack) -> Result<(), Fault>
    ensures ok { OnOk result (by_row MapRule.RowOfSet stack.old ≡ Some stack.new) }
    ensures misshapen { IfErr result (λ fault. fault ≡ Fault.Misshapen → by_row MapRule.RowOfSet stack.old ≡ None) }
{
    let left = stack.expression()?;
    let equal = stack.equal()?;
    let row = RowText {
        left: left.expr,
        equal,
    };
    stack.push_row(row)?;
    Ok(())
}

#[tactic(auto, using(av_values::proofs::Replacing::replacing))]
fn at_least_zero(stack: &mut Stack) -> Result<(), Fault>
    ensures ok { OnOk result (by_row MapRule.AtLeastZero stack.old ≡ Some stack.new) }
    ensures misshapen { IfErr result (λ fault. fault ≡ Fault.Misshapen → by_row MapRule.AtLeastZero stack.old ≡ None) }
{
    let _zero = stack.text()?;
    stack.push_equal(false)?;
    Ok(())
}

#[tactic(auto, using(av_values::proofs::Replacing::replacing))]
fn equal_to_zero(stack: &mut Stack) -> Result<(), Fault>
    ensures ok { OnOk result (by_row MapRule.EqualToZero stack.old ≡ Some stack.new) }
    ensures misshapen { IfErr result (λ fault. fault ≡ Fault.Misshapen → by_row MapRule.EqualToZero stack.old ≡ None) }
{
    let _zero = stack.text()?;
    stack.push_equal(true)?;
    Ok(())
}

// The set of these parameters and rows, which stand from the last to the first.
fn set_of(parameters: Parameters, rows: Seq<RowText>) -> SetText
    ensures { result ≡ set_of_rows parameters rows }
{
    let Parameters { dims, syms } = parameters;
    SetText {
        dims: in_order(dims),
        syms: in_order(syms),
        rows: in_order(rows),
    }
}
