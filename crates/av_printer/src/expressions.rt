//! Affine expressions, maps and sets.
ghost use Rattle.std.specs.Prelude.{◌≡◌, ℕ, List, ◌++◌, map, IfOk};
ghost use Rattle.av_printer.specs.Pieces.{Piece, spelt, commas, plain, in_round};
ghost use Rattle.av_printer.specs.Expressions.{leaf, side, part_of, expression, map_pieces, parameters, row_pieces, set_pieces, square_if_any};

use crate::subscripts::Leaves;
use crate::writer::Writer;
use av_affine::Text;
use av_tree::{ExprText, MapText, RowText, SetText};
use std::alloc::AllocError;

/// An expression, its names spelled as `leaves` say.
#[tactic(auto, using(crate::proofs::Steps::steps, crate::proofs::ExpressionSteps::expression_steps))]
#[cycle(spelling)]
pub(crate) fn print_expression(
    out: &mut Writer,
    expr: &ExprText,
    leaves: &Leaves,
) -> Result<(), AllocError>
    ensures { IfOk result (λ _. out.new ≡ out.old ++ spelt (expression (leaf leaves.now.dims.now leaves.now.dim_values.now leaves.now.syms.now leaves.now.sym_values.now) expr.now)) }
{
    match expr {
        ExprText::Name(name) => leaves.print_name(out, name)?,
        ExprText::Const(value) => out.push_number(*value)?,
        ExprText::Neg(part) => {
            out.push_bytes(b"-")?;
            print_side(out, 4, part.get(), leaves)?;
        }
        ExprText::Add(left, right) => {
            print_left(out, 1, left.get(), b" + ", leaves)?;
            print_side(out, 2, right.get(), leaves)?;
        }
        ExprText::Sub(left, right) => {
            print_left(out, 1, left.get(), b" - ", leaves)?;
            print_side(out, 2, right.get(), leaves)?;
        }
        ExprText::Mul(left, right) => {
            print_left(out, 2, left.get(), b" * ", leaves)?;
            print_side(out, 3, right.get(), leaves)?;
        }
        ExprText::Mod(left, right) => {
            print_left(out, 2, left.get(), b" mod ", leaves)?;
            print_side(out, 3, right.get(), leaves)?;
        }
        ExprText::Floor(left, right) => {
            print_left(out, 2, left.get(), b" floordiv ", leaves)?;
            print_side(out, 3, right.get(), leaves)?;
        }
        ExprText::Ceil(left, right) => {
            print_left(out, 2, left.get(), b" ceildiv ", leaves)?;
            print_side(out, 3, right.get(), leaves)?;
        }
    }
    Ok(())
}

// A left side, and the sign or word behind it.
#[cycle(spelling)]
fn print_left(
    out: &mut Writer,
    asked: u8,
    left: &ExprText,
    sign: &[u8],
    leaves: &Leaves,
) -> Result<(), AllocError>
    ensures { IfOk result (λ _. out.new ≡ out.old ++ (spelt (side asked (part_of (leaf leaves.now.dims.now leaves.now.dim_values.now leaves.now.syms.now leaves.now.sym_values.now) left.now)) ++ sign.now)) }
{
    print_side(out, asked, left, leaves)?;
    out.push_bytes(sign)?;
    Ok(())
}

// A part of an expression, in brackets where it binds less tightly than its place asks.
#[tactic(auto, using(crate::proofs::Steps::steps), unfolding(crate::specs::Expressions::side))]
#[cycle(spelling)]
fn print_side(
    out: &mut Writer,
    asked: u8,
    expr: &ExprText,
    leaves: &Leaves,
) -> Result<(), AllocError>
    ensures { IfOk result (λ _. out.new ≡ out.old ++ spelt (side asked (part_of (leaf leaves.now.dims.now leaves.now.dim_values.now leaves.now.syms.now leaves.now.sym_values.now) expr.now))) }
{
    if strength(expr) < asked {
        out.push_bytes(b"(")?;
        print_expression(out, expr, leaves)?;
        out.push_bytes(b")")?;
    } else {
        print_expression(out, expr, leaves)?;
    }
    Ok(())
}

// How tightly an expression binds.
fn strength(expr: &ExprText) -> u8
    ensures { (names : List ℕ → List Piece) → result ≡ (part_of names expr.now).strength }
{
    match expr {
        ExprText::Name(_) => 4,
        ExprText::Const(_) => 3,
        ExprText::Neg(_) => 3,
        ExprText::Add(_, _) => 1,
        ExprText::Sub(_, _) => 1,
        ExprText::Mul(_, _) => 2,
        ExprText::Mod(_, _) => 2,
        ExprText::Floor(_, _) => 2,
        ExprText::Ceil(_, _) => 2,
    }
}

// An expression of a map or set, whose names are parameters.
fn print_own(out: &mut Writer, expr: &ExprText) -> Result<(), AllocError>
    ensures { IfOk result (λ _. out.new ≡ out.old ++ spelt (expression plain expr.now)) }
{
    let leaves = Leaves::parameters();
    print_expression(out, expr, &leaves)?;
    Ok(())
}

#[tactic(auto, using(crate::proofs::Steps::steps), unfolding(crate::specs::Expressions::map_pieces))]
pub(crate) fn print_map(out: &mut Writer, map: &MapText) -> Result<(), AllocError>
    ensures { IfOk result (λ _. out.new ≡ out.old ++ spelt (map_pieces map.now)) }
{
    out.push_bytes(b"affine_map<")?;
    print_parameters(out, map.dims.as_slice(), map.syms.as_slice())?;
    out.push_bytes(b" -> ")?;
    print_results(out, map.results.as_slice())?;
    out.push_bytes(b">")?;
    Ok(())
}

fn print_results(out: &mut Writer, results: &[ExprText]) -> Result<(), AllocError>
    ensures { IfOk result (λ _. out.new ≡ out.old ++ spelt (in_round (commas (map (expression plain) results.now)))) }
{
    out.push_bytes(b"(")?;
    for (i, expr) in results.iter().enumerate() {
        out.push_comma_after(i)?;
        print_own(out, expr)?;
    }
    out.push_bytes(b")")?;
    Ok(())
}

#[tactic(auto, using(crate::proofs::Steps::steps), unfolding(crate::specs::Expressions::set_pieces))]
pub(crate) fn print_set(out: &mut Writer, set: &SetText) -> Result<(), AllocError>
    ensures { IfOk result (λ _. out.new ≡ out.old ++ spelt (set_pieces set.now)) }
{
    out.push_bytes(b"affine_set<")?;
    print_parameters(out, set.dims.as_slice(), set.syms.as_slice())?;
    out.push_bytes(b" : ")?;
    print_rows(out, set.rows.as_slice())?;
    out.push_bytes(b">")?;
    Ok(())
}

fn print_rows(out: &mut Writer, rows: &[RowText]) -> Result<(), AllocError>
    ensures { IfOk result (λ _. out.new ≡ out.old ++ spelt (in_round (commas (map row_pieces rows.now)))) }
{
    out.push_bytes(b"(")?;
    for (i, row) in rows.iter().enumerate() {
        out.push_comma_after(i)?;
        print_row(out, row)?;
    }
    out.push_bytes(b")")?;
    Ok(())
}

#[tactic(auto, using(crate::proofs::Steps::steps), unfolding(crate::specs::Expressions::row_pieces))]
fn print_row(out: &mut Writer, row: &RowText) -> Result<(), AllocError>
    ensures { IfOk result (λ _. out.new ≡ out.old ++ spelt (row_pieces row.now)) }
{
    print_own(out, &row.left)?;
    if row.equal {
        out.push_bytes(b" == 0")?;
    } else {
        out.push_bytes(b" >= 0")?;
    }
    Ok(())
}

#[tactic(auto, using(crate::proofs::Steps::steps), unfolding(crate::specs::Expressions::parameters))]
fn print_parameters(out: &mut Writer, dims: &[Text], syms: &[Text]) -> Result<(), AllocError>
    ensures { IfOk result (λ _. out.new ≡ out.old ++ spelt (parameters dims.now syms.now)) }
{
    print_in_round(out, dims)?;
    print_if_any(out, syms)?;
    Ok(())
}

/// Texts between commas, in round brackets.
pub(crate) fn print_in_round(out: &mut Writer, texts: &[Text]) -> Result<(), AllocError>
    ensures { IfOk result (λ _. out.new ≡ out.old ++ spelt (in_round (commas (map plain texts.now)))) }
{
    out.push_bytes(b"(")?;
    print_texts(out, texts)?;
    out.push_bytes(b")")?;
    Ok(())
}

/// Texts in square brackets, or nothing where there is none.
#[tactic(auto, using(crate::proofs::Steps::steps, crate::proofs::ExpressionSteps::expression_steps))]
pub(crate) fn print_if_any(out: &mut Writer, texts: &[Text]) -> Result<(), AllocError>
    ensures { IfOk result (λ _. out.new ≡ out.old ++ spelt (square_if_any (map plain texts.now))) }
{
    if !texts.is_empty() {
        out.push_bytes(b"[")?;
        print_texts(out, texts)?;
        out.push_bytes(b"]")?;
    }
    Ok(())
}

/// Texts between commas.
pub(crate) fn print_texts(out: &mut Writer, texts: &[Text]) -> Result<(), AllocError>
    ensures { IfOk result (λ _. out.new ≡ out.old ++ spelt (commas (map plain texts.now))) }
{
    for (i, text) in texts.iter().enumerate() {
        out.push_comma_after(i)?;
        out.push_text(text)?;
    }
    Ok(())
}
