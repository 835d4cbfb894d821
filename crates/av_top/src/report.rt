//! The report: a line for each inner loop.

ghost use Rattle.std.specs.Prelude.{◌≡◌, ◌++◌, IfOk, OnOk};
ghost use Rattle.av_top.specs.Report.{line_of, lines_of, name_at};

use av_affine::{No, Seq, Text};
use av_ir::{Func, InnerLoop};
use std::alloc::{AllocError, Global};

/// The report on these inner loops of a module: a line for each, which says that it is kept, since
/// taking it isn't built.
///
/// # Errors
///
/// Memory lacks.
pub fn report_of(alloc: Global, funcs: &[Func], loops: &[InnerLoop]) -> Result<Text, AllocError>
    ensures { IfOk result (λ report. report ≡ lines_of funcs.now loops.now) }
{
    let mut report = Vec::new(alloc);
    for inner in loops {
        push_line(alloc, &mut report, name_of(funcs, inner.func), inner.number)?;
    }
    Ok(Seq::from_vec(report))
}

// The name of a function.
fn name_of(funcs: &[Func], place: No) -> &[u8]
    ensures { result.now ≡ name_at funcs.now place }
{
    match funcs.get(place as usize) {
        Some(func) => func.name.as_slice(),
        None => &[],
    }
}

// Puts the line of a loop at the end.
fn push_line(alloc: Global, report: &mut Vec<u8>, name: &[u8], number: No) -> Result<(), AllocError>
    ensures { OnOk result (report.new.items ≡ report.old.items ++ line_of name.now number) }
{
    let number = number.to_string(alloc)?;
    report.push(b'@')?;
    report.extend_from_slice(name)?;
    report.extend_from_slice(b" loop ")?;
    report.extend_from_slice(number.as_bytes())?;
    report.extend_from_slice(b": kept not-built ")?;
    report.extend_from_slice(number.as_bytes())?;
    report.extend_from_slice(b"\n")?;
    Ok(())
}
