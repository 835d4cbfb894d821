//! The calls that a case may ask for, by the words of its field `do`.

use crate::arguments::arguments;
use crate::notation::functions;
use crate::words::{indices, words_of};
use crate::{bits, expressions, places, runs, shapes};
use av_cases::{Case, CaseFault, Why};
use av_ir::{Module, func_of};
use std::alloc::Global;

/// What the call of a case gives.
pub fn given(alloc: Global, case: &Case) -> Result<String, CaseFault> {
    let line = case.line;
    match called(alloc, case) {
        Ok(given) => Ok(given),
        Err(why) => Err(CaseFault { line, why }),
    }
}

fn called(alloc: Global, case: &Case) -> Result<String, Why> {
    let call = case.bytes("do");
    if let Some(name) = call.strip_prefix(b"module ") {
        return of_module(alloc, case, name);
    }
    if let Some(name) = call.strip_prefix(b"affine ") {
        return of_expressions(alloc, case, name);
    }
    let words = words_of(alloc, case, "with")?;
    if let Some(name) = call.strip_prefix(b"shape ") {
        return of_shape(alloc, name, words.as_slice());
    }
    if let Some(name) = call.strip_prefix(b"buffer ") {
        let at = words_of(alloc, case, "at")?;
        return of_buffer(alloc, name, words.as_slice(), at.as_slice());
    }
    of_pattern(alloc, call, words.as_slice())
}

fn of_pattern(alloc: Global, name: &[u8], words: &[String]) -> Result<String, Why> {
    match name {
        b"binary" => bits::binary_case(alloc, words),
        b"compare" => bits::compare_case(alloc, words),
        b"cast" => bits::cast_case(alloc, words),
        b"signed" => bits::signed_case(alloc, words),
        b"wrap" => bits::wrap_case(alloc, words),
        b"combine" => bits::combine_case(alloc, words),
        b"neutral" => bits::neutral_case(alloc, words),
        b"operation of" => bits::operation_case(alloc, words),
        _ => Err(Why::BadValue),
    }
}

fn of_shape(alloc: Global, name: &[u8], words: &[String]) -> Result<String, Why> {
    match name {
        b"allows" => shapes::allows_case(alloc, words),
        b"copy" => shapes::copy_case(alloc, words),
        b"equal" => shapes::equal_case(alloc, words),
        b"lanes" => shapes::lanes_case(alloc, words),
        b"extent" => shapes::extent_case(alloc, words),
        b"place" => shapes::place_case(alloc, words),
        b"permuted" => shapes::permuted_case(alloc, words),
        _ => Err(Why::BadValue),
    }
}

fn of_buffer(alloc: Global, name: &[u8], words: &[String], at: &[String]) -> Result<String, Why> {
    match name {
        b"cells" => places::cells_case(alloc, words),
        b"place" => places::place_case(alloc, words, at),
        b"ended" => runs::ended_case(alloc, words, at),
        _ => Err(Why::BadValue),
    }
}

// The map or set stands in the field `input`.
fn of_expressions(alloc: Global, case: &Case, name: &[u8]) -> Result<String, Why> {
    let text = case.bytes("input");
    let dims = indices(alloc, words_of(alloc, case, "dims")?.as_slice())?;
    let syms = indices(alloc, words_of(alloc, case, "syms")?.as_slice())?;
    match name {
        b"eval" => expressions::eval_case(alloc, text, &dims, &syms),
        b"simplified" => expressions::simplified_case(alloc, text, &dims, &syms),
        b"form" => expressions::form_case(alloc, text),
        b"holds" => expressions::holds_case(alloc, text, &dims, &syms),
        _ => Err(Why::BadValue),
    }
}

fn of_module(alloc: Global, case: &Case, name: &[u8]) -> Result<String, Why> {
    let module = module_of(alloc, case)?;
    let args = arguments(alloc, words_of(alloc, case, "args")?.as_slice())?;
    match name {
        b"run" => match case.number("steps", u64::MAX) {
            Ok(steps) => runs::run_case(alloc, &module, args, steps),
            Err(fault) => Err(fault.why),
        },
        b"formed" => runs::formed_case(alloc, &module),
        b"fits" => runs::fits_case(alloc, &module, &args),
        b"bind" => runs::bind_case(alloc, &module, args),
        b"loops" => runs::loops_case(alloc, &module),
        b"find" => places::shown(alloc, func_of(&module, case.bytes("at"))),
        _ => Err(Why::BadValue),
    }
}

// The module of the text in the field `input`, or else of the functions in the field `funcs`.
fn module_of(alloc: Global, case: &Case) -> Result<Module, Why> {
    match case.bytes("input") {
        b"" => functions(alloc, case.bytes("funcs")),
        text => runs::module(alloc, text),
    }
}
