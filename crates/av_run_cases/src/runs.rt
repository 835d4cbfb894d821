//! Cases of modules: their functions, their arguments and their runs.
ghost use Rattle.std.specs.Prelude.{◌<◌, IsTrue, length};
ghost use Rattle.std.specs.List.{All};

use crate::arguments::{buffers, push_word, shown_bound, shown_end};
use crate::forming::is_well_formed;
use crate::words::magnitudes;
use av_affine::Seq;
use av_cases::Why;
use av_ir::{Args, Bound, Module, RunStop, bind, ended, fits, inner_loops};
use av_lex::lex;
use av_reader::read;
use av_scalar::run_scalar;
use av_verify::{Mode, verify};
use std::alloc::Global;

/// The module of a text.
pub fn module(alloc: Global, text: &[u8]) -> Result<Module, Why> {
    if text.len() > 1 << 20 {
        return Err(Why::BadValue);
    }
    let Ok(tokens) = lex(alloc, text) else {
        return Err(Why::BadValue);
    };
    let Ok(tree) = read(alloc, text, tokens.as_slice()) else {
        return Err(Why::BadValue);
    };
    match verify(alloc, &tree, &Mode::Run) {
        Ok(module) => Ok(module),
        Err(_) => Err(Why::BadValue),
    }
}

/// How a run of the module's first function ends, within so many steps.
pub fn run_case(alloc: Global, module: &Module, args: Args, steps: u64) -> Result<String, Why> {
    if module.funcs.as_slice().is_empty() {
        return Err(Why::BadValue);
    }
    let func = &module.funcs.as_slice()[0];
    if !fits(func, &args) || !is_well_formed(module) {
        return Err(Why::BadValue);
    }
    match run_scalar(alloc, module, 0, args, steps) {
        Ok(end) => shown_end(alloc, &end),
        Err(RunStop::Trap(kind, number)) => Ok(format!(in alloc; "{kind:?} at {number}")?),
        Err(RunStop::OutOfSteps) => Ok(String::from_str(alloc, "out of steps")?),
        Err(RunStop::NoMemory) => Err(Why::NoMemory),
    }
}

/// Whether a module is well formed.
pub fn formed_case(alloc: Global, module: &Module) -> Result<String, Why> {
    let formed = is_well_formed(module);
    Ok(format!(in alloc; "{formed}")?)
}

/// Whether the first function of a module may be given these arguments.
pub fn fits_case(alloc: Global, module: &Module, args: &Args) -> Result<String, Why> {
    let Some(func) = module.funcs.as_slice().first() else {
        return Err(Why::BadValue);
    };
    let fits = fits(func, args);
    Ok(format!(in alloc; "{fits}")?)
}

/// The arguments of the first function of a module in memory.
pub fn bind_case(alloc: Global, module: &Module, args: Args) -> Result<String, Why> {
    let Some(func) = module.funcs.as_slice().first() else {
        return Err(Why::BadValue);
    };
    shown_bound(alloc, &bind(alloc, func, args)?)
}

/// The end of a run that leaves this memory, in which the memref arguments have these places. Its one result is
/// the number of buffers in memory.
pub fn ended_case(alloc: Global, words: &[String], places: &[String]) -> Result<String, Why> {
    let memory = buffers(alloc, words)?;
    let at = Seq::from_vec(magnitudes(alloc, places)?);
    if !are_places(at.as_slice(), memory.len()) {
        return Err(Why::BadValue);
    }
    let words = Seq::new(alloc);
    let mut results = Seq::new(alloc);
    results.push(memory.len() as u64)?;
    shown_end(alloc, &ended(alloc, Bound { memory, at, words }, results)?)
}

fn are_places(at: &[u64], count: usize) -> bool
    ensures { IsTrue result → All (λ k. k < count) at.now }
{
    at.iter().all(|place| *place < count as u64)
}

/// The inner loops of a module, each by its function and its number.
pub fn loops_case(alloc: Global, module: &Module) -> Result<String, Why> {
    let mut text = String::new(alloc);
    for inner in inner_loops(alloc, module)?.as_slice() {
        let func = inner.func;
        let number = inner.number;
        let word = format!(in alloc; "{func}:{number}")?;
        push_word(&mut text, word.as_str())?;
    }
    Ok(text)
}
