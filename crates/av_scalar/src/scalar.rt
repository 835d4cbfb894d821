//! The run of a function of a module of scalar operations.

ghost use Rattle.std.specs.Prelude.{◌≡◌, ◌<◌, ◌++◌, [], ◌∷◌, IfOk, OnOk, length, slice_index_or};
ghost use Rattle.av_ir.specs.declared.module.Func.{Func};
ghost use Rattle.av_ir.specs.declared.module.Region.{out-Region};
ghost use Rattle.av_ir.specs.Run.{types_at};
ghost use Rattle.av_ir.specs.ScalarRun.{argument_values, memref_types, run_scalar_of};
ghost use Rattle.av_ir.specs.Values.{Fits};
ghost use Rattle.av_ir.specs.WellFormed.{IsWellFormedFunc, WellFormed};
ghost use Rattle.av_scalar.specs.Meeting.{Meets};
ghost use Rattle.av_scalar.specs.Names.{values};

use super::machine::Machine;
use super::memory::Standing;
use super::names::Names;
use super::running::run_region;
use av_affine::{Duplicate, No, Seq};
use av_ir::types::Ended;
use av_ir::{Arg, Args, Bound, Func, Module, RunStop, Ty, ValueId, bind, ended};
use std::alloc::{AllocError, Global};

// The words of arguments: a memref's is its place among the memrefs.
fn argument_words(alloc: Global, args: &[Arg]) -> Result<Seq<u64>, AllocError>
    ensures { IfOk result (λ ws. values ws ≡ argument_values 0 args.now) }
{
    let mut words = Seq::new(alloc);
    let mut memrefs = 0;
    for arg in args {
        match arg {
            Arg::Word(pattern) => words.push(*pattern)?,
            Arg::Buf(_) => {
                words.push(memrefs)?;
                memrefs += 1;
            }
        }
    }
    Ok(words)
}

// The memref types among those of these values, in order.
fn memref_kinds(alloc: Global, types: &[Ty], ids: &[ValueId]) -> Result<Seq<Ty>, AllocError>
    ensures { IfOk result (λ kinds. kinds ≡ memref_types (types_at types.now ids.now)) }
{
    let mut kinds = Seq::new(alloc);
    for id in ids {
        let place = id.0 as usize;
        if place < types.len() {
            add_memref(alloc, &mut kinds, &types[place])?;
        }
    }
    Ok(kinds)
}

// Puts a memref type at the end of a list, and no other type.
fn add_memref(alloc: Global, kinds: &mut Seq<Ty>, ty: &Ty) -> Result<(), AllocError>
    ensures { OnOk result (kinds.new ≡ kinds.old ++ memref_types (ty.now ∷ [])) }
{
    match ty {
        Ty::MemRef { .. } => kinds.push(ty.duplicate(alloc)?),
        Ty::Scalar(_) | Ty::Vector { .. } => Ok(()),
    }
}

// The run of a function.
fn run_func(alloc: Global, f: &Func, args: Args, steps: u64) -> Result<Ended, RunStop>
    requires fits { Fits f.now args }
    requires formed { IsWellFormedFunc f.now }
    ensures { Meets (run_scalar_of f.now args) steps result }
{
    let types = f.values.as_slice();
    let words = argument_words(alloc, args.list.as_slice())?;
    let kinds = memref_kinds(alloc, types, f.body.args.as_slice())?;
    let names = Names::new(alloc, types.len())?;
    let bound = bind(alloc, f, args)?;
    let standing = Standing {
        at: bound.at,
        kinds,
    };
    let mut machine = Machine {
        memory: bound.memory.into_vec(),
        names,
        left: steps,
    };
    let results = run_region(
        alloc,
        types,
        &standing,
        &f.body,
        words.as_slice(),
        &mut machine,
    )?;
    let end = Bound {
        memory: Seq::from_vec(machine.memory),
        at: standing.at,
        words: Seq::new(alloc),
    };
    Ok(ended(alloc, end, results)?)
}

/// The run of the function in this place of a module, one element at a time, with these arguments and
/// at most so many steps. An operation that Scalar mode doesn't have gives nothing.
///
/// # Errors
///
/// An operation traps within the steps, or the run needs more steps, or memory lacks.
pub fn run_scalar(
    alloc: Global,
    m: &Module,
    func: No,
    args: Args,
    steps: u64,
) -> Result<Ended, RunStop>
    requires place { func < length m.now.funcs }
    requires fits { (d : Func) → Fits (slice_index_or m.now.funcs func d) args }
    requires formed { WellFormed m.now }
    ensures { (d : Func) → Meets (run_scalar_of (slice_index_or m.now.funcs func d) args) steps result }
{
    run_func(alloc, &m.funcs.as_slice()[func as usize], args, steps)
}
