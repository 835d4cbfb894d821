//! A run under way.

ghost use Rattle.std.specs.Prelude.{◌≡◌, ◌+◌, [], ◌∷◌, None, Some, OnOk, IfErr, IfOk};
ghost use Rattle.av_ir.specs.Run.{handed_on};
ghost use Rattle.av_scalar.specs.Machines.{handed_of};
ghost use Rattle.av_scalar.specs.Names.{values};

use super::names::Names;
use av_affine::Seq;
use av_ir::{Buffer, RunStop};
use std::alloc::{AllocError, Global};

/// A run under way: its memory, the words of its values, and the steps that it has left.
#[derive(Drop)]
pub struct Machine {
    pub memory: Vec<Buffer>,
    pub names: Names,
    pub left: u64,
}

/// What an operation gives: the words of its results, and what it hands on if it ends its region.
#[derive(Drop)]
pub struct Outcome {
    pub words: Seq<u64>,
    pub handed: Option<Seq<u64>>,
}

impl Outcome {
    /// No result, and no end of the region.
    pub fn nothing(alloc: Global) -> Outcome
        ensures { result ≡ record { words = []; handed = None } }
    {
        Outcome {
            words: Seq::new(alloc),
            handed: None,
        }
    }

    /// What ends the region and hands words on.
    pub fn handing(alloc: Global, words: Seq<u64>) -> Outcome
        ensures { result ≡ record { words = []; handed = Some words } }
    {
        Outcome {
            words: Seq::new(alloc),
            handed: Some(words),
        }
    }

    /// One result, without an end of the region.
    ///
    /// # Errors
    ///
    /// Want of memory.
    pub fn one(alloc: Global, word: u64) -> Result<Outcome, AllocError>
        ensures { IfOk result (λ o. o ≡ record { words = word ∷ []; handed = None }) }
    {
        let mut words = Seq::new(alloc);
        words.push(word)?;
        Ok(Outcome {
            words,
            handed: None,
        })
    }
}

/// Takes one of the steps that are left.
///
/// # Errors
///
/// None is left.
pub fn spend(left: &mut u64) -> Result<(), RunStop>
    ensures spent { OnOk result (left.new + 1 ≡ left.old) }
    ensures short { IfErr result (λ stop. (stop ≡ RunStop.OutOfSteps) × (left.old ≡ 0)) }
{
    if *left == 0 {
        return Err(RunStop::OutOfSteps);
    }
    *left -= 1;
    Ok(())
}

/// What is handed on behind an operation: its own, or else what was before.
pub fn handed_on(own: Option<Seq<u64>>, before: Seq<u64>) -> Seq<u64>
    ensures { values result ≡ handed_on (handed_of own) (values before) }
{
    match own {
        Some(words) => words,
        None => before,
    }
}

/// A word and then others.
///
/// # Errors
///
/// Want of memory.
pub fn in_front(alloc: Global, first: u64, rest: &[u64]) -> Result<Seq<u64>, AllocError>
    ensures { IfOk result (λ ws. ws ≡ first ∷ rest.now) }
{
    let mut words = Seq::new(alloc);
    words.push(first)?;
    words.append(Seq::from_slice(alloc, rest)?)?;
    Ok(words)
}
