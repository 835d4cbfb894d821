//! Delivering the text of a tree.

ghost use Rattle.std.specs.Prelude.{◌≡◌, OnOk};
ghost use Rattle.av_printer.specs.Printing.{Whole, Part, Same};
ghost use Rattle.av_printer.specs.Spelling.{spelling};
ghost use Rattle.av_printer.specs.declared.printing.PrintFault.TheVariants.{WriteFault, NoMemory};

use crate::form::Form;
use crate::nodes::spell;
use av_affine::Text;
use av_io::{Sink, write_all};
use av_tree::Tree;
use std::alloc::{AllocError, Global};
use thiserror::Error;

/// Why a text wasn't delivered whole.
#[derive(Clone, Copy, Debug, Drop, PartialEq, Eq, Error)]
pub enum PrintFault {
    /// A write failed; the sink has taken the first bytes of the text, or none.
    #[error("a write failed")]
    WriteFault,
    /// Memory lacks; nothing was written.
    #[error("out of memory")]
    NoMemory,
}

impl From<AllocError> for PrintFault {
    ghost from_gives = { λ _ fault. fault ≡ NoMemory };

    fn from(_fault: AllocError) -> PrintFault {
        PrintFault::NoMemory
    }
}

/// Writes the text of a tree to a sink. The whole text is made first, and the room for it reserved
/// before the first write.
///
/// # Errors
///
/// A write failed, or memory lacks.
pub fn print<S: Sink>(alloc: Global, tree: &Tree, form: Form, to: &mut S) -> Result<(), PrintFault>
    ensures whole { OnOk result (Whole (spelling form tree.now) (S.held to.old) (S.held to.new) (S.faults to.old) (S.faults to.new)) }
    ensures part { result ≡ Err WriteFault → Part (spelling form tree.now) (S.held to.old) (S.held to.new) (S.faults to.old) (S.faults to.new) }
    ensures nothing { result ≡ Err NoMemory → Same (S.held to.old) (S.held to.new) (S.faults to.old) (S.faults to.new) }
{
    let text = spell(alloc, tree, form)?;
    send(&text, to)
}

// Writes a text to a sink, in room that is reserved first.
fn send<S: Sink>(text: &Text, to: &mut S) -> Result<(), PrintFault>
    ensures whole { OnOk result (Whole text.now (S.held to.old) (S.held to.new) (S.faults to.old) (S.faults to.new)) }
    ensures part { result ≡ Err WriteFault → Part text.now (S.held to.old) (S.held to.new) (S.faults to.old) (S.faults to.new) }
    ensures nothing { result ≡ Err NoMemory → Same (S.held to.old) (S.held to.new) (S.faults to.old) (S.faults to.new) }
{
    to.reserve(text.len())?;
    match write_all(to, text.as_slice()) {
        Ok(()) => Ok(()),
        Err(_) => Err(PrintFault::WriteFault),
    }
}
