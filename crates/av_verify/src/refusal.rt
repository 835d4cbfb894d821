ghost use Rattle.std.specs.Prelude.{◌≡◌, true, false, MatchResult};
ghost use Rattle.av_verify.specs.Codes.{Asked, asks, first_failing, number_of_code};

use av_affine::No;
use std::alloc::{AllocError, AllocFailed};
use thiserror::Error;

/// Why a tree gives no module.
#[derive(Debug, Drop, PartialEq, Error)]
pub enum VerifyRefusal {
    /// The rule of this code fails at the operation of this number.
    #[error("operation {0}: V{1}")]
    Bad(No, u8),
    /// Memory lacks.
    #[error("out of memory")]
    NoMemory,
}

impl From<AllocError> for VerifyRefusal {
    ghost use Rattle.std.specs.Prelude.{◌≡◌};
    ghost use Rattle.av_verify.specs.declared.refusal.VerifyRefusal.TheVariants.{NoMemory};

    ghost from_gives = { λ _ refusal. refusal ≡ NoMemory };

    fn from(_fault: AllocError) -> VerifyRefusal {
        VerifyRefusal::NoMemory
    }
}

impl<T: Drop> From<AllocFailed<T>> for VerifyRefusal {
    ghost use Rattle.std.specs.Prelude.{◌≡◌};
    ghost use Rattle.av_verify.specs.declared.refusal.VerifyRefusal.TheVariants.{NoMemory};

    ghost from_gives = { λ _ refusal. refusal ≡ NoMemory };

    fn from(_fault: AllocFailed<T>) -> VerifyRefusal {
        VerifyRefusal::NoMemory
    }
}

/// What a rule is about; its code as a number.
#[derive(Clone, Copy)]
pub(crate) enum Code {
    /// The operation's name is known.
    Name = 1,
    /// The number of operands.
    Operands = 2,
    /// The number of results.
    Results = 3,
    /// Operands are visible.
    Visible = 4,
    /// A name is new where it is defined.
    New = 5,
    Types = 6,
    /// A needed property is there.
    Needed = 7,
    /// The form of each property and mark.
    Property = 8,
    /// The arity of maps and lists.
    Arity = 9,
    /// Operands of maps are dimensions or symbols.
    Dimension = 10,
    Step = 11,
    Terminator = 12,
    /// The numbers of regions and of their arguments.
    Regions = 13,
    /// Constants fit their types.
    Constant = 14,
    /// Expressions are affine and within their limits.
    Expression = 15,
    /// The name of a function is new.
    Function = 16,
    /// Ranks, sizes, results of maps and nested regions.
    Limit = 17,
    /// The mode takes the operation, which may stand here.
    Place = 18,
    /// The operations times the lanes.
    Size = 20,
}

/// The refusal of an operation by a rule.
pub(crate) fn bad(number: No, code: Code) -> VerifyRefusal
    ensures { result ≡ VerifyRefusal.Bad number (number_of_code code) }
{
    VerifyRefusal::Bad(number, code as u8)
}

/// A rule that is asked of an operation, and whether it holds.
#[derive(Clone, Copy)]
pub(crate) struct Rule {
    pub(crate) code: Code,
    pub(crate) holds: bool,
}

/// A rule of this code.
pub(crate) fn asks(code: Code, holds: bool) -> Rule
    ensures { result ≡ asks code holds }
{
    Rule { code, holds }
}

/// Asks the rules of an operation, in the order of their codes.
pub(crate) fn ask_all(rules: &[Rule], number: No) -> Result<(), VerifyRefusal>
    ensures { Asked number (first_failing rules.now) result (λ u. Unit {0}) }
{
    match first_failing(rules) {
        Some(code) => Err(bad(number, code)),
        None => Ok(()),
    }
}

fn first_failing(rules: &[Rule]) -> Option<Code>
    ensures { result ≡ first_failing rules.now }
{
    let failing = rules.iter().find(|rule| !rule.holds)?;
    Some(failing.code)
}

/// Asks a rule at an operation.
pub(crate) fn ask(holds: bool, number: No, code: Code) -> Result<(), VerifyRefusal>
    ensures { MatchResult result (λ u. holds ≡ true) (λ e. (holds ≡ false) × (e ≡ VerifyRefusal.Bad number (number_of_code code))) }
{
    if holds {
        Ok(())
    } else {
        Err(bad(number, code))
    }
}
