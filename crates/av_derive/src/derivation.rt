//! Deriving: the classes of tokens to the events of their derivation, or the first wrong token.

ghost use Rattle.std.specs.Prelude.{◌≡◌, ◌≢◌, take, IfErr, IfOk};
ghost use Rattle.av_derive.specs.Derivation.{Derived, IsOnly, IsWrongAt, Viable, IsDeepAt, IsPlainAt};

use super::machine::{Event, Limits, Machine, Stop};
use av_tree::Class;
use std::alloc::Global;

/// Why nothing is derived, and the number of the token at fault; the number of tokens where more are
/// needed.
#[derive(Clone, Copy, Debug, Drop, PartialEq)]
pub struct Refused {
    pub stop: Stop,
    pub at: usize,
}

/// The events that derive a file of tokens of these classes, within the limits.
///
/// # Errors
///
/// The number of the first wrong token, or want of memory, as for 2^32 tokens or more.
pub fn derive(alloc: Global, classes: &[Class], limits: Limits) -> Result<Vec<Event>, Refused>
    ensures derived { IfOk result (λ events. Derived limits classes.now events.items) }
    ensures only { IfOk result (λ events. IsOnly classes.now events.items) }
    ensures wrong { IfErr result (λ refused. refused.stop ≢ Stop.NoMemory → IsWrongAt limits classes.now refused.at) }
    ensures completable { IfErr result (λ refused. refused.stop ≢ Stop.NoMemory → Viable limits (take refused.at classes.now)) }
    ensures deep { IfErr result (λ refused. refused.stop ≡ Stop.TooDeep → IsDeepAt classes.now refused.at) }
    ensures plain { IfErr result (λ refused. refused.stop ≡ Stop.Wrong → IsPlainAt classes.now refused.at) }
{
    let Ok(count) = u32::try_from(classes.len()) else {
        return Err(Refused {
            stop: Stop::NoMemory,
            at: 0,
        });
    };
    let mut machine = match Machine::new(alloc, limits) {
        Ok(machine) => machine,
        Err(_) => return Err(Refused {
            stop: Stop::NoMemory,
            at: 0,
        }),
    };
    for at in 0..count {
        if let Err(stop) = machine.take(classes, at) {
            return Err(Refused {
                stop,
                at: at as usize,
            });
        }
    }
    match machine.finish(classes, count) {
        Ok(events) => Ok(events),
        Err(stop) => Err(Refused {
            stop,
            at: classes.len(),
        }),
    }
}
