//! Reads and writes that go on until all is done.
ghost use Rattle.std.specs.Prelude.{◌≡◌, ℕ, ◌<◌, ◌≤◌, ◌-◌, List, length, take, is_some, OnOk, OnErr, IfOk};
ghost use Rattle.std.specs.Io.KnownBytes.{Appends, Consumes, IsAtEnd};
ghost use Rattle.av_io.specs.Devices.{HasCause, HasRoom, ReadsFew, Takes};

use crate::device::{Failed, Sink, Source};

/// Writes all of `bytes`, in as many calls as that takes. Where a call fails, the sink has taken
/// what the calls before it took.
pub fn write_all<O: Sink>(to: &mut O, bytes: &[u8]) -> Result<(), Failed>
    requires { HasRoom (O.room to.old) (length bytes.now) }
    ensures ok { OnOk result
        (Takes (O.held to.old) (O.held to.new) (O.room to.old) (O.room to.new) bytes.now) }
    ensures failed { OnErr result ((n : ℕ) × (n < length bytes.now)
        × Takes (O.held to.old) (O.held to.new) (O.room to.old) (O.room to.new)
        (take n bytes.now)) }
    ensures told { is_some (O.held to.new) ≡ is_some (O.held to.old) }
    ensures cause { HasCause (O.faults to.old) (O.faults to.new) result }
{
    let mut done = 0;
    while done < bytes.len() {
        done += to.write(&bytes[done..])?;
    }
    Ok(())
}

/// Reads until `into` is full or the input ends, and says how many bytes came: fewer than `into`
/// has places only at the end of the input. Where a call fails, what the calls before it gave is
/// lost.
pub fn read_full<I: Source>(from: &mut I, into: &mut [u8]) -> Result<usize, Failed>
    ensures bound { IfOk result (λ n. n ≤ length into.new) }
    ensures bytes { IfOk result
        (λ n. Consumes (I.left from.old) (I.left from.new) (take n into.new)) }
    ensures end { IfOk result (λ n. n < length into.new → IsAtEnd (I.left from.new)) }
    ensures lost { OnErr result
        ((bytes : List ℕ) × (length bytes ≤ length into.new) × Consumes (I.left from.old) (I.left from.new) bytes) }
    ensures told { is_some (I.left from.new) ≡ is_some (I.left from.old) }
    // At most one read more than bytes were taken: where each takes one byte at most, none follows
    // the end, or a fault that lasts.
    ensures few { ReadsFew (length into.new) (I.left from.old) (I.left from.new) (I.calls from.old) (I.calls from.new) }
    ensures cause { HasCause (I.faults from.old) (I.faults from.new) result }
{
    let mut done = 0;
    while done < into.len() {
        let count = from.read(&mut into[done..])?;
        if count == 0 {
            break;
        }
        done += count;
    }
    Ok(done)
}
