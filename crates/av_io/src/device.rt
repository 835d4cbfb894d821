//! What a source and a sink are.
ghost use Rattle.std.specs.Prelude.{◌≡◌, ℕ, ◌-◌, ◌^◌, ◌<◌, ◌≤◌, List, length, Option, IfOk, OnOk, OnErr, is_some};
ghost use Rattle.std.specs.Io.{ReadsAtMost, WritesAtMost};
ghost use Rattle.std.specs.Io.KnownBytes.{ReadConsumes, WriteAppends};
ghost use Rattle.av_io.specs.Devices.{HasCause, HasRoom, WriteUsesRoom, counted};

use std::alloc::AllocError;

/// A read or a write that did not succeed. The device's count of faults rose in that call.
#[derive(Clone, Copy, Debug, PartialEq, Eq)]
pub struct Failed;

/// Where bytes come from, in pieces.
pub trait Source {
    // The bytes still to come, where the source tells them.
    ghost left: { Self → Option (List ℕ) };

    // How many reads were made. It stands still at 2 ^ 64 - 1.
    ghost calls: { Self → ℕ };

    // How many calls have failed. It stands still at 2 ^ 64 - 1.
    ghost faults: { Self → ℕ };

    /// Reads some bytes to the front of `into`, and says how many. `Ok(0)` on a non-empty `into` is
    /// the end of the input.
    fn read(&mut self, into: &mut [u8]) -> Result<usize, Failed>
        ensures bound { ReadsAtMost result into.new }

        // The bytes read are the first of those left, and are gone; a failed read takes none.
        ensures bytes { ReadConsumes (left self.old) (left self.new) result into.new }
        ensures told { is_some (left self.new) ≡ is_some (left self.old) }
        ensures calls { calls self.new ≡ counted (calls self.old) }
        ensures cause { HasCause (faults self.old) (faults self.new) result };

    ghost count_fits: { (source : Self) → faults source ≤ 2 ^ 64 - 1 };
}

/// Where bytes go, in pieces.
pub trait Sink {
    // The bytes taken, where the sink tells them.
    ghost held: { Self → Option (List ℕ) };

    // How many calls have failed. It stands still at 2 ^ 64 - 1.
    ghost faults: { Self → ℕ };

    // For how many bytes there is room, where the sink tells it.
    ghost room: { Self → Option ℕ };

    /// Makes room for `n` more bytes. Where memory is short for that, all stays as it was.
    fn reserve(&mut self, n: usize) -> Result<(), AllocError>
        ensures made { OnOk result (HasRoom (room self.new) n) }
        ensures kept { (m : ℕ) → HasRoom (room self.old) m → HasRoom (room self.new) m }
        ensures short { OnErr result (room self.new ≡ room self.old) }
        ensures told { is_some (room self.new) ≡ is_some (room self.old) }
        ensures held { held self.new ≡ held self.old }
        ensures faults { faults self.new ≡ faults self.old };

    /// Takes some bytes from the front of `piece`, and says how many: at least one of a piece that
    /// is not empty.
    fn write(&mut self, piece: &[u8]) -> Result<usize, Failed>
        requires { HasRoom (room self.old) (length piece.now) }
        ensures bound { WritesAtMost result piece.now }
        ensures some { IfOk result (λ n. 0 < length piece.now → 0 < n) }

        // The bytes taken follow those held; a failed write takes none.
        ensures bytes { WriteAppends (held self.old) (held self.new) result piece.now }
        ensures told { is_some (held self.new) ≡ is_some (held self.old) }
        ensures room { WriteUsesRoom (room self.old) (room self.new) result }
        ensures cause { HasCause (faults self.old) (faults self.new) result };

    ghost count_fits: { (sink : Self) → faults sink ≤ 2 ^ 64 - 1 };
}
