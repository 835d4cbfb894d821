ghost use Rattle.std.specs.Prelude.{◌≢◌, MatchOption};
ghost use Rattle.std.specs.List.{All};
ghost use Rattle.av_ir.specs.Named.{IsNamed};

use super::Module;
use av_affine::No;

/// The place of the function of this name in the module's `funcs`. `None` exactly where none has it.
/// It takes no memory.
pub fn func_of(m: &Module, name: &[u8]) -> Option<No>
    ensures { MatchOption result (All (λ f. f.name ≢ name.now) m.now.funcs) (λ k. IsNamed m.now.funcs name.now k) }
{
    for (place, func) in m.funcs.as_slice().iter().enumerate() {
        if func.name.as_slice() == name {
            return Some(place as No);
        }
    }
    None
}
