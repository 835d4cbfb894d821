//! The devices that a case asks for.
ghost use Rattle.std.specs.Prelude.{◌<◌, IfOk};

use av_cases::{Case, CaseFault, Why};
use av_io::{MemSink, MemSource};
use std::alloc::{AllocError, Global};

/// How many bytes a device moves in one call at most.
pub(crate) fn most_of(case: &Case, key: &str, otherwise: u64) -> Result<usize, CaseFault>
    ensures { IfOk result (λ most. 0 < most) }
{
    match usize::try_from(case.number(key, otherwise)?) {
        Ok(most) if most > 0 => Ok(most),
        _ => Err(case.fault(key, Why::BadValue)),
    }
}

/// The source of these bytes that a case asks for.
pub(crate) fn source_of(alloc: Global, case: &Case, input: &[u8]) -> Result<MemSource, CaseFault> {
    let most = most_of(case, "most", 4096)?;
    let fails = case.numbers(alloc, "fails")?;
    match input.to_vec(alloc) {
        Ok(bytes) => Ok(MemSource::new(bytes, most, fails)),
        Err(_) => Err(case.fault("input", Why::NoMemory)),
    }
}

/// The sink that a case asks for by these fields.
pub(crate) fn sink_of(
    alloc: Global,
    case: &Case,
    most: &str,
    fails: &str,
) -> Result<MemSink, CaseFault> {
    let most = most_of(case, most, 100)?;
    Ok(MemSink::new(alloc, most, case.numbers(alloc, fails)?))
}

/// A number as it is compared.
pub(crate) fn digits(alloc: Global, number: u64) -> Result<String, AllocError> {
    number.to_string(alloc)
}
