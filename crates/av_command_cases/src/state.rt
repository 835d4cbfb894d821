//! The numbers of the statuses.

use crate::command::status_is;
use anyhow::Result;
use av_cases::{Case, Tally, Why};
use av_top::{Status, TextFault};
use std::alloc::Global;

/// Compares the number of a status.
pub(crate) fn check(alloc: Global, case: &Case, tally: &mut Tally) -> Result<()> {
    let Some(status) = status_of(case.bytes("status-of")) else {
        return Err(case.fault("status-of", Why::BadValue).into());
    };
    status_is(alloc, case, tally, case.number("status", 0)?, status)
}

fn status_of(name: &[u8]) -> Option<Status> {
    match name {
        b"done" => Some(Status::Done),
        b"bad usage" => Some(Status::BadUsage),
        b"bad text" => Some(Status::BadText(9, TextFault::NotAModule)),
        b"read fault" => Some(Status::ReadFault),
        b"write fault" => Some(Status::WriteFault),
        b"no memory" => Some(Status::NoMemory),
        b"too large" => Some(Status::TooLarge),
        b"not built" => Some(Status::NotBuilt),
        _ => None,
    }
}
