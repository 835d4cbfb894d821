//! Why a call gives no answer.

use av_lex::LexFault;
use av_printer::PrintFault;
use av_reader::ReadRefusal;
use av_verify::VerifyRefusal;
use std::alloc::AllocError;
use thiserror::Error;

/// Why a call gives no answer, whose words are the answer then.
#[derive(Debug, Drop, Error)]
pub enum Stop {
    #[error("{0}")]
    Lex(#[from] LexFault),
    #[error("{0}")]
    Read(#[from] ReadRefusal),
    #[error("{0}")]
    Verify(#[from] VerifyRefusal),
    #[error("{0}")]
    Print(#[from] PrintFault),
    #[error("out of memory")]
    Memory(#[from(alloc)] AllocError),
}
