//! Types whose names differ from a call's only in the case of their letters.

use super::Buffer;
use av_affine::Seq;

/// The end of a run: one buffer for each memref argument, and the patterns of the results.
#[derive(Debug, Drop, PartialEq)]
pub struct Ended {
    pub buffers: Seq<Buffer>,
    pub results: Seq<u64>,
}
