//! What a case asks.
ghost use Rattle.std.specs.Prelude.{◌≤◌, ◌^◌, vec_len};

use crate::call::Call;
use crate::texts::MOST_BYTES;
use av_cases::{Case, CaseFault, Why, all_replaced};
use std::alloc::{AllocError, Global};

/// The fields of a case.
pub const FIELDS: [&str; 6] = ["do", "input", "marked", "brackets", "signs", "gives"];

// What stands in a marked text at the place that is told.
const MARK: u8 = b'|';

/// A call, the text that it gets, and the text that it is to give.
#[derive(Drop)]
pub struct Question {
    pub call: Call,
    pub text: Vec<u8>,
    pub gives: Vec<u8>,
    ghost few: { vec_len text ≤ 2 ^ 20 },
}

impl Question {
    /// The question of a case.
    pub fn of(alloc: Global, case: &Case) -> Result<Question, CaseFault> {
        let call = Call::of(case)?;
        let (text, gives) = if case.is_yes("marked")? {
            unmarked(alloc, case)?
        } else {
            let text = field(alloc, case, "input")?;
            (text, field(alloc, case, "gives")?)
        };
        if text.len() > MOST_BYTES {
            return Err(case.fault("input", Why::BadValue));
        }
        Ok(Question { call, text, gives })
    }
}

// The text without its mark, and what it gives with the mark's place for each `<place>`.
fn unmarked(alloc: Global, case: &Case) -> Result<(Vec<u8>, Vec<u8>), CaseFault> {
    let text = case.bytes("input");
    let Some(place) = text.iter().position(|byte| *byte == MARK) else {
        return Err(case.fault("input", Why::BadValue));
    };
    match parts(alloc, text, place, case.bytes("gives")) {
        Ok(parts) => Ok(parts),
        Err(_) => Err(case.fault("input", Why::NoMemory)),
    }
}

fn parts(
    alloc: Global,
    text: &[u8],
    place: usize,
    gives: &[u8],
) -> Result<(Vec<u8>, Vec<u8>), AllocError> {
    let mut plain = text.get(..place).unwrap_or(&[]).to_vec(alloc)?;
    let behind = place.saturating_add(1);
    plain.extend_from_slice(text.get(behind..).unwrap_or(&[]))?;
    let told = place.to_string(alloc)?;
    Ok((
        plain,
        all_replaced(alloc, gives, b"<place>", told.as_bytes())?,
    ))
}

fn field(alloc: Global, case: &Case, key: &str) -> Result<Vec<u8>, CaseFault> {
    match case.bytes(key).to_vec(alloc) {
        Ok(bytes) => Ok(bytes),
        Err(_) => Err(case.fault(key, Why::NoMemory)),
    }
}
