//! The calls that a case may ask for.
ghost use Rattle.std.specs.Prelude.{◌≤◌, ◌^◌, length};

use crate::built::distinct;
use crate::prefixes::prefixes;
use crate::stop::Stop;
use crate::texts::{derivation, reading, tokens};
use crate::trees::{answer, path, printed, shown, sunk, verified, written};
use av_cases::{Case, CaseFault, Why};
use av_derive::Limits;
use av_printer::Form;
use std::alloc::{AllocError, Global};

/// A call, by the words of the field `do`.
#[derive(Clone, Copy)]
pub enum Call {
    /// `lex`
    Lex,
    /// `derive`, within the limits of the fields `brackets` and `signs`.
    Derive(Limits),
    /// `read`
    Read,
    /// `read each prefix`
    EachPrefix,
    /// `print named` and `print generic`
    Print(Form),
    /// `print named to a sink` and `print generic to a sink`
    Sink(Form),
    /// `is first path`
    IsFirstPath,
    /// `verify`
    Verify,
    /// `write named` and `write generic`
    Write(Form),
    /// `write distinct`, a function that is built and has no text so far.
    WriteDistinct,
    /// `answer named` and `answer generic`
    Answer(Form),
}

impl Call {
    /// The call of a case.
    pub fn of(case: &Case) -> Result<Call, CaseFault> {
        match case.bytes("do") {
            b"lex" => Ok(Call::Lex),
            b"derive" => Ok(Call::Derive(limits_of(case)?)),
            b"read" => Ok(Call::Read),
            b"read each prefix" => Ok(Call::EachPrefix),
            b"print named" => Ok(Call::Print(Form::Named)),
            b"print generic" => Ok(Call::Print(Form::Generic)),
            b"print named to a sink" => Ok(Call::Sink(Form::Named)),
            b"print generic to a sink" => Ok(Call::Sink(Form::Generic)),
            b"is first path" => Ok(Call::IsFirstPath),
            b"verify" => Ok(Call::Verify),
            b"write named" => Ok(Call::Write(Form::Named)),
            b"write generic" => Ok(Call::Write(Form::Generic)),
            b"write distinct" => Ok(Call::WriteDistinct),
            b"answer named" => Ok(Call::Answer(Form::Named)),
            b"answer generic" => Ok(Call::Answer(Form::Generic)),
            _ => Err(case.fault("do", Why::BadValue)),
        }
    }

    /// What the call gives for a text, or the words of why it gives nothing.
    pub fn gives(self, alloc: Global, text: &[u8]) -> Result<String, AllocError>
        requires { length text.now ≤ 2 ^ 20 }
    {
        match self.made(alloc, text) {
            Ok(given) => Ok(given),
            Err(stop) => stop.to_string(alloc),
        }
    }

    fn made(self, alloc: Global, text: &[u8]) -> Result<String, Stop>
        requires { length text.now ≤ 2 ^ 20 }
    {
        match self {
            Call::Lex => tokens(alloc, text),
            Call::Derive(limits) => derivation(alloc, text, limits),
            Call::Read => reading(alloc, text),
            Call::EachPrefix => prefixes(alloc, text),
            Call::Print(form) => printed(alloc, text, form),
            Call::Sink(form) => sunk(alloc, text, form),
            Call::IsFirstPath => path(alloc, text),
            Call::Verify => verified(alloc, text),
            Call::Write(form) => written(alloc, text, form),
            Call::WriteDistinct => shown(alloc, &distinct(alloc)?, Form::Named),
            Call::Answer(form) => answer(alloc, text, form),
        }
    }
}

fn limits_of(case: &Case) -> Result<Limits, CaseFault> {
    Ok(Limits {
        brackets: limit(case, "brackets")?,
        signs: limit(case, "signs")?,
    })
}

fn limit(case: &Case, key: &str) -> Result<u32, CaseFault> {
    match u32::try_from(case.number(key, 192)?) {
        Ok(limit) => Ok(limit),
        Err(_) => Err(case.fault(key, Why::BadValue)),
    }
}
