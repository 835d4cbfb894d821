//! The texts that answer a request.

ghost use Rattle.std.specs.Prelude.{◌≡◌, ◌≤◌, ℕ, List, length, IfErr, IfOk};
ghost use Rattle.std.specs.List.{All};
ghost use Rattle.av_ir.specs.Marks.{marked_of};
ghost use Rattle.av_top.specs.Answer.{Answers, printed};
ghost use Rattle.av_top.specs.FirstPathText.{IsModuleOf};
ghost use Rattle.av_top.specs.Refusals.{Refuses, RefusesTree};
ghost use Rattle.av_top.specs.Report.{reported};
ghost use Rattle.av_top.specs.Values.{most_of};
ghost use Rattle.av_output_laws.specs.ReturnLaws.{HasFewValues};

use crate::report::report_of;
use crate::request::Request;
use crate::status::TextFault;
use av_affine::Text;
use av_ir::{Func, Module, inner_loops, marked};
use av_lex::{LexFault, lex};
use av_printer::{Form, spell};
use av_reader::{ReadRefusal, read};
use av_shapes::Shape;
use av_totree::to_tree;
use av_tree::Tree;
use av_verify::{Mode, VerifyRefusal, is_first_path, verify};
use std::alloc::{AllocError, Global};

/// The texts of the output and of the notes.
#[derive(Drop)]
pub struct Texts {
    pub text: Text,
    pub report: Text,
}

/// Why there is no answer.
#[derive(Clone, Copy, Debug, Drop, PartialEq)]
pub enum Refusal {
    /// The input has no tokens or no tree.
    BadText(u32, TextFault),
    /// The input is a text, but none of the forms that are taken.
    NotBuilt,
    NoMemory,
}

impl From<AllocError> for Refusal {
    ghost use Rattle.std.specs.Prelude.{◌≡◌};
    ghost use Rattle.av_top.specs.declared.answer.Refusal.TheVariants.{NoMemory};

    ghost from_gives = { λ _ refusal. refusal ≡ NoMemory };

    fn from(_fault: AllocError) -> Refusal {
        Refusal::NoMemory
    }
}

impl From<LexFault> for Refusal {
    ghost use Rattle.std.specs.Prelude.{◌≡◌};
    ghost use Rattle.av_top.specs.Refusals.{lex_refused};

    ghost from_gives = { λ fault refusal. refusal ≡ lex_refused fault };

    fn from(fault: LexFault) -> Refusal {
        match fault {
            LexFault::NoMemory => Refusal::NoMemory,
            LexFault::BadByte(place) => Refusal::BadText(place, TextFault::BadByte),
            LexFault::LongNumber(place) => Refusal::BadText(place, TextFault::LongNumber),
        }
    }
}

impl From<ReadRefusal> for Refusal {
    ghost use Rattle.std.specs.Prelude.{◌≡◌};
    ghost use Rattle.av_top.specs.Refusals.{read_refused};

    ghost from_gives = { λ fault refusal. refusal ≡ read_refused fault };

    fn from(refusal: ReadRefusal) -> Refusal {
        match refusal {
            ReadRefusal::NoMemory => Refusal::NoMemory,
            ReadRefusal::NotAModule(place) => Refusal::BadText(place, TextFault::NotAModule),
            ReadRefusal::TooDeep(place) => Refusal::BadText(place, TextFault::TooDeep),
        }
    }
}

impl From<VerifyRefusal> for Refusal {
    ghost use Rattle.std.specs.Prelude.{◌≡◌};
    ghost use Rattle.av_top.specs.Refusals.{verify_refused};

    ghost from_gives = { λ fault refusal. refusal ≡ verify_refused fault };

    fn from(refusal: VerifyRefusal) -> Refusal {
        match refusal {
            VerifyRefusal::NoMemory => Refusal::NoMemory,
            VerifyRefusal::Bad(_, _) => Refusal::NotBuilt,
        }
    }
}

/// The answer to a request on an input: the module of its text with marks, and that each inner loop
/// is kept.
///
/// # Errors
///
/// `BadText` where the input has no tokens or no tree, `NotBuilt` where it is no text of the forms that
/// are taken, `NoMemory` where memory lacks.
pub fn answer(alloc: Global, request: Request, bytes: &[u8]) -> Result<Texts, Refusal>
    requires { (1 ≤ request.size) × (request.size ≤ 64) × (length bytes.now ≤ 1048576) }
    ensures ok { IfOk result (λ texts. Answers request bytes.now texts.text texts.report) }
    ensures only { IfOk result (λ texts. (text report : List ℕ) → Answers request bytes.now text report → (text ≡ texts.text) × (report ≡ texts.report)) }
    ensures refused { IfErr result (λ refusal. Refuses refusal request.size bytes.now) }
{
    let tokens = lex(alloc, bytes)?;
    let tree = read(alloc, bytes, tokens.as_slice())?;
    let module = module_of(alloc, request, &tree)?;
    let texts = texts_of(alloc, &module, request.form)?;
    Ok(texts)
}

// What is written, in this form, and reported for a module.
fn texts_of(alloc: Global, module: &Module, form: Form) -> Result<Texts, AllocError>
    ensures text { IfOk result (λ texts. texts.text ≡ printed form «module».now) }
    ensures report { IfOk result (λ texts. texts.report ≡ reported (marked_of «module».now)) }
    ensures few { IfOk result (λ _. All HasFewValues (marked_of «module».now).funcs) }
{
    let marked = marked(alloc, module)?;
    let _most = most_values(marked.funcs.as_slice());
    let tree = to_tree(alloc, &marked)?;
    let text = spell(alloc, &tree, form)?;
    let loops = inner_loops(alloc, &marked)?;
    let report = report_of(alloc, marked.funcs.as_slice(), loops.as_slice())?;
    Ok(Texts { text, report })
}

// The greatest number of values of a function. A list in memory has fewer than 2^64, which is what tells
// the printed names of values apart.
fn most_values(funcs: &[Func]) -> usize
    ensures { result ≡ most_of funcs.now }
{
    let mut most = 0;
    for func in funcs {
        let count = func.values.len();
        if most < count {
            most = count;
        }
    }
    most
}

// The module of a tree, if it has the forms that are taken.
fn module_of(alloc: Global, request: Request, tree: &Tree) -> Result<Module, Refusal>
    requires { (1 ≤ request.size) × (request.size ≤ 64) }
    ensures ok { IfOk result (λ m. IsModuleOf request.size tree.now m) }
    ensures refused { IfErr result (λ refusal. RefusesTree refusal request.size tree.now) }
{
    if !is_first_path(tree) {
        return Err(Refusal::NotBuilt);
    }
    let mode = Mode::Scalar(Shape::new(alloc, &[request.size], false));
    let module = verify(alloc, tree, &mode)?;
    Ok(module)
}
