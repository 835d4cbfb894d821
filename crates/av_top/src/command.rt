//! The command as a whole.

ghost use Rattle.std.specs.Prelude.{◌≡◌, ℕ, ◌≤◌, ◌⊎◌, IfOk, List, Some, codes, length};
ghost use Rattle.av_io.specs.Devices.{ReadsFew, Rose};
ghost use Rattle.av_top.specs.Request.{AsksNothing, IsVectorize, texts};
ghost use Rattle.av_top.specs.Answered.{Answered, DeliversAnswer};
ghost use Rattle.av_top.specs.Decided.{Asks, Decided, IsBadText, NoFault};
ghost use Rattle.av_top.specs.FirstPathText.{IsFirstPathText, IsNoText, IsTooLarge, IsUnbuilt};
ghost use Rattle.av_top.specs.Outcome.{Delivered, InputAfter, IsAnswered, RefusalEnds, SinksAfter, Undelivered};
ghost use Rattle.av_top.specs.TextFault.{IsTextFault, line_of};
ghost use Rattle.av_top.specs.declared.request.Request.{Request as OneRequest};
ghost use Rattle.av_top.specs.declared.status.TextFault.{TextFault as OneFault};

use crate::answer::{Refusal, answer};
use crate::delivery::{Delivery, deliver, note};
use crate::intake::{Intake, IntakeStop, read_input};
use crate::request::{Request, request_of};
use crate::status::{Status, TextFault};
use av_io::{Sink, Source};
use std::alloc::{AllocError, Global};

/// Does what the words ask for: reads `input`, and writes the module's text to `output` and the report
/// to `notes`. The words are those after the program's name.
///
/// A refusal leaves `output` as it was, and its line is offered to `notes`.
pub fn affvec<I: Source, O: Sink, N: Sink>(
    alloc: Global,
    words: &[String],
    input: &mut I,
    output: &mut O,
    notes: &mut N,
) -> Status
    // The words alone decide on their refusal, but for memory.
    ensures usage { result ≡ Status.BadUsage → AsksNothing (texts words.now) }
    ensures usage_only { AsksNothing (texts words.now) → (result ≡ Status.BadUsage) ⊎ (result ≡ Status.NoMemory) }
    ensures input { InputAfter result (I.left input.old) (I.left input.new) (I.faults input.old) (I.faults input.new) }
    // Nothing is read for words that are refused. Otherwise at most a megabyte and one reads are made, and where
    // the source tells its bytes at most one more than bytes were taken: at a source that gives one byte a read,
    // none follows the end, or a fault that lasts.
    ensures unread { result ≡ Status.BadUsage → I.calls input.new ≡ I.calls input.old }
    ensures reads { ReadsFew 1048577 (I.left input.old) (I.left input.new) (I.calls input.old) (I.calls input.new) }
    ensures sinks { SinksAfter result (O.held output.old) (O.held output.new) (O.faults output.old) (O.faults output.new) (N.held notes.old) (N.held notes.new) (N.faults notes.old) (N.faults notes.new) }
    // Where the source tells its bytes, they alone decide between the statuses below, but for faults and memory.
    ensures too_large { (request : OneRequest) (bytes : List ℕ) → Asks (texts words.now) (I.left input.old) request bytes → result ≡ Status.TooLarge → IsTooLarge bytes }
    ensures too_large_only { (request : OneRequest) (bytes : List ℕ) → Asks (texts words.now) (I.left input.old) request bytes → IsTooLarge bytes → (Rose (I.faults input.old) (I.faults input.new) → ⊥) → (result ≡ Status.TooLarge) ⊎ (result ≡ Status.NoMemory) }
    ensures bad_text { (request : OneRequest) (bytes : List ℕ) (place : ℕ) (fault : OneFault) → Asks (texts words.now) (I.left input.old) request bytes → result ≡ Status.BadText place fault → IsTextFault bytes place fault }
    ensures bad_text_only { (request : OneRequest) (bytes : List ℕ) (place : ℕ) (fault : OneFault) → Asks (texts words.now) (I.left input.old) request bytes → IsTextFault bytes place fault → (Rose (I.faults input.old) (I.faults input.new) → ⊥) → (result ≡ Status.BadText place fault) ⊎ (result ≡ Status.NoMemory) }
    // A text is bad exactly where it has no tokens or no tree.
    ensures no_text { (request : OneRequest) (bytes : List ℕ) → Asks (texts words.now) (I.left input.old) request bytes → IsBadText result → IsNoText bytes }
    ensures no_text_only { (request : OneRequest) (bytes : List ℕ) → Asks (texts words.now) (I.left input.old) request bytes → IsNoText bytes → (Rose (I.faults input.old) (I.faults input.new) → ⊥) → IsBadText result ⊎ (result ≡ Status.NoMemory) }
    ensures not_built { (request : OneRequest) (bytes : List ℕ) → Asks (texts words.now) (I.left input.old) request bytes → result ≡ Status.NotBuilt → IsUnbuilt request.size bytes }
    ensures not_built_only { (request : OneRequest) (bytes : List ℕ) → Asks (texts words.now) (I.left input.old) request bytes → IsUnbuilt request.size bytes → (Rose (I.faults input.old) (I.faults input.new) → ⊥) → (result ≡ Status.NotBuilt) ⊎ (result ≡ Status.NoMemory) }
    ensures done { (request : OneRequest) (bytes : List ℕ) → Asks (texts words.now) (I.left input.old) request bytes → IsFirstPathText request.size bytes → NoFault (I.faults input.old) (I.faults input.new) (O.faults output.old) (O.faults output.new) (N.faults notes.old) (N.faults notes.new) → (result ≡ Status.Done) ⊎ (result ≡ Status.NoMemory) }
    // The answer to the input was delivered, whole at Done.
    ensures answer { result ≡ Status.Done → (request : OneRequest) × IsVectorize (texts words.now) request × Answered request (I.left input.old) (I.left input.new) (Delivered (O.held output.old) (O.held output.new) (O.faults output.old) (O.faults output.new) (N.held notes.old) (N.held notes.new) (N.faults notes.old) (N.faults notes.new)) }
    ensures part_of_answer { result ≡ Status.WriteFault → (request : OneRequest) × IsVectorize (texts words.now) request × Answered request (I.left input.old) (I.left input.new) (Undelivered (O.held output.old) (O.held output.new) (O.faults output.old) (O.faults output.new) (N.held notes.old) (N.held notes.new) (N.faults notes.old) (N.faults notes.new)) }
{
    match request_of(words) {
        Some(request) => perform(alloc, request, input, output, notes),
        None => refuse(notes, Status::BadUsage, b"affvec: usage\n"),
    }
}

// Offers the line of a refusal to the notes.
fn refuse<N: Sink>(notes: &mut N, refusal: Status, line: &[u8]) -> Status
    ensures { RefusalEnds result refusal line.now (N.held notes.old) (N.held notes.new) (N.faults notes.old) (N.faults notes.new) }
{
    if note(notes, line).is_ok() {
        refusal
    } else {
        Status::NoMemory
    }
}

// Tells of a fault of the text, and of its place.
fn refuse_text<N: Sink>(alloc: Global, notes: &mut N, place: u32, fault: TextFault) -> Status
    ensures { RefusalEnds result (Status.BadText place fault) (line_of place fault) (N.held notes.old) (N.held notes.new) (N.faults notes.old) (N.faults notes.new) }
{
    match text_line(alloc, place, fault) {
        Ok(line) => refuse(notes, Status::BadText(place, fault), line.as_slice()),
        Err(_) => Status::NoMemory,
    }
}

// The line that tells of a fault of the text, and of its place.
fn text_line(alloc: Global, place: u32, fault: TextFault) -> Result<Vec<u8>, AllocError>
    ensures { IfOk result (λ line. line.items ≡ line_of place fault) }
{
    let place = place.to_string(alloc)?;
    let mut line = Vec::new(alloc);
    line.extend_from_slice(b"affvec: text at ")?;
    line.extend_from_slice(place.as_bytes())?;
    line.extend_from_slice(b": ")?;
    line.extend_from_slice(fault.words())?;
    line.extend_from_slice(b"\n")?;
    Ok(line)
}

// Reads the input, works the texts out, and delivers them.
fn perform<I: Source, O: Sink, N: Sink>(
    alloc: Global,
    request: Request,
    input: &mut I,
    output: &mut O,
    notes: &mut N,
) -> Status
    requires { (1 ≤ request.size) × (request.size ≤ 64) }
    ensures usage { result ≡ Status.BadUsage → ⊥ }
    ensures input { InputAfter result (I.left input.old) (I.left input.new) (I.faults input.old) (I.faults input.new) }
    ensures reads { ReadsFew 1048577 (I.left input.old) (I.left input.new) (I.calls input.old) (I.calls input.new) }
    ensures sinks { SinksAfter result (O.held output.old) (O.held output.new) (O.faults output.old) (O.faults output.new) (N.held notes.old) (N.held notes.new) (N.faults notes.old) (N.faults notes.new) }
    ensures decided { (bytes : List ℕ) → I.left input.old ≡ Some bytes → Decided result request bytes }
    ensures answer { result ≡ Status.Done → Answered request (I.left input.old) (I.left input.new) (Delivered (O.held output.old) (O.held output.new) (O.faults output.old) (O.faults output.new) (N.held notes.old) (N.held notes.new) (N.faults notes.old) (N.faults notes.new)) }
    ensures part_of_answer { result ≡ Status.WriteFault → Answered request (I.left input.old) (I.left input.new) (Undelivered (O.held output.old) (O.held output.new) (O.faults output.old) (O.faults output.new) (N.held notes.old) (N.held notes.new) (N.faults notes.old) (N.faults notes.new)) }
{
    match read_input(alloc, input) {
        Ok(Intake::Text(bytes)) => work_out(alloc, request, bytes.as_slice(), output, notes),
        Ok(Intake::TooMuch) => refuse(notes, Status::TooLarge, b"affvec: input too large\n"),
        Err(IntakeStop::Fault) => refuse(notes, Status::ReadFault, b"affvec: read fault\n"),
        Err(IntakeStop::NoMemory) => Status::NoMemory,
    }
}

// Works the texts out, and delivers them.
fn work_out<O: Sink, N: Sink>(
    alloc: Global,
    request: Request,
    bytes: &[u8],
    output: &mut O,
    notes: &mut N,
) -> Status
    requires { (1 ≤ request.size) × (request.size ≤ 64) × (length bytes.now ≤ 1048576) }
    ensures kind { IsAnswered result }
    ensures sinks { SinksAfter result (O.held output.old) (O.held output.new) (O.faults output.old) (O.faults output.new) (N.held notes.old) (N.held notes.new) (N.faults notes.old) (N.faults notes.new) }
    ensures decided { Decided result request bytes.now }
    ensures answer { result ≡ Status.Done → DeliversAnswer request bytes.now (Delivered (O.held output.old) (O.held output.new) (O.faults output.old) (O.faults output.new) (N.held notes.old) (N.held notes.new) (N.faults notes.old) (N.faults notes.new)) }
    ensures part_of_answer { result ≡ Status.WriteFault → DeliversAnswer request bytes.now (Undelivered (O.held output.old) (O.held output.new) (O.faults output.old) (O.faults output.new) (N.held notes.old) (N.held notes.new) (N.faults notes.old) (N.faults notes.new)) }
{
    match answer(alloc, request, bytes) {
        Ok(texts) => match deliver(&texts.text, &texts.report, output, notes) {
            Delivery::Done => Status::Done,
            Delivery::Fault => Status::WriteFault,
            Delivery::NoMemory => Status::NoMemory,
        },
        Err(Refusal::BadText(place, fault)) => refuse_text(alloc, notes, place, fault),
        Err(Refusal::NotBuilt) => refuse(notes, Status::NotBuilt, b"affvec: not built\n"),
        Err(Refusal::NoMemory) => Status::NoMemory,
    }
}
