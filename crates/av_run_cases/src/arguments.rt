//! Arguments and ends of runs as words: a pattern as a number, a buffer as `[1,2]`, or as `2[1,2]` with its
//! sizes in front.

use crate::words::magnitude;
use av_affine::Seq;
use av_cases::Why;
use av_ir::types::Ended;
use av_ir::{Arg, Args, Bound, Buffer};
use std::alloc::Global;

/// The arguments of these words.
pub fn arguments(alloc: Global, words: &[String]) -> Result<Args, Why> {
    let mut list = Seq::new(alloc);
    for word in words {
        list.push(argument(alloc, word.as_str())?)?;
    }
    Ok(Args { list })
}

fn argument(alloc: Global, word: &str) -> Result<Arg, Why> {
    if word.ends_with("]") {
        return Ok(Arg::Buf(buffer(alloc, word)?));
    }
    Ok(Arg::Word(magnitude(word)?))
}

/// The buffers of these words.
pub fn buffers(alloc: Global, words: &[String]) -> Result<Seq<Buffer>, Why> {
    let mut list = Seq::new(alloc);
    for word in words {
        list.push(buffer(alloc, word.as_str())?)?;
    }
    Ok(list)
}

fn buffer(alloc: Global, word: &str) -> Result<Buffer, Why> {
    let (sizes, rest) = word.split_once("[").ok_or(Why::BadValue)?;
    let cells = rest.strip_suffix("]").ok_or(Why::BadValue)?;
    let cells = numbers(alloc, cells, ',')?;
    let mut sizes = numbers(alloc, sizes, 'x')?;
    if sizes.is_empty() {
        sizes.push(cells.len() as u64)?;
    }
    Ok(Buffer { sizes, cells })
}

// The numbers of a text, parted by a sign.
fn numbers(alloc: Global, text: &str, sign: char) -> Result<Seq<u64>, Why> {
    let mut numbers = Seq::new(alloc);
    if text.is_empty() {
        return Ok(numbers);
    }
    for word in text.split(sign) {
        numbers.push(magnitude(word)?)?;
    }
    Ok(numbers)
}

/// The buffers and the results of an end, in words.
pub fn shown_end(alloc: Global, end: &Ended) -> Result<String, Why> {
    let mut text = String::new(alloc);
    push_buffers(alloc, &mut text, end.buffers.as_slice())?;
    push_numbers(&mut text, end.results.as_slice())?;
    Ok(text)
}

/// Arguments in memory, in words.
pub fn shown_bound(alloc: Global, bound: &Bound) -> Result<String, Why> {
    let mut text = String::from_str(alloc, "memory")?;
    push_buffers(alloc, &mut text, bound.memory.as_slice())?;
    push_word(&mut text, "at")?;
    push_numbers(&mut text, bound.at.as_slice())?;
    push_word(&mut text, "words")?;
    push_numbers(&mut text, bound.words.as_slice())?;
    Ok(text)
}

fn push_buffers(alloc: Global, text: &mut String, buffers: &[Buffer]) -> Result<(), Why> {
    for buffer in buffers {
        let mut cells = String::new(alloc);
        for cell in buffer.cells.as_slice() {
            if !cells.is_empty() {
                cells.push_str(",")?;
            }
            let cell = *cell;
            write!(cells, "{cell}")?;
        }
        let word = format!(in alloc; "[{cells}]")?;
        push_word(text, word.as_str())?;
    }
    Ok(())
}

fn push_numbers(text: &mut String, numbers: &[u64]) -> Result<(), Why> {
    for number in numbers {
        let number = *number;
        if !text.is_empty() {
            text.push_str(" ")?;
        }
        write!(text, "{number}")?;
    }
    Ok(())
}

/// Puts a word at the end, behind a blank where it is not the first.
pub fn push_word(text: &mut String, word: &str) -> Result<(), Why> {
    if !text.is_empty() {
        text.push_str(" ")?;
    }
    Ok(text.push_str(word)?)
}
