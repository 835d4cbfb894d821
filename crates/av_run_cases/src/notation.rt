//! Functions in a notation of their own, so that a case can have what no text has.
//!
//! ```text
//! 1 func.func sum memref<?xi8> index i8 -> i8
//! 2 affine.for lower=affine_map<()->(0)> upper=affine_map<()[s0]->(s0)> step=1 1 2 -> i8
//! { index i8
//! 3 affine.load map=affine_map<(d0)->(d0)> 0 4 -> i8
//! 4 arith.addi 5 6 -> i8
//! 5 affine.yield 7
//! }
//! 6 func.return 3
//! ```
//!
//! - A line has the number of an operation, which counts these lines from 1, its name, its operands, its
//!   properties, and behind `->` the types of its results.
//! - Values are numbered from 0 in each function, in the order in which their types stand there.
//! - The regions of an operation follow it in braces, each with the types of its arguments.

use crate::kinds::kind;
use crate::types::ty;
use crate::words::magnitude;
use av_affine::{No, Seq};
use av_cases::Why;
use av_ir::{Func, Marks, Module, Op, Region, Ty, ValueId};
use std::alloc::Global;

const NO_MARKS: Marks = Marks {
    loop_no: None,
    source: None,
    distinct: false,
};

/// A property of an operation: `KEY=VALUE`, without blanks.
#[derive(Drop)]
pub struct Property {
    pub key: String,
    pub value: String,
}

/// A line of an operation.
#[derive(Drop)]
pub struct Line {
    pub number: No,
    pub name: String,
    pub operands: Vec<String>,
    pub properties: Vec<Property>,
    /// The types behind the arrow.
    pub results: Vec<String>,
}

impl Line {
    /// The value of a property.
    pub fn property(&self, key: &str) -> Result<&str, Why> {
        for property in self.properties.iter() {
            if property.key.as_str() == key {
                return Ok(property.value.as_str());
            }
        }
        Err(Why::BadValue)
    }
}

fn line_of(alloc: Global, text: &str) -> Result<Line, Why> {
    let (number, text) = text.split_once(" ").ok_or(Why::BadValue)?;
    let mut line = Line {
        number: magnitude(number)?,
        name: String::new(alloc),
        operands: Vec::new(alloc),
        properties: Vec::new(alloc),
        results: Vec::new(alloc),
    };
    let mut is_result = false;
    for word in text.split_whitespace() {
        if line.name.is_empty() {
            line.name.push_str(word)?;
        } else if is_result {
            line.results.push(String::from_str(alloc, word)?)?;
        } else if word == "->" {
            is_result = true;
        } else if let Some((key, value)) = word.split_once("=") {
            line.properties.push(Property {
                key: String::from_str(alloc, key)?,
                value: String::from_str(alloc, value)?,
            })?;
        } else {
            line.operands.push(String::from_str(alloc, word)?)?;
        }
    }
    Ok(line)
}

// A function under way, with the regions that are begun and not ended, its body first.
#[derive(Drop)]
struct Draft {
    name: String,
    number: No,
    values: Seq<Ty>,
    results: Seq<Ty>,
    open: Vec<Region>,
}

impl Draft {
    // The function that a line begins.
    fn begun(alloc: Global, line: &Line) -> Result<Draft, Why> {
        let [name, args @ ..] = line.operands.as_slice() else {
            return Err(Why::BadValue);
        };
        let mut draft = Draft {
            name: name.clone()?,
            number: line.number,
            values: Seq::new(alloc),
            results: Seq::new(alloc),
            open: Vec::new(alloc),
        };
        for word in line.results.iter() {
            draft.results.push(ty(alloc, word.as_str())?)?;
        }
        draft.begin_region(alloc, args)?;
        Ok(draft)
    }

    // New values of these types.
    fn new_values(&mut self, alloc: Global, types: &[String]) -> Result<Seq<ValueId>, Why> {
        let mut ids = Seq::new(alloc);
        for word in types {
            ids.push(ValueId(self.values.len() as No))?;
            self.values.push(ty(alloc, word.as_str())?)?;
        }
        Ok(ids)
    }

    fn begin_region(&mut self, alloc: Global, types: &[String]) -> Result<(), Why> {
        let args = self.new_values(alloc, types)?;
        let ops = Seq::new(alloc);
        self.open.push(Region { args, ops })?;
        Ok(())
    }

    // Ends the region begun last, which the last operation of the one around it gets.
    fn end_region(&mut self) -> Result<(), Why> {
        let Some(region) = self.open.pop() else {
            return Err(Why::BadValue);
        };
        let Some(mut outer) = self.open.pop() else {
            return Err(Why::BadValue);
        };
        let Some(mut op) = outer.ops.pop() else {
            return Err(Why::BadValue);
        };
        op.regions.push(region)?;
        outer.ops.push(op)?;
        self.open.push(outer)?;
        Ok(())
    }

    fn add(&mut self, alloc: Global, line: &Line) -> Result<(), Why> {
        let mut operands = Seq::new(alloc);
        for word in line.operands.iter() {
            operands.push(ValueId(magnitude(word.as_str())?))?;
        }
        let op = Op {
            number: line.number,
            kind: kind(alloc, line)?,
            operands,
            results: self.new_values(alloc, line.results.as_slice())?,
            regions: Seq::new(alloc),
            marks: NO_MARKS,
        };
        let Some(mut region) = self.open.pop() else {
            return Err(Why::BadValue);
        };
        region.ops.push(op)?;
        self.open.push(region)?;
        Ok(())
    }

    fn finished(self, alloc: Global) -> Result<Func, Why> {
        let Draft {
            name,
            number,
            values,
            results,
            mut open,
        } = self;
        let body = open.pop().ok_or(Why::BadValue)?;
        if !open.is_empty() {
            return Err(Why::BadValue);
        }
        Ok(Func {
            name: Seq::from_slice(alloc, name.as_bytes())?,
            number,
            values,
            results,
            body,
            marks: NO_MARKS,
        })
    }
}

/// The module of functions in the notation.
pub fn functions(alloc: Global, written: &[u8]) -> Result<Module, Why> {
    let Ok(written) = str::from_utf8(written) else {
        return Err(Why::BadValue);
    };
    let mut drafts = Vec::new(alloc);
    let mut owners = Seq::new(alloc);
    owners.push(0)?;
    for text in written.lines() {
        add_line(alloc, &mut drafts, &mut owners, text)?;
    }
    let mut funcs = Seq::new(alloc);
    for draft in drafts {
        funcs.push(draft.finished(alloc)?)?;
    }
    Ok(Module { funcs, owners })
}

fn add_line(
    alloc: Global,
    drafts: &mut Vec<Draft>,
    owners: &mut Seq<No>,
    text: &str,
) -> Result<(), Why> {
    if let Some(types) = text.strip_prefix("{") {
        return begin_region(alloc, drafts, types);
    }
    if text == "}" {
        return last(drafts)?.end_region();
    }
    let line = line_of(alloc, text)?;
    if line.number != owners.len() as No {
        return Err(Why::BadValue);
    }
    if line.name.as_str() == "func.func" {
        drafts.push(Draft::begun(alloc, &line)?)?;
    } else {
        last(drafts)?.add(alloc, &line)?;
    }
    owners.push(drafts.len().saturating_sub(1) as No)?;
    Ok(())
}

fn begin_region(alloc: Global, drafts: &mut Vec<Draft>, types: &str) -> Result<(), Why> {
    let mut words = Vec::new(alloc);
    for word in types.split_whitespace() {
        words.push(String::from_str(alloc, word)?)?;
    }
    last(drafts)?.begin_region(alloc, words.as_slice())
}

fn last(drafts: &mut Vec<Draft>) -> Result<&mut Draft, Why> {
    drafts.last_mut().ok_or(Why::BadValue)
}
