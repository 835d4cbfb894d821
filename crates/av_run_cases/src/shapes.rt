//! Cases of shapes, which are written as `4x2x[8]`.
ghost use Rattle.std.specs.Prelude.{IfOk, IsTrue};
ghost use Rattle.av_shapes.specs.Places.{IsScale, IsWithin, extents};

use crate::words::magnitude;
use av_cases::Why;
use av_shapes::{MAX_SCALE, Shape};
use std::alloc::Global;

/// The shape of a word.
pub fn shape(alloc: Global, word: &str) -> Result<Shape, Why> {
    let (word, scalable) = match word.strip_suffix("]") {
        Some(rest) => (rest, true),
        None => (word, false),
    };
    let mut sizes = Vec::new(alloc);
    let mut bracketed = false;
    for part in word.split('x') {
        let digits = part.strip_prefix("[").unwrap_or(part);
        if bracketed {
            return Err(Why::BadValue);
        }
        bracketed = digits.len() < part.len();
        sizes.push(small(digits)?)?;
    }
    if bracketed != scalable || !Shape::allows(&sizes) {
        return Err(Why::BadValue);
    }
    Ok(Shape::new(alloc, &sizes, scalable))
}

fn small(word: &str) -> Result<u16, Why> {
    match u16::try_from(magnitude(word)?) {
        Ok(number) => Ok(number),
        Err(_) => Err(Why::BadValue),
    }
}

fn scale(word: &str) -> Result<u32, Why>
    ensures { IfOk result (λ s. IsScale s) }
{
    match u32::try_from(magnitude(word)?) {
        Ok(scale) if 1 <= scale && scale <= MAX_SCALE => Ok(scale),
        _ => Err(Why::BadValue),
    }
}

fn shown(alloc: Global, shape: &Shape) -> Result<String, Why> {
    let mut text = String::new(alloc);
    let sizes = shape.sizes();
    for (dimension, size) in sizes.iter().enumerate() {
        if dimension > 0 {
            text.push_str("x")?;
        }
        let scalable = shape.is_scalable() && dimension.saturating_add(1) == sizes.len();
        let size = *size;
        if scalable {
            write!(text, "[{size}]")?;
        } else {
            write!(text, "{size}")?;
        }
    }
    Ok(text)
}

/// `SIZE ..`: whether they can be those of a shape.
pub fn allows_case(alloc: Global, words: &[String]) -> Result<String, Why> {
    let mut sizes = Vec::new(alloc);
    for word in words {
        sizes.push(small(word.as_str())?)?;
    }
    let allowed = Shape::allows(&sizes);
    Ok(format!(in alloc; "{allowed}")?)
}

/// `SHAPE`: a copy of it, its rank, and whether the copy is equal to it.
pub fn copy_case(alloc: Global, words: &[String]) -> Result<String, Why> {
    let [word] = words else {
        return Err(Why::BadValue);
    };
    copied(alloc, &shape(alloc, word.as_str())?)
}

fn copied(alloc: Global, shape: &Shape) -> Result<String, Why> {
    let rank = shape.rank();
    let equal = shape.copy() == *shape;
    let text = shown(alloc, &shape.copy())?;
    Ok(format!(in alloc; "{text} {rank} {equal}")?)
}

/// `SHAPE SHAPE`: whether they are equal.
pub fn equal_case(alloc: Global, words: &[String]) -> Result<String, Why> {
    let [left, right] = words else {
        return Err(Why::BadValue);
    };
    let equal = shape(alloc, left.as_str())? == shape(alloc, right.as_str())?;
    Ok(format!(in alloc; "{equal}")?)
}

/// `SHAPE SCALE`: the number of its elements.
pub fn lanes_case(alloc: Global, words: &[String]) -> Result<String, Why> {
    let [word, at] = words else {
        return Err(Why::BadValue);
    };
    let shape = shape(alloc, word.as_str())?;
    let lanes = shape.lanes(scale(at.as_str())?);
    Ok(format!(in alloc; "{lanes}")?)
}

/// `SHAPE SCALE DIMENSION`: the size there.
pub fn extent_case(alloc: Global, words: &[String]) -> Result<String, Why> {
    let [word, at, dimension] = words else {
        return Err(Why::BadValue);
    };
    let scale = scale(at.as_str())?;
    let dimension = small(dimension.as_str())? as usize;
    let extent = extent_of(&shape(alloc, word.as_str())?, scale, dimension)?;
    Ok(format!(in alloc; "{extent}")?)
}

fn extent_of(shape: &Shape, scale: u32, dimension: usize) -> Result<u32, Why>
    requires { IsScale scale }
{
    if dimension >= shape.rank() {
        return Err(Why::BadValue);
    }
    Ok(shape.extent(dimension, scale))
}

/// `SHAPE SCALE INDEX ..`: the place of an element.
pub fn place_case(alloc: Global, words: &[String]) -> Result<String, Why> {
    let [word, at, behind @ ..] = words else {
        return Err(Why::BadValue);
    };
    let scale = scale(at.as_str())?;
    let indices = smalls(alloc, behind)?;
    let place = place_of(&shape(alloc, word.as_str())?, scale, &indices)?;
    Ok(format!(in alloc; "{place}")?)
}

fn smalls(alloc: Global, words: &[String]) -> Result<Vec<u32>, Why> {
    let mut numbers = Vec::new(alloc);
    for word in words {
        numbers.push(u32::from(small(word.as_str())?))?;
    }
    Ok(numbers)
}

fn place_of(shape: &Shape, scale: u32, indices: &[u32]) -> Result<u32, Why>
    requires { IsScale scale }
{
    if !is_within(shape, scale, indices) {
        return Err(Why::BadValue);
    }
    Ok(shape.place(indices, scale))
}

// Whether these are the indices of an element.
fn is_within(shape: &Shape, scale: u32, indices: &[u32]) -> bool
    requires { IsScale scale }
    ensures { IsTrue result → IsWithin (extents shape.now scale) indices.now }
{
    if indices.len() != shape.rank() {
        return false;
    }
    for dimension in 0..indices.len() {
        if indices[dimension] >= shape.extent(dimension, scale) {
            return false;
        }
    }
    true
}

/// `SHAPE DIMENSION ..`: the shape with its dimensions in this order, or that it can't have it.
pub fn permuted_case(alloc: Global, words: &[String]) -> Result<String, Why> {
    let [word, behind @ ..] = words else {
        return Err(Why::BadValue);
    };
    let order = order_of(alloc, behind)?;
    in_order(alloc, &shape(alloc, word.as_str())?, &order)
}

fn order_of(alloc: Global, words: &[String]) -> Result<Vec<u8>, Why> {
    let mut order = Vec::new(alloc);
    for word in words {
        order.push(tiny(word.as_str())?)?;
    }
    Ok(order)
}

fn tiny(word: &str) -> Result<u8, Why> {
    match u8::try_from(magnitude(word)?) {
        Ok(number) => Ok(number),
        Err(_) => Err(Why::BadValue),
    }
}

fn in_order(alloc: Global, shape: &Shape, order: &[u8]) -> Result<String, Why> {
    if !shape.can_permute(order) {
        return Ok(String::from_str(alloc, "none")?);
    }
    shown(alloc, &shape.permuted(order))
}
