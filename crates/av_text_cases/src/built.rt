//! A module that no text has so far.

use av_affine::Seq;
use av_ir::{Elem, Func, Marks, Module, Region, Ty, ValueId};
use std::alloc::{AllocError, Global};

/// A module with a function of an index, without operations, whose buffers are told apart.
pub fn distinct(alloc: Global) -> Result<Module, AllocError> {
    let mut funcs = Seq::new(alloc);
    funcs.push(func(alloc)?)?;
    let owners = Seq::new(alloc);
    Ok(Module { funcs, owners })
}

fn func(alloc: Global) -> Result<Func, AllocError> {
    let name = Seq::from_slice(alloc, b"f")?;
    let mut args = Seq::new(alloc);
    args.push(ValueId(0))?;
    let mut values = Seq::new(alloc);
    values.push(Ty::Scalar(Elem::Index))?;
    let ops = Seq::new(alloc);
    let marks = Marks {
        loop_no: None,
        source: None,
        distinct: true,
    };
    Ok(Func {
        name,
        number: 1,
        values,
        results: Seq::new(alloc),
        body: Region { args, ops },
        marks,
    })
}
