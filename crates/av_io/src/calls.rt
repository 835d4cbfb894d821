//! The calls of a device that fails on purpose.
ghost use Rattle.std.specs.Prelude.{◌≡◌, ◌↔◌, IsTrue, Contains, if◌then◌else◌};
ghost use Rattle.av_io.specs.Devices.{counted};

use crate::count::Count;

/// How many calls were made, the numbers of those that fail, and how many of them failed.
#[derive(Debug, Drop)]
pub(crate) struct Calls {
    pub(crate) made: Count,
    pub(crate) fails: Vec<u64>,
    pub(crate) faults: Count,
}

impl Calls {
    pub(crate) fn new(fails: Vec<u64>) -> Calls
        ensures made { result.made.number ≡ 0 }
        ensures fails { result.fails.items ≡ fails.items }
        ensures faults { result.faults.number ≡ 0 }
    {
        Calls {
            made: Count::new(),
            fails,
            faults: Count::new(),
        }
    }

    /// Counts one call, and says whether it is one of those that fail.
    pub(crate) fn next_fails(&mut self) -> bool
        ensures listed { IsTrue result ↔ Contains self.old.fails.items self.old.made.number }
        ensures made { self.new.made.number ≡ counted self.old.made.number }
        ensures faults { self.new.faults.number ≡
            (if result then counted self.old.faults.number else self.old.faults.number) }
        ensures fails { self.new.fails.items ≡ self.old.fails.items }
    {
        let fails = self.fails.contains(&self.made.number);
        self.made.raise();
        if fails {
            self.faults.raise();
        }
        fails
    }
}
