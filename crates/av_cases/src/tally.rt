//! The count of cases, and the lines of what differs.
ghost use Rattle.std.specs.Prelude.{◌<◌, IsTrue};

use crate::case::Case;
use crate::shown::{first_difference, shown};
use std::alloc::{AllocError, Global};

/// The count of cases, and the lines of what differs.
#[derive(Drop)]
pub struct Tally {
    alloc: Global,
    cases: usize,
    differ: usize,
    // Whether the last case differs.
    differs: bool,
    lines: String,
    ghost counted: { IsTrue differs → 0 < differ },
}

impl Tally {
    ghost use Rattle.std.specs.Prelude.{◌≡◌, ◌<◌, ◌↔◌, IsTrue};
    ghost use Rattle.av_cases.specs.Tally.{differing};

    /// The count of no case.
    pub fn new(alloc: Global) -> Tally
        ensures { differing result ≡ 0 }
    {
        Tally {
            alloc,
            cases: 0,
            differ: 0,
            differs: false,
            lines: String::new(alloc),
        }
    }

    /// Counts one more case, to which the comparisons from now on belong.
    pub fn begin(&mut self)
        ensures { differing self.new ≡ differing self.old }
    {
        self.cases = self.cases.saturating_add(1);
        self.differs = false;
    }

    /// Compares what a case wants with what it got.
    pub fn compare(
        &mut self,
        case: &Case,
        what: &str,
        want: &[u8],
        got: &[u8],
    ) -> Result<(), AllocError>
        ensures same { want.now ≡ got.now → differing self.new ≡ differing self.old }
        ensures told { (want.now ≡ got.now → ⊥) → 0 < differing self.new }
    {
        if want == got {
            return Ok(());
        }
        self.count_difference();
        let line = case.line;
        let name = case.name.as_str();
        let place = first_difference(want, got);
        let want = shown(self.alloc, want, place)?;
        let got = shown(self.alloc, got, place)?;
        let told = format!(in self.alloc;
            "line {line}: {name}: {what} at {place}: want \"{want}\", got \"{got}\"\n"
        )?;
        self.lines.push_str(told.as_str())
    }

    /// Whether no case differs.
    pub fn is_clean(&self) -> bool
        ensures { IsTrue result ↔ (differing self.now ≡ 0) }
    {
        self.differ == 0
    }

    /// The lines of what differs, and the count.
    pub fn finish(self) -> Result<String, AllocError> {
        let cases = self.cases;
        let differ = self.differ;
        let count = format!(in self.alloc; "{cases} cases, {differ} differ\n")?;
        let mut lines = self.lines;
        lines.push_str(count.as_str())?;
        Ok(lines)
    }

    fn count_difference(&mut self)
        ensures { 0 < differing self.new }
    {
        if !self.differs {
            self.differs = true;
            self.differ = self.differ.saturating_add(1);
        }
    }
}
