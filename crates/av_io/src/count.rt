//! A count that stands still at its type's end.
ghost use Rattle.std.specs.Prelude.{◌≡◌, ◌-◌, ◌^◌, ◌≤◌};
ghost use Rattle.av_io.specs.Devices.{counted};

/// How often something occurred, or `u64::MAX` where it occurred at least so often.
#[derive(Clone, Copy, Debug)]
pub(crate) struct Count {
    pub(crate) number: u64,
    ghost fits: { number ≤ 2 ^ 64 - 1 },
}

impl Count {
    pub(crate) fn new() -> Count
        ensures { result.number ≡ 0 }
    {
        Count { number: 0 }
    }

    pub(crate) fn raise(&mut self)
        ensures { self.new.number ≡ counted self.old.number }
    {
        self.number = self.number.saturating_add(1);
    }
}
