// Which calls of an output were refused.
ghost use Rattle.std.specs.Prelude.{◌≡◌};
ghost use Rattle.shelf_port.specs.RefusalCount.{counted};
ghost use Rattle.shelf_port.specs.Streams.{no_refusals, taken, refused};

/// How many calls were refused, for whatever cause, and whether the last one was.
#[derive(Debug, Drop)]
pub(crate) struct RefusalCount {
    count: u64,
    last: bool,
}

impl RefusalCount {
    /// No call was made.
    pub(crate) fn new() -> Self
        ensures { counted result ≡ no_refusals }
    {
        RefusalCount {
            count: 0,
            last: false,
        }
    }

    /// One more call was taken.
    pub(crate) fn take(&mut self)
        ensures { counted self.new ≡ taken (counted self.old) }
    {
        self.last = false;
    }

    /// One more call was refused.
    pub(crate) fn refuse(&mut self)
        ensures { counted self.new ≡ refused (counted self.old) }
    {
        self.count = self.count.saturating_add(1);
        self.last = true;
    }
}
