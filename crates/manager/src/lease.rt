//! The lease of a device that is awake.
ghost use Rattle.std.specs.Prelude.{◌≡◌, ◌&&◌, ◌==◌};

/// The right to a device that is awake. It can be neither copied nor let go: only `release` takes it back.
pub struct Lease {
    manager: u16,
    count: u32,
}

impl Lease {
    /// The lease of a manager, and the number of gaps it had closed at its birth.
    pub(crate) fn new(manager: u16, count: u32) -> Lease
        ensures manager { result.manager ≡ manager }
        ensures count { result.count ≡ count }
    {
        Lease { manager, count }
    }

    /// Whether the lease bears these two numbers.
    pub(crate) fn bears(&self, manager: u16, count: u32) -> bool
        ensures { result ≡ (self.now.manager == manager && self.now.count == count) }
    {
        self.manager == manager && self.count == count
    }

    /// Ends the lease, and answers its two numbers.
    pub(crate) fn spend(self) -> (u16, u32)
        ensures { result ≡ (self.manager, self.count) }
    {
        let Lease { manager, count } = self;
        (manager, count)
    }
}
