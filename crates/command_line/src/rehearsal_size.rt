//! How large a rehearsal is.
ghost use Rattle.std.specs.Prelude.{◌≡◌, ◌<◌, ◌≤◌};

/// How many clients a rehearsal has, 1 to 16, and how many steps, up to 20,000.
#[derive(Clone, Copy, PartialEq, Eq, Debug)]
pub struct RehearsalSize {
    clients: u64,
    steps: u64,
    ghost some: { 0 < clients },
    ghost few: { clients ≤ 16 },
    ghost short: { steps ≤ 20000 },
}

impl RehearsalSize {
    /// So many clients and steps.
    pub fn new(clients: u64, steps: u64) -> Self
        requires some { 0 < clients }
        requires few { clients ≤ 16 }
        requires short { steps ≤ 20000 }
        ensures clients { result.clients ≡ clients }
        ensures steps { result.steps ≡ steps }
    {
        RehearsalSize { clients, steps }
    }

    /// How many clients there are.
    pub fn clients(&self) -> u64
        ensures clients { result ≡ self.now.clients }
        ensures some { 0 < result }
        ensures few { result ≤ 16 }
    {
        self.clients
    }

    /// How many steps there are.
    pub fn steps(&self) -> u64
        ensures steps { result ≡ self.now.steps }
        ensures short { result ≤ 20000 }
    {
        self.steps
    }
}
