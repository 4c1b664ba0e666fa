//! What is asked for.
ghost use Rattle.std.specs.Prelude.{◌≡◌};
ghost use Rattle.aom_fault_injection.specs.Planned.{asks_more, marks_times};

/// The numbers of allocation requests that are tried, both ends among them. A run's first request has number 1.
#[derive(Clone, Copy)]
pub struct Part {
    pub first: u32,
    pub last: u32,
}

/// What is tried: each request of the part refused, and what else is asked for.
#[derive(Clone, Copy)]
pub struct Tries {
    pub part: Part,
    /// Whether each native is killed, at each time at which the run does something.
    pub kills: bool,
    /// Whether each client that the script names dies at each such time.
    pub deaths: bool,
    /// How many pairs of refused requests are tried at most, where any are.
    pub pairs: Option<u32>,
}

impl Tries {
    /// Whether it asks for more than single refusals.
    pub fn asks_more(self) -> bool
        ensures { result ≡ asks_more self }
    {
        self.kills || self.deaths || self.pairs.is_some()
    }

    /// Whether it asks when the run does something.
    pub fn marks_times(self) -> bool
        ensures { result ≡ marks_times self }
    {
        self.kills || self.deaths
    }
}
