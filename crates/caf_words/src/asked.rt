/// What one thread carries out.
#[derive(Clone, Copy, Debug)]
pub enum Order<'a> {
    /// Runs the program of a file by the seeded order.
    Step {
        file: &'a str,
        /// How many images: 1 to 64.
        images: u32,
        seed: u64,
        /// The most entries of the journal: 1 to 1,000,000.
        events: u32,
        /// The name under which the journal's text is saved.
        trace: Option<&'a str>,
    },
    /// Runs the compiled program of a file by the entries of a trace.
    Replay {
        file: &'a str,
        /// How many images: 1 to 64.
        images: u32,
        trace: &'a str,
    },
    /// Runs the source machine by the choices of a trace.
    Check {
        file: &'a str,
        /// How many images: 1 to 64.
        images: u32,
        trace: &'a str,
    },
    /// Prints the code of a file's program.
    List {
        file: &'a str,
    },
    /// Prints the workload program of a number.
    Gen {
        number: u64,
    },
}

/// What the words of a command line ask for.
#[derive(Clone, Copy, Debug)]
pub enum Asked<'a> {
    /// What one thread carries out.
    Serial(Order<'a>),
    /// Runs the program of a file on threads.
    Run {
        file: &'a str,
        /// How many images: 1 to 64.
        images: u32,
        /// How many threads: 1 to 8.
        workers: u32,
        /// The most entries of the journal: 1 to 1,000,000.
        events: u32,
        /// The name under which the journal's text is saved.
        trace: Option<&'a str>,
    },
}
