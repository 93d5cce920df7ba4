ghost use Rattle.std.specs.Prelude.{◌≡◌};
ghost use Rattle.caf_base.specs.Trap.{trap_number, trap_word};

/// What stops an image, in the order of the printed numbers, from 1. A trap stops its image alone.
#[derive(Clone, Copy, Debug, PartialEq, Eq)]
pub enum Trap {
    /// A subscript outside the bounds of its array, section or copointer.
    Index,
    /// A result that 64 bits with a sign don't hold.
    Number,
    /// A zero divisor of `/` or `mod`.
    Divisor,
    /// A rank that its team doesn't have.
    Rank,
    /// A counted operation that names an image outside the team of the innermost finish.
    Outside,
    /// A copied section of more than 256 elements, or two of different lengths.
    Section,
    /// A call where 200 calls of the task are open.
    Depth,
    /// An operation begun where the image has no operation number left.
    Operations,
    /// A `do` with step 0.
    Step,
    /// A post of an event that has 65,535 posts or more.
    Posts,
    /// A team that is unset.
    Team,
    /// A copointer that is unset.
    Copointer,
    /// A line that doesn't fit into the output of its image.
    Output,
    /// A ship taken where 4,096 shipped tasks are live.
    Tasks,
}

impl Trap {
    /// The number that a report prints, from 1 to 14.
    pub fn number(self) -> u8
        ensures { result ≡ trap_number self }
    {
        self as u8 + 1
    }

    /// The word that a report prints.
    pub fn word(self) -> &'static str
        ensures { result.now ≡ trap_word self }
    {
        match self {
            Trap::Index => "index",
            Trap::Number => "number",
            Trap::Divisor => "divisor",
            Trap::Rank => "rank",
            Trap::Outside => "outside",
            Trap::Section => "section",
            Trap::Depth => "depth",
            Trap::Operations => "operations",
            Trap::Step => "step",
            Trap::Posts => "posts",
            Trap::Team => "team",
            Trap::Copointer => "copointer",
            Trap::Output => "output",
            Trap::Tasks => "tasks",
        }
    }
}
