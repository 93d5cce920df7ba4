use caf_base::Trap;

/// How far a run on one image has come.
#[derive(Clone, Copy, Debug, PartialEq, Eq)]
pub enum Phase {
    /// The main task runs.
    Running,
    /// It stands at the end of the program's finish, and its image has contributed.
    Contributed,
    /// The result of the wave is 0.
    Ended,
    /// The main task has left the program's finish.
    Left,
    /// The image has trapped.
    Trapped(Trap),
}
