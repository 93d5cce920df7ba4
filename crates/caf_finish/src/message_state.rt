ghost use Rattle.std.specs.Prelude.{◌≡◌, ◌&&◌, not};

/// What the events so far tell of a message that was sent.
#[derive(Clone, Copy)]
pub(crate) struct MessageState {
    pub(crate) origin: u32,
    pub(crate) target: u32,
    pub(crate) epoch: u32,
    pub(crate) taken: bool,
    pub(crate) completed: bool,
    pub(crate) acked: bool,
}

impl MessageState {
    /// Whether it is taken and not completed.
    pub(crate) fn is_open(&self) -> bool
        ensures { result ≡ (self.now.taken && not self.now.completed) }
    {
        self.taken && !self.completed
    }
}
