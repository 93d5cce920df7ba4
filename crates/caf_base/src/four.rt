/// Four counts of an image's messages in one finish: those that it sent, those of them whose delivery it has heard
/// of, those that it received, and those of them that it completed.
#[derive(Clone, Copy, Debug, PartialEq, Eq)]
pub struct Four {
    pub sent: u32,
    pub delivered: u32,
    pub received: u32,
    pub completed: u32,
}
