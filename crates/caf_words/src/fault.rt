use thiserror::Error;

/// Why the words of a command line aren't carried out.
#[derive(Clone, Copy, Debug, Drop, Error)]
pub enum WordFault {
    /// They ask for nothing that is known.
    #[error("the words ask for nothing that is known")]
    Usage,
    #[error("out of memory")]
    Memory,
}
