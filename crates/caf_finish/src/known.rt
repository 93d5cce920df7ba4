use crate::progress::Progress;
use caf_base::FinishRef;

/// A finish that is known, and how far the image has come in it.
#[derive(Drop)]
pub(crate) struct Known {
    pub(crate) finish: FinishRef,
    pub(crate) progress: Progress,
}
