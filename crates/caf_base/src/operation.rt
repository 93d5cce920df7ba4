use crate::Sequence;

/// An operation, by the image that begins it and a number that counts from 1 there.
#[derive(Clone, Copy, Debug, PartialEq, Eq)]
pub struct OpName {
    pub image: u32,
    pub number: u32,
}

/// A part of an operation that is performed at one image at one moment.
#[derive(Clone, Copy, Debug, PartialEq, Eq)]
pub enum Stage {
    /// A shipped subroutine becomes a task of its target.
    Ship,
    /// An event gets a post.
    Notice,
    /// A copy begins at its initiator.
    Start,
    /// A copy's source is read, if it is elsewhere.
    Fetch,
    /// A copy's destination is written.
    Store,
    /// A blocking read is answered at its target.
    Read,
    /// A blocking write is performed at its target.
    Write,
}

/// Consecutive elements of an object at an image.
#[derive(Clone, Copy, Debug, PartialEq, Eq)]
pub struct Section {
    pub image: u32,
    /// The place of the object among the program's objects, from 0.
    pub object: u32,
    /// The index of the first element.
    pub from: i64,
    /// The number of elements.
    pub extent: u32,
}

/// An event, or an element of an array of events, at an image.
#[derive(Clone, Copy, Debug, PartialEq, Eq)]
pub struct EventAt {
    pub image: u32,
    /// The place of the object among the program's objects, from 0.
    pub object: u32,
    pub index: i64,
}

/// An asynchronous copy of a section to another of the same length.
#[derive(Clone, Copy, Debug, PartialEq, Eq)]
pub struct CopyOrder {
    pub dest: Section,
    pub source: Section,
    /// The event whose post the copy needs before it starts.
    pub pre: Option<EventAt>,
    /// The event that is posted when the source has been read.
    pub srce: Option<EventAt>,
    /// The event that is posted when the destination has been written.
    pub deste: Option<EventAt>,
}

/// An operation that a statement begins.
#[derive(Debug, Drop, PartialEq, Eq)]
pub enum OpSpec {
    /// A subroutine is to run at another image, with these arguments.
    Ship {
        target: u32,
        /// The place of the subroutine among the program's subroutines, from 0.
        sub: u32,
        args: Sequence<i64>,
        /// The event that is posted when the task has ended.
        done: Option<EventAt>,
    },
    Notice(EventAt),
    Copy(CopyOrder),
    /// A blocking read of one element.
    Read(Section),
    /// A blocking write of one element.
    Write(Section, i64),
}
