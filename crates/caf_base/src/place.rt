/// Where an access goes: this image, a rank of `team_world`, or a rank of the team of an object.
#[derive(Clone, Copy, Debug, PartialEq, Eq)]
pub enum Place {
    Own,
    World(i64),
    /// The object, and the rank.
    Of(u32, i64),
}

/// The elements of a variable that a section names, by their indices.
#[derive(Clone, Copy, Debug, PartialEq, Eq)]
pub enum SectionRange {
    All,
    Cell(i64),
    /// From a first index to a last one.
    Between(i64, i64),
    From(i64),
    UpTo(i64),
}

/// A section as a statement names it, with its numbers evaluated and before any test.
#[derive(Clone, Copy, Debug, PartialEq, Eq)]
pub enum SectionWanted {
    /// Of an object, at a place.
    Region(u32, SectionRange, Place),
    /// Of what a copointer aims at, counted from 1.
    Pointed(u32, SectionRange),
}

/// An event as a statement names it, with its numbers evaluated and before any test.
#[derive(Clone, Copy, Debug, PartialEq, Eq)]
pub struct EventWanted {
    /// The place of the object among the program's objects, from 0.
    pub object: u32,
    pub index: i64,
    pub place: Place,
}

/// The events of a copy as a statement names them.
#[derive(Clone, Copy, Debug, PartialEq, Eq)]
pub struct CopyEvents {
    /// The event whose post the copy needs before it starts.
    pub pre: Option<EventWanted>,
    /// The event that is posted when the source has been read.
    pub srce: Option<EventWanted>,
    /// The event that is posted when the destination has been written.
    pub deste: Option<EventWanted>,
}
