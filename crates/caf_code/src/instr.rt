use caf_base::Down;

/// How `load` and `store` reach a variable: as a scalar, at index 1, or as an element, whose index stands on the
/// stack.
#[derive(Clone, Copy)]
pub enum Reach {
    Scalar,
    Element,
}

/// What is done with a cell of the frame.
#[derive(Clone, Copy)]
pub enum CellUse {
    Get,
    Set,
}

/// Arithmetic on the numbers on the stack.
#[derive(Clone, Copy)]
pub enum Arithmetic {
    Negate,
    Add,
    Subtract,
    Multiply,
    Divide,
    Modulo,
    Absolute,
    Minimum,
    Maximum,
}

/// A relation of two numbers on the stack.
#[derive(Clone, Copy)]
pub enum Relation {
    Equal,
    NotEqual,
    Less,
    LessEqual,
    Greater,
    GreaterEqual,
}

/// A logical operator on the numbers on the stack.
#[derive(Clone, Copy)]
pub enum Logical {
    Not,
    And,
    Or,
    Equivalent,
    NotEquivalent,
}

/// What is asked of a team.
#[derive(Clone, Copy)]
pub enum TeamQuery {
    /// The image's rank in it.
    Rank,
    /// The number of its members.
    Size,
}

/// A team: `team_world`, or the one that an object holds.
#[derive(Clone, Copy)]
pub enum TeamName {
    World,
    Object(u32),
}

/// How an instruction names a place: this image, a rank of `team_world`, or a rank of the team of an object. A rank
/// stands on the top of the stack.
#[derive(Clone, Copy)]
pub enum PlaceForm {
    Own,
    World,
    Of(u32),
}

/// An element that is read or written by an operation. Its index stands on the stack, and its rank above it.
#[derive(Clone, Copy)]
pub enum ElementForm {
    /// An element of an object, at a place.
    Coindexed(u32, PlaceForm),
    /// An element of the section that a copointer aims at, counted from 1.
    Pointed(u32),
}

/// Which elements a section has. The numbers that the form needs stand on the stack, the last one on the top.
#[derive(Clone, Copy)]
pub enum RangeForm {
    All,
    Cell,
    /// From a first index to a last one.
    Between,
    From,
    UpTo,
}

/// A section. The numbers of its range stand on the stack, and its rank above them.
#[derive(Clone, Copy)]
pub enum SectionForm {
    /// Of an object, at a place.
    Region(u32, RangeForm, PlaceForm),
    /// Of what a copointer aims at, counted from 1.
    Pointed(u32, RangeForm),
}

/// What an event is for.
#[derive(Clone, Copy)]
pub enum Role {
    /// The copy needs its post before it starts.
    Pre,
    /// It is posted when the copy's source has been read.
    Srce,
    /// It is posted when the copy's destination has been written.
    Deste,
    /// It is posted when the shipped task has ended.
    Done,
}

/// What is done with the sections and events that the frame has listed.
#[derive(Clone, Copy)]
pub enum SectionUse {
    /// The copointer is aimed at the one section.
    Aim(u32),
    /// The copy of the second section to the first begins.
    Copy,
}

/// What is done with an event. Its index stands on the stack, and its rank above it.
#[derive(Clone, Copy)]
pub enum EventUse {
    /// A post is sent to the event at a place.
    Notify(u32, PlaceForm),
    /// A post is awaited and taken.
    Wait(u32),
}

/// Where a dummy will be copied out to.
#[derive(Clone, Copy)]
pub enum OutForm {
    Scalar(u32),
    /// An element, whose index stands on the stack.
    Element(u32),
    /// A cell of the frame.
    Local(u32),
}

/// What is put into the line that is being printed.
#[derive(Clone, Copy)]
pub enum Printed {
    /// The number on the top of the stack.
    Number,
    /// The logical on the top of the stack.
    Logical,
    /// A text of the listing.
    Text(u32),
}

/// An instruction of the virtual machine. Objects, subroutines, texts, addresses and cells are given by their places,
/// from 0. An instruction that is marked ends a step of its task.
#[derive(Clone, Copy)]
pub enum Instr {
    /// Pushes a number.
    Push(i64),
    /// Pushes a variable.
    Load(Reach, u32),
    /// Pops a value, and then an element's index, and writes the variable.
    Store(Reach, u32),
    /// Pushes or pops a cell of the frame.
    Cell(CellUse, u32),
    /// Pushes a value that a blocking read brought.
    Held(u32),
    /// Puts the result in place of its operands; trap `Number` or `Divisor`.
    Arithmetic(Arithmetic),
    /// Puts 0 or 1 in place of two numbers.
    Relation(Relation),
    /// Puts 0 or 1 in place of its operands.
    Logical(Logical),
    /// Pushes the image's rank in a team or the team's size; trap `Team` where the team is unset.
    Team(TeamQuery, TeamName),
    /// Goes on at an address.
    Go(u32),
    /// Marked; nothing.
    Next,
    /// Marked; pops a logical, and goes to the address if it is false.
    Test(u32),
    /// Pops step, last and first number of a `do`, opens the loop and pushes the first number; trap `Step`.
    Loop,
    /// Marked; with no iteration to come closes the loop and goes to the address.
    Enter(u32),
    /// Pushes the step of the innermost loop.
    StepBy,
    /// Marked; one iteration less, and to the address if some are left, else the loop is closed.
    Again(u32),
    /// Marked; begins a blocking read, whose value is held.
    Ask(ElementForm),
    /// Marked; pops a value and begins a blocking write.
    Put(ElementForm),
    /// Lists a section, without tests.
    Section(SectionForm),
    /// Lists an event, without tests.
    EventAt(u32, PlaceForm, Role),
    /// Marked; aims a copointer, or begins a copy.
    Use(SectionUse),
    /// Marked; begins a notice, or waits for a post.
    Event(EventUse),
    /// Marked; waits for the fence of a class.
    Cofence(Down),
    /// Marked; pops arguments and begins a ship, with the event listed for it, if there is one.
    Spawn(u32, PlaceForm),
    /// Marked; enters the next finish of a team.
    Finish(TeamName),
    /// The end of a finish.
    Close,
    /// Marked; pops key and colour and arrives at the next split of a team; the object gets the new team.
    Split(TeamName, u32),
    /// Fixes where a dummy of the next call will be copied out to.
    Out(OutForm),
    /// Marked; pops arguments and opens a frame; trap `Depth`.
    Call(u32),
    /// Marked; copies out and closes the frame, or ends a shipped task.
    Ret,
    /// Puts a value or a text into the line.
    Print(Printed),
    /// Marked; ends the line; trap `Output`.
    Line,
    /// After the end of the program.
    Halt,
}
