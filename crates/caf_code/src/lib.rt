//! The code of the virtual machine: its instructions, what each does, the rules that a code keeps, and its listing.
//!
//! What a step of a task does stands in `specs/`, by topic: `Numbers`, `Flow`, `Operations`, `Teams`, `Calls` and
//! `Print` have a definition for each instruction, and `Step` joins them. `Shapes` and `Rules` say what a code keeps,
//! `Sound` which tasks and memories it can run, and `Listing` what its text is.
#![tactic(auto)]

mod code;
mod instr;
mod law;
mod listing;
mod operator;
mod print;
mod task;

pub use code::Code;
pub use instr::{
    Arithmetic, CellUse, ElementForm, EventUse, Instr, Logical, OutForm, PlaceForm, Printed,
    RangeForm, Reach, Relation, Role, SectionForm, SectionUse, TeamName, TeamQuery,
};
pub use law::{steps_lack_nothing, tables_show_rules, tasks_stay_sound};
pub use listing::{Listing, SubCode};
pub use print::{print_listing, text_of};
pub use task::{CopyOut, CopyTarget, Listed, Loop, Wait};
