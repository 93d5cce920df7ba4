//! Names, traps, exact arithmetic and plain data: what every crate above speaks of.
//!
//! The types here are data with public fields, and contracts see them as they are. Lists are [`Sequence`] and texts
//! are [`Text`], which contracts see as the list of their elements and of their bytes.
#![tactic(auto)]

mod arithmetic;
mod effect;
mod fence;
mod four;
mod memory;
mod object;
mod operation;
mod place;
mod sequence;
mod stack;
mod summary;
mod team;
mod text;
mod trap;

pub use arithmetic::{BinaryOperator, UnaryOperator, iteration_count, truth};
pub use effect::{Effect, Need};
pub use fence::{Down, FenceClear};
pub use four::Four;
pub use memory::Memory;
pub use object::{Kind, Object};
pub use operation::{CopyOrder, EventAt, OpName, OpSpec, Section, Stage};
pub use place::{CopyEvents, EventWanted, Place, SectionRange, SectionWanted};
pub use sequence::Sequence;
pub use stack::Stack;
pub use summary::{Ending, ImageSummary, Summary};
pub use team::{FinishRef, Team};
pub use text::Text;
pub use trap::Trap;
