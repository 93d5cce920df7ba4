//! What two tasks that do the same have done, in short words.
//!
//! A number stands for so many Steps that did nothing beyond their image, `r I:X` without its blank for a read of the element
//! X at image I, `w` for a write, `n` for a notice, `c` for a copy, `s` for a ship, `f` for a finish, `x` for going past the end
//! of one, `a` for a split, `e` for a wait without a post, `k` for a fence that is not passed, `T` for a trap, and `E` for the end.

use caf_base::{
    CopyOrder, Effect, EventAt, FenceClear, Memory, Need, OpSpec, Section, Sequence, Team,
};
use caf_memory::ImageMemory;
use std::alloc::Global;

/// The values that the reads of a task bring, one after another.
const VALUES: [i64; 4] = [5, 0, -2, 9_223_372_036_854_775_807];

/// The most lines that are told; of more, their number is.
const LINES: usize = 8;

/// A subroutine that was shipped.
#[derive(Drop)]
pub(crate) struct Ship {
    pub target: u32,
    pub sub: u32,
    pub args: Sequence<i64>,
}

/// What two tasks have done.
#[derive(Drop)]
pub(crate) struct Trail {
    text: String,
    /// The Steps behind the last word that did nothing beyond their image.
    plain: u32,
    /// The reads that have been answered.
    reads: usize,
    /// The fences that were not passed.
    fences: u32,
}

impl Trail {
    pub(crate) fn new(alloc: Global) -> Trail {
        Trail {
            text: String::new(alloc),
            plain: 0,
            reads: 0,
            fences: 0,
        }
    }

    /// The value of the next read.
    pub(crate) fn next_value(&self) -> i64 {
        VALUES[self.reads % 4]
    }

    /// A read has been answered.
    pub(crate) fn count_read(&mut self) {
        self.reads = self.reads.wrapping_add(1);
    }

    /// What the task's copies leave open. A fence is passed when it has been refused three times, each in its way.
    pub(crate) fn clear(&self) -> FenceClear {
        FenceClear {
            reads: self.fences == 1 || self.fences >= 3,
            writes: self.fences >= 2,
        }
    }

    fn push(&mut self, word: &str) -> Result<(), Memory> {
        if self.text.len() > 0 {
            self.text.push_str(" ")?;
        }
        self.text.push_str(word)?;
        Ok(())
    }

    /// Tells the plain Steps.
    fn flush(&mut self, alloc: Global) -> Result<(), Memory> {
        if self.plain > 0 {
            let plain = self.plain;
            self.plain = 0;
            let count = format!(in alloc; "{plain}")?;
            self.push(count.as_str())?;
        }
        Ok(())
    }

    /// A word behind what was told so far.
    pub(crate) fn word(&mut self, alloc: Global, word: &str) -> Result<(), Memory> {
        self.flush(alloc)?;
        self.push(word)
    }

    /// The effect of a Step. The end of a finish is told where it is left.
    pub(crate) fn note(&mut self, alloc: Global, effect: &Effect) -> Result<(), Memory> {
        match effect {
            Effect::Ran => {
                self.plain = self.plain.saturating_add(1);
                Ok(())
            }
            Effect::Blocks(need) => self.note_need(alloc, *need),
            _ => {
                let word = word_of(alloc, effect)?;
                self.word(alloc, word.as_str())
            }
        }
    }

    fn note_need(&mut self, alloc: Global, need: Need) -> Result<(), Memory> {
        match need {
            Need::Event(_, index) => {
                let word = format!(in alloc; "e{index}")?;
                self.word(alloc, word.as_str())
            }
            Need::Cofence => {
                self.fences = self.fences.saturating_add(1);
                self.word(alloc, "k")
            }
            Need::Finish => Ok(()),
            Need::Split => Ok(()),
            Need::Operation => Ok(()),
        }
    }

    /// The end of a finish that the task over trees has left or not, and the code's too; else the task is over.
    pub(crate) fn note_end(&mut self, alloc: Global, tree: bool, code: bool) -> Result<(), Memory> {
        if tree != code {
            return self.word(alloc, "ends differ");
        }
        self.word(alloc, if tree { "x" } else { "E" })
    }

    /// All that was told, with the lines that stand in a memory.
    pub(crate) fn told(self, alloc: Global, memory: &ImageMemory) -> Result<String, Memory> {
        let mut trail = self;
        trail.flush(alloc)?;
        let mut text = trail.text;
        tell_lines(alloc, &mut text, memory)?;
        Ok(text)
    }
}

fn tell_lines(alloc: Global, text: &mut String, memory: &ImageMemory) -> Result<(), Memory> {
    let lines = memory.lines();
    if lines.len() > LINES {
        let count = lines.len();
        let word = format!(in alloc; "|+{count}")?;
        text.push_str(word.as_str())?;
        return Ok(());
    }
    for line in lines {
        text.push_str("|")?;
        text.push_str(line.as_str())?;
    }
    Ok(())
}

/// The word of an effect that isn't told otherwise.
fn word_of(alloc: Global, effect: &Effect) -> Result<String, Memory> {
    match effect {
        Effect::Ran => Ok(String::new(alloc)),
        Effect::Ends(_) => Ok(String::from_str(alloc, "E")?),
        Effect::Begins(what) => word_of_operation(alloc, what),
        Effect::Enters(team) => word_of_finish(alloc, team),
        Effect::Arrives {
            team,
            colour,
            key,
            ..
        } => word_of_split(alloc, team, *colour, *key),
        Effect::Blocks(_) => Ok(String::new(alloc)),
        Effect::Traps(trap) => {
            let number = trap.number();
            Ok(format!(in alloc; "T{number}")?)
        }
    }
}

fn word_of_finish(alloc: Global, team: &Team) -> Result<String, Memory> {
    let size = team.members.len();
    Ok(format!(in alloc; "f{size}")?)
}

fn word_of_split(alloc: Global, team: &Team, colour: i64, key: i64) -> Result<String, Memory> {
    let size = team.members.len();
    Ok(format!(in alloc; "a{size}:{colour},{key}")?)
}

fn word_of_operation(alloc: Global, what: &OpSpec) -> Result<String, Memory> {
    match what {
        OpSpec::Ship {
            target,
            sub,
            args,
            ..
        } => word_of_ship(alloc, *target, *sub, args.as_slice()),
        OpSpec::Notice(event) => word_of_event(alloc, "n", *event),
        OpSpec::Copy(order) => word_of_copy(alloc, order),
        OpSpec::Read(section) => word_of_read(alloc, section),
        OpSpec::Write(section, value) => word_of_write(alloc, section, *value),
    }
}

fn word_of_ship(alloc: Global, target: u32, sub: u32, args: &[i64]) -> Result<String, Memory> {
    let mut word = format!(in alloc; "s{target}:{sub}")?;
    for arg in args {
        let piece = format!(in alloc; ",{arg}")?;
        word.push_str(piece.as_str())?;
    }
    Ok(word)
}

fn word_of_event(alloc: Global, letter: &str, event: EventAt) -> Result<String, Memory> {
    let image = event.image;
    let index = event.index;
    Ok(format!(in alloc; "{letter}{image}:{index}")?)
}

fn word_of_read(alloc: Global, section: &Section) -> Result<String, Memory> {
    let image = section.image;
    let from = section.from;
    Ok(format!(in alloc; "r{image}:{from}")?)
}

fn word_of_write(alloc: Global, section: &Section, value: i64) -> Result<String, Memory> {
    let image = section.image;
    let from = section.from;
    Ok(format!(in alloc; "w{image}:{from}={value}")?)
}

/// The place of a section; one of no element has no first.
fn word_of_section(alloc: Global, section: &Section) -> Result<String, Memory> {
    let image = section.image;
    let from = section.from;
    let extent = section.extent;
    if extent == 0 {
        return Ok(format!(in alloc; "{image}:+0")?);
    }
    Ok(format!(in alloc; "{image}:{from}+{extent}")?)
}

fn push_event(
    alloc: Global,
    word: &mut String,
    letter: &str,
    event: Option<EventAt>,
) -> Result<(), Memory> {
    match event {
        None => Ok(()),
        Some(event) => {
            let piece = word_of_event(alloc, letter, event)?;
            word.push_str(" ")?;
            word.push_str(piece.as_str())?;
            Ok(())
        }
    }
}

fn word_of_sections(alloc: Global, order: &CopyOrder) -> Result<String, Memory> {
    let dest = word_of_section(alloc, &order.dest)?;
    let source = word_of_section(alloc, &order.source)?;
    let dest = dest.as_str();
    let source = source.as_str();
    Ok(format!(in alloc; "c{dest}<{source}")?)
}

fn word_of_copy(alloc: Global, order: &CopyOrder) -> Result<String, Memory> {
    let mut word = word_of_sections(alloc, order)?;
    push_event(alloc, &mut word, "p", order.pre)?;
    push_event(alloc, &mut word, "s", order.srce)?;
    push_event(alloc, &mut word, "d", order.deste)?;
    Ok(word)
}
