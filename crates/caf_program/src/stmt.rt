ghost use Rattle.std.specs.Prelude.{◌≡◌, IfOk};

use crate::{
    ActualR, CopyEventR, EventR, ExprR, OwnEventR, PlaceR, PrintR, RegionR, SectionR, TeamR,
    VariableR,
};
use caf_base::{Down, Memory};
use sqlite_items::Items;
use std::alloc::Global;

/// The variable of a `do`.
#[derive(Clone, Copy, Debug, PartialEq, Eq)]
pub enum LoopVariableR {
    Scalar(u32),
    Local(u32),
}

/// A statement, with the line that it begins on.
#[derive(Drop)]
pub enum StmtR {
    Assign {
        line: u32,
        target: VariableR,
        value: ExprR,
    },
    /// `p => section`.
    Aim {
        line: u32,
        copointer: u32,
        region: RegionR,
    },
    Print {
        line: u32,
        parts: Items<PrintR>,
    },
    /// An `else if` is a statement that is the whole `otherwise`.
    If {
        line: u32,
        condition: ExprR,
        block: Items<StmtR>,
        otherwise: Items<StmtR>,
    },
    /// The step is 1 where none is written.
    Do {
        line: u32,
        variable: LoopVariableR,
        first: ExprR,
        last: ExprR,
        step: ExprR,
        body: Items<StmtR>,
    },
    While {
        line: u32,
        condition: ExprR,
        body: Items<StmtR>,
    },
    Call {
        line: u32,
        sub: u32,
        actuals: Items<ActualR>,
    },
    /// The event `done`, if given, is posted when the shipped task has ended.
    Spawn {
        line: u32,
        done: Option<EventR>,
        sub: u32,
        actuals: Items<ActualR>,
        place: PlaceR<ExprR>,
    },
    Notify {
        line: u32,
        event: EventR,
    },
    Wait {
        line: u32,
        event: OwnEventR,
    },
    /// The events stand in the order in which they are written, each kind at most once.
    Copy {
        line: u32,
        dest: SectionR,
        source: SectionR,
        events: Items<CopyEventR>,
    },
    Cofence {
        line: u32,
        down: Down,
    },
    Split {
        line: u32,
        team: TeamR,
        colour: ExprR,
        key: ExprR,
        /// The object that gets the new team.
        new: u32,
    },
    Finish {
        line: u32,
        team: TeamR,
        body: Items<StmtR>,
    },
}

/// The same parts again.
fn copy_parts(alloc: Global, items: &[PrintR]) -> Result<Items<PrintR>, Memory>
    ensures { IfOk result (λ copies. copies ≡ items.now) }
{
    let mut copies = Items::new(alloc);
    for item in items {
        let item = item.copy(alloc)?;
        copies.push(item)?;
    }
    Ok(copies)
}

/// The same actuals again.
fn copy_actuals(alloc: Global, items: &[ActualR]) -> Result<Items<ActualR>, Memory>
    ensures { IfOk result (λ copies. copies ≡ items.now) }
{
    let mut copies = Items::new(alloc);
    for item in items {
        let item = item.copy(alloc)?;
        copies.push(item)?;
    }
    Ok(copies)
}

/// The same events again.
fn copy_events(alloc: Global, items: &[CopyEventR]) -> Result<Items<CopyEventR>, Memory>
    ensures { IfOk result (λ copies. copies ≡ items.now) }
{
    let mut copies = Items::new(alloc);
    for item in items {
        let item = item.copy(alloc)?;
        copies.push(item)?;
    }
    Ok(copies)
}

/// The same event again, if there is one.
fn copy_done(alloc: Global, event: &Option<EventR>) -> Result<Option<EventR>, Memory>
    ensures { IfOk result (λ copy. copy ≡ event.now) }
{
    match event {
        None => Ok(None),
        Some(event) => Ok(Some(event.copy(alloc)?)),
    }
}

/// The same statements again.
#[cycle(copies)]
pub fn copy_block(alloc: Global, block: &[StmtR]) -> Result<Items<StmtR>, Memory>
    ensures { IfOk result (λ copies. copies ≡ block.now) }
{
    let mut copies = Items::new(alloc);
    for statement in block {
        let statement = statement.copy(alloc)?;
        copies.push(statement)?;
    }
    Ok(copies)
}

impl StmtR {
    /// The same statement again.
    #[cycle(copies)]
    pub fn copy(&self, alloc: Global) -> Result<StmtR, Memory>
        ensures { IfOk result (λ copy. copy ≡ self.now) }
    {
        match self {
            StmtR::Assign {
                line,
                target,
                value,
            } => {
                let target = target.copy(alloc)?;
                let value = value.copy(alloc)?;
                Ok(StmtR::Assign {
                    line: *line,
                    target,
                    value,
                })
            }
            StmtR::Aim {
                line,
                copointer,
                region,
            } => {
                let region = region.copy(alloc)?;
                Ok(StmtR::Aim {
                    line: *line,
                    copointer: *copointer,
                    region,
                })
            }
            StmtR::Print { line, parts } => {
                let parts = copy_parts(alloc, parts.as_slice())?;
                Ok(StmtR::Print { line: *line, parts })
            }
            StmtR::If {
                line,
                condition,
                block,
                otherwise,
            } => {
                let condition = condition.copy(alloc)?;
                let block = copy_block(alloc, block.as_slice())?;
                let otherwise = copy_block(alloc, otherwise.as_slice())?;
                Ok(StmtR::If {
                    line: *line,
                    condition,
                    block,
                    otherwise,
                })
            }
            StmtR::Do {
                line,
                variable,
                first,
                last,
                step,
                body,
            } => {
                let first = first.copy(alloc)?;
                let last = last.copy(alloc)?;
                let step = step.copy(alloc)?;
                let body = copy_block(alloc, body.as_slice())?;
                Ok(StmtR::Do {
                    line: *line,
                    variable: *variable,
                    first,
                    last,
                    step,
                    body,
                })
            }
            StmtR::While {
                line,
                condition,
                body,
            } => {
                let condition = condition.copy(alloc)?;
                let body = copy_block(alloc, body.as_slice())?;
                Ok(StmtR::While {
                    line: *line,
                    condition,
                    body,
                })
            }
            StmtR::Call { line, sub, actuals } => {
                let actuals = copy_actuals(alloc, actuals.as_slice())?;
                Ok(StmtR::Call {
                    line: *line,
                    sub: *sub,
                    actuals,
                })
            }
            StmtR::Spawn {
                line,
                done,
                sub,
                actuals,
                place,
            } => {
                let done = copy_done(alloc, done)?;
                let actuals = copy_actuals(alloc, actuals.as_slice())?;
                let place = place.copy(alloc)?;
                Ok(StmtR::Spawn {
                    line: *line,
                    done,
                    sub: *sub,
                    actuals,
                    place,
                })
            }
            StmtR::Notify { line, event } => {
                let event = event.copy(alloc)?;
                Ok(StmtR::Notify { line: *line, event })
            }
            StmtR::Wait { line, event } => {
                let event = event.copy(alloc)?;
                Ok(StmtR::Wait { line: *line, event })
            }
            StmtR::Copy {
                line,
                dest,
                source,
                events,
            } => {
                let dest = dest.copy(alloc)?;
                let source = source.copy(alloc)?;
                let events = copy_events(alloc, events.as_slice())?;
                Ok(StmtR::Copy {
                    line: *line,
                    dest,
                    source,
                    events,
                })
            }
            StmtR::Cofence { line, down } => Ok(StmtR::Cofence {
                line: *line,
                down: *down,
            }),
            StmtR::Split {
                line,
                team,
                colour,
                key,
                new,
            } => {
                let colour = colour.copy(alloc)?;
                let key = key.copy(alloc)?;
                Ok(StmtR::Split {
                    line: *line,
                    team: *team,
                    colour,
                    key,
                    new: *new,
                })
            }
            StmtR::Finish { line, team, body } => {
                let body = copy_block(alloc, body.as_slice())?;
                Ok(StmtR::Finish {
                    line: *line,
                    team: *team,
                    body,
                })
            }
        }
    }
}
