ghost use Rattle.std.specs.Prelude.{◌≡◌, ◌<◌, ◌≤◌, ◌+◌, IfOk, OnErr, true};
ghost use Rattle.caf_program.specs.declared.program.Program.{Program};
ghost use Rattle.caf_source.specs.declared.state.Image.{Image};
ghost use Rattle.caf_source.specs.Kept.{CanGoOn, Made, begun};
ghost use Rattle.caf_source.specs.Next.{next};
ghost use Rattle.caf_source.specs.Placed.{ArePlaceable};
ghost use Rattle.caf_source.specs.Run.{Stands, Tells};
ghost use Rattle.caf_source.specs.State.{State};
ghost use Rattle.caf_source.specs.Stepping.{Makes};

use crate::chosen::{step_task, touch};
use crate::first::first_image;
use crate::leave::leave;
use crate::report::{ending, summary_of};
use crate::split::part;
use crate::{Choice, Image, Stepped};
use caf_base::{Ending, Memory, Sequence, Summary};
use caf_pending::Pending;
use caf_program::{Accepted, Program, each_held_value_has_its_read};
use caf_treestep::memories_begin_placeable;
use std::alloc::Global;
use std::marker::Model;

/// A state of the source machine: its images and the operations that are pending. It owns what it walks over.
#[derive(Drop)]
pub struct State {
    alloc: Global,
    images: Vec<Image>,
    /// One that is complete is taken off.
    pending: Pending,
    /// How many choices were done.
    done: u32,
    /// Whether memory was wanting once.
    failed: bool,
}

impl Model for State {
    ghost use Rattle.caf_source.specs.Kept.{Kept};
    ghost use Rattle.caf_program.specs.contracts.stmt.StmtR as statement;
    ghost use Rattle.std.specs.Coded.{codes};

    ghost Value = { Kept };

    ghost coded = { Prim.hlevel (codes, statement.the_row.coded) };

    ghost view = { λ s. record { state = record { images = s.images.items; pending = s.pending }; done = s.done; failed = s.failed } };
}

impl State {
    /// The state in which a run on so many images begins.
    pub fn new(alloc: Global, a: &Accepted, images: u32) -> Result<State, Memory>
        requires least { 1 ≤ images }
        requires most { images ≤ 64 }
        ensures first { IfOk result (λ s. s ≡ begun a.now images) }
        ensures ready { IfOk result (λ s. CanGoOn s) }
    {
        memories_begin_placeable();
        let program = a.program();
        let mut all = Vec::new(alloc);
        for image in 0..images {
            all.push(first_image(alloc, program, image, images)?)?;
        }
        Ok(State {
            alloc,
            images: all,
            pending: Pending::new(alloc),
            done: 0,
            failed: false,
        })
    }

    /// Makes a choice where memory was never wanting.
    fn choose(&mut self, program: &Program, c: Choice) -> Result<Stepped, Memory>
        requires { ArePlaceable self.old.state.images }
        ensures made { IfOk result (λ stepped. Makes (next program.now self.old.state c) self.old.state self.new.state stepped) }
        ensures memory { IfOk result (λ _. ArePlaceable self.new.state.images) }
        ensures done { self.new.done ≡ self.old.done }
        ensures failed { self.new.failed ≡ self.old.failed }
    {
        match c {
            Choice::Step(image, task) => step_task(
                self.alloc,
                program,
                &mut self.images,
                &mut self.pending,
                image,
                task,
            ),
            Choice::Touch(name) => touch(
                self.alloc,
                program,
                &mut self.images,
                &mut self.pending,
                name,
            ),
            Choice::Part(image) => part(self.alloc, &mut self.images, image),
            Choice::Leave(image) => leave(self.alloc, &mut self.images, &self.pending, image),
        }
    }

    /// How many choices were done so far.
    pub fn done(&self) -> u32
        ensures { result ≡ self.now.done }
    {
        self.done
    }

    /// How the state stands: trapped, done, stuck where no choice is defined, or going. Once memory was wanting, it is
    /// [`Memory`].
    pub fn ending(&self, a: &Accepted) -> Result<Ending, Memory>
        ensures { IfOk result (λ ending. Stands a.now self.now.state ending) }
    {
        if self.failed {
            return Err(Memory);
        }
        each_held_value_has_its_read();
        let subs = a.program().subs.as_slice();
        ending(subs, self.images.as_slice(), &self.pending)
    }

    /// What a report tells of the state: the lines and the trap of each image, and how the state stands.
    pub fn summary(&self, a: &Accepted) -> Result<Summary, Memory>
        ensures { IfOk result (λ summary. Tells a.now self.now.state summary) }
    {
        let ending = self.ending(a)?;
        let mut images = Sequence::new(self.alloc);
        for image in self.images.as_slice() {
            images.push(summary_of(self.alloc, image)?)?;
        }
        Ok(Summary { images, ending })
    }
}

/// Makes a choice: the next state of the source machine, or `NotEnabled` exactly where the choice isn't defined, and then
/// the state is as before. Once memory was wanting, the state answers [`Memory`] to every call.
pub fn step(a: &Accepted, s: &mut State, c: Choice) -> Result<Stepped, Memory>
    requires ready { CanGoOn s.old }
    requires count { s.old.done < 1000000 }
    ensures made { IfOk result (λ stepped. Made a.now c s.old s.new stepped) }
    ensures failed { OnErr result (s.new.failed ≡ true) }
    ensures ready { CanGoOn s.new }
{
    if s.failed {
        return Err(Memory);
    }
    match s.choose(a.program(), c) {
        Ok(Stepped::Done) => {
            s.done += 1;
            Ok(Stepped::Done)
        }
        Ok(Stepped::NotEnabled) => Ok(Stepped::NotEnabled),
        Err(Memory) => {
            s.failed = true;
            Err(Memory)
        }
    }
}
