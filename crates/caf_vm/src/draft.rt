ghost use Rattle.std.specs.Prelude.{◌≡◌, ◌<◌, ◌≤◌, ◌^◌, List, ℤ, ◌+◌, ◌∷◌, ◌++◌, [], length, reverse, drop, OnOk, IfOk, IfErr, slice_index_or, slice_get, pos, MatchResult, Ok, Err};
ghost use Rattle.caf_base.specs.ImageMemory.{ImageMemory};
ghost use Rattle.caf_base.specs.Element.{element_of};
ghost use Rattle.caf_base.specs.Places.{written};
ghost use Rattle.caf_base.specs.declared.place.Place.{Place};
ghost use Rattle.caf_base.specs.declared.place.SectionRange.{SectionRange};
ghost use Rattle.caf_code.specs.Did.{Did, on_arguments, on_place};
ghost use Rattle.caf_code.specs.Shapes.{numbers, with_rank};
ghost use Rattle.caf_code.specs.Operations.{lists, on_range};
ghost use Rattle.caf_code.specs.Calls.{with_out};
ghost use Rattle.caf_code.specs.Numbers.{with_cell};
ghost use Rattle.caf_code.specs.Print.{with_part};
ghost use Rattle.caf_code.specs.Task.{Task, past, with_stack};
ghost use Rattle.caf_memory.specs.Bounds.{HasCells};
ghost use Rattle.caf_vm.specs.Draft.{task_in, memory_in, latest_cell, latest_element, or_latest};
ghost use Rattle.caf_vm.specs.Went.{Written, OnTrap};
ghost use Rattle.caf_code.specs.Flow.{with_loops};

use crate::stop::Stop;
use crate::{Memory, Task};
use caf_base::{Place, SectionRange, Text, Trap};
use caf_code::{CopyTarget, Listed, Loop, PlaceForm, RangeForm};
use caf_memory::ImageMemory;
use std::alloc::Global;

// A number for a cell of the frame.
#[derive(Clone, Copy)]
pub struct CellWrite {
    pub cell: u32,
    pub value: i64,
}

// A number for an element of an object.
#[derive(Clone, Copy)]
pub struct Write {
    pub object: u32,
    pub index: i64,
    pub value: i64,
}

// What a step has done so far. The task and the memory stay as they were until the step is known to go on, so that a
// step that blocks changes nothing.
#[derive(Drop)]
pub struct Draft {
    pub alloc: Global,
    pub address: usize,
    // The operands that the step pushed, the latest last, and how many it took from those of the task.
    pub pushed: Vec<i64>,
    pub taken: usize,
    pub cells: Vec<CellWrite>,
    pub opened: Vec<Loop>,
    pub listed: Vec<Listed>,
    pub outs: Vec<CopyTarget>,
    pub parts: Vec<Text>,
    pub writes: Vec<Write>,
}

impl Draft {
    // A step that begins at an address.
    pub fn new(alloc: Global, address: usize) -> Draft
        ensures task { (t : Task) → t.address ≡ address → task_in result t ≡ t }
        ensures memory { (m : ImageMemory) → memory_in result m ≡ m }
    {
        Draft {
            alloc,
            address,
            pushed: Vec::new(alloc),
            taken: 0,
            cells: Vec::new(alloc),
            opened: Vec::new(alloc),
            listed: Vec::new(alloc),
            outs: Vec::new(alloc),
            parts: Vec::new(alloc),
            writes: Vec::new(alloc),
        }
    }

    // Goes on behind an instruction that left a number.
    pub fn answer(&mut self, value: i64) -> Result<(), Stop>
        requires { self.old.address < 2 ^ 63 }
        ensures task { OnOk result ((t : Task) → task_in self.new t ≡ past 1 (value ∷ (task_in self.old t).frame.stack) (task_in self.old t)) }
        ensures err { IfErr result (λ stop. stop ≡ Stop.Memory) }
        ensures writes { self.new.writes ≡ self.old.writes }
    {
        if self.pushed.push(value).is_err() {
            return Err(Stop::Memory);
        }
        self.address += 1;
        Ok(())
    }

    // Goes on behind an instruction.
    pub fn skip(&mut self)
        requires { self.old.address < 2 ^ 63 }
        ensures task { (t : Task) → task_in self.new t ≡ past 1 (task_in self.old t).frame.stack (task_in self.old t) }
        ensures writes { self.new.writes ≡ self.old.writes }
    {
        self.address += 1;
    }

    // Takes the operand on the top.
    pub fn pop(&mut self, task: &Task) -> i64
        requires { 0 < length (task_in self.old task.now).frame.stack }
        ensures task { task_in self.old task.now ≡ with_stack (result ∷ (task_in self.new task.now).frame.stack) (task_in self.new task.now) }
        ensures address { self.new.address ≡ self.old.address }
        ensures writes { self.new.writes ≡ self.old.writes }
    {
        match self.pushed.pop() {
            Some(value) => value,
            None => {
                let value = task.operand(self.taken);
                self.taken += 1;
                value
            }
        }
    }

    // Takes the rank of a place, if it has one.
    pub fn pop_place(&mut self, task: &Task, form: PlaceForm) -> Place
        requires { with_rank form 0 ≤ length (task_in self.old task.now).frame.stack }
        ensures pops { (m : ImageMemory) (go : Place → List ℤ → Did) → on_place form (task_in self.old task.now).frame.stack m go ≡ go result (task_in self.new task.now).frame.stack }
        ensures task { task_in self.old task.now ≡ with_stack (task_in self.old task.now).frame.stack (task_in self.new task.now) }
        ensures left { with_rank form (length (task_in self.new task.now).frame.stack) ≡ length (task_in self.old task.now).frame.stack }
        ensures address { self.new.address ≡ self.old.address }
        ensures writes { self.new.writes ≡ self.old.writes }
    {
        match form {
            PlaceForm::Own => Place::Own,
            PlaceForm::World => Place::World(self.pop(task)),
            PlaceForm::Of(object) => Place::Of(object, self.pop(task)),
        }
    }

    // Takes so many operands, and answers them in the order in which they were pushed.
    pub fn pop_many(&mut self, task: &Task, count: usize) -> Result<Vec<i64>, Memory>
        requires { count ≤ length (task_in self.old task.now).frame.stack }
        ensures pops { IfOk result (λ taken. (m : ImageMemory) (go : List ℤ → List ℤ → Did) → on_arguments count (task_in self.old task.now).frame.stack m go ≡ go taken.items (task_in self.new task.now).frame.stack) }
        ensures task { OnOk result (task_in self.old task.now ≡ with_stack (task_in self.old task.now).frame.stack (task_in self.new task.now)) }
        ensures address { OnOk result (self.new.address ≡ self.old.address) }
        ensures writes { OnOk result (self.new.writes ≡ self.old.writes) }
    {
        let mut taken = Vec::new(self.alloc);
        for _operand in 0..count {
            taken.push(self.pop(task))?;
        }
        taken.reverse();
        Ok(taken)
    }

    // Takes the numbers of a range.
    pub fn pop_range(&mut self, task: &Task, form: RangeForm) -> SectionRange
        requires { numbers form ≤ length (task_in self.old task.now).frame.stack }
        ensures pops { (m : ImageMemory) (go : SectionRange → List ℤ → Did) → on_range form (task_in self.old task.now).frame.stack m go ≡ go result (task_in self.new task.now).frame.stack }
        ensures task { task_in self.old task.now ≡ with_stack (task_in self.old task.now).frame.stack (task_in self.new task.now) }
        ensures address { self.new.address ≡ self.old.address }
        ensures writes { self.new.writes ≡ self.old.writes }
    {
        match form {
            RangeForm::All => SectionRange::All,
            RangeForm::Cell => SectionRange::Cell(self.pop(task)),
            RangeForm::Between => {
                let last = self.pop(task);
                SectionRange::Between(self.pop(task), last)
            }
            RangeForm::From => SectionRange::From(self.pop(task)),
            RangeForm::UpTo => SectionRange::UpTo(self.pop(task)),
        }
    }

    // Lists a section or an event, and goes on.
    pub fn list(&mut self, listed: Listed) -> Result<(), Stop>
        requires { self.old.address < 2 ^ 63 }
        ensures task { OnOk result ((t : Task) → task_in self.new t ≡ lists listed (task_in self.old t).frame.stack (task_in self.old t)) }
        ensures err { IfErr result (λ stop. stop ≡ Stop.Memory) }
        ensures writes { self.new.writes ≡ self.old.writes }
    {
        if self.listed.push(listed).is_err() {
            return Err(Stop::Memory);
        }
        self.address += 1;
        Ok(())
    }

    // Fixes a place for copy out, and goes on.
    pub fn fix(&mut self, target: CopyTarget) -> Result<(), Stop>
        requires { self.old.address < 2 ^ 63 }
        ensures task { OnOk result ((t : Task) → task_in self.new t ≡ with_out target (task_in self.old t).frame.stack (task_in self.old t)) }
        ensures err { IfErr result (λ stop. stop ≡ Stop.Memory) }
        ensures writes { self.new.writes ≡ self.old.writes }
    {
        if self.outs.push(target).is_err() {
            return Err(Stop::Memory);
        }
        self.address += 1;
        Ok(())
    }

    // Adds a part of the line, and goes on.
    pub fn print(&mut self, part: Text) -> Result<(), Stop>
        requires { self.old.address < 2 ^ 63 }
        ensures task { OnOk result ((t : Task) → task_in self.new t ≡ with_part part (task_in self.old t).frame.stack (task_in self.old t)) }
        ensures err { IfErr result (λ stop. stop ≡ Stop.Memory) }
        ensures writes { self.new.writes ≡ self.old.writes }
    {
        if self.parts.push(part).is_err() {
            return Err(Stop::Memory);
        }
        self.address += 1;
        Ok(())
    }

    // Puts a number in a cell, and goes on.
    pub fn set_cell(&mut self, cell: u32, value: i64) -> Result<(), Stop>
        requires { self.old.address < 2 ^ 63 }
        ensures task { OnOk result ((t : Task) → task_in self.new t ≡ with_cell cell value (task_in self.old t).frame.stack (task_in self.old t)) }
        ensures err { IfErr result (λ stop. stop ≡ Stop.Memory) }
        ensures writes { self.new.writes ≡ self.old.writes }
    {
        if self.cells.push(CellWrite { cell, value }).is_err() {
            return Err(Stop::Memory);
        }
        self.address += 1;
        Ok(())
    }

    // A cell of the frame.
    #[tactic(auto, using(crate::proofs::Overlay::cell_after))]
    pub fn cell(&self, task: &Task, cell: usize) -> i64
        requires { cell < length task.now.frame.cells }
        ensures { result ≡ slice_index_or (task_in self.now task.now).frame.cells cell (pos 0) }
    {
        let before = task.cells()[cell];
        latest_in_cell(self.cells.as_slice(), cell).unwrap_or(before)
    }

    // Opens a loop.
    pub fn open(&mut self, opened: Loop) -> Result<(), Stop>
        ensures task { OnOk result ((t : Task) → task_in self.new t ≡ with_loops (opened ∷ (task_in self.old t).frame.loops) (task_in self.old t)) }
        ensures err { IfErr result (λ stop. stop ≡ Stop.Memory) }
        ensures address { self.new.address ≡ self.old.address }
        ensures writes { self.new.writes ≡ self.old.writes }
    {
        if self.opened.push(opened).is_err() {
            return Err(Stop::Memory);
        }
        Ok(())
    }

    // The innermost loop.
    pub fn innermost(&self, task: &Task) -> Loop
        requires { 0 < length (task_in self.now task.now).frame.loops }
        ensures { (task_in self.now task.now).frame.loops ≡ result ∷ drop 1 (task_in self.now task.now).frame.loops }
    {
        match self.opened.last() {
            Some(opened) => *opened,
            None => task.innermost(),
        }
    }

    // The element of an object at an index; trap `Index` outside its bounds.
    pub fn read(&self, memory: &ImageMemory, object: u32, index: i64) -> Result<i64, Trap>
        requires { HasCells memory.now.objects object }
        ensures { result ≡ element_of (memory_in self.now memory.now).objects (memory_in self.now memory.now).cells object index }
    {
        memory.has_row(object);
        let latest = latest_in_element(self.writes.as_slice(), object, index);
        latest_or(latest, memory.read(object, index))
    }

    // Puts a number in an element; trap `Index` outside the bounds.
    pub fn write(
        &mut self,
        memory: &ImageMemory,
        object: u32,
        index: i64,
        value: i64,
    ) -> Result<(), Stop>
        ensures memory { Written result (written (memory_in self.old memory.now) object index value) (memory_in self.new memory.now) }
        ensures trap { OnTrap result (self.new ≡ self.old) }
        ensures task { (t : Task) → task_in self.new t ≡ task_in self.old t }
        ensures address { self.new.address ≡ self.old.address }
    {
        if let Err(trap) = memory.read(object, index) {
            return Err(Stop::Trap(trap));
        }
        if self
            .writes
            .push(Write {
                object,
                index,
                value,
            })
            .is_err()
        {
            return Err(Stop::Memory);
        }
        Ok(())
    }
}

// The number that the latest of these writes puts in a cell.
fn latest_in_cell(writes: &[CellWrite], cell: usize) -> Option<i64>
    ensures { result ≡ latest_cell cell (reverse writes.now) }
{
    writes
        .iter()
        .rev()
        .find(|write| write.cell as usize == cell)
        .map(|write| write.value)
}

// The number that the latest of these writes puts in an element.
fn latest_in_element(writes: &[Write], object: u32, index: i64) -> Option<i64>
    ensures { result ≡ latest_element object index (reverse writes.now) }
{
    writes
        .iter()
        .rev()
        .find(|write| write.object == object && write.index == index)
        .map(|write| write.value)
}

// The number that was put there latest stands for the element, where the element is there.
fn latest_or(latest: Option<i64>, found: Result<i64, Trap>) -> Result<i64, Trap>
    ensures { result ≡ or_latest latest found }
{
    match latest {
        Some(value) => match found {
            Ok(_) => Ok(value),
            Err(trap) => Err(trap),
        },
        None => found,
    }
}
