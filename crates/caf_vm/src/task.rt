ghost use Rattle.std.specs.Prelude.{◌≡◌, ℕ, IsTrue, ◌<◌, ◌+◌, ◌^◌, ◌∷◌, ◌++◌, [], List, drop, length, map, reverse, false, is_some, replicate, pos, slice_get, Some, IfOk, IsSomeAnd, OnOk};
ghost use Rattle.caf_code.specs.Calls.{opens, paired as pairs, returns};
ghost use Rattle.caf_code.specs.Flow.{with_loops};
ghost use Rattle.caf_code.specs.Operations.{awaits};
ghost use Rattle.caf_code.specs.Sound.{IsSoundTask, awaits_value, is_carried};
ghost use Rattle.caf_code.specs.Step.{answered, main_task, parted, shipped_task};
ghost use Rattle.caf_code.specs.declared.listing.SubCode.{SubCode};
ghost use Rattle.caf_vm.specs.Begun.{begun};
ghost use Rattle.caf_vm.specs.Frames.{SameFrame, call_of};
ghost use Rattle.caf_code.specs.Task.{ends_at, past, OpenCall as CallNow};
ghost use Rattle.caf_code.specs.Whole.{IsSettled};
ghost use Rattle.caf_vm.specs.Calls.{CanReturn, outs_of, with_cells, with_no_lists};
ghost use Rattle.caf_code.specs.declared.task.Wait.TheVariants as wait;
ghost use Rattle.caf_vm.specs.Draft.{cells_after, task_in};

use crate::Memory;
use crate::draft::{CellWrite, Draft};
use crate::settle::settle_in;
use caf_base::{EventAt, Text};
use caf_code::{Code, CopyOut, CopyTarget, Listed, Loop, SubCode, Wait, tasks_stay_sound};
use smallvec::SmallVec;
use std::alloc::Global;
use std::marker::Model;
use std::mem;

// What a frame keeps beyond one statement: its cells, its operands and its open loops, the latest last.
#[derive(Drop)]
pub struct Frame {
    pub cells: Vec<i64>,
    pub stack: Vec<i64>,
    pub loops: Vec<Loop>,
}

// A call that is open: the frame that called, the address of the `call`, and what is copied out at its end.
#[derive(Drop)]
pub struct OpenCall {
    pub caller: Frame,
    pub from: usize,
    pub outs: Vec<CopyOut>,
}

/// A task of the virtual machine: the main program, or a subroutine that was shipped.
#[derive(Drop)]
pub struct Task {
    alloc: Global,
    address: usize,
    frame: Frame,
    // What the present frame keeps for one statement. No other frame has any.
    held: SmallVec<i64, 4>,
    listed: Vec<Listed>,
    outs: Vec<CopyTarget>,
    // The open calls, the latest last.
    calls: Vec<OpenCall>,
    parts: Vec<Text>,
    wait: Option<Wait>,
    done: Option<EventAt>,
}

impl Model for Task {
    ghost use Rattle.caf_code.specs.Task.{Task};

    ghost Value = { Task };

    ghost use Rattle.caf_vm.specs.Task.{seen, HasRoom};

    ghost view = { seen };

    ghost invariant = { λ task. HasRoom task.wait task.held };
}

impl Task {
    /// The task of the main program.
    pub fn main(alloc: Global, code: &Code) -> Result<Task, Memory>
        ensures begins { IfOk result (λ task. task ≡ main_task code.now) }
        ensures sound { IfOk result (λ task. (images : ℕ) → IsSoundTask code.now images task) }
        ensures settled { IfOk result (λ task. IsSettled code.now task) }
    {
        tasks_stay_sound();
        let _listing = code.listing();
        let address = settle_in(code, 0);
        Ok(Task::with_cells(alloc, address, Vec::new(alloc), None))
    }

    /// A task of a subroutine, by its place among those of the code, with an argument for each of its dummies, and with
    /// the event that is posted at its end, if there is one.
    pub fn shipped(
        alloc: Global,
        code: &Code,
        sub: u32,
        args: &[i64],
        done: Option<EventAt>,
    ) -> Result<Task, Memory>
        requires { IsSomeAnd (slice_get code.now.subs sub) (λ found. length args.now ≡ length found.dummies) }
        ensures begins { IfOk result (λ task. (found : SubCode) → slice_get code.now.subs sub ≡ Some found → task ≡ shipped_task code.now found args.now done) }
        ensures sound { IfOk result (λ task. (images : ℕ) → IsTrue (is_carried code.now images done) → IsSoundTask code.now images task) }
        ensures settled { IfOk result (λ task. IsSettled code.now task) }
    {
        tasks_stay_sound();
        let found = &code.listing().subs.as_slice()[sub as usize];
        let address = settle_in(code, found.address as usize);
        let cells = first_cells(alloc, args, found.locals)?;
        Ok(Task::with_cells(alloc, address, cells, done))
    }

    /// An equal task.
    pub fn again(&self) -> Result<Task, Memory>
        ensures { IfOk result (λ task. task ≡ self.now) }
    {
        let mut held = SmallVec::from_slice(self.alloc, self.held.as_slice())?;
        held.reserve(1)?;
        Ok(Task {
            alloc: self.alloc,
            address: self.address,
            frame: copy_frame(self.alloc, &self.frame)?,
            held,
            listed: Vec::from_slice(self.alloc, self.listed.as_slice())?,
            outs: Vec::from_slice(self.alloc, self.outs.as_slice())?,
            calls: copy_calls(self.alloc, self.calls.as_slice())?,
            parts: copy_parts(self.alloc, self.parts.as_slice())?,
            wait: self.wait,
            done: self.done,
        })
    }

    // A task at an address, in one frame with these cells.
    fn with_cells(alloc: Global, address: usize, cells: Vec<i64>, done: Option<EventAt>) -> Task
        ensures { result ≡ begun address cells.items done }
    {
        Task {
            alloc,
            address,
            frame: Frame {
                cells,
                stack: Vec::new(alloc),
                loops: Vec::new(alloc),
            },
            held: SmallVec::new(alloc),
            listed: Vec::new(alloc),
            outs: Vec::new(alloc),
            calls: Vec::new(alloc),
            parts: Vec::new(alloc),
            wait: None,
            done,
        }
    }

    pub fn alloc(&self) -> Global {
        self.alloc
    }

    pub fn address(&self) -> usize
        ensures { result ≡ self.now.address }
    {
        self.address
    }

    // What the task waits for.
    pub fn wait(&self) -> Option<Wait>
        ensures { result ≡ self.now.wait }
    {
        self.wait
    }

    // The operand under so many from the top.
    pub fn operand(&self, taken: usize) -> i64
        requires { taken < length self.now.frame.stack }
        ensures rest { drop taken self.now.frame.stack ≡ result ∷ drop (taken + 1) self.now.frame.stack }
        ensures within { taken + 1 < 2 ^ 64 }
    {
        let operands = self.frame.stack.as_slice();
        operands[operands.len() - 1 - taken]
    }

    // The cells of the present frame.
    pub fn cells(&self) -> &[i64]
        ensures { result.now ≡ self.now.frame.cells }
    {
        self.frame.cells.as_slice()
    }

    // The values that are held.
    pub fn held(&self) -> &[i64]
        ensures { result.now ≡ self.now.frame.held }
    {
        self.held.as_slice()
    }

    // The innermost loop.
    pub fn innermost(&self) -> Loop
        requires { 0 < length self.now.frame.loops }
        ensures { self.now.frame.loops ≡ result ∷ drop 1 self.now.frame.loops }
    {
        let loops = self.frame.loops.as_slice();
        loops[loops.len() - 1]
    }

    // Takes over what a step has done.
    pub fn carry(&mut self, draft: Draft) -> Result<(), Memory>
        ensures { OnOk result (self.new ≡ task_in draft self.old) }
    {
        put_cells(&mut self.frame.cells, draft.cells.as_slice());
        keep_front(&mut self.frame.stack, draft.taken);
        self.frame.stack.extend_from_slice(draft.pushed.as_slice())?;
        self.frame.loops.extend_from_slice(draft.opened.as_slice())?;
        self.listed.extend_from_slice(draft.listed.as_slice())?;
        self.outs.extend_from_slice(draft.outs.as_slice())?;
        let mut parts = draft.parts;
        self.parts.append(&mut parts)?;
        self.address = draft.address;
        Ok(())
    }

    // The step is over: what it held and listed is dropped, and the task goes on at an address.
    pub fn stop(&mut self, address: usize)
        ensures { self.new ≡ ends_at address self.old.frame.stack self.old }
    {
        self.held.clear();
        self.listed.clear();
        self.address = address;
    }

    // Sets what the task waits for, other than a value.
    pub fn wait_for(&mut self, wait: Wait)
        requires { awaits_value (Some wait) ≡ false }
        ensures { self.new ≡ awaits wait self.old }
    {
        self.wait = Some(wait);
    }

    // Waits for the value of a read, with room for it.
    pub fn wait_for_value(&mut self) -> Result<(), Memory>
        ensures { OnOk result (self.new ≡ awaits wait.Value self.old) }
    {
        self.held.reserve(1)?;
        self.wait = Some(Wait::Value);
        Ok(())
    }

    // Goes on behind an instruction.
    pub fn skip(&mut self)
        requires { self.old.address < 2 ^ 63 }
        ensures { self.new ≡ past 1 self.old.frame.stack self.old }
    {
        self.address += 1;
    }

    // Closes the innermost loop.
    pub fn close_loop(&mut self)
        ensures { self.new ≡ with_loops (drop 1 self.old.frame.loops) self.old }
    {
        self.frame.loops.pop();
    }

    // Opens a loop.
    pub fn open_loop(&mut self, opened: Loop) -> Result<(), Memory>
        ensures { OnOk result (self.new ≡ with_loops (opened ∷ self.old.frame.loops) self.old) }
    {
        self.frame.loops.push(opened)?;
        Ok(())
    }

    // The wait for a blocking operation is over: a read has brought its value. It takes no memory.
    pub fn take_answer(&mut self, value: Option<i64>)
        requires { is_some value ≡ awaits_value self.old.wait }
        ensures { self.new ≡ answered value self.old }
    {
        if let Some(value) = value {
            self.held.push_reserved(value);
        }
        self.wait = None;
    }

    // The task goes on at an address.
    pub fn go_on(&mut self, address: usize)
        ensures { self.new ≡ record self.old { address = address } }
    {
        self.address = address;
    }

    // What the present frame has listed.
    pub fn listed(&self) -> &[Listed]
        ensures { result.now ≡ self.now.frame.listed }
    {
        self.listed.as_slice()
    }

    // The parts of the line that is being printed.
    pub fn parts(&self) -> &[Text]
        ensures { result.now ≡ self.now.parts }
    {
        self.parts.as_slice()
    }

    // The event that is posted at the end of the task.
    pub fn done(&self) -> Option<EventAt>
        ensures { result ≡ self.now.done }
    {
        self.done
    }

    // How many calls are open.
    pub fn open_calls(&self) -> usize
        ensures { result ≡ length self.now.calls }
    {
        self.calls.len()
    }

    // What the end of the innermost call copies out.
    pub fn copied_out(&self) -> &[CopyOut]
        ensures { result.now ≡ outs_of self.now.calls }
    {
        match self.calls.last() {
            Some(call) => call.outs.as_slice(),
            None => &[],
        }
    }

    // The line is printed.
    pub fn end_line(&mut self)
        ensures { self.new ≡ record self.old { parts = [] } }
    {
        self.parts.clear();
    }

    // Opens a frame of a subroutine, which takes the places for copy out along.
    pub fn open_call(&mut self, sub: &SubCode, arguments: &[i64]) -> Result<(), Memory>
        ensures { OnOk result (self.new ≡ opens sub.now arguments.now self.old.frame.stack self.old) }
    {
        let outs = paired(self.alloc, sub.dummies.as_slice(), self.outs.as_slice())?;
        let opened = Frame {
            cells: first_cells(self.alloc, arguments, sub.locals)?,
            stack: Vec::new(self.alloc),
            loops: Vec::new(self.alloc),
        };
        let caller = mem::replace(&mut self.frame, opened);
        self.calls.push(OpenCall {
            caller,
            from: self.address,
            outs,
        })?;
        self.drop_lists();
        self.address = sub.address as usize;
        Ok(())
    }

    // Goes back behind the innermost call, with these numbers in cells of its caller.
    pub fn go_back(&mut self, writes: &[CellWrite])
        requires { CanReturn self.old.calls }
        ensures { (call : CallNow) (below : List CallNow) → self.old.calls ≡ call ∷ below → self.new ≡ returns call below (with_cells (reverse writes.now) call.caller) self.old }
    {
        if let Some(call) = self.calls.pop() {
            self.frame = call.caller;
            put_cells(&mut self.frame.cells, writes);
            self.drop_lists();
            self.address = call.from + 1;
        }
    }

    // The present frame holds and lists nothing.
    fn drop_lists(&mut self)
        ensures { self.new ≡ with_no_lists self.old }
    {
        self.held.clear();
        self.listed.clear();
        self.outs.clear();
    }

    // The task waits no longer for a new team.
    pub fn end_wait(&mut self)
        ensures { self.new ≡ parted self.old }
    {
        self.wait = None;
    }
}

// The cells of a frame: the arguments, and then so many locals, which are 0.
fn first_cells(alloc: Global, args: &[i64], locals: u32) -> Result<Vec<i64>, Memory>
    ensures { IfOk result (λ cells. cells.items ≡ args.now ++ replicate locals (pos 0)) }
{
    let mut cells = Vec::from_slice(alloc, args)?;
    for _local in 0..locals {
        cells.push(0)?;
    }
    Ok(cells)
}

// Each dummy that is copied out, from the left, with its place for that.
fn paired(alloc: Global, dummies: &[bool], targets: &[CopyTarget]) -> Result<Vec<CopyOut>, Memory>
    ensures { IfOk result (λ outs. outs.items ≡ pairs 0 dummies.now targets.now) }
{
    let mut outs = Vec::new(alloc);
    let mut next = 0;
    for cell in 0..dummies.len() {
        if dummies[cell] {
            let Some(target) = targets.get(next) else {
                return Ok(outs);
            };
            outs.push(CopyOut {
                cell,
                target: *target,
            })?;
            next += 1;
        }
    }
    Ok(outs)
}

// Puts numbers in cells, one after another.
fn put_cells(cells: &mut Vec<i64>, writes: &[CellWrite])
    ensures { cells.new.items ≡ cells_after (reverse writes.now) cells.old.items }
{
    for write in writes {
        if (write.cell as usize) < cells.len() {
            cells[write.cell as usize] = write.value;
        }
    }
}

// Drops so many operands from the top.
fn keep_front(stack: &mut Vec<i64>, taken: usize)
    ensures { reverse stack.new.items ≡ drop taken (reverse stack.old.items) }
{
    let kept = stack.len().saturating_sub(taken);
    stack.truncate(kept);
}

// A copy of a frame.
fn copy_frame(alloc: Global, frame: &Frame) -> Result<Frame, Memory>
    ensures { IfOk result (λ copy. SameFrame copy frame.now) }
{
    Ok(Frame {
        cells: Vec::from_slice(alloc, frame.cells.as_slice())?,
        stack: Vec::from_slice(alloc, frame.stack.as_slice())?,
        loops: Vec::from_slice(alloc, frame.loops.as_slice())?,
    })
}

// A copy of an open call.
fn copy_call(alloc: Global, call: &OpenCall) -> Result<OpenCall, Memory>
    ensures { IfOk result (λ copy. call_of copy ≡ call_of call.now) }
{
    Ok(OpenCall {
        caller: copy_frame(alloc, &call.caller)?,
        from: call.from,
        outs: Vec::from_slice(alloc, call.outs.as_slice())?,
    })
}

// Copies of open calls.
fn copy_calls(alloc: Global, calls: &[OpenCall]) -> Result<Vec<OpenCall>, Memory>
    ensures { IfOk result (λ copies. map call_of copies.items ≡ map call_of calls.now) }
{
    let mut copies = Vec::new(alloc);
    for call in calls {
        copies.push(copy_call(alloc, call)?)?;
    }
    Ok(copies)
}

// Copies of the parts of a line.
fn copy_parts(alloc: Global, parts: &[Text]) -> Result<Vec<Text>, Memory>
    ensures { IfOk result (λ copies. copies.items ≡ parts.now) }
{
    let mut copies = Vec::new(alloc);
    for part in parts {
        copies.push(Text::copy_of(alloc, part.as_str())?)?;
    }
    Ok(copies)
}
