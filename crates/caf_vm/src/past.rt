//! What ends a task's waits.

ghost use Rattle.std.specs.Prelude.{◌≡◌, ℕ, true, is_some, IsTrue};
ghost use Rattle.caf_code.specs.Rules.{KeepsRules};
ghost use Rattle.caf_code.specs.Sound.{IsSound, IsSoundTask, IsSoundTeam, awaits_operation, awaits_team, awaits_value, stands_at_end};
ghost use Rattle.caf_code.specs.Step.{answered, left, parted, parted_memory};
ghost use Rattle.caf_code.specs.Whole.{IsSettled};
ghost use Rattle.caf_code.specs.declared.listing.Listing.{Listing};

use crate::Task;
use crate::settle::settle_in;
use caf_base::Team;
use caf_code::{Code, Wait, tasks_stay_sound};
use caf_memory::ImageMemory;

/// Ends the wait for a blocking operation, with a value exactly where it is a read. It takes no memory.
pub fn answer(task: &mut Task, value: Option<i64>)
    requires waits { IsTrue (awaits_operation task.old.wait) }
    requires value { is_some value ≡ awaits_value task.old.wait }
    ensures answered { task.new ≡ answered value task.old }
    ensures sound { (code : Listing) (images : ℕ) → KeepsRules code → IsSoundTask code images task.old → IsSoundTask code images task.new }
    ensures settled { (code : Listing) → IsSettled code task.old → IsSettled code task.new }
{
    tasks_stay_sound();
    task.take_answer(value);
}

/// Goes past the end of a finish, where the task stands. It takes no memory.
pub fn leave(code: &Code, task: &mut Task)
    requires { IsTrue (stands_at_end code.now task.old) }
    ensures left { task.new ≡ left code.now task.old }
    ensures sound { (images : ℕ) → IsSoundTask code.now images task.old → IsSoundTask code.now images task.new }
    ensures settled { IsSettled code.now task.new }
{
    tasks_stay_sound();
    let instrs = code.listing().instrs.as_slice();
    prove!(task.address() < instrs.len());
    let address = settle_in(code, task.address() + 1);
    task.go_on(address);
}

/// Sets the new team of the split at which the task waits, and goes past it. It takes no memory.
pub fn part(task: &mut Task, memory: &mut ImageMemory, new: Team)
    requires { IsTrue (awaits_team task.old.wait) }
    ensures task { task.new ≡ parted task.old }
    ensures memory { memory.new ≡ parted_memory task.old.wait new memory.old }
    ensures sound { (code : Listing) → KeepsRules code → IsSound code task.old memory.old → IsSoundTeam memory.old.image memory.old.images new → IsSound code task.new memory.new }
    ensures settled { (code : Listing) → IsSettled code task.old → IsSettled code task.new }
{
    tasks_stay_sound();
    set_new_team(memory, task.wait(), new);
    task.end_wait();
}

// Sets the new team that is waited for.
fn set_new_team(memory: &mut ImageMemory, wait: Option<Wait>, new: Team)
    ensures { memory.new ≡ parted_memory wait new memory.old }
{
    if let Some(Wait::NewTeam(object)) = wait {
        memory.set_team(object, new);
    }
}
