ghost use Rattle.std.specs.Prelude.{◌≡◌, ◌∷◌, [], List, IsTrue};
ghost use Rattle.caf_base.specs.ImageMemory.{ImageMemory};
ghost use Rattle.caf_base.specs.declared.effect.Effect.TheVariants as effect;
ghost use Rattle.caf_base.specs.declared.effect.Need.{Need};
ghost use Rattle.caf_program.specs.declared.program.SubR.{SubR};
ghost use Rattle.caf_program.specs.declared.stmt.StmtR.{StmtR};
ghost use Rattle.caf_source.specs.Built.{are_subs_built, is_block_built};
ghost use Rattle.caf_source.specs.Main.{IsMainTask};
ghost use Rattle.caf_source.specs.Plain.{all_clear, is_plain_effect, StaysPlain};
ghost use Rattle.caf_treestep.specs.declared.task.Task.{Task};
ghost use Rattle.caf_treestep.specs.declared.todo.Todo.TheVariants as item;
ghost use Rattle.caf_treestep.specs.Step.{main_task, step as step_of};

use caf_program::each_held_value_has_its_read;

/// The laws of the main task of a program of the forms that run so far: it begins as one and stays one, its steps run, trap
/// or block, a step that traps or blocks changes nothing, and it blocks at the end of the program alone.
pub fn main_tasks_come_to_their_end()
    ensures begins { (body : List StmtR) → IsTrue (is_block_built body) → IsMainTask (main_task body) }
    ensures stays { (subs : List SubR) (t : Task) (m : ImageMemory) → IsTrue (are_subs_built subs) → IsMainTask t → IsMainTask (step_of subs all_clear t m).task }
    ensures plain { (subs : List SubR) (t : Task) (m : ImageMemory) → IsTrue (are_subs_built subs) → IsMainTask t → StaysPlain (step_of subs all_clear t m) t m }
    ensures blocks { (subs : List SubR) (t : Task) (m : ImageMemory) (n : Need) → IsMainTask t → (step_of subs all_clear t m).effect ≡ effect.Blocks n → (t.frame.todo ≡ item.Closes ∷ []) × (t.below ≡ []) }
{
    each_held_value_has_its_read();
}
