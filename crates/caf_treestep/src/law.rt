ghost use Rattle.std.specs.Prelude.{ℕ, List, IsTrue};
ghost use Rattle.std.specs.List.{list_all};
ghost use Rattle.caf_base.specs.Start.{start_memory};
ghost use Rattle.caf_base.specs.declared.object.Object.{Object};
ghost use Rattle.caf_program.specs.Accepted.{is_declared};
ghost use Rattle.caf_treestep.specs.Placeable.{IsPlaceable};

/// The law that a Step can run on the memory with which an image begins, where its objects are ones that a program may
/// declare.
#[tactic(auto, using(crate::proofs::FirstMemory::begins_placeable))]
pub fn memories_begin_placeable()
    ensures { (objects : List Object) (images : ℕ) (image : ℕ) → IsTrue (list_all is_declared objects) → IsPlaceable (start_memory objects images image) }
{}
