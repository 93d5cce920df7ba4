ghost use Rattle.std.specs.Prelude.{◌≡◌};
ghost use Rattle.caf_kinds.specs.Names.{look};

use caf_base::Sequence;
use caf_declare::{Symbol, Table, Taken};
use sqlite_items::Items;

/// What a part of the program sees: its own names, those of the main program, and what each subroutine takes for its
/// dummies, none where a dummy isn't declared.
#[derive(Drop)]
pub struct Scope {
    pub own: Table<Symbol>,
    pub main: Table<Symbol>,
    pub subs: Sequence<Items<Option<Taken>>>,
}

/// What a name stands for in a part. A subroutine's names hide those of the main program.
pub fn look(scope: &Scope, name: &str) -> Option<Symbol>
    ensures { result ≡ look scope.now name.now }
{
    match scope.own.look(name) {
        Some(symbol) => Some(symbol),
        None => scope.main.look(name),
    }
}
