ghost use Rattle.std.specs.Prelude.{◌≡◌};
ghost use Rattle.caf_base.specs.FinishRef.{encloses as encloses_finish, same_name as same_finish_name};

use caf_base::FinishRef;

/// Whether two finishes are named alike, by the team's path and the number.
pub fn same_name(a: &FinishRef, b: &FinishRef) -> bool
    ensures { result ≡ same_finish_name a.now b.now }
{
    a.team.path == b.team.path && a.number == b.number
}

/// Whether a list of finishes has one of this name.
pub fn encloses(finish: &FinishRef, finishes: &[FinishRef]) -> bool
    ensures { result ≡ encloses_finish finish.now finishes.now }
{
    finishes.iter().any(|other| same_name(finish, other))
}
