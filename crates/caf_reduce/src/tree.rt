ghost use Rattle.std.specs.Prelude.{◌≡◌, ◌<◌};
ghost use Rattle.caf_reduce.specs.Tree.{parent_of, first_part};

use crate::Part;

/// The rank that a rank above 0 gives its sum to.
pub fn parent(size: u32, rank: u32) -> u32
    requires above { 0 < rank }
    requires within { rank < size }
    ensures { result ≡ parent_of size rank }
{
    0
}

/// What a rank is to give to the sum that `rank` gathers, before anything was given.
pub(crate) fn first_part(size: u32, rank: u32, from: u32) -> Part
    requires { from < size }
    ensures { result ≡ first_part size rank from }
{
    if from == rank || (from > 0 && parent(size, from) == rank) {
        Part::Missing
    } else {
        Part::Outside
    }
}
