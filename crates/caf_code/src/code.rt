ghost use Rattle.std.specs.Prelude.{◌≡◌};
ghost use Rattle.caf_code.specs.Rules.{KeepsRules};

use crate::Listing;
use std::marker::Model;

/// A listing that keeps the rules, so that no instruction meets a missing operand, an operand of the wrong kind or a
/// jump out of the code.
#[derive(Drop)]
pub struct Code {
    listing: Listing,
}

impl Model for Code {
    ghost use Rattle.caf_code.specs.declared.listing.Listing.{Listing};
    ghost use Rattle.caf_code.specs.Rules.{KeepsRules};

    ghost Value = { Listing };

    ghost view = { λ code. code.listing };

    ghost invariant = { λ code. KeepsRules code.listing };
}

impl Code {
    /// The code of a listing that keeps the rules.
    pub fn of(listing: Listing) -> Code
        requires { KeepsRules listing }
        ensures { result ≡ listing }
    {
        Code { listing }
    }

    /// The listing, which keeps the rules.
    pub fn listing(&self) -> &Listing
        ensures same { result.now ≡ self.now }
        ensures keeps { KeepsRules result.now }
    {
        &self.listing
    }
}
