//! What is true of every list of finish events.

ghost use Rattle.std.specs.Prelude.{◌≡◌, ◌<◌, ◌-◌, ◌^◌, List, [], ◌∷◌, length, ℕ, ℤ, true};
ghost use Rattle.caf_finish.specs.declared.event.FinishEvent.{FinishEvent};
ghost use Rattle.caf_finish.specs.Account.{Account, first_account, may_contribute};
ghost use Rattle.caf_finish.specs.Events.{has_stood};
ghost use Rattle.caf_finish.specs.Follows.{IsAccountOf, account_after, CanFollow};
ghost use Rattle.caf_finish.specs.Kept.{IsKept, MayContribute};
ghost use Rattle.caf_finish.specs.Sound.{ZeroMeansNone, HasFewWaves};

/// In a kept list no result is negative. If one is 0, each message that was sent is completed, each rank stands at the
/// end of the finish, and no message is sent behind that result. Contributions are of the waves from 0 up to the greatest
/// depth of a message, so that they stand in at most one wave more than that.
pub fn kept_lists_are_sound()
    ensures zero { (size : ℕ) (h : List FinishEvent) → IsKept size h → ZeroMeansNone size h }
    ensures waves { (size : ℕ) (h : List FinishEvent) → IsKept size h → HasFewWaves h }
{}

/// What the desk keeps of one rank is what the events tell of it: at first, and after each event of a kept list if the
/// image makes the desk's call for what it does there. The calls may be made then, as far as the events tell; a sum that
/// doesn't fit and a part that was given before are another matter. Where the desk says that an image may contribute,
/// the rule says so of a rank that stands.
pub fn accounts_follow_the_events()
    ensures first { (size i : ℕ) → IsAccountOf [] i (first_account size i) }
    ensures next { (size : ℕ) (h : List FinishEvent) (i : ℕ) (sum : ℤ) (event : FinishEvent) (account : Account)
        → IsKept size (event ∷ h) → IsAccountOf h i account → IsAccountOf (event ∷ h) i (account_after h i sum event account) }
    ensures asked { (size : ℕ) (h : List FinishEvent) (i : ℕ) (event : FinishEvent) (account : Account)
        → length h < 2 ^ 31 - 1 → IsKept size (event ∷ h) → IsAccountOf h i account → CanFollow h i event account }
    ensures contribute { (size : ℕ) (h : List FinishEvent) (i : ℕ) (account : Account)
        → IsKept size h → IsAccountOf h i account → i < size → has_stood h i ≡ true → may_contribute account ≡ true
        → MayContribute size h i account.counters.even }
{}
