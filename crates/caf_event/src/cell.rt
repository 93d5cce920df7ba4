ghost use Rattle.std.specs.Prelude.{◌≡◌};
ghost use Rattle.caf_event.specs.Posts.{posted, posts_after, can_take, taken};

use caf_base::Trap;

/// An event, or an element of an array of events: how many posts it has that no wait took yet.
#[derive(Clone, Copy, Debug, PartialEq, Eq)]
pub struct EventCell {
    pub posts: u32,
}

impl EventCell {
    /// Adds a post. At 65,535 posts or more it answers trap `Posts`, and the event is as before. It takes no memory.
    pub fn post(&mut self) -> Result<(), Trap>
        ensures answer { result ≡ posted self.old.posts }
        ensures posts { self.new.posts ≡ posts_after self.old.posts }
    {
        if self.posts >= 65_535 {
            return Err(Trap::Posts);
        }
        self.posts += 1;
        Ok(())
    }

    /// Takes a post, if there is one. It takes no memory.
    pub fn take(&mut self) -> bool
        ensures answer { result ≡ can_take self.old.posts }
        ensures posts { self.new.posts ≡ taken self.old.posts }
    {
        if self.posts == 0 {
            return false;
        }
        self.posts -= 1;
        true
    }
}
