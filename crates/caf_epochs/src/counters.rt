ghost use Rattle.std.specs.Prelude.{◌≡◌, ◌<◌};
ghost use Rattle.caf_epochs.specs.Counters.{
  no_counts,
  one_sent,
  one_delivered,
  one_received,
  one_completed,
  four_of,
  in_class,
  is_quiet,
  sum_of_fours,
  FitsFour,
  folded,
};

use caf_base::Four;

/// Which of an image's two sets of four numbers counts a message.
#[derive(Clone, Copy, Debug, PartialEq, Eq)]
pub enum Class {
    /// The message was sent before its sender contributed to the wave that the image is in.
    Even,
    /// It was sent after that.
    Odd,
}

/// An image's numbers of messages in one finish, by class.
#[derive(Clone, Copy, Debug, PartialEq, Eq)]
pub struct Counters {
    pub even: Four,
    pub odd: Four,
}

impl Counters {
    /// No message.
    pub fn new() -> Counters
        ensures { result ≡ no_counts }
    {
        let none = Four {
            sent: 0,
            delivered: 0,
            received: 0,
            completed: 0,
        };
        Counters {
            even: none,
            odd: none,
        }
    }

    /// Counts a message that the image sends.
    pub fn sent(&mut self, class: Class)
        requires { (four_of class self.old).sent < 4294967295 }
        ensures { self.new ≡ in_class class one_sent self.old }
    {
        match class {
            Class::Even => self.even.sent += 1,
            Class::Odd => self.odd.sent += 1,
        }
    }

    /// Counts a sent message of whose delivery the image hears.
    pub fn delivered(&mut self, class: Class)
        requires { (four_of class self.old).delivered < 4294967295 }
        ensures { self.new ≡ in_class class one_delivered self.old }
    {
        match class {
            Class::Even => self.even.delivered += 1,
            Class::Odd => self.odd.delivered += 1,
        }
    }

    /// Counts a message that the image receives.
    pub fn received(&mut self, class: Class)
        requires { (four_of class self.old).received < 4294967295 }
        ensures { self.new ≡ in_class class one_received self.old }
    {
        match class {
            Class::Even => self.even.received += 1,
            Class::Odd => self.odd.received += 1,
        }
    }

    /// Counts a received message that is completed.
    pub fn completed(&mut self, class: Class)
        requires { (four_of class self.old).completed < 4294967295 }
        ensures { self.new ≡ in_class class one_completed self.old }
    {
        match class {
            Class::Even => self.even.completed += 1,
            Class::Odd => self.odd.completed += 1,
        }
    }

    /// Whether each even message that was sent was delivered, and each that was received is completed.
    pub fn quiet(&self) -> bool
        ensures { result ≡ is_quiet self.now.even }
    {
        self.even.sent == self.even.delivered && self.even.received == self.even.completed
    }

    /// The four numbers that the image gives to a wave: the even ones.
    pub fn contribute(&self) -> Four
        ensures { result ≡ self.now.even }
    {
        self.even
    }

    /// Adds the odd numbers to the even ones, as a new wave begins, and leaves no odd ones.
    pub fn fold(&mut self)
        requires { FitsFour (sum_of_fours self.old.even self.old.odd) }
        ensures { self.new ≡ folded self.old }
    {
        self.even.sent += self.odd.sent;
        self.even.delivered += self.odd.delivered;
        self.even.received += self.odd.received;
        self.even.completed += self.odd.completed;
        self.odd = Four {
            sent: 0,
            delivered: 0,
            received: 0,
            completed: 0,
        };
    }
}
