//! The words that wait for a slot.

ghost use Rattle.std.specs.Prelude.{◌≡◌, true, [], ◌∷◌, ◌++◌, length, nat_lt, if◌then◌else◌};
ghost use Rattle.disk_dma.specs.code.Queue.{words_in};

/// At most three words, the first to leave first (the queue's length is this project's profile).
#[derive(Clone, Copy)]
pub enum Queue {
    Empty,
    One(u16),
    Two(u16, u16),
    Three(u16, u16, u16),
}

impl Queue {
    /// Whether no word waits.
    pub fn is_empty(&self) -> bool
        ensures { result ≡ true → words_in self.now ≡ [] }
    {
        matches!(self, Queue::Empty)
    }

    /// Whether a word can join.
    pub fn has_room(&self) -> bool
        ensures { result ≡ nat_lt (length (words_in self.now)) 3 }
    {
        match self {
            Queue::Empty => true,
            Queue::One(_) => true,
            Queue::Two(_, _) => true,
            Queue::Three(_, _, _) => false,
        }
    }

    /// The queue with a word at its end; as it is, where three words wait.
    pub fn with_word(self, word: u16) -> Queue
        ensures { words_in result
            ≡ (if nat_lt (length (words_in self)) 3 then words_in self ++ word ∷ []
            else words_in self) }
    {
        match self {
            Queue::Empty => Queue::One(word),
            Queue::One(first) => Queue::Two(first, word),
            Queue::Two(first, second) => Queue::Three(first, second, word),
            Queue::Three(first, second, third) => Queue::Three(first, second, third),
        }
    }
}
