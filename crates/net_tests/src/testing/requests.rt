//! The counts of an allocator.
use std::cell::Cell;

/// The counts of an allocator: its requests, their bytes, how many of these are not given back, the most there
/// were at one time, and the number of the request to refuse.
#[derive(Drop)]
pub struct Requests {
    made: Cell<usize>,
    asked: Cell<usize>,
    live: Cell<usize>,
    most: Cell<usize>,
    refused: usize,
}

impl Requests {
    /// Returns the counts before any request.
    pub fn new(refused: usize) -> Requests {
        Requests {
            made: Cell::new(0),
            asked: Cell::new(0),
            live: Cell::new(0),
            most: Cell::new(0),
            refused,
        }
    }

    /// Returns how many requests there were.
    pub fn count(&self) -> usize {
        self.made.get()
    }

    /// Returns how many bytes they asked for in all.
    pub fn bytes(&self) -> usize {
        self.asked.get()
    }

    /// Returns how many of the granted bytes were not given back.
    pub fn live(&self) -> usize {
        self.live.get()
    }

    /// Returns the most bytes that were granted and not given back at one time.
    pub fn most(&self) -> usize {
        self.most.get()
    }

    /// Counts a request of `size` bytes, and returns whether it is the one to refuse.
    pub fn refuses_next(&self, size: usize) -> bool {
        let number = self.made.get();
        self.made.set(number.saturating_add(1));
        self.asked.set(self.asked.get().saturating_add(size));
        if number == self.refused {
            return true;
        }
        let live = self.live.get().saturating_add(size);
        self.live.set(live);
        self.most.set(self.most.get().max(live));
        false
    }

    /// Counts that `size` bytes are given back.
    pub fn gives_back(&self, size: usize) {
        self.live.set(self.live.get().saturating_sub(size));
    }
}
