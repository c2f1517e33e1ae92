//! When the search starts again from no decision: after 50 lines, 50, 100, 50, 50, 100, 200 and so on.

const UNIT: u64 = 50;

const LONGEST: u64 = 0x1_0000_0000;

/// Lines since the last restart, and how many there are to be.
#[derive(Drop)]
pub struct Restarts {
    since: u64,
    turn: u64,
    length: u64,
}

impl Restarts {
    /// None yet.
    pub fn new() -> Restarts {
        Restarts {
            since: 0,
            turn: 1,
            length: 1,
        }
    }

    /// Counts a line, and tells whether a restart is due.
    pub fn is_due(&mut self) -> bool {
        self.since = self.since.saturating_add(1);
        if self.since / UNIT < self.length {
            return false;
        }
        self.since = 0;
        self.step();
        true
    }

    // The next number of a sequence in which each power of two comes after two runs up to the one below.
    fn step(&mut self) {
        if LONGEST < self.length || LONGEST < self.turn {
            self.turn = 1;
            self.length = 1;
        } else if self.length == 0 || self.turn % (2 * self.length) == self.length {
            self.turn += 1;
            self.length = 1;
        } else {
            self.length *= 2;
        }
    }
}
