//! A recogniser of the log format, straight from the format's description. It shares no code with `odr_log`: it keeps
//! nothing of what it reads but the sum of the steps and the place at which it stands.
//!
//! Whatever bytes the walk has passed, some log begins with them: each byte is judged by its own range alone, and every
//! part can be completed. So the first byte out of its range is the first up to which no log goes.

use Field::{Any, Flag, Text, Word};

/// What bytes are.
#[derive(Clone, Copy, Debug, PartialEq, Eq)]
pub enum Verdict {
    /// A log whose threads have so many steps together.
    Log { steps: u64 },
    /// No log begins with the bytes up to and with this one, or a log goes on behind their end.
    Bad { offset: u64 },
}

/// A field of a call.
#[derive(Clone, Copy)]
enum Field {
    /// Any byte.
    Any,
    /// A byte of 0 or 1.
    Flag,
    /// Four bytes.
    Word,
    /// A length in two bytes, and so many bytes.
    Text,
}

/// The fields of each kind of call, the kinds from 1 on.
const FIELDS: [&[Field]; 14] = [
    &[Word], // exit
    &[], // the end of a thread
    &[Word, Any], // spawn
    &[Word, Flag], // join
    &[Word, Flag], // lock
    &[Word, Flag], // unlock
    &[Word, Flag], // trylock
    &[Text], // write
    &[Word, Text], // read
    &[], // self
    &[], // yield
    &[], // a refused write
    &[], // a refused read
    &[Word], // an unknown call
];

/// A walk through bytes, which stops for good before the first byte that can't stand where it does.
#[derive(Drop)]
struct Walk<'a> {
    bytes: &'a [u8],
    at: usize,
    stopped: bool,
}

/// What the bytes are, whatever their number and that of the steps.
pub fn verdict_of(bytes: &[u8]) -> Verdict {
    let mut walk = Walk {
        bytes,
        at: 0,
        stopped: false,
    };
    let steps = walk.pass_log();
    if walk.stopped || walk.at < bytes.len() {
        let offset = walk.at as u64;
        return Verdict::Bad { offset };
    }
    Verdict::Log { steps }
}

impl Walk<'_> {
    /// Passes a byte from `low` to `high`. The answer is 0 where the walk has stopped.
    fn pass(&mut self, low: u8, high: u8) -> u8 {
        match self.bytes.get(self.at) {
            Some(byte) if !self.stopped && low <= *byte && *byte <= high => {
                self.at += 1;
                *byte
            }
            _ => {
                self.stopped = true;
                0
            }
        }
    }

    fn pass_half(&mut self) -> u32 {
        let low = self.pass(0, 255);
        let high = self.pass(0, 255);
        256 * u32::from(high) + u32::from(low)
    }

    fn pass_word(&mut self) -> u64 {
        let low = self.pass_half();
        let high = self.pass_half();
        65_536 * u64::from(high) + u64::from(low)
    }

    fn pass_text(&mut self) {
        for _ in 0..self.pass_half() {
            self.pass(0, 255);
        }
    }

    fn pass_field(&mut self, field: Field) {
        match field {
            Any => {
                self.pass(0, 255);
            }
            Flag => {
                self.pass(0, 1);
            }
            Word => {
                self.pass_word();
            }
            Text => self.pass_text(),
        }
    }

    /// The mark `ODRL` and the version.
    fn pass_mark(&mut self) {
        for byte in [0x4f, 0x44, 0x52, 0x4c, 1] {
            self.pass(byte, byte);
        }
    }

    fn pass_item(&mut self) {
        if self.pass(0, 2) == 2 {
            self.pass_word();
        }
    }

    fn pass_items(&mut self) {
        for _ in 0..self.pass_word() {
            if self.stopped {
                return;
            }
            self.pass_item();
        }
    }

    /// The answer is the sum of the steps.
    fn pass_threads(&mut self, threads: u8) -> u64 {
        let mut steps = 0_u64;
        for _ in 0..threads {
            steps = steps.saturating_add(self.pass_word());
            self.pass_items();
        }
        steps
    }

    /// A thread of so many.
    fn pass_thread(&mut self, threads: u8) {
        self.pass(0, threads.saturating_sub(1));
    }

    fn pass_call(&mut self, threads: u8) {
        self.pass_thread(threads);
        self.pass_word();
        let kind = self.pass(1, 14);
        for field in FIELDS[usize::from(kind.clamp(1, 14) - 1)] {
            self.pass_field(*field);
        }
    }

    fn pass_calls(&mut self, threads: u8) {
        for _ in 0..self.pass_word() {
            if self.stopped {
                return;
            }
            self.pass_call(threads);
        }
    }

    fn pass_end(&mut self, threads: u8) {
        match self.pass(0, 3) {
            1 => {
                self.pass_thread(threads);
                self.pass_word();
            }
            2 => {
                self.pass_thread(threads);
                self.pass(1, 7);
            }
            _ => {}
        }
    }

    /// The answer is the sum of the steps.
    fn pass_log(&mut self) -> u64 {
        self.pass_mark();
        let threads = self.pass(1, 8);
        let steps = self.pass_threads(threads);
        self.pass_calls(threads);
        self.pass_end(threads);
        steps
    }
}
