//! The worked logs, each with a schedule that has it.

use guest_programs::logs::{
    BYTES_MERGE_LOG, COMPUTED_ADDRESS_LOG, DEADLOCK_LOG, DIVIDE_LOG, HELLO_LOG, LOCKED_LOG,
    LOST_UPDATE_LOG, MISALIGNED_STORE_LOG, RACING_FAULT_CUT_LOG, RACING_FAULT_LOG, SEEDED_CUT_LOG,
    STORE_BUFFERING_LOG, STORE_CONDITIONAL_PAIRS_LOG, TAPE_LOG, UNKNOWN_CALL_LOG,
};
use guest_programs::programs::{
    BYTES_MERGE, COMPUTED_ADDRESS, DEADLOCK, DIVIDE, HELLO, LOCKED, LOST_UPDATE, MISALIGNED_STORE,
    Program, RACING_FAULT, SEEDED_CUT, STORE_BUFFERING, STORE_CONDITIONAL_PAIRS, TAPE,
    UNKNOWN_CALL,
};

/// Runs of one thread, which make up a schedule.
pub type Runs = &'static [(u8, usize)];

/// What is changed of what a step is given: the lowest bit of a byte, by its number, or the outcome of its
/// store-conditional.
#[derive(Clone, Copy)]
pub enum Part {
    Byte(usize),
    Won,
}

use Part::{Byte, Won};

/// A thread, a step, what is changed there, and whether the walk holds then.
pub type Change = (u8, u32, Part, bool);

/// A schedule, and whether what another's run hears fits it.
pub type Other = (Runs, bool);

/// A program, a log as bytes with some of them changed, and a schedule that has it. With what its run hears the walk holds
/// and fits the schedule, with each change it does not do both.
#[derive(Clone, Copy)]
pub struct Guest {
    pub program: Program,
    pub log: &'static [u8],
    pub patches: &'static [(usize, u8)],
    pub runs: Runs,
    pub changes: &'static [Change],
    pub others: &'static [Other],
}

static GUESTS: [Guest; 16] = [
    Guest {
        program: HELLO,
        log: &HELLO_LOG,
        patches: &[],
        runs: &[(0, 8)],
        changes: &[(0, 4, Byte(1), false)],
        others: &[],
    },
    Guest {
        program: LOST_UPDATE,
        log: &LOST_UPDATE_LOG,
        patches: &[],
        runs: &[(0, 8), (1, 3), (2, 3), (1, 4), (2, 4), (0, 17)],
        changes: &[
            (1, 2, Byte(0), true),
            (2, 2, Byte(3), true),
            (0, 15, Byte(0), true),
            (0, 21, Byte(0), false),
        ],
        others: &[
            (&[(0, 8), (2, 3), (1, 3), (2, 4), (1, 4), (0, 17)], true),
            (&[(0, 8), (1, 5), (2, 3), (1, 2), (2, 4), (0, 17)], false),
            (&[(0, 8), (2, 5), (1, 3), (2, 2), (1, 4), (0, 17)], false),
            (&[(0, 8), (1, 7), (2, 7), (0, 17)], false),
        ],
    },
    Guest {
        program: LOCKED,
        log: &LOCKED_LOG,
        patches: &[],
        runs: &[(0, 8), (1, 10), (2, 10), (1, 2), (2, 2), (0, 17)],
        changes: &[(2, 5, Byte(0), true), (0, 21, Byte(0), false)],
        others: &[],
    },
    Guest {
        program: STORE_BUFFERING,
        log: &STORE_BUFFERING_LOG,
        patches: &[(31, 1)],
        runs: &[(0, 8), (1, 8), (2, 8), (0, 8)],
        changes: &[(1, 4, Byte(0), false), (2, 4, Byte(0), false)],
        others: &[
            (&[(0, 8), (1, 6), (2, 8), (1, 2), (0, 8)], true),
            (&[(0, 8), (1, 4), (2, 4), (1, 4), (2, 4), (0, 8)], false),
            (&[(0, 8), (2, 8), (1, 8), (0, 8)], false),
        ],
    },
    Guest {
        program: BYTES_MERGE,
        log: &BYTES_MERGE_LOG,
        patches: &[],
        runs: &[(0, 11), (1, 6), (2, 6), (0, 8)],
        changes: &[(0, 10, Byte(1), true), (0, 15, Byte(2), false)],
        others: &[
            (&[(0, 11), (2, 6), (1, 6), (0, 8)], true),
            (&[(0, 10), (1, 6), (0, 1), (2, 6), (0, 8)], false),
            (&[(0, 10), (2, 6), (0, 1), (1, 6), (0, 8)], false),
        ],
    },
    Guest {
        program: MISALIGNED_STORE,
        log: &MISALIGNED_STORE_LOG,
        patches: &[],
        runs: &[(0, 9), (1, 7), (0, 9)],
        changes: &[
            (0, 7, Byte(0), true),
            (0, 8, Byte(0), true),
            (0, 14, Byte(0), false),
        ],
        others: &[(&[(0, 8), (1, 7), (0, 10)], false)],
    },
    Guest {
        program: STORE_CONDITIONAL_PAIRS,
        log: &STORE_CONDITIONAL_PAIRS_LOG,
        patches: &[],
        runs: &[(0, 8), (1, 8), (2, 8), (0, 17)],
        changes: &[
            (1, 4, Won, false),
            (2, 4, Won, false),
            (1, 2, Byte(0), true),
        ],
        others: &[
            (&[(0, 8), (2, 8), (1, 8), (0, 17)], false),
            (&[(0, 8), (1, 5), (2, 8), (1, 3), (0, 17)], true),
            (&[(0, 8), (1, 4), (2, 8), (1, 4), (0, 17)], false),
        ],
    },
    Guest {
        program: STORE_CONDITIONAL_PAIRS,
        log: &STORE_CONDITIONAL_PAIRS_LOG,
        patches: &[(31, 1), (100, b'1')],
        runs: &[(0, 8), (2, 3), (1, 8), (2, 5), (0, 17)],
        changes: &[
            (1, 4, Won, false),
            (2, 4, Won, false),
            (2, 2, Byte(0), true),
        ],
        others: &[
            (&[(0, 8), (1, 3), (2, 3), (1, 5), (2, 5), (0, 17)], true),
            (&[(0, 8), (2, 5), (1, 8), (2, 3), (0, 17)], false),
        ],
    },
    Guest {
        program: DIVIDE,
        log: &DIVIDE_LOG,
        patches: &[],
        runs: &[(0, 5), (1, 5), (0, 13)],
        changes: &[(0, 7, Byte(0), true), (0, 14, Byte(0), false)],
        others: &[(&[(0, 8), (1, 5), (0, 10)], false)],
    },
    Guest {
        program: COMPUTED_ADDRESS,
        log: &COMPUTED_ADDRESS_LOG,
        patches: &[],
        runs: &[(0, 8), (1, 6), (0, 12)],
        changes: &[
            (0, 7, Byte(0), true),
            (0, 7, Byte(3), false),
            (0, 11, Byte(0), true),
            (0, 16, Byte(0), false),
        ],
        others: &[(&[(0, 5), (1, 6), (0, 15)], false)],
    },
    Guest {
        program: RACING_FAULT,
        log: &RACING_FAULT_LOG,
        patches: &[],
        runs: &[(0, 5), (1, 5), (0, 4)],
        changes: &[(0, 7, Byte(0), true), (0, 7, Byte(2), false)],
        others: &[(&[(0, 8), (1, 5), (0, 1)], false)],
    },
    Guest {
        program: RACING_FAULT,
        log: &RACING_FAULT_CUT_LOG,
        patches: &[],
        runs: &[(0, 5), (1, 5), (0, 3)],
        changes: &[(0, 7, Byte(0), true)],
        others: &[],
    },
    Guest {
        program: DEADLOCK,
        log: &DEADLOCK_LOG,
        patches: &[],
        runs: &[(0, 9), (1, 4), (2, 4)],
        changes: &[],
        others: &[],
    },
    Guest {
        program: TAPE,
        log: &TAPE_LOG,
        patches: &[],
        runs: &[(0, 26)],
        changes: &[(0, 19, Byte(0), false), (0, 19, Byte(255), false)],
        others: &[],
    },
    Guest {
        program: SEEDED_CUT,
        log: &SEEDED_CUT_LOG,
        patches: &[],
        runs: &[(0, 4), (1, 1), (0, 1)],
        changes: &[],
        others: &[],
    },
    Guest {
        program: UNKNOWN_CALL,
        log: &UNKNOWN_CALL_LOG,
        patches: &[],
        runs: &[(0, 4)],
        changes: &[],
        others: &[],
    },
];

/// The worked logs. A function without a contract hands them out, so that no proof about a loop over them reads the table.
pub fn guests() -> &'static [Guest] {
    &GUESTS
}
