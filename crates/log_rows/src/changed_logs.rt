//! Each front of some logs, and each of these logs with one byte changed.

ghost use Rattle.std.specs.Prelude.{◌<◌, length};

use crate::recogniser::{Verdict, verdict_of};
use Change::{CutOff, OneMore, Ones, Zeros};
use guest_programs::logs::{
    BREAKPOINT_LOG, EIGHT_THREADS_LOG, LOST_UPDATE_LOG, SEEDED_CUT_LOG, STORE_BUFFERING_LOG,
    TAPE_LOG, UNKNOWN_CALL_LOG,
};
use odr_log::{LogFault, read_log, write_log};
use std::alloc::{AllocError, Global};
use std::process::Abort;
use std::test::Fail;

/// The most steps of a log that is read.
const MOST_STEPS: u64 = 250_000;

/// What is done to a log at one place.
#[derive(Clone, Copy, Debug)]
enum Change {
    /// The bytes from there on are left out.
    CutOff,
    /// The byte there is 0.
    Zeros,
    /// The byte there is 255.
    Ones,
    /// The byte there is greater by 1, and 0 after 255.
    OneMore,
}

/// What a log becomes that is changed at each of its places in turn: how often a log, how often one of too many steps,
/// how often none, and the sum of the offsets where it is none.
type Tally = (u64, u64, u64, u64);

/// Logs, changes and tallies; a recogniser in another language counted them.
static ROWS: [(&[u8], Change, Tally); 28] = [
    (&LOST_UPDATE_LOG, CutOff, (0, 0, 115, 6555)),
    (&LOST_UPDATE_LOG, Zeros, (98, 0, 17, 831)),
    (&LOST_UPDATE_LOG, Ones, (65, 6, 44, 2457)),
    (&LOST_UPDATE_LOG, OneMore, (79, 3, 33, 1745)),
    (&STORE_BUFFERING_LOG, CutOff, (0, 0, 108, 5778)),
    (&STORE_BUFFERING_LOG, Zeros, (91, 0, 17, 710)),
    (&STORE_BUFFERING_LOG, Ones, (60, 6, 42, 2079)),
    (&STORE_BUFFERING_LOG, OneMore, (75, 3, 30, 1399)),
    (&SEEDED_CUT_LOG, CutOff, (0, 0, 38, 703)),
    (&SEEDED_CUT_LOG, Zeros, (30, 0, 8, 73)),
    (&SEEDED_CUT_LOG, Ones, (13, 4, 21, 477)),
    (&SEEDED_CUT_LOG, OneMore, (17, 2, 19, 448)),
    (&UNKNOWN_CALL_LOG, CutOff, (0, 0, 35, 595)),
    (&UNKNOWN_CALL_LOG, Zeros, (26, 0, 9, 90)),
    (&UNKNOWN_CALL_LOG, Ones, (14, 2, 19, 379)),
    (&UNKNOWN_CALL_LOG, OneMore, (15, 1, 19, 399)),
    (&TAPE_LOG, CutOff, (0, 0, 345, 59340)),
    (&TAPE_LOG, Zeros, (328, 0, 17, 1119)),
    (&TAPE_LOG, Ones, (304, 2, 39, 6936)),
    (&TAPE_LOG, OneMore, (306, 1, 38, 5738)),
    (&BREAKPOINT_LOG, CutOff, (0, 0, 21, 210)),
    (&BREAKPOINT_LOG, Zeros, (13, 0, 8, 54)),
    (&BREAKPOINT_LOG, Ones, (2, 2, 17, 228)),
    (&BREAKPOINT_LOG, OneMore, (3, 1, 17, 245)),
    (&EIGHT_THREADS_LOG, CutOff, (0, 0, 211, 22155)),
    (&EIGHT_THREADS_LOG, Zeros, (188, 0, 23, 2534)),
    (&EIGHT_THREADS_LOG, Ones, (120, 16, 75, 8117)),
    (&EIGHT_THREADS_LOG, OneMore, (144, 8, 59, 6157)),
];

/// The log as it is changed at one of its places.
fn changed(alloc: Global, log: &[u8], change: Change, place: usize) -> Result<Vec<u8>, AllocError>
    requires { place < length log.now }
{
    let mut bytes = log.to_vec(alloc)?;
    match change {
        CutOff => bytes.truncate(place),
        Zeros => bytes[place] = 0,
        Ones => bytes[place] = 255,
        OneMore => bytes[place] = bytes[place].wrapping_add(1),
    }
    Ok(bytes)
}

/// Reads bytes as a log, and compares the answer with the recogniser's, and what is written back with the bytes.
fn meets_verdict(
    rt: &impl Abort,
    alloc: Global,
    bytes: &[u8],
    (change, place): (Change, usize),
    verdict: Verdict,
) -> Result<(), Fail> {
    match (read_log(alloc, bytes), verdict) {
        (Ok(log), Verdict::Log { steps }) if steps <= MOST_STEPS => {
            assert_eq!(rt; log.steps(), steps);
            assert_eq!(rt; write_log(alloc, &log)?.as_slice(), bytes);
        }
        (Err(LogFault::TooLarge), Verdict::Log { steps }) if steps > MOST_STEPS => {}
        (Err(LogFault::Bad { offset }), Verdict::Bad { offset: wanted }) if offset == wanted => {}
        (Ok(_), _) => assert!(rt; false, "{change:?} at {place}: read, and {verdict:?}"),
        (Err(fault), _) => {
            assert!(rt; false, "{change:?} at {place}: {fault:?}, and {verdict:?}");
        }
    }
    Ok(())
}

/// A tally with one verdict more.
fn counted(tally: Tally, verdict: Verdict) -> Tally {
    let (logs, too_large, bad, offsets) = tally;
    match verdict {
        Verdict::Log { steps } if steps <= MOST_STEPS => (
            logs.saturating_add(1),
            too_large,
            bad,
            offsets,
        ),
        Verdict::Log { .. } => (logs, too_large.saturating_add(1), bad, offsets),
        Verdict::Bad { offset } => (
            logs,
            too_large,
            bad.saturating_add(1),
            offsets.saturating_add(offset),
        ),
    }
}

/// Reads a log that is changed at each of its places in turn.
fn tally_of(rt: &impl Abort, alloc: Global, log: &[u8], change: Change) -> Result<Tally, Fail> {
    let mut tally = (0, 0, 0, 0);
    for place in 0..log.len() {
        let bytes = changed(alloc, log, change, place)?;
        let verdict = verdict_of(bytes.as_slice());
        meets_verdict(rt, alloc, bytes.as_slice(), (change, place), verdict)?;
        tally = counted(tally, verdict);
    }
    Ok(tally)
}

#[test]
fn changed_logs_are_read_as_the_format_says(rt: HostRuntime) -> Result<(), Fail> {
    for (log, change, tally) in &ROWS {
        assert_eq!(rt;
            tally_of(&rt, rt.alloc(), log, *change)?,
            *tally,
            "{change:?}"
        );
    }
    Ok(())
}
