use crate::fault::SchedFault;
use crate::read::read_schedule;
use crate::schedule::Schedule;
use crate::write::write_schedule;
use std::alloc::Global;
use std::test::Fail;

/// Texts with their first bad line.
const BAD: [(&[u8], u64); 12] = [
    (b"0 8\n0 1\n", 2),
    (b"0 08\n", 1),
    (b"0 0\n", 1),
    (b"0 8", 1),
    (b"0 8\n1 3", 2),
    (b"256 1\n", 1),
    (b"+0 8\n", 1),
    (b"0  8\n", 1),
    (b"0 8\n\n1 3\n", 2),
    (b"0 1000001\n", 1),
    (b"0 999999\n1 1\n2 1\n", 3),
    (b"0 8\n1 x\n1 3\n", 2),
];

/// The line of the fault, or 0 for a schedule.
fn bad_line(alloc: Global, text: &[u8]) -> Result<u64, SchedFault> {
    match read_schedule(alloc, text) {
        Ok(_) => Ok(0),
        Err(SchedFault::Bad { line }) => Ok(line),
        Err(SchedFault::Memory) => Err(SchedFault::Memory),
    }
}

#[test]
fn bad_schedules(rt: HostRuntime) -> Result<(), Fail> {
    for (text, line) in BAD {
        assert_eq!(rt; bad_line(rt.alloc(), text)?, line);
    }
    Ok(())
}

/// Texts of schedules, with the numbers of steps.
const GOOD: [(&[u8], usize); 4] = [
    (b"", 0),
    (b"0 8\n1 3\n", 11),
    (b"255 1\n0 999999\n", 1_000_000),
    (b"0 8\n1 3\n2 3\n1 4\n2 4\n0 17\n", 39),
];

#[test]
fn round_trip(rt: HostRuntime) -> Result<(), Fail> {
    for (text, steps) in GOOD {
        let schedule = read_schedule(rt.alloc(), text)?;
        assert_eq!(rt; schedule.len(), steps);
        let written = write_schedule(rt.alloc(), &schedule)?;
        assert_eq!(rt; written.as_slice(), text);
    }
    Ok(())
}

#[test]
fn steps(rt: HostRuntime) -> Result<(), Fail> {
    let mut schedule = Schedule::new(rt.alloc());
    schedule.push(3)?;
    schedule.push(0)?;
    assert_eq!(rt; schedule.get(0), Some(3));
    assert_eq!(rt; schedule.get(1), Some(0));
    assert_eq!(rt; schedule.get(2), None);
    Ok(())
}
