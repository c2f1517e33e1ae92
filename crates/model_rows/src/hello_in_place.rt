//! A program on the machine in place, step by step.

use elf_image::image::Image;
use guest_machine::machine::Machine;
use guest_machine::wait::Wait;
use guest_programs::logs::HELLO_FILE;
use odr_log::log::End;
use std::process::Abort;
use std::test::Fail;

/// After each step its pc, a0 and a7.
type Row = (u32, u32, u32);

static STEPS: [Row; 8] = [
    (0x1_0004, 0x10_0000, 0),
    (0x1_0008, 0x10_0000, 0),
    (0x1_000c, 0x10_0000, 0),
    (0x1_0010, 0x10_0000, 8),
    (0x1_0014, 3, 8),
    (0x1_0018, 0, 8),
    (0x1_001c, 0, 1),
    (0x1_0020, 0, 1),
];

/// The rows, so that no proof about a loop over them reads the table.
fn steps() -> &'static [Row] {
    &STEPS
}

/// Takes a step, after which the registers are those of a row.
fn takes(rt: &impl Abort, machine: &mut Machine<'_>, (pc, a0, a7): Row) {
    assert!(rt; machine.enabled(0));
    assert!(rt; machine.threads() == 1);
    assert!(rt; machine.retired(0) < 8);
    let _note = machine.step(0);
    assert!(rt; machine.threads() == 1);
    assert_eq!(rt; machine.pc(0), pc);
    assert_eq!(rt; machine.reg(0, 10), a0, "a0 at {pc}");
    assert_eq!(rt; machine.reg(0, 17), a7, "a7 at {pc}");
}

#[test]
fn hello_runs_to_its_end(rt: HostRuntime) -> Result<(), Fail> {
    let image = Image::read(rt.alloc(), &HELLO_FILE)?;
    let mut machine = Machine::load(rt.alloc(), &image, Vec::new(rt.alloc()))?;
    let mut enabled = [9; 8];
    assert_eq!(rt; machine.enabled_list(&mut enabled), 1);
    assert_eq!(rt; enabled[0], 0);
    assert_eq!(rt; machine.end(), End::Cut);
    for step in steps() {
        takes(&rt, &mut machine, *step);
    }
    assert!(rt; machine.halted());
    assert!(rt; machine.threads() == 1);
    assert_eq!(rt; machine.enabled_list(&mut enabled), 0);
    assert_eq!(rt; machine.end(), End::Exited { tid: 0, code: 0 });
    assert_eq!(rt; machine.wait(0), Wait::Ready);
    assert_eq!(rt; machine.retired(0), 8);
    assert_eq!(rt; machine.owner(0), None);
    assert_eq!(rt; machine.byte(0x10_0000), Some(0x68));
    Ok(())
}
