ghost use Rattle.std.specs.Prelude.{◌≡◌, ◌<◌, length};
ghost use Rattle.rv_model.specs.Thread.{stack_top, register, with_register, next_pc, onward, gone_to, first_local, spawned_local, fresh, no_thread};

use crate::state::{Local, Thread};

/// The address just above a thread's stack.
fn stack_top(thread: u8) -> u32
    ensures { result ≡ stack_top thread }
{
    0x7000_0000 + u32::from(thread) * 0x1_0000 + 16384
}

impl Local {
    /// A register; x0 is 0, whatever stands in its place.
    pub fn register(&self, number: u8) -> u32
        requires { number < 32 }
        ensures { result ≡ register self.now number }
    {
        if number == 0 {
            return 0;
        }
        self.registers[number as usize]
    }

    /// With a register written; a write to x0 is dropped.
    pub fn with_register(self, number: u8, value: u32) -> Local
        requires { number < 32 }
        ensures { result ≡ with_register self number value }
    {
        let mut local = self;
        if number != 0 {
            local.registers[number as usize] = value;
        }
        local
    }

    /// The address of the next word.
    pub fn next_pc(&self) -> u32
        ensures { result ≡ next_pc self.now }
    {
        self.pc.wrapping_add(4)
    }

    /// Gone on to the next word.
    pub fn onward(self) -> Local
        ensures { result ≡ onward self }
    {
        let mut local = self;
        local.pc = self.next_pc();
        local
    }

    /// Gone to a target.
    pub fn gone_to(self, target: u32) -> Local
        ensures { result ≡ gone_to self target }
    {
        let mut local = self;
        local.pc = target;
        local
    }

    /// Thread 0 before its first step.
    pub fn first(entry: u32) -> Local
        ensures { result ≡ first_local entry }
    {
        let mut registers = [0; 32];
        registers[2] = stack_top(0);
        Local {
            pc: entry,
            registers,
        }
    }

    /// A spawned thread before its first step: its entry, its spawner's gp, and its argument.
    pub fn spawned(thread: u8, entry: u32, gp: u32, argument: u32) -> Local
        ensures { result ≡ spawned_local thread entry gp argument }
    {
        let mut registers = [0; 32];
        registers[2] = stack_top(thread);
        registers[3] = gp;
        registers[10] = argument;
        Local {
            pc: entry,
            registers,
        }
    }
}

impl Thread {
    /// A thread that retired nothing and reserved nothing.
    pub fn fresh(local: Local) -> Thread
        ensures { result ≡ fresh local }
    {
        Thread {
            local,
            reservation: None,
            retired: 0,
        }
    }
}
