use crate::log::Log;

impl Log {
    ghost use Rattle.std.specs.Prelude.{◌≡◌, ◌≤◌, length};
    ghost use Rattle.odr_log.specs.Grammar.{steps_of};

    /// The steps of all threads.
    pub fn steps(&self) -> u64
        requires { length self.now.threads ≤ 8 }
        ensures { result ≡ steps_of self.now }
    {
        self.threads
            .as_slice()
            .iter()
            .map(|thread| u64::from(thread.steps))
            .sum()
    }
}
