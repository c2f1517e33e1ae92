//! Tests whether two logs, or parts of them, are the same.

ghost use Rattle.std.specs.Prelude.{◌≡◌, ◌↔◌, IsTrue};
ghost use Rattle.odr_log.specs.Same.{same_end, same_item, same_thread, same_call, same_rec, same_log};

use crate::log::{Call, CallRec, End, Log, PathItem, ThreadLog};

impl End {
    /// Whether both are the same end.
    pub fn same(&self, other: &End) -> bool
        ensures test { result ≡ same_end self.now other.now }
        ensures exact { IsTrue result ↔ (self.now ≡ other.now) }
    {
        *self == *other
    }
}

impl PathItem {
    /// Whether both are the same item.
    pub fn same(&self, other: &PathItem) -> bool
        ensures test { result ≡ same_item self.now other.now }
        ensures exact { IsTrue result ↔ (self.now ≡ other.now) }
    {
        *self == *other
    }
}

impl PartialEq for ThreadLog {
    ghost use Rattle.odr_log.specs.Same.{same_thread};
    ghost use Rattle.odr_log.specs.SameLaws.{same_thread-both_ways};

    ghost eq = { λ a b. same_thread a b };

    ghost laws = { same_thread-both_ways };

    fn eq(&self, other: &ThreadLog) -> bool {
        self.steps == other.steps && self.path.as_slice() == other.path.as_slice()
    }
}

impl ThreadLog {
    /// Whether both did the same steps.
    pub fn same(&self, other: &ThreadLog) -> bool
        ensures test { result ≡ same_thread self.now other.now }
        ensures exact { IsTrue result ↔ (self.now ≡ other.now) }
    {
        *self == *other
    }
}

impl Call {
    /// Whether both are the same call with the same answer.
    pub fn same(&self, other: &Call) -> bool
        ensures test { result ≡ same_call self.now other.now }
        ensures exact { IsTrue result ↔ (self.now ≡ other.now) }
    {
        *self == *other
    }
}

impl PartialEq for CallRec {
    ghost use Rattle.odr_log.specs.Same.{same_rec};
    ghost use Rattle.odr_log.specs.SameLaws.{same_rec-both_ways};

    ghost eq = { λ a b. same_rec a b };

    ghost laws = { same_rec-both_ways };

    fn eq(&self, other: &CallRec) -> bool {
        self.tid == other.tid && self.at == other.at && self.call == other.call
    }
}

impl CallRec {
    /// Whether both are the same call of the same step.
    pub fn same(&self, other: &CallRec) -> bool
        ensures test { result ≡ same_rec self.now other.now }
        ensures exact { IsTrue result ↔ (self.now ≡ other.now) }
    {
        *self == *other
    }
}

impl PartialEq for Log {
    ghost use Rattle.odr_log.specs.Same.{same_log};
    ghost use Rattle.odr_log.specs.SameLaws.{same_log-both_ways};

    ghost eq = { λ a b. same_log a b };

    ghost laws = { same_log-both_ways };

    fn eq(&self, other: &Log) -> bool {
        if self.version != other.version || self.end != other.end {
            return false;
        }
        self.threads.as_slice() == other.threads.as_slice()
            && self.calls.as_slice() == other.calls.as_slice()
    }
}

impl Log {
    /// Whether both are the same log.
    pub fn same(&self, other: &Log) -> bool
        ensures test { result ≡ same_log self.now other.now }
        ensures exact { IsTrue result ↔ (self.now ≡ other.now) }
    {
        *self == *other
    }
}
