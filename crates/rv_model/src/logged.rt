//! What a log says of a thread.

ghost use Rattle.std.specs.Prelude.{◌≡◌, ◌<◌, ◌&&◌, length, nat_lt, slice_get, IsTrue};
ghost use Rattle.odr_log.specs.Same.{same_item};
ghost use Rattle.rv_model.specs.Run.{logged, option_test};

use odr_log::log::{Log, PathItem};

/// Whether the log counts a step of a thread.
pub fn is_counted(log: &Log, thread: usize, step: u32) -> bool
    ensures value { result ≡ (nat_lt thread (length log.now.threads) && nat_lt step (logged log.now thread).steps) }
    ensures there { IsTrue result → thread < length log.now.threads }
{
    match log.threads.as_slice().get(thread) {
        None => false,
        Some(logged) => step < logged.steps,
    }
}

/// The path that the log says of a thread, empty for one that it has not.
pub fn path_logged(log: &Log, thread: usize) -> &[PathItem]
    ensures { result.now ≡ (logged log.now thread).path }
{
    match log.threads.as_slice().get(thread) {
        None => &[],
        Some(logged) => logged.path.as_slice(),
    }
}

/// The number of steps that the log counts of a thread, 0 for one that it has not.
pub fn steps_logged(log: &Log, thread: usize) -> u32
    ensures { result ≡ (logged log.now thread).steps }
{
    match log.threads.as_slice().get(thread) {
        None => 0,
        Some(logged) => logged.steps,
    }
}

/// Whether the item at a place of a path is this one.
pub fn is_item_at(path: &[PathItem], place: usize, item: PathItem) -> bool
    ensures value { result ≡ option_test (same_item item) (slice_get path.now place) }
    ensures within { IsTrue result → place < length path.now }
{
    place < path.len() && item.same(&path[place])
}
