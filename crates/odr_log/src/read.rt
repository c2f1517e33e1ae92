ghost use Rattle.std.specs.Prelude.{◌≡◌, ◌↔◌, ℕ, Ok, Err};
ghost use Rattle.odr_log.specs.Grammar.{IsLog};
ghost use Rattle.odr_log.specs.Faults.{UnlessMemory, FitsFile, IsTooLarge, IsSomeLog, FirstBad};
ghost use Rattle.odr_log.specs.declared.log.Log.{Log};

use crate::fault::LogFault;
use crate::log::Log;
use crate::reading::whole_of;
use crate::stop::Stop;
use odr_limits::{MOST_LOG_BYTES, MOST_STEPS};
use std::alloc::Global;

/// The valid log that has these bytes. `Bad` tells at which offset they stop to be a log. `TooLarge` tells that
/// there are more bytes than [`MOST_LOG_BYTES`], or that they are a log of more steps than [`MOST_STEPS`].
pub fn read_log(alloc: Global, bytes: &[u8]) -> Result<Log, LogFault>
    ensures ok { UnlessMemory result ((log : Log) →
        (result ≡ Ok log) ↔ (FitsFile bytes.now × IsLog bytes.now log)) }
    ensures too_large { UnlessMemory result (
        (result ≡ Err LogFault.TooLarge) ↔ IsTooLarge bytes.now) }
    ensures no_log { UnlessMemory result (
        ((offset : ℕ) × (result ≡ Err (LogFault.Bad offset)))
        ↔ (FitsFile bytes.now × ¬ IsSomeLog bytes.now)) }
    ensures bad { UnlessMemory result ((offset : ℕ) →
        (result ≡ Err (LogFault.Bad offset)) ↔ (FitsFile bytes.now × FirstBad bytes.now offset)) }
{
    if bytes.len() as u64 > MOST_LOG_BYTES {
        return Err(LogFault::TooLarge);
    }
    let log = match whole_of(alloc, bytes) {
        Ok(log) => log,
        Err(Stop::Bad { left }) => {
            let offset = (bytes.len() - left) as u64;
            return Err(LogFault::Bad { offset });
        }
        Err(Stop::Memory) => return Err(LogFault::Memory),
    };
    if log.steps() > MOST_STEPS {
        return Err(LogFault::TooLarge);
    }
    Ok(log)
}
