ghost use Rattle.valid_logs.specs.Laws.{ValidAccessesAreShort, ValidFormulasStand, ValidLogsHaveFewSteps, ValidLogsReadBytes};

use stands_for::whole_formulas_stand;

/// What the calls of a valid log read are bytes.
pub fn valid_logs_read_bytes()
    ensures { ValidLogsReadBytes }
{}

/// A thread of a valid log has fewer than 2 ^ 18 steps.
pub fn valid_logs_have_few_steps()
    ensures { ValidLogsHaveFewSteps }
{}

/// An access of a valid log's walk has fewer than 2 ^ 16 bytes.
pub fn valid_accesses_are_short()
    ensures { ValidAccessesAreShort }
{}

/// A formula whose parts say all that accesses see stands for its image and log, where the image is sound and the log valid.
pub fn valid_formulas_stand()
    ensures { ValidFormulasStand }
{
    whole_formulas_stand();
}
