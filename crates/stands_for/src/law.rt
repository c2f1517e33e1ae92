ghost use Rattle.stands_for.specs.Decides.{OrderDecidesAll, OrderGivesAccesses};
ghost use Rattle.stands_for.specs.Law.{WholeFormulasStand};

use term_sources::terms_explain_schedules;

/// Where an order of the accesses is decided, the unit rule gives each variable of an access a value.
pub fn order_gives_accesses()
    ensures { OrderGivesAccesses }
{}

/// Where an order of the accesses is decided, the unit rule gives each variable that was added for the parts a value.
pub fn order_decides_all()
    ensures { OrderDecidesAll }
{}

/// A formula whose parts say all that accesses see stands for its image and log.
pub fn whole_formulas_stand()
    ensures { WholeFormulasStand }
{
    terms_explain_schedules();
}
