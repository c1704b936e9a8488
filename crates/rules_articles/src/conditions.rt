//! The conditions of the articles.
ghost use Rattle.std.specs.Prelude.{◌≡◌};
ghost use Rattle.rules_positions.specs.Records.{terms};
ghost use Rattle.rules_articles.specs.Conditions.{is_a, leg_is, not_later, same_days};

use crate::{ArticleFault, Leg};
use rules_positions::{Kind, Record, Side};

/// Whether a position is of the side and of the kind.
pub(crate) fn is_a(side: Side, kind: Kind, position: &Record) -> bool
    ensures { result ≡ is_a side kind (terms position.now) }
{
    position.side == side && position.kind == kind
}

/// A leg has its side and its kind.
pub(crate) fn leg_is(
    leg: Leg,
    side: Side,
    kind: Kind,
    position: &Record,
) -> Result<(), ArticleFault>
    ensures { result ≡ leg_is leg side kind (terms position.now) }
{
    if is_a(side, kind, position) {
        return Ok(());
    }
    Err(ArticleFault::WrongLeg(leg))
}

/// The second leg expires no later than the first.
pub(crate) fn not_later(first: &Record, second: &Record) -> Result<(), ArticleFault>
    ensures { result ≡ not_later (terms first.now) (terms second.now) }
{
    if second.days > first.days {
        return Err(ArticleFault::WrongDays(Leg::Second));
    }
    Ok(())
}

/// The other legs expire with the first.
pub(crate) fn same_days(first: &Record, second: &Record, third: &Record) -> Result<(), ArticleFault>
    ensures { result ≡ same_days (terms first.now) (terms second.now) (terms third.now) }
{
    if second.days != first.days {
        return Err(ArticleFault::WrongDays(Leg::Second));
    }
    if third.days != first.days {
        return Err(ArticleFault::WrongDays(Leg::Third));
    }
    Ok(())
}
