// The offer price of an hour of a schedule.
ghost use Rattle.std.specs.Prelude.{◌≡◌};
ghost use Rattle.choice.specs.Cost.{offer_price};

use offers::capped;
use tables::Kind;

// The offer price by the kind of the schedule and the price that its row lists.
pub fn offer_price(kind: Kind, listed: u64) -> u64
    ensures { result ≡ offer_price kind listed }
{
    match kind {
        Kind::M => listed,
        Kind::C => capped(listed),
    }
}
