// The capped offer of an incremental cost.
ghost use Rattle.std.specs.Prelude.{◌≡◌};
ghost use Rattle.offers.specs.Offer.{capped as offer_capped};

// A tenth of the cost is added to it, but not more than this.
const MOST_ADDED: u64 = 10000;

// No sum of a cost and what is added is higher, and to a higher cost nothing is added.
const CEILING: u64 = 200000;

pub fn capped(cost: u64) -> u64
    ensures { result ≡ offer_capped cost }
{
    if cost > CEILING {
        return cost;
    }
    (cost + (cost / 10).min(MOST_ADDED)).min(CEILING)
}
