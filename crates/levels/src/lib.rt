// A resource's bands as changes of its limit: the limit on the first of the days that its tasks have, and a key for each later of those
// days on which the limit is another. Cost: one run over the bands.
#![tactic(auto)]

ghost use Rattle.std.specs.Prelude.{◌≡◌, true, ◌+◌, ◌≤◌, ◌<◌, length};
ghost use Rattle.integers.specs.Tests.{all};
ghost use Rattle.integers.specs.Ends.{Within};
ghost use Rattle.plan.specs.Powers.{power, power_ends};
ghost use Rattle.rules.specs.Frame.{limit_from};
ghost use Rattle.rules.specs.Calls.{band_ends};
ghost use Rattle.events.specs.Laid.{Laid};
ghost use Rattle.levels.specs.Levels.{own_limit, band_key, band_events, limit_after, start_after, band_keys};

use events::Count;
use plan::{Band, Day, Power};

// How many keys there are, the limit on the first day, and the limit of the last band so far.
#[derive(Clone, Copy)]
pub struct Levels {
    pub events: usize,
    pub start: Power,
    pub limit: Power,
}

impl Levels {
    // "Before a resource's first band its RS limit stands": no key, and its own limit on every day.
    pub fn own(n: usize, x: Power) -> Levels
        ensures { result ≡ own_limit n x }
    {
        Levels {
            events: n,
            start: x,
            limit: x,
        }
    }
}

// band b behind the limit before it, where its day lies between the first and the last day
#[tactic(auto, using(events::proofs::Laid::laid_none, events::proofs::Laid::laid_one), unfolding(crate::specs::Levels::band_key))]
fn put_between(keys: &mut [u64], n: usize, b: Band, before: Power, low: Day, high: Day) -> usize
    requires { (n < length keys.old) × (band_ends b ≡ true) × Within power_ends before.0 }
    ensures { Laid keys.old keys.new n result (band_key low.0 high.0 before.0 b) }
{
    if b.from <= low || high <= b.from {
        return n;
    }
    keys[n] = events::key_of(b.from, before - b.limit, Count(0));
    n + 1
}

// one band more
#[tactic(auto, using(events::proofs::Laid::laid_none), unfolding(crate::specs::Levels::band_events, crate::specs::Levels::start_after, crate::specs::Levels::limit_after))]
fn put_band(keys: &mut [u64], b: Band, r: u64, low: Day, high: Day, c: Levels) -> Levels
    requires { (c.events < length keys.old) × (band_ends b ≡ true) × Within power_ends c.limit.0 }
    ensures laid { Laid keys.old keys.new c.events result.events (band_events r low.0 high.0 c.limit.0 b) }
    ensures start_value { result.start ≡ power (start_after r low.0 c.start.0 b) }
    ensures limit_value { result.limit ≡ power (limit_after r c.limit.0 b) }
{
    if b.place != r as usize {
        return c;
    }
    Levels {
        events: put_between(keys, c.events, b, c.limit, low, high),
        start: if b.from <= low { b.limit } else { c.start },
        limit: b.limit,
    }
}

// The keys of r's bands between the days low and high behind the first n, and the limit on day low; before them its own limit stands.
pub fn put_bands(
    bands: &[Band],
    r: u64,
    limit: Power,
    low: Day,
    high: Day,
    keys: &mut [u64],
    n: usize,
) -> Levels
    requires { (n + length bands.now ≤ length keys.old) × (all band_ends bands.now ≡ true) × Within power_ends limit.0 }
    ensures laid { Laid keys.old keys.new n result.events (band_keys r low.0 high.0 limit.0 bands.now) }
    ensures start_value { result.start ≡ power (limit_from r limit.0 bands.now low.0) }
    ensures events_bound { result.events ≤ n + length bands.now }
{
    let mut c = Levels::own(n, limit);
    for b in bands {
        c = put_band(keys, *b, r, low, high, c);
    }
    c
}
