// One resource's days as stretches of equal days: each task that may stand there gives events, each of its bands one more, a held one's span two,
// the events are sorted by day, and one run over them writes a stretch up to each event's day with what has been added up by then. Only stretches that
// some rule could touch are kept. Cost: n log n for n tasks and bands; no day is visited, and no task for a stretch.
#![tactic(auto)]

ghost use Rattle.std.specs.Prelude.{◌≡◌, ◌++◌, ◌+◌, ◌*◌, ◌≤◌, ◌<◌, ◌+ℤ◌, length};
ghost use Rattle.std.specs.List.{position};
ghost use Rattle.std.specs.Int.{w64};
ghost use Rattle.std.proofs.Common.{SFits};
ghost use Rattle.integers.specs.Ends.{Within};
ghost use Rattle.integers.specs.Lists.{Each};
ghost use Rattle.plan.specs.Powers.{power, power_ends};
ghost use Rattle.plan.specs.Sets.{set_bits};
ghost use Rattle.plan.specs.Tasks.{most_tasks, Bounded};
ghost use Rattle.rules.specs.Frame.{limit_from, is_held, floor};
ghost use Rattle.rules.specs.Rises.{Banded};
ghost use Rattle.events.specs.Keys.{power_of, sure_of};
ghost use Rattle.events.specs.Laid.{Laid};
ghost use Rattle.levels.specs.Levels.{band_keys};
ghost use Rattle.held.specs.Held.{room_if, held_keys};
ghost use Rattle.profile.specs.Lent.{most_events, most_more, Lent, Asks};
ghost use Rattle.profile.specs.Promise.{falls_short, Answered};
ghost use Rattle.profile.specs.Sweep.{changed, tight_in, stretch_in, worth, worthy, swept_from, Sweeps};

use events::{Count, Extremes};
use levels::Levels;
use plan::{Band, Day, Power, Resource, Task};
use stretches::Stretch;

// What is lent for the largest plan: keys for every event, and a stretch up to each event and one behind the last.
pub const MOST_KEYS: usize = events::EVENTS_A_TASK * plan::MOST_TASKS
    + held::HELD_EVENTS
    + plan::MOST_BANDS;

pub const MOST_STRETCHES: usize = MOST_KEYS + 1;

// What is lent to work in: whatever it holds before is of no account.
#[derive(Drop)]
pub struct Work<'a> {
    pub keys: &'a mut [u64],
    pub stretches: &'a mut [Stretch],
}

// ---- sweep

// What the events up to a day add up to.
#[derive(Clone, Copy)]
pub struct Level {
    pub slack: Power,
    pub sure: Count,
}

impl Level {
    // with the event of a key more
    #[tactic(auto, unfolding(crate::specs::Sweep::changed))]
    fn after(self, k: u64) -> Level
        requires { SFits w64 (self.slack.0 +ℤ power_of k) × SFits w64 (self.sure.0 +ℤ sure_of k) }
        ensures { result ≡ changed self k }
    {
        Level {
            slack: self.slack + events::power_of(k),
            sure: self.sure + events::sure_of(k),
        }
    }

    // the slack where the days count, else more than any slack
    #[tactic(auto, unfolding(crate::specs::Sweep::tight_in))]
    fn tight(self) -> Power
        ensures { result ≡ power (tight_in self) }
    {
        if Count(0) < self.sure {
            self.slack
        } else {
            stretches::BIG
        }
    }

    #[tactic(auto, unfolding(crate::specs::Sweep::stretch_in))]
    fn stretch(self, from: Day, to: Day) -> Stretch
        ensures { result ≡ stretch_in from.0 to.0 self }
    {
        Stretch {
            from,
            to,
            slack: self.slack,
            tight: self.tight(),
        }
    }
}

// Whether it has a day, and some rule may touch some task on it: that asks for more slack than it has, or for more where a day counts.
#[tactic(auto, unfolding(crate::specs::Sweep::worth))]
fn is_worth(s: Stretch, e: Extremes) -> bool
    ensures { result ≡ worth e s }
{
    s.from < s.to && (s.slack < e.bar || s.tight < e.lift)
}

// the stretch, where it is worth it, behind the first n
#[tactic(auto, using(events::proofs::Laid::laid_none, events::proofs::Laid::laid_one))]
fn put_worthy(stretches: &mut [Stretch], n: usize, s: Stretch, e: Extremes) -> usize
    requires { n < length stretches.old }
    ensures { Laid stretches.old stretches.new n result (worthy e s) }
{
    if !is_worth(s, e) {
        return n;
    }
    stretches[n] = s;
    n + 1
}

// the stretches that rising keys make, each with a start on which the sums have been added up
fn sweep(keys: &[u64], start: Power, e: Extremes, stretches: &mut [Stretch]) -> usize
    requires enough { (length keys.now ≤ most_events most_tasks most_more) × (length keys.now < length stretches.old) }
    requires within { Within power_ends start.0 }
    ensures laid { Laid stretches.old stretches.new 0 result (swept_from e start.0 keys.now) }
    ensures upper_bound { result ≤ length stretches.new }
{
    let mut v = Level {
        slack: start,
        sure: Count(0),
    };
    let mut from = e.low;
    let mut n = 0;
    for k in keys {
        let to = events::day_of(*k);
        n = put_worthy(stretches, n, v.stretch(from, to), e);
        from = to;
        v = v.after(*k);
    }
    put_worthy(stretches, n, v.stretch(from, e.high), e)
}

// the stretches that events make, in any order
fn sweep_events(keys: &mut [u64], start: Power, e: Extremes, stretches: &mut [Stretch]) -> usize
    requires enough { (length keys.old ≤ most_events most_tasks most_more) × (length keys.old < length stretches.old) }
    requires within { Within power_ends start.0 }
    ensures { Sweeps e start.0 keys.old stretches.new result }
{
    sorting::sort(keys);
    sweep(keys, start, e, stretches)
}

// ---- all joined

// How many stretches there are, and the first on which the hopes fall short of the limit.
#[derive(Clone, Copy, PartialEq, Eq)]
pub struct Shortfall {
    pub stretches: usize,
    pub first: usize,
}

// The first stretch whose days count and on which all hopes together are below the limit: tight is the slack where a day counts, and BIG elsewhere,
// and a day that was left out has no shortfall.
pub fn first_short(stretches: &[Stretch]) -> Option<usize>
    ensures { result ≡ position falls_short stretches.now }
{
    stretches.iter().position(|s| s.tight < Power(0))
}

// The keys of what is asked of r behind the first n: where it is held those of its span, then those of its bands; and its limit on the first day.
#[tactic(auto, using(events::proofs::Laid::laid_then))]
fn put_floor(
    tasks: &[Task],
    bands: &[Band],
    r: u64,
    resource: Resource,
    e: Extremes,
    keys: &mut [u64],
    n: usize,
) -> Levels
    requires enough { (r < set_bits) × (n + room_if (is_held resource.kind) + length bands.now ≤ length keys.old) × Banded r bands.now × Within power_ends resource.limit.0 }
    requires each { Each Bounded tasks.now }
    ensures laid { Laid keys.old keys.new n result.events (held_keys r resource.kind tasks.now ++ band_keys r e.low.0 e.high.0 resource.limit.0 bands.now) }
    ensures start_value { result.start ≡ power (limit_from r resource.limit.0 bands.now e.low.0) }
    ensures events_bound { (result.events ≤ n + room_if (is_held resource.kind) + length bands.now) × Within power_ends result.start.0 }
{
    let m = held::put_held(tasks, r, resource.kind, keys, n);
    levels::put_bands(bands, r, resource.limit, e.low, e.high, keys, m)
}

// How many stretches of resource r there are, in the first places; on a shortfall its first too. What the keys held before is of no account.
fn put_stretches(
    tasks: &[Task],
    bands: &[Band],
    r: u64,
    resource: Resource,
    keys: &mut [u64],
    stretches: &mut [Stretch],
) -> Result<usize, Shortfall>
    requires asks { Asks r resource.limit bands.now (length tasks.now) }
    requires lent { Lent (length tasks.now) (room_if (is_held resource.kind) + length bands.now) (length keys.old) (length stretches.old) }
    requires each { Each Bounded tasks.now }
    ensures { Answered r (floor resource.kind (limit_from r resource.limit.0 bands.now)) tasks.now stretches.new result }
{
    let c = events::collect(tasks, r, keys);
    let l = put_floor(tasks, bands, r, resource, c.extremes, keys, c.events);
    let n = sweep_events(&mut keys[..l.events], -l.start, c.extremes, stretches);
    match first_short(&stretches[..n]) {
        Some(first) => Err(Shortfall {
            stretches: n,
            first,
        }),
        None => Ok(n),
    }
}

// The same in what is lent.
pub fn profile(
    tasks: &[Task],
    bands: &[Band],
    r: u64,
    resource: Resource,
    work: &mut Work,
) -> Result<usize, Shortfall>
    requires asks { Asks r resource.limit bands.now (length tasks.now) }
    requires lent { Lent (length tasks.now) (room_if (is_held resource.kind) + length bands.now) (length work.old.keys.now) (length work.old.stretches.now) }
    requires each { Each Bounded tasks.now }
    ensures lengths { (length work.new.keys.now ≡ length work.old.keys.now) × (length work.new.stretches.now ≡ length work.old.stretches.now) }
    ensures answer { Answered r (floor resource.kind (limit_from r resource.limit.0 bands.now)) tasks.now work.new.stretches.now result }
{
    put_stretches(tasks, bands, r, resource, work.keys, work.stretches)
}
