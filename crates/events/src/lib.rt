// One resource's tasks as events: each task that may stand there gives at most four, an event being a day and what changes from that
// day on, packed into one key that rises with the day; and the extremes of those tasks. Cost: one run over the tasks.
#![tactic(auto)]

ghost use Rattle.std.specs.Prelude.{◌≡◌, ◌+◌, ◌*◌, ◌≤◌, ◌<◌, pos, neg_ℤ, ◌+ℤ◌, length, ℤ};
ghost use Rattle.std.specs.Int.{w64};
ghost use Rattle.std.proofs.Common.{SFits};
ghost use Rattle.integers.specs.Lists.{Each};
ghost use Rattle.plan.specs.Sets.{set_bits};
ghost use Rattle.plan.specs.Tasks.{most_tasks, Bounded};
ghost use Rattle.events.specs.Keys.{count, day_of, power_of, sure_of, key_of, EventFits};
ghost use Rattle.events.specs.Laid.{Laid};
ghost use Rattle.events.specs.Events.{events_a_task, ChangeFits, change, change_keys, hopeful, surely, fixed, task_keys, events_of, keys_of};
ghost use Rattle.events.specs.Extremes.{with_task, joined, extremes_of, no_extremes};

use plan::{Day, Number, Power, Task};
use std::ops::{Add, Neg};

// How many things make a day count, sure tasks or a held resource's span, or a change of that number.
#[derive(Clone, Copy, PartialEq, Eq, PartialOrd, Ord)]
pub struct Count(pub i64);

impl Add for Count {
    type Output = Count;

    ghost can_add = { λ a b. SFits w64 (a.0 +ℤ b.0) };

    ghost add_gives = { λ a b r. r ≡ count (a.0 +ℤ b.0) };

    fn add(self, o: Count) -> Count {
        Count(self.0 + o.0)
    }
}

impl Neg for Count {
    type Output = Count;

    ghost can_neg = { λ a. SFits w64 (neg_ℤ a.0) };

    ghost neg_gives = { λ a r. r ≡ count (neg_ℤ a.0) };

    fn neg(self) -> Count {
        Count(-self.0)
    }
}

impl Number for Count {
    ghost number = { λ u. u.0 };

    ghost numbered = { count };

    fn number(self) -> i64 {
        self.0
    }

    fn numbered(x: i64) -> Count {
        Count(x)
    }
}

// ---- keys: a day above a change of power above a change of the count, each counted from the least that a key holds

// A change of power is a height come or gone, or one limit in place of another: LOW - HIGH at the least, HIGH - LOW at the most.
const LEAST_CHANGE: Power = Power(Power::LOW.0 - Power::HIGH.0);

// One sure task less, or one more; or a held resource's span.
const LEAST_COUNT: Count = Count(-1);

// How many values a field tells apart: of the powers of two, so that a key comes apart by shifts and masks, the least that is enough for
// the 3 changes of the count, and for the 4,000,001 changes of a power. The day stands above both.
const COUNT_FIELD: u64 = 1 << 2;

const POWER_FIELD: u64 = 1 << 22;

const DAY_PLACE: u64 = POWER_FIELD * COUNT_FIELD;

#[tactic(auto, unfolding(crate::specs::Keys::key_of))]
pub fn key_of(d: Day, p: Power, u: Count) -> u64
    requires { EventFits d.0 p.0 u.0 }
    ensures { result ≡ key_of d.0 p.0 u.0 }
{
    d.above(Day::LOW) * DAY_PLACE + p.above(LEAST_CHANGE) * COUNT_FIELD + u.above(LEAST_COUNT)
}

#[tactic(auto, using(crate::proofs::Keys::read_is), unfolding(crate::specs::Keys::day_of))]
pub fn day_of(k: u64) -> Day
    ensures { result.0 ≡ day_of k }
{
    Day::LOW + Day((k / DAY_PLACE) as i64)
}

#[tactic(auto, using(crate::proofs::Keys::read_is), unfolding(crate::specs::Keys::power_of))]
pub fn power_of(k: u64) -> Power
    ensures { result.0 ≡ power_of k }
{
    LEAST_CHANGE + Power((k % DAY_PLACE / COUNT_FIELD) as i64)
}

#[tactic(auto, using(crate::proofs::Keys::read_is), unfolding(crate::specs::Keys::sure_of))]
pub fn sure_of(k: u64) -> Count
    ensures { result.0 ≡ sure_of k }
{
    LEAST_COUNT + Count((k % COUNT_FIELD) as i64)
}

// ---- events

// From the first day on more power and more that makes a day count, sure tasks or a held resource's span, from the last day on as much less again.
#[derive(Clone, Copy)]
pub struct Change {
    pub from: Day,
    pub to: Day,
    pub power: Power,
    pub sure: Count,
}

impl Change {
    // the hope from origin low to end high, with u sure tasks
    fn hope(t: Task, u: Count) -> Change
        ensures { result ≡ change t.origin.low.0 t.end.high.0 t.height.high.0 u.0 }
    {
        Change {
            from: t.origin.low,
            to: t.end.high,
            power: t.height.high,
            sure: u,
        }
    }

    // one sure task from origin high to end low, with the power p there
    fn sure(t: Task, p: Power) -> Change
        ensures { result ≡ change t.origin.high.0 t.end.low.0 p.0 (pos 1) }
    {
        Change {
            from: t.origin.high,
            to: t.end.low,
            power: p,
            sure: Count(1),
        }
    }
}

// A hope and its end, a sure task and its end.
pub const EVENTS_A_TASK: usize = 4;

// an event and its opposite, behind the first n
#[tactic(auto, using(crate::proofs::Laid::laid_two), unfolding(crate::specs::Events::change_keys))]
pub fn put_change(keys: &mut [u64], n: usize, e: Change) -> usize
    requires enough { n + 2 ≤ length keys.old }
    requires change_fits { ChangeFits e }
    ensures { Laid keys.old keys.new n result (change_keys e) }
{
    keys[n] = key_of(e.from, e.power, e.sure);
    keys[n + 1] = key_of(e.to, -e.power, -e.sure);
    n + 2
}

#[tactic(auto, unfolding(crate::specs::Events::hopeful))]
fn is_hopeful(t: Task) -> bool
    ensures { result ≡ hopeful t }
{
    Power(0) < t.height.high && t.origin.low < t.end.high
}

#[tactic(auto, unfolding(crate::specs::Events::surely))]
fn is_surely(t: Task, r: u64) -> bool
    requires { r < set_bits }
    ensures { result ≡ surely r t }
{
    plan::only_resource(t.set, r) && t.origin.high < t.end.low
}

#[tactic(auto, unfolding(crate::specs::Events::fixed))]
fn is_fixed(t: Task) -> bool
    ensures { result ≡ fixed t }
{
    t.origin.high <= t.origin.low && t.end.high <= t.end.low
}

// the events of a task that has r in its set, behind the first n; where its possible days are its sure ones, two events say both
fn put_events(keys: &mut [u64], n: usize, t: Task, r: u64) -> usize
    requires enough { (n + events_a_task ≤ length keys.old) × (r < set_bits) }
    requires bounded { Bounded t }
    ensures { Laid keys.old keys.new n result (task_keys r t) }
{
    match (is_hopeful(t), is_surely(t, r)) {
        (true, true) if is_fixed(t) => put_change(keys, n, Change::hope(t, Count(1))),
        (true, true) => {
            let m = put_change(keys, n, Change::hope(t, Count(0)));
            put_change(keys, m, Change::sure(t, Power(0)))
        }
        (true, false) => put_change(keys, n, Change::hope(t, Count(0))),
        (false, true) => put_change(keys, n, Change::sure(t, t.height.high)),
        (false, false) => n,
    }
}

// ---- extremes

// The days between which the tasks of a resource may be under way, and the most slack below which a rule may touch one: a bar, a lift.
#[derive(Clone, Copy)]
pub struct Extremes {
    pub low: Day,
    pub high: Day,
    pub bar: Power,
    pub lift: Power,
}

impl Extremes {
    // Of no task: the ends of days the other way round, so that the first task sets both.
    const NONE: Extremes = Extremes {
        low: Day::HIGH,
        high: Day::LOW,
        bar: Power(0),
        lift: Power(0),
    };

    #[tactic(auto, unfolding(crate::specs::Extremes::with_task))]
    fn with(self, t: Task) -> Extremes
        requires { Bounded t }
        ensures { result ≡ with_task self t }
    {
        Extremes {
            low: self.low.min(t.origin.low),
            high: self.high.max(t.end.high),
            bar: self.bar.max(stretches::bar_of(t)),
            lift: self.lift.max(stretches::lift_of(t)),
        }
    }
}

// ---- both, for every task

// How many events there are, and the extremes of their tasks.
#[derive(Clone, Copy)]
pub struct Collected {
    pub events: usize,
    pub extremes: Extremes,
}

// the events of a task, where it has r in its set, behind those of the tasks before it
#[tactic(auto, using(crate::proofs::Laid::laid_none), unfolding(crate::specs::Events::events_of, crate::specs::Extremes::joined))]
fn collect_task(t: Task, r: u64, keys: &mut [u64], c: Collected) -> Collected
    requires enough { (r < set_bits) × (c.events + events_a_task ≤ length keys.old) }
    requires bounded { Bounded t }
    ensures laid { Laid keys.old keys.new c.events result.events (events_of r t) }
    ensures extremes_value { result.extremes ≡ joined r c.extremes t }
{
    if !plan::has_resource(t.set, r) {
        return c;
    }
    Collected {
        events: put_events(keys, c.events, t, r),
        extremes: c.extremes.with(t),
    }
}

// the events of every task that has r in its set
pub fn collect(tasks: &[Task], r: u64, keys: &mut [u64]) -> Collected
    requires enough { (r < set_bits) × (length tasks.now ≤ most_tasks) × (events_a_task * length tasks.now ≤ length keys.old) }
    requires each { Each Bounded tasks.now }
    ensures laid { Laid keys.old keys.new 0 result.events (keys_of r tasks.now) }
    ensures extremes_value { result.extremes ≡ extremes_of r no_extremes tasks.now }
    ensures events_bound { result.events ≤ events_a_task * length tasks.now }
{
    let mut c = Collected {
        events: 0,
        extremes: Extremes::NONE,
    };
    for t in tasks {
        c = collect_task(*t, r, keys, c);
    }
    c
}
