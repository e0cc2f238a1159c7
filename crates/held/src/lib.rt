// The days that count on a held resource as one change more among its events: "a held day counts when one task with only that resource has origin
// high <= day and one such task has end low > day", which is one span over those tasks. Cost: one run over the tasks, of a held resource only.
#![tactic(auto)]

ghost use Rattle.std.specs.Prelude.{◌≡◌, ◌+◌, ◌≤◌, ◌<◌, length};
ghost use Rattle.integers.specs.Lists.{Each};
ghost use Rattle.plan.specs.Sets.{set_bits};
ghost use Rattle.plan.specs.Tasks.{Bounded};
ghost use Rattle.rules.specs.Frame.{is_held};
ghost use Rattle.events.specs.Events.{ChangeFits};
ghost use Rattle.events.specs.Laid.{Laid};
ghost use Rattle.held.specs.Held.{no_span, with_only, span_over, span_change, span_keys, held_events, room_if, held_keys};

use events::{Change, Count};
use plan::{Day, Kind, Power, Span, Task};

// The change and its opposite.
pub const HELD_EVENTS: usize = 2;

// the span with a task more, where that can stand nowhere else
#[tactic(auto, unfolding(crate::specs::Held::with_only))]
fn with_only(e: Span<Day>, t: Task, r: u64) -> Span<Day>
    requires { r < set_bits }
    ensures { result ≡ with_only r e t }
{
    if !plan::only_resource(t.set, r) {
        return e;
    }
    Span {
        low: e.low.min(t.origin.high),
        high: e.high.max(t.end.low),
    }
}

// From the least origin high to the greatest end low; of no task the ends of days the other way round, so that the first task sets both.
#[tactic(auto, unfolding(crate::specs::Held::span_over))]
fn span_of(tasks: &[Task], r: u64) -> Span<Day>
    requires { r < set_bits }
    ensures { result ≡ span_over r no_span tasks.now }
{
    let none = Span {
        low: Day::HIGH,
        high: Day::LOW,
    };
    tasks.iter().copied().fold(none, |e, t| with_only(e, t, r))
}

// No power, and each day of the span counts.
fn span_change(e: Span<Day>) -> Change
    ensures { result ≡ span_change e }
{
    Change {
        from: e.low,
        to: e.high,
        power: Power(0),
        sure: Count(1),
    }
}

// its keys behind the first n, where it has a day
#[tactic(auto, using(events::proofs::Laid::laid_none), unfolding(crate::specs::Held::span_keys, events::specs::Events::change_keys))]
fn put_span(keys: &mut [u64], n: usize, e: Span<Day>) -> usize
    requires enough { n + held_events ≤ length keys.old }
    requires change_fits { ChangeFits (span_change e) }
    ensures laid { Laid keys.old keys.new n result (span_keys e) }
    ensures upper_bound { result ≤ n + held_events }
{
    if e.low < e.high {
        events::put_change(keys, n, span_change(e))
    } else {
        n
    }
}

// The keys of a held resource's span behind the first n; a plain one has none.
#[tactic(auto, using(events::proofs::Laid::laid_none), unfolding(crate::specs::Held::held_keys))]
pub fn put_held(tasks: &[Task], r: u64, kind: Kind, keys: &mut [u64], n: usize) -> usize
    requires enough { (r < set_bits) × (n + room_if (is_held kind) ≤ length keys.old) }
    requires each { Each Bounded tasks.now }
    ensures laid { Laid keys.old keys.new n result (held_keys r kind tasks.now) }
    ensures upper_bound { result ≤ n + room_if (is_held kind) }
{
    match kind {
        Kind::Plain => n,
        Kind::Held => put_span(keys, n, span_of(tasks, r)),
    }
}
