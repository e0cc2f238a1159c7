// "How many passes at most": 1 plus all that could be removed, of the tasks of a plan that passed the checks.
#![tactic(auto)]

ghost use Rattle.std.specs.Prelude.{◌≡◌, ◌≤ℤ◌};
ghost use Rattle.integers.specs.Hull.{range, width};
ghost use Rattle.plan.specs.Sets.{set_bits};
ghost use Rattle.plan.specs.Tasks.{TaskFits};
ghost use Rattle.rules.specs.Settle.{room, most_passes};
ghost use Rattle.bound.specs.Entered.{Entered};

use plan::{Number, Span, Task};

// "high minus low"
#[tactic(auto, unfolding(integers::specs::Hull::width))]
fn width<T: Number>(s: Span<T>) -> u64
    requires { T.number s.low ≤ℤ T.number s.high }
    ensures { result ≡ width (range (T.number s.low) (T.number s.high)) }
{
    s.high.above(s.low)
}

// "the sum of high minus low over its four ranges, plus its number of resources less one"
#[tactic(auto, using(crate::proofs::Fits::task_small), unfolding(rules::specs::Settle::room))]
fn room_of(t: Task) -> u64
    requires { TaskFits set_bits t }
    ensures { result ≡ room t }
{
    width(t.origin)
        + width(t.duration)
        + width(t.end)
        + width(t.height)
        + (plan::set_size(t.set) - 1)
}

// For every task, and 1.
pub fn most_passes(tasks: &[Task]) -> u64
    requires { Entered tasks.now }
    ensures { result ≡ most_passes tasks.now }
{
    1 + tasks.iter().map(|t| room_of(*t)).sum::<u64>()
}
