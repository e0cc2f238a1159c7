// Stretches of equal days: one after the other, what holds on each of their days; and how little a task may find there before a rule touches it.
#![tactic(auto)]

ghost use Rattle.std.specs.Prelude.{◌≡◌};
ghost use Rattle.plan.specs.Powers.{power};
ghost use Rattle.plan.specs.Tasks.{Bounded};
ghost use Rattle.stretches.specs.Asks.{bar_of, lift_of};

use plan::{Day, Power, Task};

// More than any slack, a sum of hopes less a limit.
pub const BIG: Power = Power(2 * plan::MOST_TASKS as i64 * Power::HIGH.0);

// The days from .. to - 1; the slack of all hopes over the limit on each; the same where the day counts, else `BIG`.
#[derive(Clone, Copy)]
pub struct Stretch {
    pub from: Day,
    pub to: Day,
    pub slack: Power,
    pub tight: Power,
}

// What stands in an array where no stretch has been put.
pub const NO_STRETCH: Stretch = Stretch {
    from: Day(0),
    to: Day(0),
    slack: Power(0),
    tight: Power(0),
};

// A task is barred only where the slack is below this: a positive highest height is in the slack already; one that is not positive is not,
// where the task is not sure.
#[tactic(auto, unfolding(crate::specs::Asks::bar_of))]
pub fn bar_of(t: Task) -> Power
    requires { Bounded t }
    ensures { result ≡ power (bar_of t) }
{
    Power(0).max(-t.height.high)
}

// And needed, or its height raised, only where the tight slack is below this.
#[tactic(auto, unfolding(crate::specs::Asks::lift_of))]
pub fn lift_of(t: Task) -> Power
    requires { Bounded t }
    ensures { result ≡ power (lift_of t) }
{
    t.height.high.max(t.height.high - t.height.low)
}
