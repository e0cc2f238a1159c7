// The resource step over the list, sense at least: the days as stretches, then every task against them, each from the list as it entered.
// A task that asks for no more slack than every stretch leaves is passed over: no rule touches it. Cost: the profile, and for each task
// that is not passed over the searches of narrow.
#![tactic(auto)]

ghost use Rattle.std.specs.Prelude.{◌≡◌, ◌+◌, ◌<◌, length};
ghost use Rattle.integers.specs.Lists.{Each};
ghost use Rattle.plan.specs.Sets.{set_bits};
ghost use Rattle.plan.specs.Tasks.{Bounded, TaskFits};
ghost use Rattle.rules.specs.Frame.{limit_from, is_held, floor};
ghost use Rattle.rules.specs.Step.{at_least_step};
ghost use Rattle.changes.specs.Changes.{outcome_of, Notes};
ghost use Rattle.held.specs.Held.{room_if};
ghost use Rattle.profile.specs.Lent.{Lent, Asks};
ghost use Rattle.step.specs.Told.{EachByPage};
ghost use Rattle.step.specs.Kept.{Kept};
ghost use Rattle.step.specs.Least.{lowered, least_of, can_be_barred, asks_more};

use plan::{Band, Power, Resource, Task};
use profile::Work;
use stretches::Stretch;

// ---- which tasks some stretch could touch

// The least slack of all stretches, and the least that is tight: they touch no task that asks for no more.
#[derive(Clone, Copy)]
pub struct Least {
    pub slack: Power,
    pub tight: Power,
}

impl Least {
    // with a stretch more
    fn lowered(self, s: Stretch) -> Least
        ensures { result ≡ lowered self s }
    {
        Least {
            slack: self.slack.min(s.slack),
            tight: self.tight.min(s.tight),
        }
    }

    // of all stretches: what asks for no more than the least asks for no more than any
    #[tactic(auto, unfolding(crate::specs::Least::least_of))]
    fn of(stretches: &[Stretch]) -> Least
        ensures { result ≡ least_of stretches.now }
    {
        let none = Least {
            slack: stretches::BIG,
            tight: stretches::BIG,
        };
        stretches
            .iter()
            .copied()
            .fold(none, |least, s| least.lowered(s))
    }
}

// Whether a bar could touch the task where the slack is so low.
#[tactic(auto, unfolding(crate::specs::Least::can_be_barred))]
fn can_be_barred(t: &Task, slack: Power) -> bool
    requires { Bounded t.now }
    ensures { result ≡ can_be_barred t.now slack }
{
    slack < stretches::bar_of(*t) && idle::is_lively(*t)
}

// Whether the task may stand on r and some stretch could touch it.
#[tactic(auto, unfolding(crate::specs::Least::asks_more))]
fn asks_more(t: &Task, r: u64, least: Least) -> bool
    requires { (r < set_bits) × Bounded t.now }
    ensures { result ≡ asks_more r t.now least }
{
    plan::has_resource(t.set, r)
        && (can_be_barred(t, least.slack) || least.tight < stretches::lift_of(*t))
}

// ---- the step

// Every task in list order, until a value runs out. One that no stretch can touch stays, and is not looked at further.
fn narrow_all(tasks: &mut [Task], r: u64, stretches: &[Stretch]) -> Option<u64>
    requires { (r < set_bits) × Each (TaskFits set_bits) tasks.old }
    ensures outcome { EachByPage r tasks.old stretches.now (outcome_of result tasks.new) }
    ensures noted { Notes result tasks.old tasks.new }
{
    let least = Least::of(stretches);
    let mut touched = 0;
    for t in tasks.iter_mut() {
        if asks_more(t, r, least) {
            let u = narrow::narrow(stretches, *t, r).ok()?;
            touched = changes::put_changed(t, u, touched);
        }
    }
    Some(touched)
}

// A shortfall is no plan; where no stretch was worth keeping, no rule touches a task.
pub fn step(
    tasks: &mut [Task],
    bands: &[Band],
    r: u64,
    resource: Resource,
    work: &mut Work,
) -> Option<u64>
    requires asks { Asks r resource.limit bands.now (length tasks.old) }
    requires lent { Lent (length tasks.old) (room_if (is_held resource.kind) + length bands.now) (length work.old.keys.now) (length work.old.stretches.now) }
    requires each { Each (TaskFits set_bits) tasks.old }
    ensures outcome { outcome_of result tasks.new ≡ at_least_step r (floor resource.kind (limit_from r resource.limit.0 bands.now)) tasks.old }
    ensures noted { Notes result tasks.old tasks.new }
    ensures kept { Kept work.old work.new }
{
    let n = profile::profile(tasks, bands, r, resource, work).ok()?;
    if n == 0 {
        return Some(0);
    }
    narrow_all(tasks, r, &work.stretches[..n])
}
