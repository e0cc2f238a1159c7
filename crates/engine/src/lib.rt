// Every call on a plan's lists: checking, balance, one resource's step, a pass, settling, how many passes that makes at most. The steps work at
// least: a plan at most is negated on entry, and back on success.
#![tactic(auto)]

ghost use Rattle.std.specs.Prelude.{◌≡◌, true, length, IfOk};
ghost use Rattle.plan.specs.declared.Sense.TheVariants.{AtLeast};
ghost use Rattle.rules.specs.Frame.{framed};
ghost use Rattle.rules.specs.Calls.{placed_in};
ghost use Rattle.step.specs.Kept.{Kept};
ghost use Rattle.passes.specs.Ready.{Ready, Answered};

use plan::{Band, Call, Refusal, Resource, Sense, Task};
use profile::Work;

// "a resource step names a place not in the list"
pub fn is_placed(c: Call, resources: usize) -> bool
    ensures { result ≡ placed_in resources c }
{
    match c {
        Call::Step(place) => place < resources,
        _ => true,
    }
}

// More passes than settling any plan makes: at most some 617 million.
pub const ENOUGH_PASSES: u64 = 1 << 32;

// What is asked for, at least, on a plan that passed the checks.
fn apply_at_least(
    c: Call,
    resources: &[Resource],
    bands: &[Band],
    tasks: &mut [Task],
    work: &mut Work,
) -> Result<u64, Refusal>
    requires { (placed_in (length resources.now) c ≡ true) × Ready resources.now bands.now tasks.old work.old }
    ensures answered { Answered c (framed AtLeast resources.now bands.now) tasks.old result tasks.new }
    ensures kept { Kept work.old work.new }
{
    match c {
        Call::Check => Ok(0),
        Call::Balance => balance::balance(tasks).map(|_| 0).ok_or(Refusal::NoPlan),
        Call::Step(place) => {
            passes::resource_step(resources, bands, tasks, place, idle::Passed::NONE, work)
                .map(|_| 0)
                .ok_or(Refusal::NoPlan)
        }
        Call::Pass => passes::pass(resources, bands, tasks, idle::EVERY_PLACE, work)
            .map(|_| 0)
            .ok_or(Refusal::NoPlan),
        Call::Settle => passes::settle(ENOUGH_PASSES, resources, bands, tasks, work),
        Call::Within(most) => passes::settle(most, resources, bands, tasks, work),
        Call::MostPasses => Ok(bound::most_passes(tasks)),
    }
}

// A call on a plan that passed the checks, in what is lent.
pub fn apply(
    c: Call,
    sense: Sense,
    resources: &mut [Resource],
    bands: &mut [Band],
    tasks: &mut [Task],
    work: &mut Work,
) -> Result<u64, Refusal>
    requires { (placed_in (length resources.old) c ≡ true) × Ready resources.old bands.old tasks.old work.old }
    ensures answered { Answered c (framed sense resources.old bands.old) tasks.old result tasks.new }
    ensures restored { IfOk result (λ n. (resources.new ≡ resources.old) × (bands.new ≡ bands.old)) }
    ensures kept { Kept work.old work.new }
{
    negation::negate_for(sense, resources, bands, tasks);
    let n = apply_at_least(c, resources, bands, tasks, work)?;
    negation::negate_for(sense, resources, bands, tasks);
    Ok(n)
}
