// Pass and settle over lists, sense at least. A mask of resources that may still change something saves steps: it is no part of any answer.
#![tactic(auto)]

ghost use Rattle.std.specs.Prelude.{false, ◌<◌, length};
ghost use Rattle.plan.specs.declared.Call.TheVariants.{Within};
ghost use Rattle.plan.specs.declared.Sense.TheVariants.{AtLeast};
ghost use Rattle.rules.specs.Frame.{framed, places};
ghost use Rattle.rules.specs.Step.{resource_step};
ghost use Rattle.rules.specs.Settle.{steps, pass};
ghost use Rattle.idle.specs.Mask.{Idle, Took};
ghost use Rattle.step.specs.Kept.{Kept};
ghost use Rattle.passes.specs.Ready.{Ready, Answered};

use idle::Passed;
use plan::{Band, Refusal, Resource, Task};
use profile::Work;

// The step of the resource at a place, and what is to be noted of it.
pub fn resource_step(
    resources: &[Resource],
    bands: &[Band],
    tasks: &mut [Task],
    place: usize,
    p: Passed,
    work: &mut Work,
) -> Option<Passed>
    requires ready { (place < length resources.now) × Ready resources.now bands.now tasks.old work.old }
    requires idle { Idle p.mask (framed AtLeast resources.now bands.now) tasks.old }
    ensures took { let f = framed AtLeast resources.now bands.now in Took (resource_step f place) f p.changed tasks.old result tasks.new }
    ensures kept { Kept work.old work.new }
{
    let r = place as u64;
    let touched = step::step(tasks, bands, r, resources[place], work)?;
    Some(Passed {
        changed: p.changed || touched != 0,
        mask: plan::without_resource(p.mask, r) | touched,
    })
}

// The steps in list order, on what balance left, of the resources whose bits say that they may change something. The next is looked for after each
// step, which may make a later resource due in this pass (docs/DECISIONS.md, 65).
fn steps(
    resources: &[Resource],
    bands: &[Band],
    tasks: &mut [Task],
    first: Passed,
    work: &mut Work,
) -> Option<Passed>
    requires ready { Ready resources.now bands.now tasks.old work.old }
    requires idle { Idle first.mask (framed AtLeast resources.now bands.now) tasks.old }
    ensures took { let f = framed AtLeast resources.now bands.now in Took (steps f (places f)) f first.changed tasks.old result tasks.new }
    ensures kept { Kept work.old work.new }
{
    let mut p = first;
    let mut place = plan::lowest_resource(p.mask) as usize;
    while place < resources.len() {
        p = resource_step(resources, bands, tasks, place, p, work)?;
        place = plan::next_resource(p.mask, place as u64) as usize;
    }
    Some(p)
}

// Balance, then each resource's step.
pub fn pass(
    resources: &[Resource],
    bands: &[Band],
    tasks: &mut [Task],
    mask: u64,
    work: &mut Work,
) -> Option<Passed>
    requires ready { Ready resources.now bands.now tasks.old work.old }
    requires idle { Idle mask (framed AtLeast resources.now bands.now) tasks.old }
    ensures took { let f = framed AtLeast resources.now bands.now in Took (pass f) f false tasks.old result tasks.new }
    ensures kept { Kept work.old work.new }
{
    let touched = balance::balance(tasks)?;
    let first = Passed {
        changed: touched != 0,
        mask: mask | touched,
    };
    steps(resources, bands, tasks, first, work)
}

// Passes until one changes nothing, at most so many.
pub fn settle(
    most: u64,
    resources: &[Resource],
    bands: &[Band],
    tasks: &mut [Task],
    work: &mut Work,
) -> Result<u64, Refusal>
    requires { Ready resources.now bands.now tasks.old work.old }
    ensures answered { Answered (Within most) (framed AtLeast resources.now bands.now) tasks.old result tasks.new }
    ensures kept { Kept work.old work.new }
{
    let mut mask = idle::lively_places(tasks);
    for passes in 0..most {
        let p = pass(resources, bands, tasks, mask, work).ok_or(Refusal::NoPlan)?;
        if !p.changed {
            return Ok(passes + 1);
        }
        mask = p.mask;
    }
    Ok(0)
}
