// The call over lists of records that a caller lends: checked where they lie, worked on in arrays of its own, and the tasks that are left are copied back.
#![tactic(auto)]

ghost use Rattle.std.specs.Prelude.{◌≡◌, true, ◌≤◌, length};
ghost use Rattle.plan.specs.declared.Sense.TheVariants.{AtLeast};
ghost use Rattle.plan.specs.Refusals.{told_answer, accepted};
ghost use Rattle.plan.specs.Tasks.{most_resources, most_bands, most_tasks};
ghost use Rattle.rules.specs.Frame.{framed};
ghost use Rattle.rules.specs.Calls.{check, placed_in, list_result, list_call};

use plan::{
    Band, Call, MOST_BANDS, MOST_RESOURCES, MOST_TASKS, NO_BAND, NO_RESOURCE, NO_TASK, Refusal,
    Resource, Sense, Task,
};
use profile::{MOST_KEYS, MOST_STRETCHES, Work};
use stretches::NO_STRETCH;

// A call on a plan that passed the checks, in lists that become copies of the lent ones. "On each refusal, task lists and buffers keep their entry
// contents": the tasks that are left are copied back, and those of a refused call are not.
#[tactic(auto, using(held::proofs::Room::room_most), unfolding(rules::specs::Calls::list_call))]
fn apply_in(
    call: Call,
    sense: Sense,
    resources: &[Resource],
    bands: &[Band],
    tasks: &mut [Task],
    own_resources: &mut [Resource],
    own_bands: &mut [Band],
    own_tasks: &mut [Task],
) -> Result<u64, Refusal>
    requires checked { (check (framed AtLeast resources.now bands.now) tasks.old ≡ accepted) × (placed_in (length resources.now) call ≡ true) }
    requires few { (length bands.now ≤ most_bands) × (length tasks.old ≤ most_tasks) }
    requires alike { (length own_resources.old ≡ length resources.now) × (length own_bands.old ≡ length bands.now) × (length own_tasks.old ≡ length tasks.old) }
    ensures { list_result (told_answer result) tasks.new ≡ list_call call (framed sense resources.now bands.now) tasks.old }
{
    let mut keys = [0; MOST_KEYS];
    let mut stretches = [NO_STRETCH; MOST_STRETCHES];
    let mut work = Work {
        keys: &mut keys,
        stretches: &mut stretches,
    };
    own_resources.copy_from_slice(resources);
    own_bands.copy_from_slice(bands);
    own_tasks.copy_from_slice(tasks);
    let done = engine::apply(call, sense, own_resources, own_bands, own_tasks, &mut work)?;
    tasks.copy_from_slice(own_tasks);
    Ok(done)
}

// A call on a plan that passed the checks, in arrays of our own.
fn apply_checked(
    call: Call,
    sense: Sense,
    resources: &[Resource],
    bands: &[Band],
    tasks: &mut [Task],
) -> Result<u64, Refusal>
    requires checked { (check (framed AtLeast resources.now bands.now) tasks.old ≡ accepted) × (placed_in (length resources.now) call ≡ true) }
    requires few { (length resources.now ≤ most_resources) × (length bands.now ≤ most_bands) × (length tasks.old ≤ most_tasks) }
    ensures { list_result (told_answer result) tasks.new ≡ list_call call (framed sense resources.now bands.now) tasks.old }
{
    let mut own_resources = [NO_RESOURCE; MOST_RESOURCES];
    let mut own_bands = [NO_BAND; MOST_BANDS];
    let mut own_tasks = [NO_TASK; MOST_TASKS];
    let n = resources.len();
    let k = bands.len();
    let m = tasks.len();
    apply_in(
        call,
        sense,
        resources,
        bands,
        tasks,
        &mut own_resources[..n],
        &mut own_bands[..k],
        &mut own_tasks[..m],
    )
}

// A call over a caller's lists: "a step changes it there".
#[tactic(auto, unfolding(rules::specs::Calls::list_call, rules::specs::Calls::call_of))]
pub fn apply(
    call: Call,
    sense: Sense,
    resources: &[Resource],
    bands: &[Band],
    tasks: &mut [Task],
) -> Result<u64, Refusal>
    ensures { list_result (told_answer result) tasks.new ≡ list_call call (framed sense resources.now bands.now) tasks.old }
{
    entry::check(resources, bands, tasks)?;
    if !engine::is_placed(call, resources.len()) {
        return Err(Refusal::NoSuchResource);
    }
    apply_checked(call, sense, resources, bands, tasks)
}
