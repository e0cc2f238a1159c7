// The entry checks, refusals 1 to 4, 13, 5 and 6 in the page's order, over lists of any numbers and of any length.
#![tactic(auto)]

ghost use Rattle.std.specs.Prelude.{◌≡◌, []};
ghost use Rattle.std.specs.List.{IsAllAdjacentAnswer};
ghost use Rattle.plan.specs.declared.Sense.{Sense};
ghost use Rattle.rules.specs.Frame.{framed};
ghost use Rattle.rules.specs.Calls.{repeats, limits, ranges_fit, set_fits, tasks_fit, check};
ghost use Rattle.entry.specs.Checks.{below_id, is_among, ChecksHeld};

use bands::{check_bands, lies_within};
use plan::{
    Band, Day, MOST_BANDS, MOST_RESOURCES, MOST_TASKS, Power, Refusal, Resource, SET_BITS, Task,
};

// Whether one of these resources has the identifier.
fn is_among(id: i32, resources: &[Resource]) -> bool
    ensures { result ≡ is_among id resources.now }
{
    resources.iter().any(|q| id == q.id)
}

// In one run: each identifier is larger than the one before.
fn identifiers_rise(resources: &[Resource]) -> bool
    ensures { IsAllAdjacentAnswer (λ q r b. b ≡ below_id q r) resources.now result }
{
    resources.is_sorted_by(|a, b| a.id < b.id)
}

// 3: "an identifier repeats an earlier one; first resource that repeats"
// Identifiers that rise repeat none: only where they do not is each compared with all before it.
#[tactic(auto, using(crate::proofs::Rising::rising_repeats, crate::proofs::Checks::repeats_steps), unfolding(plan::specs::Tasks::no_resource))]
fn check_identifiers(resources: &[Resource]) -> Result<(), Refusal>
    ensures { result ≡ repeats 0 [] resources.now }
{
    if identifiers_rise(resources) {
        return Ok(());
    }
    for (k, q) in resources.iter().enumerate() {
        if is_among(q.id, &resources[..k]) {
            return Err(Refusal::RepeatedIdentifier(k));
        }
    }
    Ok(())
}

// 4: "a limit outside its ends; first such resource"
#[tactic(auto, using(crate::proofs::Checks::limits_steps), unfolding(plan::specs::Tasks::no_resource))]
fn check_limits(resources: &[Resource]) -> Result<(), Refusal>
    ensures { result ≡ limits 0 resources.now }
{
    for (k, q) in resources.iter().enumerate() {
        if !lies_within(Power::ends(), q.limit) {
            return Err(Refusal::LimitOutside(k));
        }
    }
    Ok(())
}

// 5: "a task's range is outside its ends, or low above high"
#[tactic(auto, unfolding(rules::specs::Calls::ranges_fit))]
fn ranges_fit(t: Task) -> bool
    ensures { result ≡ ranges_fit t }
{
    t.origin.fits(Day::ends())
        && t.duration.fits(Day::lengths())
        && t.end.fits(Day::ends())
        && t.height.fits(Power::ends())
}

// 6: "a task's set is empty or names a place beyond the resource list"
#[tactic(auto, unfolding(rules::specs::Calls::set_fits))]
fn set_fits(t: Task, resources: u64) -> bool
    ensures { result ≡ set_fits resources t }
{
    t.set != 0 && (SET_BITS <= resources || t.set < 1 << resources)
}

// "task by task 5 before 6"
#[tactic(auto, using(crate::proofs::Checks::tasks_steps), unfolding(plan::specs::Tasks::no_task))]
fn check_tasks(tasks: &[Task], resources: u64) -> Result<(), Refusal>
    ensures { result ≡ tasks_fit resources 0 tasks.now }
{
    for (k, t) in tasks.iter().enumerate() {
        if !ranges_fit(*t) {
            return Err(Refusal::RangeOutside(k));
        }
        if !set_fits(*t, resources) {
            return Err(Refusal::SetOutside(k));
        }
    }
    Ok(())
}

// 1 and 2 by the counts, 3 over all resources, 4 over all, 13 over all bands, then the tasks.
#[tactic(auto, unfolding(rules::specs::Calls::check))]
pub fn check(resources: &[Resource], bands: &[Band], tasks: &[Task]) -> Result<(), Refusal>
    ensures { (sense : Sense) → result ≡ check (framed sense resources.now bands.now) tasks.now }
{
    if MOST_TASKS < tasks.len() {
        return Err(Refusal::TooManyTasks);
    }
    if resources.is_empty() || MOST_RESOURCES < resources.len() {
        return Err(Refusal::ResourceCount);
    }
    check_identifiers(resources)?;
    check_limits(resources)?;
    check_bands(bands, resources.len())?;
    check_tasks(tasks, resources.len() as u64)
}

// Lists of so many tasks, resources and bands, of which the first places are held: resources and tasks whole where there are not too many, and the
// first 64 bands. 1 and 2 need no list; where these pass, a 65th band is what may be left to refuse.
pub fn check_lists(
    tasks_count: usize,
    resources_count: usize,
    bands_count: usize,
    resources: &[Resource],
    bands: &[Band],
    tasks: &[Task],
) -> Result<(), Refusal>
    ensures { ChecksHeld resources_count bands_count tasks_count resources.now bands.now tasks.now result }
{
    if MOST_TASKS < tasks_count {
        return Err(Refusal::TooManyTasks);
    }
    if resources_count == 0 || MOST_RESOURCES < resources_count {
        return Err(Refusal::ResourceCount);
    }
    if MOST_BANDS < bands_count {
        check_identifiers(resources)?;
        check_limits(resources)?;
        check_bands(bands, resources.len())?;
        return Err(Refusal::BandOutside(MOST_BANDS));
    }
    check(resources, bands, tasks)
}
