// What a step tells of a list of tasks that it changed in place: which resources see a changed task.
#![tactic(auto)]

ghost use Rattle.std.specs.Prelude.{◌≡◌};
ghost use Rattle.integers.specs.Tests.{if};
ghost use Rattle.plan.specs.Sets.{union};
ghost use Rattle.rules.specs.Settle.{same_task};
ghost use Rattle.changes.specs.Changes.{seen_by};

use plan::Task;

// "changes nothing": the same set and ranges.
fn same_task(a: Task, b: Task) -> bool
    ensures { result ≡ same_task a b }
{
    a == b
}

// The resources that see t become u: where only resources went and more than one is left, those that stay see no change.
#[tactic(auto, using(crate::proofs::Same::same_with_set), unfolding(crate::specs::Changes::seen_by, plan::specs::Sets::differing))]
fn seen_by(t: Task, u: Task) -> u64
    ensures { result ≡ seen_by t u }
{
    let only_set = same_task(Task { set: u.set, ..t }, u);
    if only_set && !plan::at_most_one(u.set) {
        t.set ^ u.set
    } else {
        t.set
    }
}

// A task put back as u, if that changed it; then the places that see the change are noted among the touched.
#[tactic(auto, using(rules::proofs::Rooms::same_task_is), unfolding(plan::specs::Sets::union))]
pub fn put_changed(t: &mut Task, u: Task, touched: u64) -> u64
    ensures after { t.new ≡ u }
    ensures noted { result ≡ if (same_task t.old u) touched (union touched (seen_by t.old u)) }
{
    if same_task(*t, u) {
        return touched;
    }
    let seen = seen_by(*t, u);
    *t = u;
    touched | seen
}
