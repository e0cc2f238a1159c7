// The balance step: origin + duration = end, each of the three cut to what the other two leave. Every cut is worked out from the
// ranges as they entered.
#![tactic(auto)]

ghost use Rattle.std.specs.Prelude.{◌≡◌};
ghost use Rattle.integers.specs.Lists.{Each};
ghost use Rattle.plan.specs.Tasks.{Bounded};
ghost use Rattle.rules.specs.Balance.{cuts, unless_empty, balanced, balance};
ghost use Rattle.changes.specs.Changes.{outcome_of, Notes};
ghost use Rattle.balance.specs.Exact.{exact};

use plan::{Task, Value};

#[tactic(auto, unfolding(rules::specs::Balance::cuts))]
fn cut_task(t: Task) -> Task
    requires { Bounded t }
    ensures { result ≡ cuts t }
{
    let Task {
        origin,
        duration,
        end,
        ..
    } = t;
    Task {
        origin: origin.cut_to(end.low - duration.high, end.high - duration.low),
        duration: duration.cut_to(end.low - origin.high, end.high - origin.low),
        end: end.cut_to(origin.low + duration.low, origin.high + duration.high),
        ..t
    }
}

// The task, or the first of its ranges that is empty.
#[tactic(auto, unfolding(rules::specs::Balance::unless_empty))]
fn unless_empty(t: Task) -> Result<Task, Value>
    ensures { result ≡ unless_empty t }
{
    if t.origin.is_empty() {
        return Err(Value::Origin);
    }
    if t.duration.is_empty() {
        return Err(Value::Duration);
    }
    if t.end.is_empty() {
        return Err(Value::End);
    }
    Ok(t)
}

#[tactic(auto, unfolding(rules::specs::Balance::balanced))]
pub fn balance_task(t: Task) -> Result<Task, Value>
    requires { Bounded t }
    ensures { result ≡ balanced t }
{
    unless_empty(cut_task(t))
}

// Nearly every task is balanced already, in the plainest way: both ends of its end are the sums of the other two's. It stays, and need
// not be cut and compared.
#[tactic(auto, unfolding(crate::specs::Exact::exact))]
fn is_exact(t: Task) -> bool
    requires { Bounded t }
    ensures { result ≡ exact t }
{
    t.end.low == t.origin.low + t.duration.low && t.end.high == t.origin.high + t.duration.high
}

// "For every task", in place, up to the first of which nothing is left.
pub fn balance(tasks: &mut [Task]) -> Option<u64>
    requires { Each Bounded tasks.old }
    ensures after { outcome_of result tasks.new ≡ balance tasks.old }
    ensures noted { Notes result tasks.old tasks.new }
{
    let mut touched = 0;
    for t in tasks.iter_mut() {
        if !is_exact(*t) {
            let u = balance_task(*t).ok()?;
            touched = changes::put_changed(t, u, touched);
        }
    }
    Some(touched)
}
