// One task against a finished profile: a pure function of the task and of the stretches of one resource, sense at least.
// Every rule is taken from the task as it entered. The needs of all days are joined first; what they leave of origins and ends is then
// searched for the first and the last value that no barred day hits. A need found late could push a low end into a middle barred
// early, so the two are not mixed. Cost: the stretches, once for each search; no loop runs over days.
#![tactic(auto)]

ghost use Rattle.std.specs.Prelude.{◌≡◌, true, false, ◌<◌, eqb};
ghost use Rattle.plan.specs.Sets.{set_bits, has, only};
ghost use Rattle.plan.specs.Tasks.{Bounded};
ghost use Rattle.stretches.specs.Tells.{Ordered};
ghost use Rattle.searches.specs.Searches.{BothIn, days_in};
ghost use Rattle.narrow.specs.Ready.{Ready, HasDay, ByPage, NeedsFound, Joined, Free, Lifted, Still};
ghost use Rattle.narrow.specs.Ready.{possible_days, running_days, reach_of, with_needs, without_here, finished};
ghost use Rattle.narrow.specs.Window.{Met};

use plan::{Power, Span, Task, Value};
use searches::{Days, Reach};
use stretches::Stretch;

// "possible if .. origin low <= i < end high"
fn possible_days(t: Task) -> Days
    ensures { result ≡ possible_days t }
{
    Days {
        from: t.origin.low,
        to: t.end.high,
    }
}

// "origin high <= i < end low"
fn running_days(t: Task) -> Days
    ensures { result ≡ running_days t }
{
    Days {
        from: t.origin.high,
        to: t.end.low,
    }
}

// What the searches for free values and for the longest duration ask of a task.
fn reach_of(t: Task) -> Reach
    requires { Bounded t }
    ensures { result ≡ reach_of t }
{
    Reach {
        days: possible_days(t),
        sure: running_days(t),
        bar: stretches::bar_of(t),
    }
}

// The task, or the first of its values of which nothing is left. The height is never that value: the highest stays.
#[tactic(auto, unfolding(crate::specs::Ready::finished))]
fn finish(t: Task) -> Result<Task, Value>
    ensures { result ≡ finished t }
{
    if t.origin.is_empty() {
        return Err(Value::Origin);
    }
    if t.duration.is_empty() {
        return Err(Value::Duration);
    }
    if t.end.is_empty() {
        return Err(Value::End);
    }
    if t.set == 0 {
        return Err(Value::Set);
    }
    Ok(t)
}

// "r leaves its set"
fn without_here(t: Task, r: u64) -> Task
    requires { r < set_bits }
    ensures { result ≡ without_here r t }
{
    Task {
        set: plan::without_resource(t.set, r),
        ..t
    }
}

// Of fewer stretches than this all are taken: to search for those that a task can meet costs more than it saves.
const WORTH_A_SEARCH: usize = 4;

// The stretches that can meet the days, where there are many: from the last that begins before them to the last that begins on one of them.
fn met(stretches: &[Stretch], days: Days) -> &[Stretch]
    ensures { Ordered stretches.now → Met stretches.now days result.now }
{
    if stretches.len() < WORTH_A_SEARCH {
        return stretches;
    }
    let ahead = searches::begun(stretches, days.to);
    let begun = &stretches[..ahead];
    // All but the last of those that begin before the days are over by then.
    let over = searches::begun(begun, days.from).saturating_sub(1);
    &begun[over..]
}

// A task that has a possible day, against the stretches of resource r.
#[derive(Clone, Copy)]
struct Here<'a> {
    stretches: &'a [Stretch],
    t: Task,
    r: u64,
    ghost ready: { Ready r t },
    ghost day: { HasDay t },
}

impl<'a> Here<'a> {
    // From the first day on which the task is needed to past the last.
    fn needs(self) -> Days
        ensures { BothIn (days_in (possible_days self.entry.t)) (days_in result) × NeedsFound self.entry.t self.entry.stretches.now result }
    {
        let w = possible_days(self.t);
        let high = self.t.height.high;
        if Power(0) < high {
            return searches::needed_days(self.stretches, w, high);
        }
        // "a task possible on i with positive highest height": any other is needed on no day.
        Days {
            from: w.to,
            to: w.from,
        }
    }

    // The needs of the days s joined.
    #[tactic(auto, unfolding(crate::specs::Ready::with_needs))]
    fn with_needs(self, s: Days) -> Task
        requires { BothIn (days_in (possible_days self.t)) (days_in s) }
        ensures { result ≡ with_needs self.entry.r s self.entry.t }
    {
        let t = self.t;
        // Only the first and the last day matter: what covers both with its longest duration covers every day between.
        if s.from < t.end.high {
            let longest = t.duration.high;
            return Task {
                set: 1 << self.r,
                origin: t.origin.cut_to(s.to - longest, s.from),
                end: t.end.cut_to(s.to, s.from + longest),
                ..t
            };
        }
        t
    }

    // Those of all days joined.
    fn joined(self) -> Task
        ensures { Joined self.entry.r self.entry.t self.entry.stretches.now result }
    {
        self.with_needs(self.needs())
    }

    // "a task sure on i has height at least L - others": the highest height less the slack.
    fn lifted(self) -> Span<Power>
        ensures { Lifted self.entry.t self.entry.stretches.now result }
    {
        let Span { low, high } = self.t.height;
        // With no shortfall a height of one value is enough on every sure day.
        if high <= low {
            return self.t.height;
        }
        // No other day asks for more than the lowest height, and with no shortfall no slack is below 0.
        let slack = searches::least_slack(self.stretches, running_days(self.t), high - low);
        Span {
            low: high - slack.max(Power(0)),
            high,
        }
    }

    // Where it is only here and some of its days may be barred.
    fn barred(self) -> Task
        ensures { only self.entry.t.set self.entry.r ≡ true → ByPage self.entry.r self.entry.t self.entry.stretches.now (finished result) }
    {
        let x = reach_of(self.t);
        let u = self.joined();
        let least = self.t.duration.low;
        // "origins i - duration low + 1 .. i and ends i + 1 .. i + duration low are barred": an end less the least duration is an origin.
        let origin = searches::free_span(self.stretches, x, least, u.origin);
        Task {
            origin,
            duration: Span {
                low: least,
                high: searches::longest(self.stretches, x, self.t.duration.high),
            },
            end: searches::ends_after(self.stretches, x, least, u.end, u.origin, origin),
            height: self.lifted(),
            ..u
        }
    }

    // Whether no possible day leaves the task less than it asks: then none is barred.
    fn is_free(self) -> bool
        ensures { result ≡ true → Free self.entry.t self.entry.stretches.now }
    {
        let bar = stretches::bar_of(self.t);
        bar <= searches::least_slack(self.stretches, possible_days(self.t), bar)
    }

    // Where it is only here and has no barred day: needs and its height are all that can change.
    fn free(self) -> Task
        ensures { only self.entry.t.set self.entry.r ≡ true → Free self.entry.t self.entry.stretches.now → ByPage self.entry.r self.entry.t self.entry.stretches.now (finished result) }
    {
        Task {
            height: self.lifted(),
            ..self.joined()
        }
    }

    // Where it is only here.
    fn only(self) -> Task
        ensures { only self.entry.t.set self.entry.r ≡ true → ByPage self.entry.r self.entry.t self.entry.stretches.now (finished result) }
    {
        if self.is_free() {
            self.free()
        } else {
            self.barred()
        }
    }

    // Where it may stand elsewhere too: bars take only this resource from it.
    fn shared(self) -> Task
        ensures { only self.entry.t.set self.entry.r ≡ false → has self.entry.t.set self.entry.r ≡ true → ByPage self.entry.r self.entry.t self.entry.stretches.now (finished result) }
    {
        let u = self.joined();
        let bar = stretches::bar_of(self.t);
        // "If origin high <= i < end low, r leaves its set": one such day of too little slack is enough.
        if searches::least_slack(self.stretches, running_days(self.t), bar) < bar {
            without_here(u, self.r)
        } else {
            u
        }
    }

    // Where it may stand here.
    fn narrowed(self) -> Result<Task, Value>
        ensures { has self.entry.t.set self.entry.r ≡ true → ByPage self.entry.r self.entry.t self.entry.stretches.now result }
    {
        // No stretch, so no day of which a rule speaks.
        if self.stretches.is_empty() {
            return Ok(self.t);
        }
        if plan::only_resource(self.t.set, self.r) {
            finish(self.only())
        } else {
            finish(self.shared())
        }
    }
}

// One value each for origin, end and height, only here, and as long as its days: each possible day is a sure one, which is not barred; a need
// asks for no more than that; and the height is enough.
fn is_still(t: Task, r: u64) -> bool
    requires { Ready r t }
    ensures { result ≡ true → Still r t }
{
    plan::only_resource(t.set, r)
        && t.origin.high <= t.origin.low
        && t.end.high <= t.end.low
        && t.height.high <= t.height.low
        && t.end.high <= t.origin.low + t.duration.high
}

// THE TASK AFTER THE STEP OF RESOURCE r, for every list of tasks and limit that the stretches tell of.
pub fn narrow(stretches: &[Stretch], t: Task, r: u64) -> Result<Task, Value>
    requires { Ready r t }
    ensures { eqb t.set 0 ≡ false → ByPage r t stretches.now result }
{
    // No rule speaks of a task on a day on which it is not possible.
    if t.origin.low < t.end.high && plan::has_resource(t.set, r) && !is_still(t, r) {
        // Nor of one that meets none of its possible days.
        let stretches = met(stretches, possible_days(t));
        Here { stretches, t, r }.narrowed()
    } else {
        Ok(t)
    }
}
