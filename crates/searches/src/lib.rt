// Searches over the stretches of one resource, each for any test of days that the stretches tell: the first and the last value that
// no day hits, the longest duration, the least slack, the first and the last needed day, how many stretches begin before a day.
// Cost: the stretches, once for each search (of those that begin before a day, by halves); no loop runs over days.
#![tactic(auto)]

ghost use Rattle.std.specs.Prelude.{◌≡◌, true, ◌≤◌, pos, ◌≤ℤ◌, length, IfSome};
ghost use Rattle.integers.specs.Ends.{Within};
ghost use Rattle.plan.specs.Days.{days_of};
ghost use Rattle.searches.specs.Searches.{ForTests, ForBars, FirstFree, LastFree, Freed, FreedEnds, Longest, Needed, Least, BegunCount};
ghost use Rattle.searches.specs.Searches.{near_ends, close_ends, BothIn, days_in, Dated, Short, Half};
ghost use Rattle.searches.specs.Searches.{holds, Among, part_of, barred_part, needed_part, earlier, later};

use plan::{Day, Power, Span};
use stretches::Stretch;

// The days from .. to - 1.
#[derive(Clone, Copy)]
pub struct Days {
    pub from: Day,
    pub to: Day,
}

impl Days {
    #[tactic(auto, unfolding(crate::specs::Searches::holds))]
    fn holds(self, d: Day) -> bool
        ensures { result ≡ holds self d.0 }
    {
        self.from <= d && d < self.to
    }

    // Those that are the stretch's too, if any.
    fn shared(self, s: Stretch) -> Option<Days>
        ensures part { result ≡ part_of self s true }
        ensures among { IfSome result (Among self) }
    {
        let days = Days {
            from: s.from.max(self.from),
            to: s.to.min(self.to),
        };
        if days.from < days.to {
            Some(days)
        } else {
            None
        }
    }

    // Those on which there is less to spare than a height of h gives: the task is needed.
    fn needed(self, h: Power, s: Stretch) -> Option<Days>
        ensures part { result ≡ needed_part self h s }
        ensures among { IfSome result (Among self) }
    {
        if s.tight < h { self.shared(s) } else { None }
    }
}

// The days that a task can reach, those on which it is running wherever it lies, and the slack below which a day is barred to it.
#[derive(Clone, Copy)]
pub struct Reach {
    pub days: Days,
    pub sure: Days,
    pub bar: Power,
}

impl Reach {
    // The days of the stretch that are barred. So little slack bars all of them, unless it is one of the sure days: with no shortfall none
    // of those is barred. One of its days tells for all: no stretch runs across the first or the last sure day.
    fn barred(self, s: Stretch) -> Option<Days>
        ensures part { result ≡ barred_part self s }
        ensures among { IfSome result (Among self.days) }
    {
        if s.slack < self.bar && !self.sure.holds(s.from) {
            self.days.shared(s)
        } else {
            None
        }
    }
}

// Half of so many days, rounded down.
fn half_of(w: Days) -> Day
    requires { Dated w }
    ensures { Half w result.0 }
{
    let d = w.to - w.from;
    Day(d.0 / 2)
}

// The first value from low on that no barred day hits.
fn first_free(stretches: &[Stretch], x: Reach, d: Day, low: Day) -> Day
    requires { Dated x.days × Short d.0 × (pos 1 ≤ℤ d.0) × Within near_ends low.0 }
    ensures { Within near_ends result.0 × ForBars x stretches.now (λ q. FirstFree q d.0 low.0 result.0) }
{
    let mut v = low;
    for s in stretches {
        // The task's days on this stretch and on all that follow are past the days of v, and barred days before them end by v: nothing hits v.
        if v + d <= s.from.max(x.days.from) {
            return v;
        }
        // Barred days that begin before the days of v end hit every value up to the last of them.
        if let Some(hit) = x.barred(*s) {
            v = v.max(hit.to);
        }
    }
    v
}

// The last value up to high that no barred day hits.
fn last_free(stretches: &[Stretch], x: Reach, d: Day, high: Day) -> Day
    requires { Dated x.days × Short d.0 × (pos 1 ≤ℤ d.0) × Within near_ends high.0 }
    ensures { Within near_ends result.0 × ForBars x stretches.now (λ q. LastFree q d.0 high.0 result.0) }
{
    let mut v = high;
    for s in stretches.iter().rev() {
        // The task's days on this stretch and on all before it end by v, and barred days after them begin past the days of v: nothing hits v.
        if s.to.min(x.days.to) <= v {
            return v;
        }
        // Barred days that end past v hit every value down to d - 1 days before the first of them.
        if let Some(hit) = x.barred(*s) {
            v = v.min(hit.from - d);
        }
    }
    v
}

// What bars leave of a range of origins, for a duration of d days: a low end above the high end where it is nothing.
pub fn free_span(stretches: &[Stretch], x: Reach, d: Day, s: Span<Day>) -> Span<Day>
    requires { Dated x.days × Short d.0 × BothIn near_ends (days_of s) }
    ensures { BothIn near_ends (days_of result) × ForBars x stretches.now (λ q. Freed q d.0 s result) }
{
    // No day can hit a task of no days.
    if d <= Day::SHORTEST {
        return s;
    }
    let low = first_free(stretches, x, d, s.low);
    // Every value of the range is hit: there is no last free one to look for.
    if s.high < low {
        return Span { low, ..s };
    }
    Span {
        low,
        high: last_free(stretches, x, d, s.high),
    }
}

// A range d days earlier: an end less a duration is an origin.
fn earlier(d: Day, s: Span<Day>) -> Span<Day>
    requires { Short d.0 × BothIn close_ends (days_of s) }
    ensures { result ≡ earlier d.0 s }
{
    Span {
        low: s.low - d,
        high: s.high - d,
    }
}

fn later(d: Day, s: Span<Day>) -> Span<Day>
    requires { Short d.0 × BothIn near_ends (days_of s) }
    ensures { result ≡ later d.0 s }
{
    Span {
        low: s.low + d,
        high: s.high + d,
    }
}

// What bars leave of a range of ends, where o is what they leave of the origins s.
pub fn ends_after(
    stretches: &[Stretch],
    x: Reach,
    d: Day,
    end: Span<Day>,
    s: Span<Day>,
    o: Span<Day>,
) -> Span<Day>
    requires { Dated x.days × Short d.0 × BothIn close_ends (days_of end) × BothIn near_ends (days_of o) }
    ensures { ForBars x stretches.now (λ q. Freed q d.0 s o → FreedEnds q d.0 end result) }
{
    let origins = earlier(d, end);
    // Most often the ends are the origins d days later, and so is what is left of them.
    if origins == s {
        return later(d, o);
    }
    later(d, free_span(stretches, x, d, origins))
}

// The longest duration up to most that misses a day of every barred part.
pub fn longest(stretches: &[Stretch], x: Reach, most: Day) -> Day
    requires { Dated x.days }
    ensures { ForTests (barred_part x) stretches.now (λ q. Longest q x.days most.0 result.0) }
{
    let w = x.days;
    let half = half_of(w);
    // Half the reach is always enough: before or after any one day there is room for it.
    if most <= half {
        return most;
    }
    let mut r = most;
    // Barred days leave what ends before the first of them, begins past the last, or lies on one side of the middle where they hold that;
    // so all of them leave the least of those.
    for s in stretches {
        if let Some(hit) = x.barred(*s) {
            let before = hit.from - w.from;
            let after = w.to - hit.to;
            r = r.min(half.max(before.max(after)));
        }
    }
    r
}

// The least slack on the days w, up to most.
pub fn least_slack(stretches: &[Stretch], w: Days, most: Power) -> Power
    ensures { Least stretches.now w most.0 result.0 }
{
    // No day, so none that is lower.
    if w.to <= w.from {
        return most;
    }
    let mut x = most;
    // Every day of w lies on a stretch or is one that no rule speaks of, and a stretch outside w lowers nothing.
    for s in stretches {
        if s.slack < x && w.shared(*s).is_some() {
            x = s.slack;
        }
    }
    x
}

// From the first day of w on which a height of h is needed to past the last; w's ends the other way round where there is none.
pub fn needed_days(stretches: &[Stretch], w: Days, h: Power) -> Days
    requires { Dated w }
    ensures { BothIn (days_in w) (days_in result) × ForTests (needed_part w h) stretches.now (λ q. Needed q w result) }
{
    let mut r = Days {
        from: w.to,
        to: w.from,
    };
    // The first day of all parts is the least of their first days, past the last the largest of their ends.
    for s in stretches {
        if let Some(hit) = w.needed(h, *s) {
            r = Days {
                from: r.from.min(hit.from),
                to: r.to.max(hit.to),
            };
        }
    }
    r
}

// How many stretches begin before day d. By a loop and not by `partition_point`, with which narrowing a task in its window took a third longer: its
// last test comes after the loop, and its step is a jump that the processor cannot foresee.
pub fn begun(stretches: &[Stretch], d: Day) -> usize
    ensures { (result ≤ length stretches.now) × BegunCount stretches.now d.0 result }
{
    let mut low = 0;
    let mut high = stretches.len();
    while low < high {
        let mid = low + (high - low) / 2;
        // In order, those before one that begins before d begin before it too, and those after one that does not, do not.
        if stretches[mid].from < d {
            low = mid + 1;
        } else {
            high = mid;
        }
    }
    low
}
