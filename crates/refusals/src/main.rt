// One input for each refusal of the entry checks, the page's number and place of each on a line; where two faults meet, the one that
// comes first in the page's order.
#![tactic(auto)]

ghost use Rattle.std.specs.Prelude.{◌<◌};

use plan::{
    Band, Day, Kind, MOST_BANDS, MOST_RESOURCES, MOST_TASKS, Power, Refusal, Resource, Span, Task,
};
use std::io;

fn show(rt: &impl Print, checked: Result<(), Refusal>) -> io::Result<()> {
    match checked {
        Ok(()) => println!(rt; "accepted"),
        Err(f) => println!(rt; "{f}"),
    }
}

fn days(low: i64, high: i64) -> Span<Day> {
    Span {
        low: Day(low),
        high: Day(high),
    }
}

fn heights(low: i64, high: i64) -> Span<Power> {
    Span {
        low: Power(low),
        high: Power(high),
    }
}

// Two tasks of the page's case 9.
fn tasks() -> [Task; 2] {
    [
        Task {
            set: 1,
            origin: days(1, 2),
            duration: days(2, 2),
            end: days(3, 4),
            height: heights(0, 1),
        },
        Task {
            set: 3,
            origin: days(0, 6),
            duration: days(2, 2),
            end: days(2, 8),
            height: heights(0, 4),
        },
    ]
}

fn plain(id: i32, limit: i64) -> Resource {
    Resource {
        id,
        kind: Kind::Plain,
        limit: Power(limit),
    }
}

fn held(id: i32, limit: i64) -> Resource {
    Resource {
        kind: Kind::Held,
        ..plain(id, limit)
    }
}

// Their resources, a plain and a held one.
fn resources() -> [Resource; 2] {
    [plain(7, 4), held(9, 3)]
}

fn band(place: usize, from: i64, limit: i64) -> Band {
    Band {
        place,
        from: Day(from),
        limit: Power(limit),
    }
}

// Bands of the first resource.
fn bands() -> [Band; 2] {
    [band(0, 2, 5), band(0, 4, 1)]
}

// ---- one list as given, the others as above

fn show_resources(rt: &impl Print, resources: &[Resource]) -> io::Result<()> {
    show(rt, entry::check(resources, &bands(), &tasks()))
}

fn show_bands(rt: &impl Print, bands: &[Band]) -> io::Result<()> {
    show(rt, entry::check(&resources(), bands, &tasks()))
}

fn show_tasks(rt: &impl Print, tasks: &[Task]) -> io::Result<()> {
    show(rt, entry::check(&resources(), &bands(), tasks))
}

// Refusals 1 and 2: too many tasks, then too few and too many resources; both faults together are 1.
fn counts(rt: &impl Print) -> io::Result<()> {
    show_bands(rt, &bands())?;
    let many = [tasks()[0]; MOST_TASKS + 1];
    show_tasks(rt, &many)?;
    show(rt, entry::check(&[], &bands(), &many))?;
    show_resources(rt, &[])?;
    show_resources(rt, &[plain(7, 4); MOST_RESOURCES + 1])
}

// Refusals 3 and 4: an identifier repeats, a limit is outside; the identifiers come first, over all resources.
fn limits(rt: &impl Print) -> io::Result<()> {
    show_resources(rt, &[plain(7, 4), plain(9, 3), held(7, 5)])?;
    show_resources(rt, &[plain(7, 4), plain(9, 1_000_001)])?;
    show_resources(rt, &[plain(7, -1_000_001), plain(7, 3)])
}

// Refusal 13: a band that starts on the day of the one before it, or stands at a lower place, lies outside its ends, or names no resource.
fn levels(rt: &impl Print) -> io::Result<()> {
    show_bands(rt, &[band(0, 2, 5), band(0, 2, 1)])?;
    show_bands(rt, &[band(0, 2, 5), band(1, 2, 5), band(0, 4, 1)])?;
    show_bands(rt, &[band(0, -100_001, 5), band(0, 4, 1)])?;
    show_bands(rt, &[band(0, 100_000, 5), band(1, 100_001, 1)])?;
    show_bands(rt, &[band(0, 2, -1_000_001), band(0, 4, 1)])?;
    show_bands(rt, &[band(0, 2, 1_000_000), band(0, 4, 1_000_001)])?;
    show_bands(rt, &[band(0, 2, 5), band(1, 2, 5), band(2, 2, 5)])
}

// So many bands, each a day after the one before.
fn rising<const N: usize>() -> [Band; N]
    requires { N < 100 }
{
    let mut many = [band(0, 0, 5); N];
    for (k, b) in many.iter_mut().enumerate() {
        b.from = Day(k as i64);
    }
    many
}

const ONE_MORE: usize = MOST_BANDS + 1;

const TWO_MORE: usize = MOST_BANDS + 2;

// Refusal 13: a 65th band, the last or not; behind one that is out of order, that one.
fn many_levels(rt: &impl Print) -> io::Result<()> {
    show_bands(rt, &rising::<MOST_BANDS>())?;
    show_bands(rt, &rising::<ONE_MORE>())?;
    let mut more = rising::<TWO_MORE>();
    show_bands(rt, &more)?;
    more[3] = band(0, 2, 5);
    show_bands(rt, &more)
}

// Two faults: 4 before 13, and 13 before 5.
fn meetings(rt: &impl Print) -> io::Result<()> {
    let twice = [band(0, 2, 5), band(0, 2, 1)];
    let above = [plain(7, 4), plain(9, 1_000_001)];
    show(rt, entry::check(&above, &twice, &tasks()))?;
    let mut crossed = tasks();
    crossed[0].origin = days(2, 1);
    show(rt, entry::check(&resources(), &twice, &crossed))
}

// Refusals 5 and 6: a range outside its ends or the wrong way round, a set that is empty or names a place beyond the list; task by
// task, 5 before 6.
fn ranges(rt: &impl Print) -> io::Result<()> {
    let mut outside = tasks();
    outside[1].duration = days(2, 10_001);
    show_tasks(rt, &outside)?;
    let mut crossed = tasks();
    crossed[0].set = 0;
    crossed[0].origin = days(2, 1);
    show_tasks(rt, &crossed)?;
    let mut nowhere = tasks();
    nowhere[1].set = 0;
    show_tasks(rt, &nowhere)?;
    let mut beyond = tasks();
    beyond[0].set = 4;
    beyond[1].origin = days(6, 0);
    show_tasks(rt, &beyond)
}

fn main(rt: HostRuntime) -> io::Result<()> {
    counts(&rt)?;
    limits(&rt)?;
    levels(&rt)?;
    many_levels(&rt)?;
    meetings(&rt)?;
    ranges(&rt)
}
