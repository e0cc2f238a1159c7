// Damaged plan files, the page's number and place of each refusal on a line. The whole file is the page's case 9: its records start
// at bytes 0, 6, 16, 26 and 62, and it ends at 98; a byte too many follows. With bands, these start at byte 26, 12 bytes each.
#![tactic(auto)]

ghost use Rattle.std.specs.Prelude.{◌≤◌, length};
ghost use Rattle.plan.specs.Tasks.{most_resources, most_bands, most_tasks};

use format::{Found, table};
use plan::{
    Band, Counts, MOST_BANDS, MOST_RESOURCES, MOST_TASKS, NO_BAND, NO_RESOURCE, NO_TASK, Refusal,
    Resource, Sense, Task,
};
use std::io;

fn show_answer(rt: &impl Print, answer: Result<Found, Refusal>) -> io::Result<()> {
    match answer {
        Err(f) => println!(rt; "{f}"),
        Ok(
            Found {
                sense,
                resources,
                bands,
                tasks,
            },
        ) => {
            println!(rt;
                "plan {} {resources} {bands} {tasks}",
                table::sense_number(sense)
            )
        }
    }
}

fn whole() -> [u8; 99] {
    [
        b'P', b'L', 1, 2, 2, 0, b'R', b'S', 7, 0, 0, 0, 4, 0, 0, 0, b'R', b'S', 9, 0, 0, 0, 3, 0,
        0, 0, b'T', b'K', 1, 0, 1, 0, 0, 0, 2, 0, 0, 0, 2, 0, 0, 0, 2, 0, 0, 0, 3, 0, 0, 0, 4, 0,
        0, 0, 0, 0, 0, 0, 1, 0, 0, 0, b'T', b'K', 3, 0, 0, 0, 0, 0, 6, 0, 0, 0, 2, 0, 0, 0, 2, 0,
        0, 0, 2, 0, 0, 0, 8, 0, 0, 0, 0, 0, 0, 0, 4, 0, 0, 0, 0,
    ]
}

// The first n bytes of a file, for lists of so many places, into lists for the largest plan.
fn read_first(
    rt: &impl Print,
    n: usize,
    bytes: &[u8],
    places: Counts,
    resources: &mut [Resource],
    bands: &mut [Band],
    tasks: &mut [Task],
) -> io::Result<()>
    requires { (most_resources ≤ length resources.old) × (most_bands ≤ length bands.old) × (most_tasks ≤ length tasks.old) }
{
    if n <= bytes.len() {
        let answer = file::read_lent(
            &bytes[..n],
            places.resources,
            places.bands,
            places.tasks,
            resources,
            bands,
            tasks,
        );
        show_answer(rt, answer)?;
    }
    Ok(())
}

fn show_lent(
    rt: &impl Print,
    n: usize,
    bytes: &[u8],
    resources: usize,
    bands: usize,
    tasks: usize,
) -> io::Result<()> {
    let places = Counts {
        resources,
        bands,
        tasks,
    };
    read_first(
        rt,
        n,
        bytes,
        places,
        &mut [NO_RESOURCE; MOST_RESOURCES],
        &mut [NO_BAND; MOST_BANDS],
        &mut [NO_TASK; MOST_TASKS],
    )
}

// The same, for lists of three resources and three tasks and of more bands than a plan may have.
fn show_first(rt: &impl Print, n: usize, bytes: &[u8]) -> io::Result<()> {
    show_lent(rt, n, bytes, 3, 100, 3)
}

fn cut(rt: &impl Print, n: usize) -> io::Result<()> {
    let f = whole();
    show_first(rt, n, &f)
}

// The file with one byte changed.
fn changed(rt: &impl Print, at: usize, byte: u8) -> io::Result<()> {
    let mut f = whole();
    if at < 98 {
        f[at] = byte;
        show_first(rt, 98, &f)?;
    }
    Ok(())
}

// 9: each record cut short at its first and its last byte, and where the next should start; then a byte left over.
fn cut_short(rt: &impl Print) -> io::Result<()> {
    for n in [0, 1, 5, 6, 7, 15, 25, 26, 27, 61, 97, 99] {
        cut(rt, n)?;
    }
    Ok(())
}

// 8: marks that are not due, each byte of a mark wrong, a sense above 1; 1, 2 and 9 by the counts.
fn marks_and_counts(rt: &impl Print) -> io::Result<()> {
    for (at, byte) in [
        (0, b'R'),
        (1, b'S'),
        (2, 2),
        (5, 1),
        (3, 0),
        (3, 17),
        (3, 3),
        (3, 1),
        (4, 1),
        (4, 3),
        (7, b'T'),
        (26, b'R'),
        (63, b'L'),
    ] {
        changed(rt, at, byte)?;
    }
    Ok(())
}

// 3 to 6: an identifier twice, limits outside, ranges crossed and outside, an empty set, a resource that is not there.
fn contents(rt: &impl Print) -> io::Result<()> {
    for (at, byte) in [
        (18, 7),
        (15, 128),
        (25, 1),
        (30, 3),
        (69, 255),
        (64, 0),
        (64, 4),
    ] {
        changed(rt, at, byte)?;
    }
    Ok(())
}

// A TK stands where an RS is due, and is cut short too: the mark comes first.
fn mark_before_length(rt: &impl Print) -> io::Result<()> {
    let mut f = whole();
    f[3] = 3;
    show_first(rt, 30, &f)
}

// 11: a list lent with one place too few.
fn lists_short(rt: &impl Print) -> io::Result<()> {
    let f = whole();
    show_lent(rt, 99, &f, 1, 0, 2)?;
    show_lent(rt, 99, &f, 2, 0, 1)
}

fn put(g: &mut [u8], at: usize, byte: u8) {
    if at < g.len() {
        g[at] = byte;
    }
}

// An LB record of limit 3, where zeros stand.
fn put_band(g: &mut [u8], at: usize, place: u8, day: u8)
    requires { at ≤ 878 }
{
    put(g, at, b'L');
    put(g, at + 1, b'B');
    put(g, at + 2, place);
    put(g, at + 4, day);
    put(g, at + 8, 3);
}

// So many bands of resource 1, from days 1, 2 and so on.
fn put_bands(g: &mut [u8], bands: usize)
    requires { bands ≤ 65 }
{
    for k in 0..bands {
        put_band(g, 26 + 12 * k, 1, (k + 1) as u8);
    }
}

// The file with so many bands; with 65 of them it is as long as this, and zeros follow fewer.
fn banded(bands: usize) -> [u8; 878]
    requires { bands ≤ 65 }
{
    let f = whole();
    let mut g = [0u8; 878];
    let tasks = 26 + 12 * bands;
    g[0..26].copy_from_slice(&f[0..26]);
    put_bands(&mut g, bands);
    g[tasks..tasks + 72].copy_from_slice(&f[26..98]);
    g
}

// With two bands the tasks start at 50 and 86, and the file ends at 122.
fn cut_banded(rt: &impl Print, n: usize) -> io::Result<()> {
    let g = banded(2);
    show_first(rt, n, &g)
}

fn changed_banded(rt: &impl Print, at: usize, byte: u8) -> io::Result<()> {
    let mut g = banded(2);
    put(&mut g, at, byte);
    show_first(rt, 122, &g)
}

// A second byte changed too.
fn both_changed(rt: &impl Print, at: usize, byte: u8, also: usize, other: u8) -> io::Result<()> {
    let mut g = banded(2);
    put(&mut g, at, byte);
    put(&mut g, also, other);
    show_first(rt, 122, &g)
}

// 9: a band cut short, from its first byte to its last, and the task that is due behind the bands.
fn bands_cut_short(rt: &impl Print) -> io::Result<()> {
    for n in [26, 27, 28, 37, 38, 39, 49, 50] {
        cut_banded(rt, n)?;
    }
    Ok(())
}

// 8: an LB before the last RS and one among the tasks, a mark that is nearly LB; 9: an LB behind the tasks.
fn bands_misplaced(rt: &impl Print) -> io::Result<()> {
    both_changed(rt, 16, b'L', 17, b'B')?;
    both_changed(rt, 86, b'L', 87, b'B')?;
    changed_banded(rt, 39, b'K')?;
    let mut g = banded(2);
    put_band(&mut g, 122, 1, 9);
    show_first(rt, 134, &g)
}

// 13: the second band at an earlier place, on the same day, on an earlier day; the first of no resource, from a day outside, of a limit
// outside.
fn bands_outside(rt: &impl Print) -> io::Result<()> {
    for (at, byte) in [
        (40, 0),
        (42, 1),
        (42, 0),
        (28, 2),
        (29, 1),
        (32, 2),
        (37, 128),
    ] {
        changed_banded(rt, at, byte)?;
    }
    Ok(())
}

// 13 after 4 and before 5: with a limit outside, with a range crossed.
fn bands_in_order(rt: &impl Print) -> io::Result<()> {
    both_changed(rt, 40, 0, 25, 1)?;
    both_changed(rt, 40, 0, 54, 3)
}

// 64 bands are a plan; a 65th met whole is 13, even where an earlier one is out of order, and 9 cut short.
fn too_many_bands(rt: &impl Print) -> io::Result<()> {
    let g = banded(64);
    show_first(rt, 866, &g)?;
    let mut h = banded(65);
    show_first(rt, 878, &h)?;
    show_first(rt, 806, &h)?;
    show_first(rt, 805, &h)?;
    h[66] = 0;
    show_first(rt, 878, &h)
}

// 11: a band met whole that the lent list has no room for; cut short it is 9, and a 65th is 13 for every list that has room for 64.
fn band_list_short(rt: &impl Print) -> io::Result<()> {
    let g = banded(2);
    show_lent(rt, 122, &g, 2, 2, 2)?;
    show_lent(rt, 122, &g, 2, 1, 2)?;
    show_lent(rt, 50, &g, 2, 1, 2)?;
    show_lent(rt, 49, &g, 2, 1, 2)?;
    let h = banded(65);
    show_lent(rt, 878, &h, 2, 63, 2)?;
    show_lent(rt, 878, &h, 2, 64, 2)
}

// The file with its second resource held: "mark RH in place of RS, same layout".
fn held() -> [u8; 99] {
    let mut f = whole();
    f[17] = b'H';
    f
}

fn cut_held(rt: &impl Print, n: usize) -> io::Result<()> {
    let f = held();
    show_first(rt, n, &f)
}

// The first resource held, and the second. 9: that one cut short, from its first byte to its last, and what is due behind it; 8: a mark that
// is nearly RS and RH.
fn held_resources(rt: &impl Print) -> io::Result<()> {
    changed(rt, 7, b'H')?;
    cut_held(rt, 98)?;
    cut_held(rt, 17)?;
    cut_held(rt, 18)?;
    cut_held(rt, 25)?;
    cut_held(rt, 26)?;
    changed(rt, 17, b'X')
}

// 8: an RH among the bands; where TK is due, whole and cut short; where PL is due.
fn held_misplaced(rt: &impl Print) -> io::Result<()> {
    both_changed(rt, 38, b'R', 39, b'H')?;
    let mut f = whole();
    f[26] = b'R';
    f[27] = b'H';
    show_first(rt, 98, &f)?;
    show_first(rt, 28, &f)?;
    f[0] = b'R';
    f[1] = b'H';
    show_first(rt, 98, &f)
}

// The plan's two resources, so many bands and two tasks into a buffer of n bytes.
fn write_first(
    rt: &impl Print,
    n: usize,
    resources: &[Resource],
    bands: &[Band],
    tasks: &[Task],
    out: &mut [u8],
) -> io::Result<()> {
    if n <= out.len() {
        let answer = file::write(Sense::AtLeast, resources, bands, tasks, &mut out[..n]);
        show_written(rt, answer)?;
    }
    Ok(())
}

// A file of n bytes and so many bands read and written again: 10, into a buffer one byte too short; the same bytes, into one of its length.
fn written(rt: &impl Print, n: usize, bands: usize, f: &[u8], out: &mut [u8]) -> io::Result<()>
    requires { (1 ≤ n) × (bands ≤ most_bands) }
{
    let mut q = [NO_RESOURCE; MOST_RESOURCES];
    let mut b = [NO_BAND; MOST_BANDS];
    let mut s = [NO_TASK; MOST_TASKS];
    let places = Counts {
        resources: 2,
        bands,
        tasks: 2,
    };
    read_first(rt, n, f, places, &mut q, &mut b, &mut s)?;
    write_first(rt, n - 1, &q[..2], &b[..bands], &s[..2], out)?;
    write_first(rt, n, &q[..2], &b[..bands], &s[..2], out)?;
    if *out == *f {
        println!(rt; "same")?;
    }
    Ok(())
}

fn written_again(rt: &impl Print) -> io::Result<()> {
    let f = whole();
    let mut out = [0u8; 99];
    written(rt, 98, 0, &f, &mut out)?;
    let g = banded(2);
    let mut banded_out = [0u8; 878];
    written(rt, 122, 2, &g, &mut banded_out)?;
    let h = held();
    written(rt, 98, 0, &h, &mut out)
}

fn show_written(rt: &impl Print, answer: Result<usize, Refusal>) -> io::Result<()> {
    match answer {
        Err(f) => println!(rt; "{f}"),
        Ok(n) => println!(rt; "written {n}"),
    }
}

fn main(rt: HostRuntime) -> io::Result<()> {
    cut(&rt, 98)?;
    cut_short(&rt)?;
    marks_and_counts(&rt)?;
    contents(&rt)?;
    mark_before_length(&rt)?;
    lists_short(&rt)?;
    cut_banded(&rt, 122)?;
    bands_cut_short(&rt)?;
    bands_misplaced(&rt)?;
    bands_outside(&rt)?;
    bands_in_order(&rt)?;
    too_many_bands(&rt)?;
    band_list_short(&rt)?;
    held_resources(&rt)?;
    held_misplaced(&rt)?;
    written_again(&rt)
}
