// Calls on a plan file in memory that write: what the functions for other languages do.
#![tactic(auto)]

ghost use Rattle.std.specs.Prelude.{◌≡◌, false, ◌+◌, ◌≤◌, length};
ghost use Rattle.plan.specs.Tasks.{most_resources, most_bands, most_tasks};
ghost use Rattle.rules.specs.Frame.{framed};
ghost use Rattle.profile.specs.Lent.{Lent};
ghost use Rattle.passes.specs.Ready.{Ready};
ghost use Rattle.held.specs.Held.{room_if};
ghost use Rattle.format.specs.Format.{file_length};
ghost use Rattle.answers.specs.Files.{answer_number, file_result, lent_due, plan_call, plan_file, file_call};
ghost use Rattle.answers.specs.Outcomes.{file_outcome};
ghost use Rattle.calls.specs.Lists.{Counted, banded_in, held_in, fills_lists, asks_more, HeaderAnswered};

use events::EVENTS_A_TASK;
use format::{Header, Mark, table};
use held::HELD_EVENTS;
use plan::{
    Band, Call, MOST_BANDS, MOST_RESOURCES, MOST_TASKS, NO_BAND, NO_RESOURCE, NO_TASK, Refusal,
    Resource, Sense, Task,
};
use profile::{MOST_KEYS, MOST_STRETCHES, Work};
use reader::Reader;
use stretches::NO_STRETCH;

// 12 for a place, 10 for an output shorter than the file.
#[tactic(auto, unfolding(answers::specs::Files::lent_due))]
fn check_lent(
    c: Call,
    resources: usize,
    bands: usize,
    tasks: usize,
    out: usize,
) -> Result<(), Refusal>
    requires { (resources ≤ most_resources) × (bands ≤ most_bands) × (tasks ≤ most_tasks) }
    ensures { result ≡ lent_due c resources (file_length resources bands tasks) out }
{
    if !engine::is_placed(c, resources) {
        return Err(Refusal::NoSuchResource);
    }
    writer::room_for(resources, bands, tasks, out)
}

// A call on a plan that passed the checks.
#[tactic(auto, using(format::proofs::Files::length_written), unfolding(answers::specs::Files::plan_call))]
fn apply_to_plan(
    c: Call,
    sense: Sense,
    resources: &mut [Resource],
    bands: &mut [Band],
    tasks: &mut [Task],
    work: &mut Work,
    out: &mut [u8],
) -> Result<u64, Refusal>
    requires { Ready resources.old bands.old tasks.old work.old }
    ensures answered { file_result (answer_number result) out.new ≡ plan_file c (framed sense resources.old bands.old) tasks.old out.old }
    ensures outcome { result ≡ (plan_call c (framed sense resources.old bands.old) tasks.old out.old).answer }
{
    check_lent(c, resources.len(), bands.len(), tasks.len(), out.len())?;
    let done = engine::apply(c, sense, resources, bands, tasks, work)?;
    writer::put_plan(sense, resources, bands, tasks, out);
    Ok(done)
}

// A call on a plan file whose header was read, in lists for what it counts and for so many bands. One function for arrays of every size.
#[inline(never)]
fn apply_in(
    c: Call,
    file: &[u8],
    h: Header,
    resources: &mut [Resource],
    bands: &mut [Band],
    tasks: &mut [Task],
    work: &mut Work,
    out: &mut [u8],
) -> Result<u64, Refusal>
    requires counted { (h.resources ≤ length resources.old) × (h.tasks ≤ length tasks.old) }
    requires lent { Lent h.tasks (room_if (held_in h.resources file.now) + length bands.old) (length work.old.keys.now) (length work.old.stretches.now) }
    ensures { HeaderAnswered c (length bands.old) h file.now out.old result out.new }
{
    let k = file::read_rest(file, h, resources, bands, tasks)?;
    apply_to_plan(
        c,
        table::sense_from(h.sense),
        &mut resources[..h.resources],
        &mut bands[..k],
        &mut tasks[..h.tasks],
        work,
        out,
    )
}

// The same in arrays of so many places. Clearing arrays that a small plan never uses would be most of its time, and so would be arrays for bands in a
// plan that has none; and each call touches its whole frame, page by page: those of some 64 KB stay out of the frame of every smaller call.
#[inline(never)]
fn apply_sized<const TASKS: usize, const BANDS: usize, const KEYS: usize, const STRETCHES: usize>(
    c: Call,
    file: &[u8],
    h: Header,
    out: &mut [u8],
) -> Result<u64, Refusal>
    requires small { (TASKS ≤ most_tasks) × (BANDS ≤ most_bands) × (KEYS ≤ MOST_KEYS) × (STRETCHES ≤ MOST_STRETCHES) }
    requires counted { Counted h TASKS }
    requires lent { Lent h.tasks (room_if (held_in h.resources file.now) + BANDS) KEYS STRETCHES }
    ensures { HeaderAnswered c BANDS h file.now out.old result out.new }
{
    let mut resources = [NO_RESOURCE; MOST_RESOURCES];
    let mut bands = [NO_BAND; BANDS];
    let mut tasks = [NO_TASK; TASKS];
    let mut keys = [0; KEYS];
    let mut stretches = [NO_STRETCH; STRETCHES];
    let mut work = Work {
        keys: &mut keys,
        stretches: &mut stretches,
    };
    apply_in(
        c,
        file,
        h,
        &mut resources,
        &mut bands,
        &mut tasks,
        &mut work,
        out,
    )
}

// ---- the sizes: tasks; keys for their events, a stretch up to each event and one behind the last

pub const SMALL: usize = 16;

pub const SMALL_KEYS: usize = SMALL * EVENTS_A_TASK;

pub const SMALL_STRETCHES: usize = SMALL_KEYS + 1;

pub const MIDDLE: usize = 64;

pub const MIDDLE_KEYS: usize = MIDDLE * EVENTS_A_TASK;

pub const MIDDLE_STRETCHES: usize = MIDDLE_KEYS + 1;

pub const WIDE: usize = 128;

pub const WIDE_KEYS: usize = WIDE * EVENTS_A_TASK;

pub const WIDE_STRETCHES: usize = WIDE_KEYS + 1;

pub const LARGE_KEYS: usize = MOST_TASKS * EVENTS_A_TASK + HELD_EVENTS;

pub const LARGE_STRETCHES: usize = LARGE_KEYS + 1;

// With room for bands and for a held resource's span; the largest are those that profile names.
pub const BANDED_SMALL_KEYS: usize = SMALL_KEYS + HELD_EVENTS + MOST_BANDS;

pub const BANDED_SMALL_STRETCHES: usize = BANDED_SMALL_KEYS + 1;

pub const BANDED_MIDDLE_KEYS: usize = MIDDLE_KEYS + HELD_EVENTS + MOST_BANDS;

pub const BANDED_MIDDLE_STRETCHES: usize = BANDED_MIDDLE_KEYS + 1;

// Arrays with places for bands, as the header asks.
#[tactic(auto, using(held::proofs::Room::room_most))]
fn apply_banded(c: Call, file: &[u8], h: Header, out: &mut [u8]) -> Result<u64, Refusal>
    requires { Counted h most_tasks }
    ensures { HeaderAnswered c most_bands h file.now out.old result out.new }
{
    if h.tasks <= SMALL {
        return apply_sized::<SMALL, MOST_BANDS, BANDED_SMALL_KEYS, BANDED_SMALL_STRETCHES>(
            c, file, h, out,
        );
    }
    if h.tasks <= MIDDLE {
        return apply_sized::<MIDDLE, MOST_BANDS, BANDED_MIDDLE_KEYS, BANDED_MIDDLE_STRETCHES>(
            c, file, h, out,
        );
    }
    apply_sized::<MOST_TASKS, MOST_BANDS, MOST_KEYS, MOST_STRETCHES>(c, file, h, out)
}

// Arrays without, where room for the events of the tasks is enough.
fn apply_bare(c: Call, file: &[u8], h: Header, out: &mut [u8]) -> Result<u64, Refusal>
    requires { Counted h most_tasks × (asks_more h file.now ≡ false) }
    ensures { HeaderAnswered c 0 h file.now out.old result out.new }
{
    if h.tasks <= SMALL {
        return apply_sized::<SMALL, 0, SMALL_KEYS, SMALL_STRETCHES>(c, file, h, out);
    }
    if h.tasks <= MIDDLE {
        return apply_sized::<MIDDLE, 0, MIDDLE_KEYS, MIDDLE_STRETCHES>(c, file, h, out);
    }
    if h.tasks <= WIDE {
        return apply_sized::<WIDE, 0, WIDE_KEYS, WIDE_STRETCHES>(c, file, h, out);
    }
    apply_sized::<MOST_TASKS, 0, LARGE_KEYS, LARGE_STRETCHES>(c, file, h, out)
}

// Whether a band follows so many resources.
#[tactic(auto, unfolding(crate::specs::Lists::banded_in))]
fn has_bands(file: &[u8], resources: usize) -> bool
    requires { resources ≤ most_resources }
    ensures { result ≡ banded_in resources file.now }
{
    let past = Reader {
        file,
        at: table::bands_from(resources),
    };
    past.stands_before(Mark::LB)
}

// Whether one of so many resources is held.
#[tactic(auto, using(crate::proofs::Files::held_all, crate::proofs::Files::held_here, crate::proofs::Files::held_none))]
fn has_held(file: &[u8], resources: usize) -> bool
    requires { resources ≤ most_resources }
    ensures { result ≡ held_in resources file.now }
{
    for k in 0..resources {
        let next = Reader {
            file,
            at: table::bands_from(k),
        };
        if next.stands_before(Mark::RH) {
            return true;
        }
    }
    false
}

// Whether so many tasks fill the arrays that are lent for them.
#[tactic(auto, unfolding(crate::specs::Lists::fills_lists))]
fn fills_lists(tasks: usize) -> bool
    ensures { result ≡ fills_lists tasks }
{
    tasks == SMALL || (tasks == MIDDLE || tasks == WIDE)
}

// Whether room for the events of the tasks is not enough: for bands, or, where the tasks fill their arrays, for a held resource's span.
#[tactic(auto, unfolding(crate::specs::Lists::asks_more))]
fn asks_more(file: &[u8], h: Header) -> bool
    requires { h.resources ≤ most_resources }
    ensures { result ≡ asks_more h file.now }
{
    has_bands(file, h.resources) || fills_lists(h.tasks) && has_held(file, h.resources)
}

// ---- the calls

// A call on a plan file.
#[tactic(auto, using(crate::proofs::Files::bare_same), unfolding(answers::specs::Files::file_call, format::specs::Reading::read_plan))]
pub fn apply_to_file(c: Call, file: &[u8], out: &mut [u8]) -> Result<u64, Refusal>
    ensures answered { file_result (answer_number result) out.new ≡ file_call c file.now out.old }
    ensures outcome { result ≡ file_outcome c file.now out.old }
{
    let h = file::read_header(file)?;
    if asks_more(file, h) {
        return apply_banded(c, file, h, out);
    }
    apply_bare(c, file, h, out)
}
