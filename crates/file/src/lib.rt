// A plan file read into lists of resources, bands and tasks, the reader's records in the order that they are due, and written from them.
#![tactic(auto)]

ghost use Rattle.std.specs.Prelude.{◌≡◌, ◌≤◌, length};
ghost use Rattle.plan.specs.Tasks.{most_resources, most_bands, most_tasks};
ghost use Rattle.rules.specs.Frame.{framed};
ghost use Rattle.format.specs.Reading.{header_due, lists_due, read_header, read_body, read_after, read_lent, header_plan, read_through, RunWithin, answer_plan, AnswerWithin};
ghost use Rattle.format.specs.Writing.{write_result, write_call};

use format::{Found, Header, table};
use plan::{Band, MOST_BANDS, MOST_RESOURCES, MOST_TASKS, Refusal, Resource, Sense, Task};
use reader::{Reader, Recorded};

// "In PL then, in this order": the sense, the task count, the resource count.
#[tactic(auto, unfolding(format::specs::Reading::header_due))]
fn check_header(h: Header) -> Result<(), Refusal>
    ensures { result ≡ header_due h }
{
    if 1 < h.sense {
        return Err(Refusal::WrongMark(0));
    }
    if MOST_TASKS < h.tasks {
        return Err(Refusal::TooManyTasks);
    }
    if h.resources == 0 || MOST_RESOURCES < h.resources {
        return Err(Refusal::ResourceCount);
    }
    Ok(())
}

// The PL record, read once and handed on.
#[tactic(auto, unfolding(format::specs::Reading::read_header))]
pub fn read_header(file: &[u8]) -> Result<Header, Refusal>
    ensures { result ≡ read_header file.now }
{
    let mut reader = Reader::start(file);
    let h = Header::take(&mut reader)?;
    check_header(h)?;
    Ok(h)
}

// All RS or RH, all LB, all TK; "After the last record, leftover bytes 9". The answer is how many bands there are.
fn read_body(
    file: &[u8],
    h: Header,
    resources: &mut [Resource],
    bands: &mut [Band],
    tasks: &mut [Task],
) -> Result<usize, Refusal>
    requires { (h.resources ≤ length resources.old) × (h.tasks ≤ length tasks.old) }
    ensures read { read_through result (header_plan h resources.new bands.new tasks.new) ≡ read_body (length bands.old) h file.now }
    ensures run_within { RunWithin result (length bands.new) }
{
    let mut reader = Reader {
        file,
        at: table::PL_SIZE,
    };
    runs::read_run(&mut reader, &mut resources[..h.resources])?;
    let k = runs::read_bands(&mut reader, bands)?;
    runs::read_run(&mut reader, &mut tasks[..h.tasks])?;
    if reader.at < file.len() {
        return Err(Refusal::CutShort(reader.at));
    }
    Ok(k)
}

// The rest of a file, into lists with places for all that its header counts and for some bands; "then 3 to 6", 13 among them.
#[tactic(auto, unfolding(format::specs::Reading::read_after))]
pub fn read_rest(
    file: &[u8],
    h: Header,
    resources: &mut [Resource],
    bands: &mut [Band],
    tasks: &mut [Task],
) -> Result<usize, Refusal>
    requires { (h.resources ≤ length resources.old) × (h.tasks ≤ length tasks.old) }
    ensures read { read_through result (header_plan h resources.new bands.new tasks.new) ≡ read_after (length bands.old) h file.now }
    ensures run_within { RunWithin result (length bands.new) }
{
    let k = read_body(file, h, resources, bands, tasks)?;
    entry::check(&resources[..h.resources], &bands[..k], &tasks[..h.tasks])?;
    Ok(k)
}

// 11: "a list lent to the reader is shorter than the file's count".
#[tactic(auto, unfolding(format::specs::Reading::lists_due))]
fn check_lists(h: Header, places: usize, room: usize) -> Result<(), Refusal>
    ensures { result ≡ lists_due places room h }
{
    if places < h.resources || room < h.tasks {
        return Err(Refusal::ListShort);
    }
    Ok(())
}

// The plan of a file for lent lists of so many places, into lists of our own that hold every count that is not refused: nothing lent is
// touched before the file is known to be whole. Places for every band that is not a 65th are as good as more.
#[tactic(auto, unfolding(format::specs::Reading::read_lent))]
pub fn read_lent(
    file: &[u8],
    places: usize,
    band_room: usize,
    room: usize,
    resources: &mut [Resource],
    bands: &mut [Band],
    tasks: &mut [Task],
) -> Result<Found, Refusal>
    requires { (most_resources ≤ length resources.old) × (most_bands ≤ length bands.old) × (most_tasks ≤ length tasks.old) }
    ensures read { answer_plan result resources.new bands.new tasks.new ≡ read_lent places band_room room file.now }
    ensures answer_within { AnswerWithin result (length resources.new) (length bands.new) (length tasks.new) }
{
    let h = read_header(file)?;
    check_lists(h, places, room)?;
    let most = band_room.min(MOST_BANDS);
    let k = read_rest(file, h, resources, &mut bands[..most], tasks)?;
    Ok(Found {
        sense: table::sense_from(h.sense),
        resources: h.resources,
        bands: k,
        tasks: h.tasks,
    })
}

// 1 to 6 and 13, then 10.
#[tactic(auto, unfolding(format::specs::Writing::write_call))]
pub fn write(
    sense: Sense,
    resources: &[Resource],
    bands: &[Band],
    tasks: &[Task],
    out: &mut [u8],
) -> Result<usize, Refusal>
    ensures { write_result result out.new ≡ write_call (framed sense resources.now bands.now) tasks.now out.old }
{
    entry::check(resources, bands, tasks)?;
    writer::room_for(resources.len(), bands.len(), tasks.len(), out.len())?;
    writer::put_plan(sense, resources, bands, tasks, out);
    Ok(table::file_length(resources.len(), bands.len(), tasks.len()))
}
