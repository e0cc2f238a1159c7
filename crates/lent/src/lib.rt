// A plan file read into lent lists of records, and lent lists written into a lent buffer.
#![tactic(auto)]

ghost use Rattle.std.specs.Prelude.{◌≡◌, ◌≤◌, ◌++◌, length, drop};
ghost use Rattle.rules.specs.Frame.{framed};
ghost use Rattle.format.specs.Reading.{read_result, read_call};
ghost use Rattle.format.specs.Writing.{write_result, write_call};

use format::Found;
use plan::{
    Band, MOST_BANDS, MOST_RESOURCES, MOST_TASKS, NO_BAND, NO_RESOURCE, NO_TASK, Refusal, Resource,
    Sense, Task,
};

// "the writer writes exactly the file's length"
pub fn write(
    sense: Sense,
    resources: &[Resource],
    bands: &[Band],
    tasks: &[Task],
    out: &mut [u8],
) -> Result<usize, Refusal>
    ensures { write_result result out.new ≡ write_call (framed sense resources.now bands.now) tasks.now out.old }
{
    file::write(sense, resources, bands, tasks, out)
}

// "On success the reader writes the first places only and later ones stay."
pub fn store<T: Copy>(list: &mut [T], first: &[T])
    requires { length first.now ≤ length list.old }
    ensures { list.new ≡ first.now ++ drop (length first.now) list.old }
{
    list[..first.len()].copy_from_slice(first);
}

// The plan of a file: read into arrays of our own, since "on each refusal, task lists and buffers keep their entry contents".
#[tactic(auto, unfolding(format::specs::Reading::read_call))]
pub fn read(
    file: &[u8],
    resources: &mut [Resource],
    bands: &mut [Band],
    tasks: &mut [Task],
) -> Result<Found, Refusal>
    ensures { read_result result resources.new bands.new tasks.new ≡ read_call file.now resources.old bands.old tasks.old }
{
    let mut first_resources = [NO_RESOURCE; MOST_RESOURCES];
    let mut first_bands = [NO_BAND; MOST_BANDS];
    let mut first_tasks = [NO_TASK; MOST_TASKS];
    let found = file::read_lent(
        file,
        resources.len(),
        bands.len(),
        tasks.len(),
        &mut first_resources,
        &mut first_bands,
        &mut first_tasks,
    )?;
    store(resources, &first_resources[..found.resources]);
    store(bands, &first_bands[..found.bands]);
    store(tasks, &first_tasks[..found.tasks]);
    Ok(found)
}
