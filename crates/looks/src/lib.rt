// What is asked of a plan file in memory without an output: whether it is a plan that passes the entry checks, and how many passes settling it makes at
// most.
#![tactic(auto)]

ghost use Rattle.std.specs.Prelude.{◌≡◌, ◌≤◌, length};
ghost use Rattle.plan.specs.Tasks.{most_tasks};
ghost use Rattle.format.specs.Reading.{read_plan};
ghost use Rattle.answers.specs.Outcomes.{file_checked, most_outcome};
ghost use Rattle.looks.specs.Looked.{TasksRead};

use plan::{MOST_BANDS, MOST_RESOURCES, MOST_TASKS, NO_BAND, NO_RESOURCE, NO_TASK, Refusal, Task};

// The tasks of a plan file that passes the entry checks, read into the first places of a list: how many there are.
#[tactic(auto, unfolding(format::specs::Reading::read_plan))]
fn read_tasks(file: &[u8], tasks: &mut [Task]) -> Result<usize, Refusal>
    requires { most_tasks ≤ length tasks.old }
    ensures { TasksRead (read_plan file.now) result tasks.new }
{
    let mut resources = [NO_RESOURCE; MOST_RESOURCES];
    let mut bands = [NO_BAND; MOST_BANDS];
    let h = file::read_header(file)?;
    file::read_rest(file, h, &mut resources, &mut bands, tasks)?;
    Ok(h.tasks)
}

// Whether a file is a plan that passes the entry checks.
pub fn check_file(file: &[u8]) -> Result<(), Refusal>
    ensures { result ≡ file_checked file.now }
{
    let mut tasks = [NO_TASK; MOST_TASKS];
    read_tasks(file, &mut tasks)?;
    Ok(())
}

// How many passes settling the plan of a file makes at most.
pub fn most_passes(file: &[u8]) -> Result<u64, Refusal>
    ensures { result ≡ most_outcome file.now }
{
    let mut tasks = [NO_TASK; MOST_TASKS];
    let n = read_tasks(file, &mut tasks)?;
    Ok(bound::most_passes(&tasks[..n]))
}
