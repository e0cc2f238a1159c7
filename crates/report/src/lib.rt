// The planning program's text for a plan file: the file is read into lists of our own, settled, and told in what is lent.
#![tactic(auto)]

ghost use Rattle.std.specs.Prelude.{◌≡◌, Ok, ◌≤◌, length, take};
ghost use Rattle.std.proofs.lemmas.List.Edits.{sets};
ghost use Rattle.plan.specs.declared.Call.TheVariants.{Settle};
ghost use Rattle.plan.specs.Refusals.{accepted};
ghost use Rattle.plan.specs.Tasks.{most_tasks};
ghost use Rattle.rules.specs.Frame.{framed};
ghost use Rattle.rules.specs.Calls.{check, call_of};
ghost use Rattle.text.specs.Text.{most_text};
ghost use Rattle.text.specs.Puts.{Room, Puts};
ghost use Rattle.report.specs.Report.{answer_text, result_text, report_of};

use format::table;
use plan::{
    Band, Call, MOST_BANDS, MOST_RESOURCES, MOST_TASKS, NO_BAND, NO_RESOURCE, NO_TASK, Resource,
    Sense, Task,
};
use profile::{MOST_KEYS, MOST_STRETCHES, Work};
use stretches::NO_STRETCH;
use text::Text;

// "one more than the longest file, so a longer one gets its refusal": what the planning program reads at most.
pub const MOST_READ: usize = table::LONGEST_FILE + 1;

// Room for the longest text.
pub const TEXT_ROOM: usize = 1 << 16;

// The first line, then the tasks'.
fn put_plan(n: u64, tasks: &[Task], text: &mut Text)
    requires { (length tasks.now ≤ most_tasks) × Room text.old most_text }
    ensures { Puts text.old (answer_text (Ok n) tasks.now) most_text text.new }
{
    text.settled(n);
    text.tasks(tasks);
}

// A plan that passed the checks, settled.
fn report_plan(
    sense: Sense,
    resources: &mut [Resource],
    bands: &mut [Band],
    tasks: &mut [Task],
    text: &mut Text,
)
    requires { (check (framed sense resources.old bands.old) tasks.old ≡ accepted) × Room text.old most_text }
    ensures { Puts text.old (result_text (call_of Settle (framed sense resources.old bands.old) tasks.old)) most_text text.new }
{
    let mut keys = [0; MOST_KEYS];
    let mut stretches = [NO_STRETCH; MOST_STRETCHES];
    let mut work = Work {
        keys: &mut keys,
        stretches: &mut stretches,
    };
    match engine::apply(Call::Settle, sense, resources, bands, tasks, &mut work) {
        Ok(n) => put_plan(n, tasks, text),
        Err(f) => text.refused(f),
    }
}

// The file is read into lists of our own; a refusal's line stands for it, or its plan is settled and told.
fn put_report(file: &[u8], text: &mut Text)
    requires { Room text.old most_text }
    ensures { Puts text.old (report_of file.now) most_text text.new }
{
    let mut resources = [NO_RESOURCE; MOST_RESOURCES];
    let mut bands = [NO_BAND; MOST_BANDS];
    let mut tasks = [NO_TASK; MOST_TASKS];
    match file::read_lent(
        file,
        MOST_RESOURCES,
        MOST_BANDS,
        MOST_TASKS,
        &mut resources,
        &mut bands,
        &mut tasks,
    ) {
        Ok(found) => report_plan(
            found.sense,
            &mut resources[..found.resources],
            &mut bands[..found.bands],
            &mut tasks[..found.tasks],
            text,
        ),
        Err(f) => text.refused(f),
    }
}

// The text stands at the start of `out`, the rest of it is as it was, and the answer is the text's length; `within` is what `&out[..r]` asks
// of a caller.
pub fn report(file: &[u8], out: &mut [u8]) -> usize
    requires { most_text ≤ length out.old }
    ensures text { out.new ≡ sets out.old 0 (report_of file.now) }
    ensures count { result ≡ length (report_of file.now) }
    ensures within { (result ≤ length out.new) × (result ≡ length (take result out.new)) }
{
    let mut text = Text::start(out);
    put_report(file, &mut text);
    text.len
}
