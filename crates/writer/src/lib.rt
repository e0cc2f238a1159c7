// A plan's bytes, stored record after record, and whether a buffer has room for them.
#![tactic(auto)]

ghost use Rattle.std.specs.Prelude.{◌≡◌, refl, ◌+◌, ◌*◌, ◌≤◌, length};
ghost use Rattle.std.proofs.lemmas.List.Edits.{sets};
ghost use Rattle.integers.specs.Lists.{Each};
ghost use Rattle.plan.specs.Refusals.{accepted};
ghost use Rattle.plan.specs.Tasks.{most_resources, most_bands, most_tasks};
ghost use Rattle.rules.specs.Frame.{framed};
ghost use Rattle.rules.specs.Calls.{check};
ghost use Rattle.format.specs.declared.Mark.{Mark};
ghost use Rattle.format.specs.declared.Mark.TheVariants.{PL, RS, LB, TK};
ghost use Rattle.format.specs.Format.{Layout, mark, mark_size, size, record_bytes, header_numbers, resources, bands, tasks, file_length};
ghost use Rattle.format.specs.Writing.{records_bytes, Even, written, laid, Limited, BandSmall, TaskSmall, room_for};
ghost use Rattle.format.proofs.Records.{length_one};
ghost use Rattle.format.proofs.Layouts.{resources_lawful, bands_lawful, tasks_lawful};

use format::fields::{put_one, put_signed, put_span, put_two};
use format::{Header, Mark, table};
use plan::{Band, Refusal, Resource, Sense, Task};

// 10: "output buffer shorter than the file", of so many resources, bands and tasks. Every call that writes a file asks here.
#[tactic(auto, unfolding(format::specs::Writing::room_for))]
pub fn room_for(resources: usize, bands: usize, tasks: usize, out: usize) -> Result<(), Refusal>
    requires { (resources ≤ most_resources) × (bands ≤ most_bands) × (tasks ≤ most_tasks) }
    ensures { result ≡ room_for (file_length resources bands tasks) out }
{
    if out < table::file_length(resources, bands, tasks) {
        return Err(Refusal::BufferShort);
    }
    Ok(())
}

#[tactic(auto, using(format::proofs::Stores::mid_stored, format::proofs::Stores::length_mark))]
fn put_mark(out: &mut [u8], at: usize, k: Mark)
    requires { at + mark_size ≤ length out.old }
    ensures { out.new ≡ sets out.old at (mark k) }
{
    out[at..at + table::MARK_SIZE].copy_from_slice(&k.bytes());
}

#[tactic(auto, using(format::proofs::Stores::record_stored), unfolding(format::specs::Format::header_numbers))]
fn put_header(out: &mut [u8], h: Header)
    requires { (size PL ≤ length out.old) × (h.resources ≤ most_resources) × (h.tasks ≤ most_tasks) }
    ensures { out.new ≡ sets out.old 0 (record_bytes PL (header_numbers h)) }
{
    put_mark(out, 0, Mark::PL);
    put_one(out, table::SENSE, u32::from(h.sense));
    put_one(out, table::RESOURCE_COUNT, h.resources as u32);
    put_two(out, table::TASK_COUNT, h.tasks as u32);
}

// What stands in a file record after record: how it is laid out, what its fields hold of it, and the mark that is due where one is read.
trait Stored: Copy {
    ghost layout: { Layout Self };

    ghost Small: { Self → Type 0 };

    ghost DUE: { Mark };

    const DUE: Mark;

    fn put(self, out: &mut [u8], at: usize)
        requires { (at + size layout.due ≤ length out.old) × Small self }
        ensures { out.new ≡ sets out.old at (record_bytes (layout.mark self) (layout.numbers self)) };

    ghost due: { DUE ≡ layout.due };

    ghost even: { Even layout };
}

impl Stored for Resource {
    ghost layout = { resources };

    ghost Small = { Limited };

    ghost DUE = { RS };

    const DUE: Mark = Mark::RS;

    #[tactic(auto, using(crate::proofs::Resources::either_stored), unfolding(format::specs::Format::resource_numbers))]
    fn put(self, out: &mut [u8], at: usize) {
        put_mark(out, at, Mark::from(self.kind));
        put_signed(out, at + table::IDENTIFIER, i64::from(self.id));
        put_signed(out, at + table::LIMIT, self.limit.0);
    }

    ghost due = { refl };

    ghost even = { length_one resources_lawful };
}

impl Stored for Band {
    ghost layout = { bands };

    ghost Small = { BandSmall };

    ghost DUE = { LB };

    const DUE: Mark = Mark::LB;

    #[tactic(auto, using(format::proofs::Stores::record_stored), unfolding(format::specs::Format::band_numbers))]
    fn put(self, out: &mut [u8], at: usize) {
        put_mark(out, at, Mark::LB);
        put_two(out, at + table::BAND_PLACE, self.place as u32);
        put_signed(out, at + table::BAND_FROM, self.from.0);
        put_signed(out, at + table::BAND_LIMIT, self.limit.0);
    }

    ghost due = { refl };

    ghost even = { length_one bands_lawful };
}

impl Stored for Task {
    ghost layout = { tasks 0 };

    ghost Small = { TaskSmall };

    ghost DUE = { TK };

    const DUE: Mark = Mark::TK;

    #[tactic(auto, using(format::proofs::Stores::record_stored), unfolding(format::specs::Format::task_numbers))]
    fn put(self, out: &mut [u8], at: usize) {
        put_mark(out, at, Mark::TK);
        put_two(out, at + table::SET, self.set as u32);
        put_span(out, at + table::ORIGIN, self.origin);
        put_span(out, at + table::DURATION, self.duration);
        put_span(out, at + table::END, self.end);
        put_span(out, at + table::HEIGHT, self.height);
    }

    ghost due = { refl };

    ghost even = { length_one (tasks_lawful 0) };
}

// The records of a list, one after another from a place on.
fn put_records<R: Stored>(out: &mut [u8], from: usize, list: &[R])
    requires { (from + length list.now * size R.layout.due ≤ length out.old) × Each R.Small list.now }
    ensures { out.new ≡ sets out.old from (records_bytes R.layout list.now) }
{
    let size = R::DUE.size();
    let mut at = from;
    for x in list {
        x.put(out, at);
        at += size;
    }
}

// The bytes of a plan that passes the checks, into a buffer that has room for them.
pub fn put_plan(
    sense: Sense,
    resources: &[Resource],
    bands: &[Band],
    tasks: &[Task],
    out: &mut [u8],
)
    requires accepted { check (framed sense resources.now bands.now) tasks.now ≡ accepted }
    requires room { room_for (file_length (length resources.now) (length bands.now) (length tasks.now)) (length out.old) ≡ accepted }
    ensures { out.new ≡ laid (written (framed sense resources.now bands.now) tasks.now) out.old }
{
    let header = Header {
        sense: table::sense_number(sense),
        resources: resources.len(),
        tasks: tasks.len(),
    };
    put_header(out, header);
    put_records(out, table::PL_SIZE, resources);
    put_records(out, table::bands_from(resources.len()), bands);
    put_records(out, table::tasks_from(resources.len(), bands.len()), tasks);
}
