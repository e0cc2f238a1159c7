// The record at a place of the lent file bytes, told from the bytes from that place on.
#![tactic(auto)]

ghost use Rattle.std.specs.Prelude.{◌≡◌, ◌+◌, ◌≤◌, ◌<◌, ◌^◌, length};
ghost use Rattle.std.specs.List.{find};
ghost use Rattle.format.specs.declared.Mark.TheVariants.{PL, RS, LB, TK};
ghost use Rattle.format.specs.Format.{marked, size, numbers_in, header_from, resource_from, band_from, task_from};
ghost use Rattle.cursor.specs.Handed.{record_of, handed, stands_for, not_due};

use format::fields::{cell_at, id_at, one_at, span_at, two_at};
use format::{Header, Mark, table};
use plan::{Band, Day, Kind, Power, Refusal, Resource, Task};

// What stands at a place: a whole record with the place past it, a record that is longer than the rest, two bytes that are no mark, or fewer than
// two bytes.
#[derive(Clone, Copy)]
pub enum Record {
    Plan(Header, usize),
    Resource(Resource, usize),
    Band(Band, usize),
    Task(Task, usize),
    CutShort(Mark),
    NoMark,
    Ended,
}

// The five marks, in the order in which one is looked for.
const MARKS: [Mark; 5] = [Mark::PL, Mark::RS, Mark::RH, Mark::LB, Mark::TK];

// What each record holds, where the bytes begin with it; a resource's kind is told by its mark.
#[tactic(auto, unfolding(format::specs::Format::header_from), using(format::proofs::Records::numbers_placed))]
fn header_of(b: &[u8]) -> Header
    requires { size PL ≤ length b.now }
    ensures { result ≡ header_from (numbers_in PL b.now) }
{
    Header {
        sense: one_at(b, table::SENSE) as u8,
        resources: one_at(b, table::RESOURCE_COUNT) as usize,
        tasks: two_at(b, table::TASK_COUNT) as usize,
    }
}

#[tactic(auto, unfolding(format::specs::Format::resource_from), using(format::proofs::Records::numbers_placed, integers::proofs::Z::back))]
fn resource_of(k: Mark, b: &[u8]) -> Resource
    requires { size RS ≤ length b.now }
    ensures { result ≡ resource_from k (numbers_in RS b.now) }
{
    Resource {
        id: id_at(b, table::IDENTIFIER),
        limit: Power(cell_at(b, table::LIMIT)),
        kind: Kind::from(k),
    }
}

#[tactic(auto, unfolding(format::specs::Format::band_from), using(format::proofs::Records::numbers_placed, integers::proofs::Z::back))]
fn band_of(b: &[u8]) -> Band
    requires { size LB ≤ length b.now }
    ensures { result ≡ band_from (numbers_in LB b.now) }
{
    Band {
        place: two_at(b, table::BAND_PLACE) as usize,
        from: Day(cell_at(b, table::BAND_FROM)),
        limit: Power(cell_at(b, table::BAND_LIMIT)),
    }
}

#[tactic(auto, unfolding(format::specs::Format::task_from), using(format::proofs::Records::numbers_placed))]
fn task_of(b: &[u8]) -> Task
    requires { size TK ≤ length b.now }
    ensures { result ≡ task_from (numbers_in TK b.now) }
{
    Task {
        set: two_at(b, table::SET) as u64,
        origin: span_at(b, table::ORIGIN),
        duration: span_at(b, table::DURATION),
        end: span_at(b, table::END),
        height: span_at(b, table::HEIGHT),
    }
}

// Whether the bytes begin with the mark, in both of its bytes.
#[tactic(auto, unfolding(format::specs::Format::marked))]
pub fn is_marked(k: Mark, b: &[u8]) -> bool
    ensures { result ≡ marked k b.now }
{
    let [first, second] = k.bytes();
    table::MARK_SIZE <= b.len() && b[0] == first && b[1] == second
}

// The record that a mark announces, with the place past it, unless it is longer than the rest.
#[tactic(auto, unfolding(format::specs::Format::numbers_in))]
#[inline(always)]
pub fn record_of(k: Mark, at: usize, b: &[u8]) -> Record
    requires { at + length b.now < 2 ^ 64 }
    ensures { result ≡ record_of k at b.now }
{
    let size = k.size();
    if b.len() < size {
        return Record::CutShort(k);
    }
    match k {
        Mark::PL => Record::Plan(header_of(b), at + size),
        Mark::RS | Mark::RH => Record::Resource(resource_of(k, b), at + size),
        Mark::LB => Record::Band(band_of(b), at + size),
        Mark::TK => Record::Task(task_of(b), at + size),
    }
}

// The first of these marks that stands there, if any does.
#[inline(always)]
fn first_marked(marks: &[Mark], b: &[u8]) -> Option<Mark>
    ensures { result ≡ find (λ k. marked k b.now) marks.now }
{
    marks.iter().copied().find(|k| is_marked(*k, b))
}

// What stands in the bytes from the place `at` on.
#[tactic(auto, unfolding(crate::specs::Handed::handed, crate::specs::Handed::standing), using(crate::proofs::Due::handed_first))]
#[inline(always)]
pub fn handed(at: usize, b: &[u8]) -> Record
    requires { at + length b.now < 2 ^ 64 }
    ensures { result ≡ handed at b.now }
{
    if b.len() < table::MARK_SIZE {
        return Record::Ended;
    }
    match first_marked(&MARKS, b) {
        Some(k) => record_of(k, at, b),
        None => Record::NoMark,
    }
}

// Whether a mark that stands where another is due is that one, or the one in its place.
#[tactic(auto, using(crate::proofs::Due::stands_either))]
fn stands_for(j: Mark, k: Mark) -> bool
    ensures { result ≡ stands_for j k }
{
    j == k.in_place() || j == k
}

// "turns every other answer into the refusal": the place is where the record starts.
pub fn not_due(k: Mark, at: usize, got: Record) -> Refusal
    ensures { result ≡ not_due k at got }
{
    match got {
        Record::Ended => Refusal::CutShort(at),
        Record::CutShort(j) if stands_for(j, k) => Refusal::CutShort(at),
        _ => Refusal::WrongMark(at),
    }
}
