// "A reader stands in the lent file bytes and hands out one record after another": it holds the bytes and its place in them.
#![tactic(auto)]

ghost use Rattle.std.specs.Prelude.{◌≡◌, ◌+◌, IfOk, drop};
ghost use Rattle.format.specs.Format.{Layout, marked, size, resources, bands, tasks};
ghost use Rattle.cursor.specs.Handed.{record_at, past_at};
ghost use Rattle.reader.specs.Taking.{headers, taken_at};

use cursor::{Record, not_due};
use format::{Header, Mark};
use plan::{Band, Refusal, Resource, Task};

#[derive(Clone, Copy)]
pub struct Reader<'a> {
    pub file: &'a [u8],
    pub at: usize,
}

impl<'a> Reader<'a> {
    // Before the first record.
    pub fn start(file: &'a [u8]) -> Reader<'a>
        ensures { (result.file ≡ file.entry) × (result.at ≡ 0) }
    {
        Reader { file, at: 0 }
    }

    // The bytes from its place on; past the end there are none.
    fn rest(self) -> &'a [u8]
        ensures { result.now ≡ drop self.entry.at self.entry.file.now }
    {
        &self.file[self.at.min(self.file.len())..]
    }

    // The record it stands at.
    #[tactic(auto, unfolding(cursor::specs::Handed::record_at))]
    #[inline(always)]
    pub fn next(self) -> Record
        ensures { result ≡ record_at self.entry.file.now self.entry.at }
    {
        cursor::handed(self.at, self.rest())
    }

    // The same record, found sooner where it is the one that is due: a run of records asks for one mark, and RH in place of RS is found by `next`. All is
    // laid into the loop that asks: a record that a call of its own leaves in memory is copied there twice (docs/DECISIONS.md, 74).
    #[tactic(auto, unfolding(cursor::specs::Handed::record_at), using(cursor::proofs::Due::handed_due))]
    #[inline(always)]
    pub fn next_due(self, due: Mark) -> Record
        ensures { result ≡ record_at self.entry.file.now self.entry.at }
    {
        if self.stands_before(due) {
            cursor::record_of(due, self.at, self.rest())
        } else {
            self.next()
        }
    }

    // Past the record it stands at, on the same bytes: "one record after another"; where no whole one stands, it stays.
    #[tactic(auto, unfolding(cursor::specs::Handed::past_at))]
    pub fn past(self) -> Reader<'a>
        ensures { (result.file ≡ self.entry.file) × (result.at ≡ past_at self.entry.file.now self.entry.at) }
    {
        match self.next() {
            Record::Plan(_, past)
            | Record::Resource(_, past)
            | Record::Band(_, past)
            | Record::Task(_, past) => Reader { at: past, ..self },
            _ => self,
        }
    }

    // Whether such a mark stands there: how a run without a count is told from what follows it.
    pub fn stands_before(self, k: Mark) -> bool
        ensures { result ≡ marked k (drop self.entry.at self.entry.file.now) }
    {
        cursor::is_marked(k, self.rest())
    }
}

// What a plan holds, each in a record of its own: "each caller takes the record it is due and turns every other answer into the refusal". The reader
// goes past a record that is taken.
pub trait Recorded: Copy {
    ghost layout: { Layout Self };

    fn take(reader: &mut Reader) -> Result<Self, Refusal>
        ensures taken { result ≡ taken_at layout reader.old.file.now reader.old.at }
        ensures past { IfOk result (λ x. reader.new.at ≡ reader.old.at + size layout.due) }
        ensures same_file { reader.new.file ≡ reader.old.file };
}

impl Recorded for Header {
    ghost layout = { headers };

    fn take(reader: &mut Reader) -> Result<Header, Refusal> {
        let got = reader.next_due(Mark::PL);
        let Record::Plan(h, past) = got else {
            return Err(not_due(Mark::PL, reader.at, got));
        };
        reader.at = past;
        Ok(h)
    }
}

impl Recorded for Resource {
    ghost layout = { resources };

    fn take(reader: &mut Reader) -> Result<Resource, Refusal> {
        let got = reader.next_due(Mark::RS);
        let Record::Resource(q, past) = got else {
            return Err(not_due(Mark::RS, reader.at, got));
        };
        reader.at = past;
        Ok(q)
    }
}

impl Recorded for Band {
    ghost layout = { bands };

    fn take(reader: &mut Reader) -> Result<Band, Refusal> {
        let got = reader.next_due(Mark::LB);
        let Record::Band(b, past) = got else {
            return Err(not_due(Mark::LB, reader.at, got));
        };
        reader.at = past;
        Ok(b)
    }
}

impl Recorded for Task {
    ghost layout = { tasks 0 };

    fn take(reader: &mut Reader) -> Result<Task, Refusal> {
        let got = reader.next_due(Mark::TK);
        let Record::Task(t, past) = got else {
            return Err(not_due(Mark::TK, reader.at, got));
        };
        reader.at = past;
        Ok(t)
    }
}
