// The planning program's lines, put one behind another into what is lent. They are put by hand: `write!` goes through a Formatter that may write
// anywhere, no contract shows that the write succeeds, and so no byte of it could be proved.
#![tactic(auto)]

ghost use Rattle.std.specs.Prelude.{◌≡◌, [], ◌∷◌, ◌++◌, ◌+◌, ◌*◌, ◌≤◌, ◌<◌, length};
ghost use Rattle.integers.specs.Hull.{range};
ghost use Rattle.text.specs.Text.{digit_of, last_digits, most_digits, digits, signed, space, range_text, task_line, task_lines, settled_line, refused_line, Put, most_signed, most_range, most_task_line, most_settled_line, most_refused_line};
ghost use Rattle.text.specs.Puts.{Room, Puts};

use plan::{Number, Refusal, Span, Task};

// Every number of 64 bits has at most so many.
const MOST_DIGITS: usize = 20;

fn digit(n: u64) -> u8
    requires { n < 10 }
    ensures { result ≡ digit_of n }
{
    b'0' + n as u8
}

// What is lent, and how much of it holds text: each method puts its own text behind that.
#[derive(Drop)]
pub struct Text<'a> {
    pub out: &'a mut [u8],
    pub len: usize,
}

impl<'a> Text<'a> {
    // No text yet.
    pub fn start(out: &'a mut [u8]) -> Text<'a>
        ensures same { result.out.ghost_name ≡ out.entry.ghost_name }
        ensures empty { (result.out.now ≡ out.old) × (result.len ≡ 0) }
    {
        Text { out, len: 0 }
    }

    fn byte(&mut self, b: u8)
        requires { Room self.old 1 }
        ensures { Puts self.old (b ∷ []) 1 self.new }
    {
        self.out[self.len] = b;
        self.len += 1;
    }

    // The highest digit first: those before the last are put before it.
    fn last_digits(&mut self, most: usize, n: u64)
        requires { Room self.old most }
        ensures { Puts self.old (last_digits most n) most self.new }
    {
        if most == 0 {
            return;
        }
        if n < 10 {
            self.byte(digit(n));
            return;
        }
        self.last_digits(most - 1, n / 10);
        self.byte(digit(n % 10));
    }

    fn digits(&mut self, n: u64)
        requires { Room self.old most_digits }
        ensures { Puts self.old (digits n) most_digits self.new }
    {
        self.last_digits(MOST_DIGITS, n);
    }

    fn signed(&mut self, x: i64)
        requires { Room self.old most_signed }
        ensures { Puts self.old (signed x) most_signed self.new }
    {
        if x < 0 {
            self.byte(b'-');
        }
        self.digits(x.unsigned_abs());
    }

    fn spaced(&mut self, x: i64)
        requires { Room self.old (1 + most_signed) }
        ensures { Puts self.old (space ++ signed x) (1 + most_signed) self.new }
    {
        self.byte(b' ');
        self.signed(x);
    }

    // Low, then high.
    fn span<T: Number>(&mut self, s: Span<T>)
        requires { Room self.old most_range }
        ensures { Puts self.old (range_text (range (T.number s.low) (T.number s.high))) most_range self.new }
    {
        self.spaced(s.low.number());
        self.spaced(s.high.number());
    }

    fn task(&mut self, i: usize, t: Task)
        requires { Room self.old most_task_line }
        ensures { Puts self.old (task_line i t) most_task_line self.new }
    {
        self.digits(i as u64);
        self.byte(b' ');
        self.digits(t.set);
        self.span(t.origin);
        self.span(t.duration);
        self.span(t.end);
        self.span(t.height);
        self.byte(b'\n');
    }

    // A line for each task, one after another.
    pub fn tasks(&mut self, tasks: &[Task])
        requires { Room self.old (length tasks.now * most_task_line) }
        ensures { Puts self.old (task_lines 0 tasks.now) (length tasks.now * most_task_line) self.new }
    {
        for (i, t) in tasks.iter().enumerate() {
            self.task(i, *t);
        }
    }

    #[tactic(auto, using(format::proofs::Stores::mid_stored))]
    fn word(&mut self, word: &[u8])
        requires { Room self.old (length word.now) }
        ensures { Puts self.old word.now (length word.now) self.new }
    {
        let past = self.len + word.len();
        self.out[self.len..past].copy_from_slice(word);
        self.len = past;
    }

    // The first line of a settled plan: its pass count.
    pub fn settled(&mut self, n: u64)
        requires { Room self.old most_settled_line }
        ensures { Puts self.old (settled_line n) most_settled_line self.new }
    {
        self.word(b"settled ");
        self.digits(n);
        self.byte(b'\n');
    }

    // The one line of a refusal: its number and its place.
    pub fn refused(&mut self, f: Refusal)
        requires { Room self.old most_refused_line }
        ensures { Puts self.old (refused_line f) most_refused_line self.new }
    {
        self.word(b"refused ");
        self.digits(f.number());
        self.byte(b' ');
        self.digits(f.place() as u64);
        self.byte(b'\n');
    }
}

// The lines by themselves, and the place past them: of tasks from a place on, the others from the first.
pub fn put_tasks(out: &mut [u8], from: usize, tasks: &[Task]) -> usize
    requires { from + length tasks.now * most_task_line ≤ length out.old }
    ensures { Put out.old from (task_lines 0 tasks.now) (length tasks.now * most_task_line) out.new result }
{
    let mut text = Text { out, len: from };
    text.tasks(tasks);
    text.len
}

pub fn put_settled(out: &mut [u8], n: u64) -> usize
    requires { most_settled_line ≤ length out.old }
    ensures { Put out.old 0 (settled_line n) most_settled_line out.new result }
{
    let mut text = Text::start(out);
    text.settled(n);
    text.len
}

pub fn put_refused(out: &mut [u8], f: Refusal) -> usize
    requires { most_refused_line ≤ length out.old }
    ensures { Put out.old 0 (refused_line f) most_refused_line out.new result }
{
    let mut text = Text::start(out);
    text.refused(f);
    text.len
}
