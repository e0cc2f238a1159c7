// The nouns of a plan: days and powers, their ranges, tasks, resources and sets of them, bands, the sense, and every answer a call can give.
// "A day number is never added to a power, so the two get separate kinds in the code."
#![tactic(auto)]

ghost use Rattle.std.specs.Prelude.{◌≡◌, ◌<◌, ◌+ℤ◌, ◌-ℤ◌, neg_ℤ, nat_abs, ◌≤ℤ◌, ℤ};
ghost use Rattle.std.specs.Int.{w64};
ghost use Rattle.std.proofs.Common.{SFits};
ghost use Rattle.integers.specs.Hull.{range, fits};
ghost use Rattle.plan.specs.Days.{day, day_ends, duration_ends, span_of, cut_below, cut_above, cut_to, empty_span};
ghost use Rattle.plan.specs.Powers.{power, power_ends, power_span_of, negated_power, negated_powers};
ghost use Rattle.plan.specs.Refusals.{number, place};
ghost use Rattle.plan.specs.Sets.{set_bits, has, only, at_most_one, without, size, lowest, next};
ghost use Rattle.plan.specs.Tasks.{most_tasks, most_resources, most_bands};

use std::error::Error;
use std::fmt;
use std::ops::{Add, Neg, Sub};

// "1 to 16 resources", "up to 64 bands", "0 to 256 tasks".
pub const MOST_RESOURCES: usize = 16;

pub const MOST_BANDS: usize = 64;

pub const MOST_TASKS: usize = 256;

// A day number, or a number of days.
#[derive(Clone, Copy, PartialEq, Eq, PartialOrd, Ord)]
pub struct Day(pub i64);

// "origin, end (day number) from -100,000 to 100,000"; "duration from 0 to 10,000".
impl Day {
    pub const LOW: Day = Day(-100_000);

    pub const HIGH: Day = Day(100_000);

    pub const SHORTEST: Day = Day(0);

    pub const LONGEST: Day = Day(10_000);

    // The ends that the definitions name are these constants.
    pub fn ends() -> Span<Day>
        ensures constants { (result.low.0 ≡ Day.LOW.0) × (result.high.0 ≡ Day.HIGH.0) }
        ensures named { result ≡ span_of day_ends }
    {
        Span {
            low: Day::LOW,
            high: Day::HIGH,
        }
    }

    pub fn lengths() -> Span<Day>
        ensures constants { (result.low.0 ≡ Day.SHORTEST.0) × (result.high.0 ≡ Day.LONGEST.0) }
        ensures named { result ≡ span_of duration_ends }
    {
        Span {
            low: Day::SHORTEST,
            high: Day::LONGEST,
        }
    }
}

impl Add for Day {
    type Output = Day;

    ghost can_add = { λ a b. SFits w64 (a.0 +ℤ b.0) };

    ghost add_gives = { λ a b r. r ≡ day (a.0 +ℤ b.0) };

    fn add(self, o: Day) -> Day {
        Day(self.0 + o.0)
    }
}

impl Sub for Day {
    type Output = Day;

    ghost can_sub = { λ a b. SFits w64 (a.0 -ℤ b.0) };

    ghost sub_gives = { λ a b r. r ≡ day (a.0 -ℤ b.0) };

    fn sub(self, o: Day) -> Day {
        Day(self.0 - o.0)
    }
}

// A power: a height, a limit or a sum of heights.
#[derive(Clone, Copy, PartialEq, Eq, PartialOrd, Ord)]
pub struct Power(pub i64);

// "height, limit from -1,000,000 to 1,000,000"
impl Power {
    pub const LOW: Power = Power(-1_000_000);

    pub const HIGH: Power = Power(1_000_000);

    // The ends that the definitions name are these constants.
    pub fn ends() -> Span<Power>
        ensures constants { (result.low.0 ≡ Power.LOW.0) × (result.high.0 ≡ Power.HIGH.0) }
        ensures named { result ≡ power_span_of power_ends }
    {
        Span {
            low: Power::LOW,
            high: Power::HIGH,
        }
    }
}

impl Add for Power {
    type Output = Power;

    ghost can_add = { λ a b. SFits w64 (a.0 +ℤ b.0) };

    ghost add_gives = { λ a b r. r ≡ power (a.0 +ℤ b.0) };

    fn add(self, o: Power) -> Power {
        Power(self.0 + o.0)
    }
}

impl Sub for Power {
    type Output = Power;

    ghost can_sub = { λ a b. SFits w64 (a.0 -ℤ b.0) };

    ghost sub_gives = { λ a b r. r ≡ power (a.0 -ℤ b.0) };

    fn sub(self, o: Power) -> Power {
        Power(self.0 - o.0)
    }
}

impl Neg for Power {
    type Output = Power;

    ghost can_neg = { λ a. SFits w64 (neg_ℤ a.0) };

    ghost neg_gives = { λ a r. r ≡ negated_power a };

    fn neg(self) -> Power {
        Power(-self.0)
    }
}

// What days and powers have in common: each is a number, and a range of them is told by its two ends.
pub trait Number: Copy {
    ghost number: { Self → ℤ };

    ghost numbered: { ℤ → Self };

    fn number(self) -> i64
        ensures { result ≡ number self };

    fn numbered(x: i64) -> Self
        ensures { result ≡ numbered x };

    // How far this lies above the least: a number that is not below 0.
    fn above(self, least: Self) -> u64
        requires { number least ≤ℤ number self }
        ensures { result ≡ nat_abs (number self -ℤ number least) }
    {
        self.number().abs_diff(least.number())
    }
}

impl Number for Day {
    ghost number = { λ d. d.0 };

    ghost numbered = { day };

    fn number(self) -> i64 {
        self.0
    }

    fn numbered(x: i64) -> Day {
        Day(x)
    }
}

impl Number for Power {
    ghost number = { λ p. p.0 };

    ghost numbered = { power };

    fn number(self) -> i64 {
        self.0
    }

    fn numbered(x: i64) -> Power {
        Power(x)
    }
}

// A range of days or of powers: "a lowest and highest value (inclusive, lowest not above highest)".
#[derive(Clone, Copy, PartialEq, Eq)]
pub struct Span<T> {
    pub low: T,
    pub high: T,
}

impl<T: Number> Span<T> {
    // "a task's range is outside its ends, or low above high"
    #[tactic(auto, unfolding(integers::specs::Hull::fits))]
    pub fn fits(self, ends: Span<T>) -> bool
        ensures { result ≡ fits (range (T.number ends.low) (T.number ends.high)) (range (T.number self.low) (T.number self.high)) }
    {
        let low = self.low.number();
        let high = self.high.number();
        ends.low.number() <= low && (low <= high && high <= ends.high.number())
    }
}

impl Span<Day> {
    pub fn is_empty(self) -> bool
        ensures { result ≡ empty_span self }
    {
        self.high < self.low
    }

    #[tactic(auto, unfolding(crate::specs::Days::cut_below))]
    pub fn cut_below(self, d: Day) -> Span<Day>
        ensures { result ≡ cut_below d.0 self }
    {
        Span {
            low: self.low.max(d),
            ..self
        }
    }

    #[tactic(auto, unfolding(crate::specs::Days::cut_above))]
    pub fn cut_above(self, d: Day) -> Span<Day>
        ensures { result ≡ cut_above d.0 self }
    {
        Span {
            high: self.high.min(d),
            ..self
        }
    }

    #[tactic(auto, unfolding(crate::specs::Days::cut_to))]
    pub fn cut_to(self, low: Day, high: Day) -> Span<Day>
        ensures { result ≡ cut_to low.0 high.0 self }
    {
        self.cut_below(low).cut_above(high)
    }
}

// "every height and limit negated and each height's two ends swapped": exact at both ends of the symmetric range
impl Neg for Span<Power> {
    type Output = Span<Power>;

    ghost can_neg = { λ s. SFits w64 (neg_ℤ s.low.0) × SFits w64 (neg_ℤ s.high.0) };

    ghost neg_gives = { λ s r. r ≡ negated_powers s };

    #[tactic(auto, unfolding(crate::specs::Powers::negated_powers))]
    fn neg(self) -> Span<Power> {
        Span {
            low: -self.high,
            high: -self.low,
        }
    }
}

// "Each has a non-empty set of resources it may be placed on, and a lowest and highest value (inclusive, lowest not above highest) for origin,
// duration, end and height."
#[derive(Clone, Copy, PartialEq, Eq)]
pub struct Task {
    pub set: u64,
    pub origin: Span<Day>,
    pub duration: Span<Day>,
    pub end: Span<Day>,
    pub height: Span<Power>,
}

// "A resource gets a kind, plain or held": on a held one the limit must hold between the tasks too.
#[derive(Clone, Copy, PartialEq, Eq)]
pub enum Kind {
    Plain,
    Held,
}

// "Each has an identifier (any signed 32-bit number, each different) and a limit"; and a kind.
#[derive(Clone, Copy, PartialEq, Eq)]
pub struct Resource {
    pub id: i32,
    pub kind: Kind,
    pub limit: Power,
}

// "resource place (2 bytes), first day (4), limit (4)": from that day on the resource at that place has this limit.
#[derive(Clone, Copy, PartialEq, Eq)]
pub struct Band {
    pub place: usize,
    pub from: Day,
    pub limit: Power,
}

// "A sense for the whole plan: 0 at most, 1 at least."
#[derive(Clone, Copy, PartialEq, Eq)]
pub enum Sense {
    AtMost,
    AtLeast,
}

// The most that a plan counts; the definitions name these constants.
#[derive(Clone, Copy)]
pub struct Counts {
    pub resources: usize,
    pub bands: usize,
    pub tasks: usize,
}

pub fn most_counts() -> Counts
    ensures constants { (result.resources ≡ MOST_RESOURCES) × (result.bands ≡ MOST_BANDS) × (result.tasks ≡ MOST_TASKS) }
    ensures named { (result.resources ≡ most_resources) × (result.bands ≡ most_bands) × (result.tasks ≡ most_tasks) }
{
    Counts {
        resources: MOST_RESOURCES,
        bands: MOST_BANDS,
        tasks: MOST_TASKS,
    }
}

// The values of a task, in the order in which they are taken when one has run out.
#[derive(Clone, Copy, PartialEq, Eq)]
pub enum Value {
    Origin,
    Duration,
    End,
    Height,
    Set,
}

// "Numbered refusals", in the order of their numbers; what a case holds is its place.
#[derive(Clone, Copy, Debug, PartialEq, Eq)]
pub enum Refusal {
    TooManyTasks,
    ResourceCount,
    RepeatedIdentifier(usize),
    LimitOutside(usize),
    RangeOutside(usize),
    SetOutside(usize),
    NoPlan,
    WrongMark(usize),
    CutShort(usize),
    BufferShort,
    ListShort,
    NoSuchResource,
    BandOutside(usize),
}

impl Refusal {
    // the page's number
    pub fn number(self) -> u64
        ensures { result ≡ number self }
    {
        match self {
            Refusal::TooManyTasks => 1,
            Refusal::ResourceCount => 2,
            Refusal::RepeatedIdentifier(_) => 3,
            Refusal::LimitOutside(_) => 4,
            Refusal::RangeOutside(_) => 5,
            Refusal::SetOutside(_) => 6,
            Refusal::NoPlan => 7,
            Refusal::WrongMark(_) => 8,
            Refusal::CutShort(_) => 9,
            Refusal::BufferShort => 10,
            Refusal::ListShort => 11,
            Refusal::NoSuchResource => 12,
            Refusal::BandOutside(_) => 13,
        }
    }

    // the page's place
    pub fn place(self) -> usize
        ensures { result ≡ place self }
    {
        match self {
            Refusal::RepeatedIdentifier(k)
            | Refusal::LimitOutside(k)
            | Refusal::RangeOutside(k)
            | Refusal::SetOutside(k)
            | Refusal::WrongMark(k)
            | Refusal::CutShort(k)
            | Refusal::BandOutside(k) => k,
            _ => 0,
        }
    }
}

// The line of a refusal: its number and its place.
impl fmt::Display for Refusal {
    fn fmt<W: fmt::Write>(&self, f: &mut fmt::Formatter<W>) -> fmt::Result {
        write!(f, "refused {} {}", self.number(), self.place())
    }
}

impl Error for Refusal {}

// What a caller can ask for. Each call answers how many passes settling made, or how many it makes at most (0 for every other call, and where the passes
// that settling may make were too few); or one refusal.
#[derive(Clone, Copy, PartialEq, Eq)]
pub enum Call {
    Check,
    Balance,
    Step(usize),
    Pass,
    Settle,
    // settling, with at most so many passes
    Within(u64),
    // how many passes settling makes at most
    MostPasses,
}

// What stands in an array where no task, resource or band has been put.
const NO_DAYS: Span<Day> = Span {
    low: Day(0),
    high: Day(0),
};

pub const NO_TASK: Task = Task {
    set: 0,
    origin: NO_DAYS,
    duration: NO_DAYS,
    end: NO_DAYS,
    height: Span {
        low: Power(0),
        high: Power(0),
    },
};

pub const NO_RESOURCE: Resource = Resource {
    id: 0,
    kind: Kind::Plain,
    limit: Power(0),
};

pub const NO_BAND: Band = Band {
    place: 0,
    from: Day(0),
    limit: Power(0),
};

// A set of resources is a number of so many bits: bit k is resource k.
pub const SET_BITS: u64 = 64;

pub fn has_resource(set: u64, k: u64) -> bool
    requires { k < set_bits }
    ensures { result ≡ has set k }
{
    (set >> k) % 2 == 1
}

// By the one set that it can be: to count the ones and trailing zeros of the set takes more instructions (docs/DECISIONS.md, 63).
pub fn only_resource(set: u64, k: u64) -> bool
    requires { k < set_bits }
    ensures { result ≡ only set k }
{
    set == 1 << k
}

// How many resources a set has.
pub fn set_size(set: u64) -> u64
    ensures { result ≡ size set_bits set }
{
    u64::count_ones(set) as u64
}

// Whether one resource is left, or none. The count alone would say so of the empty set too: the test for it stands here because with it a step, which
// asks this in its loops, is compiled as well as with `set & (set - 1) == 0` (docs/DECISIONS.md, 64).
pub fn at_most_one(set: u64) -> bool
    ensures { result ≡ at_most_one set }
{
    if set == 0 {
        return true;
    }
    u64::count_ones(set) < 2
}

// The first resource of a set, in list order: which one it is, where one is left. SET_BITS where none is.
pub fn lowest_resource(set: u64) -> u64
    ensures { result ≡ lowest set_bits set }
{
    u64::trailing_zeros(set) as u64
}

// The next resource of a set after k, in list order; SET_BITS where none is left. Shifted by k and by 1, since k + 1 may be SET_BITS.
pub fn next_resource(set: u64, k: u64) -> u64
    requires { k < set_bits }
    ensures { result ≡ next set_bits set k }
{
    lowest_resource(set >> k >> 1 << 1 << k)
}

pub fn without_resource(set: u64, k: u64) -> u64
    requires { k < set_bits }
    ensures { result ≡ without set k }
{
    if has_resource(set, k) {
        set - (1 << k)
    } else {
        set
    }
}
