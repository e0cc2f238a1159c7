// Which resources' steps would change nothing: the lively tasks and where they may stand; and the laws of the mask, which saves steps and is no
// part of any answer.
#![tactic(auto)]

ghost use Rattle.std.specs.Prelude.{◌≡◌, false};
ghost use Rattle.idle.specs.Lively.{lively};
ghost use Rattle.idle.specs.Mask.{lively_places};

use plan::Task;

// What steps have done so far, where a plan is left: whether something changed, and which resources may still change something.
#[derive(Clone, Copy)]
pub struct Passed {
    pub changed: bool,
    pub mask: u64,
}

// Each resource may change something.
pub const EVERY_PLACE: u64 = u64::MAX;

impl Passed {
    // No step is taken yet.
    pub const NONE: Passed = Passed {
        changed: false,
        mask: EVERY_PLACE,
    };
}

// Whether the task can be sure, hold a day or be touched by a bar: it has a day on which it is under way wherever it starts, or one resource only.
#[tactic(auto, unfolding(crate::specs::Lively::lively))]
pub fn is_lively(t: Task) -> bool
    ensures { result ≡ lively t }
{
    t.origin.high < t.end.low || plan::at_most_one(t.set)
}

// The resources of the lively tasks: at first no other can change anything.
#[tactic(auto, unfolding(crate::specs::Mask::lively_places, plan::specs::Sets::union))]
pub fn lively_places(tasks: &[Task]) -> u64
    ensures { result ≡ lively_places 0 tasks.now }
{
    tasks
        .iter()
        .copied()
        .filter(|t| is_lively(*t))
        .fold(0, |mask, t| mask | t.set)
}
