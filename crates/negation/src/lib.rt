// A plan at most as the steps work on it, at least: its lists negated on entry, and back.
#![tactic(auto)]

ghost use Rattle.std.specs.Prelude.{◌≡◌, map};
ghost use Rattle.integers.specs.Ends.{Within};
ghost use Rattle.integers.specs.Lists.{Each};
ghost use Rattle.plan.specs.declared.Sense.TheVariants.{AtLeast};
ghost use Rattle.plan.specs.Powers.{power_ends};
ghost use Rattle.plan.specs.Refusals.{accepted};
ghost use Rattle.plan.specs.Tasks.{Bounded};
ghost use Rattle.rules.specs.Frame.{framed};
ghost use Rattle.rules.specs.Step.{negated};
ghost use Rattle.rules.specs.Calls.{check};
ghost use Rattle.rules.specs.Negation.{negated_resource, negated_band};
ghost use Rattle.negation.specs.Senses.{tasks_for, resources_for, bands_for};

use plan::{Band, Resource, Sense, Task};

// What is the same plan's at least, of a plan at most, and back.
trait Negated: Copy {
    ghost can: { Self → Type 0 };

    ghost gives: { Self → Self };

    fn negated(self) -> Self
        requires { can self }
        ensures { result ≡ gives self };
}

impl Negated for Task {
    ghost can = { Bounded };

    ghost gives = { negated };

    #[tactic(auto, unfolding(rules::specs::Step::negated))]
    fn negated(self) -> Task {
        Task {
            height: -self.height,
            ..self
        }
    }
}

impl Negated for Resource {
    ghost can = { λ q. Within power_ends q.limit.0 };

    ghost gives = { negated_resource };

    #[tactic(auto, unfolding(rules::specs::Negation::negated_resource))]
    fn negated(self) -> Resource {
        Resource {
            limit: -self.limit,
            ..self
        }
    }
}

impl Negated for Band {
    ghost can = { λ b. Within power_ends b.limit.0 };

    ghost gives = { negated_band };

    #[tactic(auto, unfolding(rules::specs::Negation::negated_band))]
    fn negated(self) -> Band {
        Band {
            limit: -self.limit,
            ..self
        }
    }
}

fn negate_all<T: Negated>(list: &mut [T])
    requires { Each T.can list.old }
    ensures { list.new ≡ map T.gives list.old }
{
    for x in list.iter_mut() {
        *x = x.negated();
    }
}

// At most: every height and limit negated, those of bands too. At least: nothing to do.
#[tactic(auto, using(crate::proofs::Ready::limits_ready, crate::proofs::Ready::bands_ready, crate::proofs::Ready::heights_ready))]
pub fn negate_for(sense: Sense, resources: &mut [Resource], bands: &mut [Band], tasks: &mut [Task])
    requires { check (framed AtLeast resources.old bands.old) tasks.old ≡ accepted }
    ensures resources { resources.new ≡ resources_for sense resources.old }
    ensures bands { bands.new ≡ bands_for sense bands.old }
    ensures tasks { tasks.new ≡ tasks_for sense tasks.old }
{
    if sense == Sense::AtMost {
        negate_all(resources);
        negate_all(bands);
        negate_all(tasks);
    }
}
