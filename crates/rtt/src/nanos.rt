// Instants and spans.
ghost use Rattle.std.specs.Prelude.{◌≡◌};
ghost use Rattle.rtt.specs.Estimate.{apart};

// An instant or a span in nanoseconds: a type of its own, so that no packet number is ever added to one. It has no `Add`: each sum has its
// own reason not to wrap, in the contract of the function that takes it.
#[derive(Clone, Copy, PartialEq, Eq, PartialOrd, Ord)]
pub struct Nanos(pub u64);

impl Nanos {
    // The distance between two spans (Duration::abs_diff).
    pub fn abs_diff(self, other: Nanos) -> Nanos
        ensures { result.0 ≡ apart self.0 other.0 }
    {
        Nanos(self.0.abs_diff(other.0))
    }
}
