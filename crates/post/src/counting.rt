// How many symbols bits take. That they are no more than the longest part has is said here of a count alone, so that a
// sum of counts fits.
ghost use Rattle.std.specs.Prelude.{◌≡◌, ◌≤◌};
ghost use Rattle.mode.specs.Modes.{Carried, count as count_of};
ghost use Rattle.delivery.specs.Frames.{header_count as header_count_of};

use frame::HeaderForm;
use mode::Carrier;
use plan::RadioPlan;

// How many symbols n bits take, which the mode carries.
pub fn count<C: Carrier>(mode: &C, n: usize) -> usize
    requires { Carried n }
    ensures value { result ≡ count_of (C.Carrier.mode mode.now) n }
    ensures few { result ≤ 33272 }
{
    let Ok(count) = mode.symbol_count(n) else {
        unreachable()
    };
    count
}

// How many symbols a header takes.
pub fn header_count<P: RadioPlan>(plan: &P) -> usize
    ensures value { result ≡ header_count_of (P.RadioPlan.plan plan.now) }
    ensures few { result ≤ 33272 }
{
    count(&plan.header(), plan.form().bits_count())
}
