ghost use Rattle.std.specs.Prelude.{◌≡◌, ◌%◌, if◌then◌else◌, nat_eq};
ghost use Rattle.delivery.specs.Plans.{Plan, Lawful};
ghost use Rattle.std.specs.Option.{option_map};

use frame::HeaderForm;
use mode::carrier::Carrier;

// A radio's plan. Its ghost member is the plan as a value of the specs, and the law says that it is lawful.
pub trait RadioPlan: Copy {
    // what carries headers and payloads
    type Mode: Carrier;

    type Form: HeaderForm;

    ghost plan: { Self → Plan };

    fn last_channel(&self) -> u32
        ensures { result ≡ (plan self.now).last };

    fn header(&self) -> Self::Mode
        ensures { Self.Mode.Carrier.mode result ≡ (plan self.now).header };

    fn form(&self) -> Self::Form
        ensures { Self.Form.HeaderForm.form ≡ (plan self.now).form };

    // The symbol before the first of a preamble.
    fn start(&self) -> u8
        ensures { result ≡ (plan self.now).start };

    // The preamble's bits on a channel.
    fn preamble(&self, channel: u32) -> [u8; 90]
        ensures { result ≡ (if nat_eq (channel % 2) 0 then (plan self.now).even else (plan self.now).odd) };

    // The mode of a payload of this rate, unless the rate is reserved.
    fn payload(&self, rate: u32) -> Option<Self::Mode>
        ensures { (plan self.now).rate rate ≡ option_map Self.Mode.Carrier.mode result };

    ghost lawful: { (p : Self) → Lawful (plan p) };
}
