// The parts of a heard list, read one after the other.
ghost use Rattle.std.specs.Prelude.{◌≡◌, ◌+◌, ◌*◌, ◌<◌, ◌≤◌, length};
ghost use Rattle.mode.specs.declared.fault.HearFault.TheVariants.{Part};
ghost use Rattle.mode.specs.Parts.{There};
ghost use Rattle.frame.specs.declared.fault.ReadHeaderFault.TheVariants.{Form};
ghost use Rattle.delivery.specs.Plans.{legal};
ghost use Rattle.delivery.specs.Frames.{header_count as header_count_of};
ghost use Rattle.post.specs.Heard.{NoCall, NoBadRead, HeaderReads, PayloadReads};

use delivery::{HeaderFault, PayloadFault};
use frame::{FormFault, Header, HeaderForm, ReadHeaderFault, unscramble};
use mode::{Carrier, HearFault, MAX_BITS, PartFault};
use plan::RadioPlan;

// What is at fault in a part, where the call was not a bad one.
fn part_fault(fault: HearFault) -> PartFault
    requires { NoCall fault }
    ensures { fault ≡ Part result }
{
    match fault {
        HearFault::Part(fault) => fault,
        HearFault::Call(_) => unreachable(),
    }
}

// What is at fault in a header's bits, where the call was not a bad one. A trait over both kinds of fault would be longer
// than this second function.
fn form_fault(fault: ReadHeaderFault) -> FormFault
    requires { NoBadRead fault }
    ensures { fault ≡ Form result }
{
    match fault {
        ReadHeaderFault::Form(fault) => fault,
        ReadHeaderFault::Call(_) => unreachable(),
    }
}

// For each of the rates 0 to 3, whether the plan has a mode.
fn legal_rates<P: RadioPlan>(plan: &P) -> [bool; 4]
    ensures { result ≡ legal (P.RadioPlan.plan plan.now) }
{
    [0, 1, 2, 3].map(|rate| plan.payload(rate).is_some())
}

// Reads the header of a list, with the count of its spoilt bits.
pub fn read_header<P: RadioPlan>(plan: &P, list: &[u8]) -> Result<(Header, usize), HeaderFault>
    requires { 1 + header_count_of (P.RadioPlan.plan plan.now) ≤ length list.now }
    ensures { HeaderReads (P.RadioPlan.plan plan.now) list.now result }
{
    let form = plan.form();
    // there is no heap
    let mut buffer = [0; MAX_BITS];
    let bits = &mut buffer[..form.bits_count()];
    let spoilt = plan.header().hear(list, 0, bits).map_err(part_fault)?;
    let header = form.read(bits, &legal_rates(plan)).map_err(form_fault)?;
    Ok((header, spoilt))
}

// Reads the payload of a list after index `at`, and answers the count of its spoilt bits.
pub fn read_payload<C: Carrier>(
    mode: &C,
    seed: u8,
    list: &[u8],
    at: usize,
    psdu: &mut [u8],
) -> Result<usize, PayloadFault>
    requires seed { seed < 2 }
    requires there { There (C.Carrier.mode mode.now) list.now at (8 * length psdu.old) }
    ensures { PayloadReads (C.Carrier.mode mode.now) seed list.now at psdu.old psdu.new result }
{
    // there is no heap
    let mut buffer = [0; MAX_BITS];
    let bits = &mut buffer[..8 * psdu.len()];
    let spoilt = mode.hear(list, at, bits).map_err(part_fault)?;
    let Ok(_) = unscramble(seed, bits, psdu) else {
        unreachable()
    };
    Ok(spoilt)
}
