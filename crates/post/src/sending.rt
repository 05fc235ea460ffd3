// The parts of a frame, written one after the other. That the symbol before a part is one of the mapping's stays a clause
// of each: a type of such symbols would be another for every mapping.
ghost use Rattle.std.specs.Prelude.{◌≡◌, ◌*◌, ◌<◌, length};
ghost use Rattle.bits.specs.Strings.{Bits};
ghost use Rattle.frame.specs.Headers.{InRange, header as header_of};
ghost use Rattle.frame.specs.Answers.{fields_of};
ghost use Rattle.frame.specs.Scrambler.{scrambled};
ghost use Rattle.mode.specs.Modes.{Carried, stepped, sent, count as count_of};
ghost use Rattle.delivery.specs.Frames.{header_count as header_count_of, symbols as symbols_of};
ghost use Rattle.post.specs.Parts.{frame_of, Writable};

use crate::counting::header_count;
use frame::{Header, HeaderForm, scramble};
use mode::{Carrier, MAX_BITS};
use plan::RadioPlan;

// Writes the symbols of a preamble, one for each bit. It steps by the carrier, whose mapping a plan does not show, so it
// is no case of a part's steps in `mode`.
fn write_preamble<C: Carrier>(mode: &C, start: u8, bits: &[u8], symbols: &mut [u8])
    requires one { (C.Carrier.mode mode.now).map.w ≡ 1 }
    requires known { start < (C.Carrier.mode mode.now).map.q }
    requires valid { Bits (length symbols.old) bits.now }
    ensures { symbols.new ≡ stepped (C.Carrier.mode mode.now).map (length symbols.old) start bits.now }
{
    let mut last = start;
    // With bit i: after `zip` with `iter_mut` nothing is known of what is written.
    for (i, symbol) in symbols.iter_mut().enumerate() {
        let Ok(next) = mode.step(last, &[bits[i]]) else {
            unreachable()
        };
        *symbol = next;
        last = next;
    }
}

// Writes the symbols of a header after the prior symbol.
fn write_header<P: RadioPlan>(plan: &P, header: &Header, prior: u8, symbols: &mut [u8])
    requires ranges { InRange (P.RadioPlan.plan plan.now).form (fields_of header.now) }
    requires known { prior < (P.RadioPlan.plan plan.now).header.map.q }
    requires room { length symbols.old ≡ header_count_of (P.RadioPlan.plan plan.now) }
    ensures { symbols.new ≡ sent (P.RadioPlan.plan plan.now).header prior (header_of (P.RadioPlan.plan plan.now).form (fields_of header.now)) }
{
    let form = plan.form();
    // there is no heap
    let mut buffer = [0; MAX_BITS];
    let bits = &mut buffer[..form.bits_count()];
    let Ok(_) = form.write(header, bits) else {
        unreachable()
    };
    let Ok(_) = plan.header().send(prior, bits, symbols) else {
        unreachable()
    };
}

// Writes the symbols of a payload after the prior symbol.
fn write_payload<C: Carrier>(mode: &C, seed: u8, psdu: &[u8], prior: u8, symbols: &mut [u8])
    requires seed { seed < 2 }
    requires size { Carried (8 * length psdu.now) }
    requires known { prior < (C.Carrier.mode mode.now).map.q }
    requires room { length symbols.old ≡ count_of (C.Carrier.mode mode.now) (8 * length psdu.now) }
    ensures { symbols.new ≡ sent (C.Carrier.mode mode.now) prior (scrambled seed psdu.now) }
{
    // there is no heap
    let mut buffer = [0; MAX_BITS];
    let bits = &mut buffer[..8 * psdu.len()];
    let Ok(_) = scramble(seed, psdu, bits) else {
        unreachable()
    };
    let Ok(_) = mode.send(prior, bits, symbols) else {
        unreachable()
    };
}

// Writes a frame on a channel of the plan, its payload by this mode.
pub fn write_frame<P: RadioPlan>(
    plan: &P,
    channel: u32,
    mode: &P::Mode,
    header: &Header,
    psdu: &[u8],
    symbols: &mut [u8],
)
    requires { Writable (P.RadioPlan.plan plan.now) (P.Mode.Carrier.mode mode.now) header.now psdu.now (length symbols.old) }
    ensures { symbols.new ≡ symbols_of (P.RadioPlan.plan plan.now) channel (frame_of header.now psdu.now) }
{
    let head = 90 + header_count(plan);
    let (front, back) = symbols.split_at_mut(head);
    let (first, second) = front.split_at_mut(90);
    let preamble = plan.preamble(channel);
    write_preamble(&plan.header(), plan.start(), &preamble, first);
    write_header(plan, header, first[89], second);
    write_payload(mode, header.seed, psdu, front[head - 1], back);
}
