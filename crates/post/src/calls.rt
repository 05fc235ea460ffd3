ghost use Rattle.std.specs.Prelude.{◌≡◌, Ok, Err, MatchResult};
ghost use Rattle.delivery.specs.Calls.{Opens, Retunes, Sends, Hears};
ghost use Rattle.delivery.specs.Delivery.{Delivery};
ghost use Rattle.post.specs.Parts.{state_of};

use crate::counting::{count, header_count};
use crate::hearing::{read_header, read_payload};
use crate::post::Post;
use crate::sending::write_frame;
use delivery::{Delivered, Fault, PayloadFault};
use frame::Header;
use plan::RadioPlan;

impl<P: RadioPlan> Post<P> {
    // Opens a post on a channel of its plan. The delivery theorem holds of every post of the plan.
    pub fn open(plan: P, channel: u32) -> Result<Post<P>, Fault>
        ensures opens { MatchResult result (λ p. (p.plan ≡ plan) × Opens (P.RadioPlan.plan plan) channel (Ok (state_of p))) (λ f. Opens (P.RadioPlan.plan plan) channel (Err f)) }
        ensures delivers { Delivery (P.RadioPlan.plan plan) }
    {
        if channel > plan.last_channel() {
            return Err(Fault::Channel);
        }
        Ok(Post {
            plan,
            channel,
            seed: 0,
        })
    }

    // Changes the channel alone.
    pub fn retune(&mut self, channel: u32) -> Result<(), Fault>
        ensures plan { self.new.plan ≡ self.old.plan }
        ensures retunes { Retunes (P.RadioPlan.plan self.old.plan) (state_of self.old) channel (state_of self.new) result }
    {
        if channel > self.plan.last_channel() {
            return Err(Fault::Channel);
        }
        self.channel = channel;
        Ok(())
    }

    // Sends a frame: writes its symbols to the front of the buffer, answers their count and flips the seed.
    pub fn send(
        &mut self,
        rate: u32,
        burst: u32,
        psdu: &[u8],
        symbols: &mut [u8],
    ) -> Result<usize, Fault>
        ensures plan { self.new.plan ≡ self.old.plan }
        ensures sends { Sends (P.RadioPlan.plan self.old.plan) (state_of self.old) (record { rate = rate; burst = burst; psdu = psdu.now }) symbols.old (state_of self.new) symbols.new result }
    {
        if burst > 1 {
            return Err(Fault::Burst);
        }
        if rate > 3 {
            return Err(Fault::Rate);
        }
        let payload = self.plan.payload(rate).ok_or(Fault::Rate)?;
        if !(9..=264).contains(&psdu.len()) {
            return Err(Fault::Psdu);
        }
        let needed = 90 + header_count(&self.plan) + count(&payload, 8 * psdu.len());
        if symbols.len() < needed {
            return Err(Fault::Buffer(needed));
        }
        // the tests above bound what is cast
        let header = Header {
            rate: rate as u8,
            bytes: psdu.len(),
            burst: burst as u8,
            seed: self.seed,
        };
        write_frame(
            &self.plan,
            self.channel,
            &payload,
            &header,
            psdu,
            &mut symbols[..needed],
        );
        self.seed = 1 - self.seed;
        Ok(needed)
    }

    // Hears a list, which begins with the last preamble symbol: delivers the frame that has it within reach, its PSDU at
    // the front of the output, or tells the first fault.
    pub fn hear(&self, list: &[u8], output: &mut [u8]) -> Result<Delivered, Fault>
        ensures { Hears (P.RadioPlan.plan self.now.plan) list.now output.old output.new result }
    {
        if output.len() < 264 {
            return Err(Fault::Output);
        }
        let head = header_count(&self.plan);
        if list.len() < 1 + head {
            return Err(Fault::List(list.len()));
        }
        let (header, spoilt) = read_header(&self.plan, list)?;
        let Some(payload) = self.plan.payload(u32::from(header.rate)) else {
            unreachable()
        };
        let bytes = header.bytes;
        let needed = 1 + head + count(&payload, 8 * bytes);
        if list.len() != needed {
            return Err(Fault::Payload(PayloadFault::Length(needed)));
        }
        let more = read_payload(&payload, header.seed, list, head, &mut output[..bytes])?;
        Ok(Delivered {
            rate: header.rate,
            burst: header.burst,
            seed: header.seed,
            bytes,
            spoilt: spoilt + more,
        })
    }
}
