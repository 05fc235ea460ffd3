ghost use Rattle.std.specs.Prelude.{◌<◌};

// A post: a radio on one channel of its plan, and the seed of its next frame, a number as in the frame.
#[derive(Drop)]
pub struct Post<P> {
    pub(crate) plan: P,
    pub(crate) channel: u32,
    pub(crate) seed: u8,
    ghost bit: { seed < 2 },
}
