ghost use Rattle.std.specs.Prelude.{◌≡◌, ◌≤◌};
ghost use Rattle.std.proofs.Common.{rules};

use block_code::{Bch63, BlockCode, Plain};

// A block code that a mode can be made of: it has room for 16 message bits or more.
pub trait RoomyCode: BlockCode {
    ghost roomy: { (c : Self) → 16 ≤ (Self.BlockCode.code c).k };
}

impl RoomyCode for Bch63 {
    ghost roomy = { Prim.search rules };
}

impl RoomyCode for Plain {
    ghost roomy = { Prim.search rules };
}
