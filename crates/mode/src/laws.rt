// What holds of every lawful mode: theorems for the layers above.
ghost use Rattle.std.specs.Prelude.{◌≡◌};
ghost use Rattle.mode.specs.Laws.{SentReaches, OneReach, ReachHeard, RefusedExactly, HearsTotal, HearsOne};

// How many laws of modes are stated, and that they hold.
pub fn mode_laws() -> usize
    ensures count { result ≡ 6 }
    ensures sent { SentReaches }
    ensures one { OneReach }
    ensures heard { ReachHeard }
    ensures refused { RefusedExactly }
    ensures total { HearsTotal }
    ensures single { HearsOne }
{
    6
}
