// Broadcasts over any pile: what a line's cells are, when two broadcasts are equal, and what a receiver gets back.
//
// The statements are in specs/Claims.antt. They speak of successions of calls (specs/Line.antt, specs/Receiver.antt), in which each
// call answers by what was accepted before it. Each function here but `fit` carries one of them as its contract, and nothing runs.

#![tactic(auto)]

ghost use Rattle.std.specs.Prelude.{◌≡◌, ◌≤◌, IfOk, Ok};
ghost use Rattle.refusal.specs.Numbers.{refused_by};
ghost use Rattle.settings.specs.Codes.{settings_read};
ghost use Rattle.settings.specs.SuperFrame.{super_frame_packets};
ghost use Rattle.broadcast.specs.Calls.{unfit};
ghost use Rattle.broadcast.specs.Claims.{BroadcastsHold, BroadcastsExist, HoldsOver};
ghost use Rattle.broadcast.specs.Exactly.{StepsGoSuccessions};

use refusal::Refusal;
use settings::{Codes, Settings};
use stage::Stage;
use tps::laws::blocks_tell_settings;

// What holds of every broadcast, over every pile of stages that keep the rule.
pub fn broadcasts_hold()
    ensures { BroadcastsHold }
{
    blocks_tell_settings();
}

// There are broadcasts to which this applies.
pub fn broadcasts_exist()
    ensures { BroadcastsExist }
{}

// The steps by which the calls are specified go exactly the successions.
pub fn steps_go_successions()
    ensures { StepsGoSuccessions }
{}

// What holds of every broadcast over this pile.
pub fn holds<P: Stage>(pile: &P)
    ensures { HoldsOver (P.Stage.model pile.now) }
{
    blocks_tell_settings();
}

// The settings that a start accepts: known codes, and a pile that takes bytes and holds back less than a super-frame.
pub fn fit<P: Stage>(pile: &P, codes: &Codes) -> Result<Settings, Refusal>
    ensures checks { refused_by result ≡ unfit (P.Stage.model pile.now) codes.now }
    ensures settings { IfOk result (λ s. settings_read codes.now ≡ Ok s) }
    ensures some { IfOk result (λ s. 1 ≤ super_frame_packets s) }
{
    let settings = Settings::try_from(codes)?;
    let room = 188 * u64::from(settings.packets());
    if pile.taken() != 256 || room <= u64::from(pile.hold(0)) {
        return Err(Refusal::PileUnfit);
    }
    Ok(settings)
}
