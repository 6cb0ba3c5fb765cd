// The standard pile: the seven stages of EN 300 744, clause 4.3, one over the other.
// Input: the bytes of transport packets. Output: the cell words of interleaved symbols.

#![tactic(auto)]

ghost use Rattle.std.specs.Prelude.{◌≡◌};
ghost use Rattle.settings.specs.Hold.{standard_hold};
ghost use Rattle.stage.specs.Model.{Model};
ghost use Rattle.stage.specs.Piled.{piled};
ghost use Rattle.standard.specs.Pile.{standard_model, StandardHolds};
ghost use Rattle.standard.specs.New.{IsNew};

use dispersal::EnergyDispersal;
use inner_coder::coder::InnerCoder;
use inner_interleaver::bit_interleaver::BitInterleaver;
use inner_interleaver::symbol_interleaver::SymbolInterleaver;
use outer::{OuterCoder, OuterInterleaver, Serializer};
use pile::Pile;
use settings::Settings;
use stage::Stage;

pub type Words = Pile<BitInterleaver, SymbolInterleaver>;

pub type Coded = Pile<InnerCoder, Words>;

pub type Serialized = Pile<Serializer, Coded>;

pub type Delayed = Pile<OuterInterleaver, Serialized>;

pub type Protected = Pile<OuterCoder, Delayed>;

pub type StandardPile = Pile<EnergyDispersal, Protected>;

// A pile of new parts, which is new.
fn over<U: Stage, L: Stage>(upper: U, lower: L) -> Pile<U, L>
    ensures { (M N : Model) → IsNew U.Stage.model U.Stage.sending U.Stage.receiving upper M → IsNew L.Stage.model L.Stage.sending L.Stage.receiving lower N → IsNew ⟦<Pile<U, L> as Stage>⟧.model ⟦<Pile<U, L> as Stage>⟧.sending ⟦<Pile<U, L> as Stage>⟧.receiving result (piled M N) }
{
    Pile::new(upper, lower)
}

// A new pile for the settings.
pub fn standard(settings: &Settings) -> StandardPile
    ensures { IsNew ⟦<StandardPile as Stage>⟧.model ⟦<StandardPile as Stage>⟧.sending ⟦<StandardPile as Stage>⟧.receiving result (standard_model settings.now) }
{
    let symbols = SymbolInterleaver::of(settings.mode, settings.constellation);
    let words = over(BitInterleaver::of(settings.constellation), symbols);
    let coded = over(InnerCoder::of(settings.rate), words);
    let serialized = over(Serializer::new(), coded);
    let delayed = over(OuterInterleaver::new(), serialized);
    let protected = over(OuterCoder::new(), delayed);
    over(EnergyDispersal::new(), protected)
}

// Of the bytes sent, how many at most are not back yet while the last m cells are unheard.
pub fn hold(settings: &Settings, m: u32) -> u32
    ensures { result ≡ standard_hold settings.now m }
{
    standard(settings).hold(m)
}

// What the standard pile is, for every settings.
pub fn standard_holds()
    ensures { StandardHolds }
{}
