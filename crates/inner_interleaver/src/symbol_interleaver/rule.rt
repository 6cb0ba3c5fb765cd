// The symbol interleaver (EN 300 744, clause 4.3.4.2) keeps the stage rule.
// Input: words of v bits, in symbols of N. Output: the same words; an even symbol has word q at H(q), and an odd one word H(q) at q.
ghost use Rattle.std.specs.Prelude.{◌≡◌};
ghost use Rattle.settings.specs.Constellation.{constellation_read};
ghost use Rattle.settings.specs.Mode.{mode_read, symbol_cells};
ghost use Rattle.stage.specs.Optional.{known_model, known_sending, known_receiving};
ghost use Rattle.stage.specs.Model.{new_sending, new_receiving};
ghost use Rattle.inner_interleaver.specs.SymbolInterleaver.{symbol_interleaving, symbol_interleaver, model_of, sending_of, receiving_of, encode};
ghost use Rattle.inner_interleaver.specs.Symbols.{symbol_rule};
ghost use Rattle.permute.specs.Parity.{opposite};
ghost use Rattle.stage.proofs.Blocks.{blocks_sends, blocks_hears};

use super::super::side::Side;
use super::SymbolInterleaver;
use address::Addresses;
use holds::stopped;
use permute::Parity;
use refusal::Refusal;
use settings::{Constellation, Mode};
use stage::{Fault, Stage};

impl SymbolInterleaver {
    // For the codes of a mode and of a constellation, known or not, as the outside gives them; `of` takes the values.
    pub fn new(mode: u8, constellation: u8) -> Option<SymbolInterleaver>
        ensures model { known_model model_of result ≡ symbol_interleaver (mode_read mode) (constellation_read constellation) }
        ensures sends { known_sending sending_of result ≡ new_sending (symbol_interleaver (mode_read mode) (constellation_read constellation)) }
        ensures hears { known_receiving receiving_of result ≡ new_receiving (symbol_interleaver (mode_read mode) (constellation_read constellation)) }
    {
        let mode = Mode::try_from(mode).ok()?;
        let constellation = Constellation::try_from(constellation).ok()?;
        Some(SymbolInterleaver::of(mode, constellation))
    }

    pub fn of(mode: Mode, constellation: Constellation) -> SymbolInterleaver
        ensures model { model_of result ≡ symbol_interleaving mode constellation }
        ensures sends { sending_of result ≡ new_sending (symbol_interleaving mode constellation) }
        ensures hears { receiving_of result ≡ new_receiving (symbol_interleaving mode constellation) }
    {
        SymbolInterleaver {
            addresses: Addresses::new(mode),
            out: Side::new(mode, constellation, Parity::Even),
            back: Side::new(mode, constellation, Parity::Odd),
        }
    }
}

impl Stage for SymbolInterleaver {
    ghost model = { model_of };

    ghost sending = { sending_of };

    ghost receiving = { receiving_of };

    ghost rule = { λ s. symbol_rule s.out.mode s.out.constellation };

    ghost sends = { λ s. blocks_sends opposite (encode s.out.mode) (symbol_cells s.out.mode) s.out.parity _ };

    ghost hears = { λ s. blocks_hears opposite (encode s.back.mode) (symbol_cells s.back.mode) s.back.parity _ };

    fn taken(&self) -> u16 {
        self.out.limit()
    }

    fn given(&self) -> u16 {
        self.out.limit()
    }

    fn size(&self) -> u32 {
        1
    }

    fn hold(&self, m: u32) -> u32 {
        stopped(m, u64::from(m) + 2 * self.out.symbol() as u64 - 2)
    }

    fn send_waits(&mut self) -> bool {
        self.out.waits()
    }

    fn receive_waits(&mut self) -> bool {
        self.back.waits()
    }

    fn renew(&mut self) {
        self.out.renew(Parity::Even);
        self.back.renew(Parity::Odd);
    }

    fn send_offer(&mut self, unit: u8) -> Result<(), Refusal> {
        self.out.offer(&self.addresses, unit)
    }

    fn send_take(&mut self) -> Option<u8> {
        self.out.take()
    }

    fn receive_offer(&mut self, unit: u8) -> Result<(), Refusal> {
        self.back.offer(&self.addresses, unit)
    }

    fn receive_take(&mut self) -> Result<Option<u8>, Fault> {
        Ok(self.back.take())
    }
}
