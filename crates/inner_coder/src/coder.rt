// The inner coder's two sides.
ghost use Rattle.std.specs.Prelude.{◌≡◌, ◌/◌};
ghost use Rattle.std.specs.Option.{ForSome};
ghost use Rattle.std.specs.Result.{ForOk, ForErr};
ghost use Rattle.stage.specs.Model.{BelowOk};
ghost use Rattle.inner_coder.specs.Convolution.{disagrees};

use super::convolution::Walk;
use super::puncturing::Left;
use stage::Fault;

pub mod rule;

#[derive(Drop)]
pub struct InnerCoder {
    sending: Walk,
    // What of the last bit is not taken yet.
    waits: Left,
    hearing: Walk,
    // The second unit of the last bit is still to come. No value goes with it.
    second: bool,
    // A bit heard that is not taken yet, or the fault. `Result` says it all, so no type stands over this and the outer interleaver's.
    arrived: Result<Option<u8>, Fault>,
    ghost one_rate: { hearing.rate ≡ sending.rate },
    ghost small: { ∥ BelowOk 2 arrived ∥₁ },
    ghost highest: { ForOk arrived (λ heard. ForSome heard (λ bit. bit ≡ hearing.register / 64)) },
    ghost cause: { ForErr arrived (λ fault. fault ≡ disagrees) },
}
