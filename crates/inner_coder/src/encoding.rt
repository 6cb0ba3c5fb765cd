// Codes bits straight into an output, many at a time.
ghost use Rattle.std.specs.Prelude.{◌≡◌, ◌≤◌, ◌++◌, length, take, drop};
ghost use Rattle.stage.specs.Model.{fed};
ghost use Rattle.stage.specs.Passing.{Gives};
ghost use Rattle.stage.specs.Rule.{Under};
ghost use Rattle.inner_coder.specs.Coder.{inner_code, idle_at};
ghost use Rattle.inner_coder.specs.Convolution.{emitted};
ghost use Rattle.inner_coder.specs.Walks.{walk_of};

use super::convolution::{Walk, output_x, output_y};
use super::puncturing::Sent;

// The walk behind the bits that were coded, how many they were, and how many units they became. A walk can't tell whether something waits, as `Passed` would say.
#[derive(Clone, Copy)]
pub(crate) struct Coded {
    pub(crate) walk: Walk,
    pub(crate) used: usize,
    pub(crate) made: usize,
}

// Writes what is sent of a register into the front of the output, and answers how many units that is.
// X and Y have an arm each: to ask for the first unit of either costs one to three of a hundred instructions of all sending.
fn emit(sent: Sent, register: u8, output: &mut [u8]) -> usize
    requires { 2 ≤ length output.old }
    ensures count { result ≡ length (emitted sent register) }
    ensures written { output.new ≡ emitted sent register ++ drop result output.old }
{
    match sent {
        Sent::Both => {
            output[0] = output_x(register);
            output[1] = output_y(register);
            2
        }
        Sent::X => {
            output[0] = output_x(register);
            1
        }
        Sent::Y => {
            output[0] = output_y(register);
            1
        }
    }
}

// Codes bits from the front of the input, while there is room for both units of one. A unit that is no bit ends it.
pub(crate) fn encode(mut walk: Walk, input: &[u8], output: &mut [u8]) -> Coded
    ensures rate { result.walk.rate ≡ walk.rate }
    ensures used { result.used ≤ length input.now }
    ensures fits { Under 2 (take result.used input.now) }
    ensures gives { Gives (inner_code walk.rate) (fed (idle_at walk.rate (walk_of walk)) (take result.used input.now)) (idle_at walk.rate (walk_of result.walk)) output.old output.new result.made }
{
    // It grows by what `emit` answers, so no iterator counts it.
    let mut made = 0;
    for (used, bit) in input.iter().enumerate() {
        if *bit >= 2 || output.len() < made + 2 {
            return Coded { walk, used, made };
        }
        let sent = walk.sent();
        walk.shift(*bit);
        made += emit(sent, walk.register, &mut output[made..]);
    }
    Coded {
        walk,
        used: input.len(),
        made,
    }
}
