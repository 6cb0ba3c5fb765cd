// The inner coder (EN 300 744, clause 4.3.3): a convolutional code of rate 1/2 with 64 states, punctured to one of five rates.
// Input: bits. Output: bits, one or two for each.

#![tactic(auto)]

ghost use Rattle.inner_coder.specs.Published.{SendsPublished};
ghost use Rattle.inner_coder.specs.Vectors.{InnerVectors};

pub mod coder;
mod convolution;
mod encoding;
mod puncturing;

// A new inner coder sends what the clause gives, by places in the list of bits.
pub fn inner_code_as_published()
    ensures { SendsPublished }
{}

pub fn inner_vectors()
    ensures { InnerVectors }
{}
