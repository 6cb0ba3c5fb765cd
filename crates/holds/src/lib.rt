// Where holds stop: a stage's hold is a number of 32 bits, and the largest one claims nothing.

#![tactic(auto)]

ghost use Rattle.std.specs.Prelude.{◌≡◌};
ghost use Rattle.holds.specs.Capped.{capped};

// What a hold's formula gives for m, stopped at the largest number; that number's own hold is itself.
pub fn stopped(m: u32, formula: u64) -> u32
    ensures { result ≡ capped (λ _. formula) m }
{
    if m == u32::MAX {
        return m;
    }
    u32::try_from(formula).unwrap_or(u32::MAX)
}
