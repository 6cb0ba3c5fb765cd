// Values of EN 300 744's coder that a bench can measure, of the definitions that the contracts of the stages cite.

#![tactic(auto)]

ghost use Rattle.values.specs.Values.{BenchValues};

// The values, in one statement.
pub fn bench_values()
    ensures { BenchValues }
{}
