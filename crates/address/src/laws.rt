// What is known of H.
ghost use Rattle.settings.specs.Mode.{symbol_cells};
ghost use Rattle.address.specs.Address.{addresses_of};
ghost use Rattle.address.specs.Permutation.{Permutes};
ghost use Rattle.address.specs.Vectors.{Published, Recomputed};

use settings::Mode;

// H has each number below N once, and nothing else.
pub fn permutes(mode: Mode)
    ensures { Permutes (symbol_cells mode) (addresses_of mode) }
{}

// H begins as it is published, and the whole of it is what another program gives.
pub fn published()
    ensures begins { Published }
    ensures whole { Recomputed }
{}
