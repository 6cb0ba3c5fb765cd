// What the chart tells, in the clause's words.
ghost use Rattle.address.specs.Address.{addresses_of};
ghost use Rattle.settings.specs.Mode.{symbol_cells};
ghost use Rattle.chart.specs.Chart.{Charts, chart_of};

use permute::Parity;
use settings::Mode;

// Each word has one mark, and the marks tell where the words go.
pub fn chart_holds(mode: Mode, parity: Parity)
    ensures { Charts (symbol_cells mode) parity (addresses_of mode) (chart_of mode parity) }
{}
