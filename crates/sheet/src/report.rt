// What the program prints for its input: the three lines of the sheet, or the refusal's number.
ghost use Rattle.std.specs.Prelude.{◌≡◌, IfOk, string_bytes};
ghost use Rattle.sheet.specs.Report.{report_of};

use settings::Sheet;
use std::alloc::{AllocError, Global};

pub(crate) fn report(heap: Global, input: &[u8]) -> Result<String, AllocError>
    ensures { IfOk result (λ text. string_bytes text ≡ report_of input.now) }
{
    match Sheet::try_from(input) {
        Ok(sheet) => {
            let Sheet {
                packets,
                cells,
                hold,
            } = sheet;
            format!(in heap; "packets {packets}\ncells {cells}\nhold {hold}\n")
        }
        Err(refusal) => format!(in heap; "{refusal}\n"),
    }
}
