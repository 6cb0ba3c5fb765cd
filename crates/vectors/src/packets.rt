// Every entry of EN 300 744, table 16.
use super::report::Report;
use relay::Stop;
use samples::table_16;
use settings::Settings;

fn check_row(report: &mut Report, row: u8, printed: &[u32; 6]) -> Result<(), Stop> {
    for (column, packets) in (0u8..).zip(printed) {
        let settings = Settings::try_from(&table_16::codes(row, column))?;
        let found = u64::from(settings.packets());
        report.number(
            "packets per super-frame",
            &settings,
            found,
            u64::from(*packets),
        )?;
    }
    Ok(())
}

pub(crate) fn check(report: &mut Report) -> Result<(), Stop> {
    for (row, printed) in (0u8..).zip(&table_16::TABLE) {
        check_row(report, row, printed)?;
    }
    Ok(())
}
