// A report in numbers.
ghost use Rattle.std.specs.Prelude.{◌≡◌};
ghost use Rattle.exports_numbers.specs.Numbers.{report_numbers};

use crate::{Code, Numbers, answers};
use energy_parts::desk;
use rules::outcomes::Report;

// The fluctuation stands in two's complement.
pub fn of_report(report: Report) -> Numbers
    ensures { result ≡ report_numbers report }
{
    let figures = report.figures;
    let before_peak = figures.peaks.before;
    let drawn_peak = figures.peaks.drawn;
    let bits = desk::bits_of(report.desk);
    let accepted = [
        Code::ACCEPTED,
        figures.before,
        figures.drawn,
        figures.lost,
        figures.fluctuation.cast_unsigned(),
        before_peak.kj,
        drawn_peak.kj,
        bits.before,
        bits.drawn,
        bits.lost,
        bits.peak,
        before_peak.quarter as u64,
        drawn_peak.quarter as u64,
    ];
    answers::of_answer(report.answer, report.tally, &accepted)
}
