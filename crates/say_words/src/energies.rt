// Energies for people, with three decimals. They are rounded down: no more is shown than there is, and the exact kilojoules stand beside them.
ghost use Rattle.std.specs.Prelude.{◌<◌, ◌≤◌};
ghost use Rattle.text_write.specs.Written.{Written};
ghost use Rattle.say_words.specs.Energies.{most_unit, decimals_of, mwh_of, mw_of, peak_text};

use crate::{numbers, times};
use rules::figures::{Figures, Peak};

// Three decimals count in thousandths.
const THOUSANDTHS: u64 = 1_000;

// `n` in units of `unit`.
fn put_decimals(buffer: &mut [u8], at: usize, unit: u64, n: u64) -> usize
    requires unit_nonzero { 0 < unit }
    requires unit_le_most_unit { unit ≤ most_unit }
    ensures { Written buffer.old at (decimals_of unit n) buffer.new result }
{
    let point = numbers::put_whole(buffer, at, n / unit);
    let decimals = text_write::put_byte(buffer, point, b'.');
    numbers::put_three(buffer, decimals, n % unit * THOUSANDTHS / unit)
}

// Kilojoules in megawatt hours.
pub fn put_mwh(buffer: &mut [u8], at: usize, kj: u64) -> usize
    ensures { Written buffer.old at (mwh_of kj) buffer.new result }
{
    put_decimals(buffer, at, Figures::KJ_A_MWH, kj)
}

// The kilojoules of a quarter hour as its average megawatts.
fn put_mw(buffer: &mut [u8], at: usize, kj: u64) -> usize
    ensures { Written buffer.old at (mw_of kj) buffer.new result }
{
    put_decimals(buffer, at, Figures::KJ_A_MW, kj)
}

// The peak quarter within H: its energy, its average power and its time.
pub fn put_peak(buffer: &mut [u8], at: usize, h: u32, p: Peak) -> usize
    ensures { Written buffer.old at (peak_text h p) buffer.new result }
{
    let unit = numbers::put_whole(buffer, at, p.kj);
    let power = text_write::put_bytes(buffer, unit, b" kJ, ");
    let mw = put_mw(buffer, power, p.kj);
    let time = text_write::put_bytes(buffer, mw, b" MW, ");
    times::put_quarter(buffer, time, h, p.quarter)
}
