// The rows before and the open row, but for its open number: what closes each number, what an entry changes, a row that is over, and the row after it.
ghost use Rattle.std.specs.Prelude.{◌≡◌, true, not, cond, [], ◌∷◌, ◌+◌, ◌≤◌, leb, ltb, length};
ghost use Rattle.std.proofs.lemmas.List.Edits.{sets};
ghost use Rattle.rules.specs.Limits.{most_id, most_listed, leg_width, configuration_width};
ghost use Rattle.rules.specs.Timetable.{configuration, in_range, same, leg_numbers};
ghost use Rattle.timetable_row.specs.Slots.{separator_of, nominal_of, entry_of};
ghost use Rattle.timetable_row.specs.RowOver.{range_holds, counts_hold, leg_held, stored_at, stored_leg, stopped_with, Bounded, next_line};

use rules::sizes::{Configuration, Id, Leg};

#[derive(Clone, Copy)]
pub struct Line {
    // The first fault's number.
    pub fault: Option<u8>,
    // Whether an entry of the list is out of range.
    pub wide: bool,
    // The row's first byte.
    pub place: u32,
    // Which number of the row is open: of the eight before the list, and then of the entry's three.
    pub slot: usize,
    // The numbers before it.
    pub numbers: [u32; LAST],
    // The entries of the list, counted to one past the limit; those before the first that is the nominal.
    pub entries: u32,
    pub nominal: u32,
    // The rows before, their configurations, and a number above each of their ids.
    pub rows: u32,
    pub configurations: u32,
    pub above: u32,
}

// The slots of a row: the five ids of its leg, at their places in the table; the nominal's three numbers; an entry's three. The last is not kept.
pub const NOMINAL: usize = Leg::IDS;

pub const NOMINAL_TRAVEL: usize = NOMINAL + Configuration::TRAVEL_AT;

pub const NOMINAL_PROFILE: usize = NOMINAL + Configuration::PROFILE_AT;

pub const ENTRY: usize = NOMINAL + Configuration::WIDTH;

pub const ENTRY_TRAVEL: usize = ENTRY + Configuration::TRAVEL_AT;

pub const LAST: usize = ENTRY + Configuration::PROFILE_AT;

// What closes each number but the last, which a space closes.
const SEPARATORS: [u8; LAST] = [b',', b',', b',', b',', b',', b'_', b'_', b',', b'_', b'_'];

pub fn separator(slot: usize) -> u8
    ensures { result ≡ separator_of slot }
{
    SEPARATORS.get(slot).copied().unwrap_or(b' ')
}

pub fn stopped(line: Line, number: u8) -> Line
    ensures { result ≡ stopped_with line number }
{
    Line {
        fault: Some(number),
        ..line
    }
}

fn in_range(d: u32, t: u32, p: u32, h: u32) -> bool
    ensures { result ≡ in_range h (configuration d t p) }
{
    match Configuration::new(d, t, p, h) {
        Some(_) => true,
        None => false,
    }
}

pub fn or_wide(wide: bool, d: u32, t: u32, p: u32, h: u32) -> bool
    ensures { result ≡ cond (in_range h (configuration d t p)) wide true }
{
    wide || !in_range(d, t, p, h)
}

// The open entry, whose third number is p, is the nominal.
pub fn is_nominal(numbers: [u32; LAST], p: u32) -> bool
    ensures { result ≡ same (nominal_of numbers) (entry_of numbers p) }
{
    numbers[NOMINAL] == numbers[ENTRY]
        && numbers[NOMINAL_TRAVEL] == numbers[ENTRY_TRAVEL]
        && numbers[NOMINAL_PROFILE] == p
}

// The entries before the nominal, with one entry more.
pub fn nominal_after(nominal: u32, entries: u32, hit: bool) -> u32
    requires { entries ≤ most_listed }
    ensures { result ≡ cond (ltb nominal entries) nominal (cond hit nominal (entries + 1)) }
{
    if nominal < entries {
        return nominal;
    }
    if hit {
        return nominal;
    }
    entries + 1
}

pub fn store(table: &mut [u32], at: usize, d: u32, t: u32, p: u32)
    ensures { table.new ≡ stored_at configuration_width at (d ∷ t ∷ p ∷ []) table.old }
{
    if at < table.len() / Configuration::WIDTH {
        let from = at * Configuration::WIDTH;
        table[from + Configuration::DEPARTURE_AT] = d;
        table[from + Configuration::TRAVEL_AT] = t;
        table[from + Configuration::PROFILE_AT] = p;
    }
}

// ---- a row that is over

pub fn out_of_range(line: Line, h: u32) -> bool
    ensures { result ≡ not (range_holds h line) }
{
    let numbers = line.numbers;
    Id::MOST < numbers[Leg::ID_AT]
        || Id::MOST < numbers[Leg::TRAIN_AT]
        || Id::MOST < numbers[Leg::TRACK_AT]
        || Id::MOST < numbers[Leg::START_AT]
        || Id::MOST < numbers[Leg::END_AT]
        || !in_range(
            numbers[NOMINAL],
            numbers[NOMINAL_TRAVEL],
            numbers[NOMINAL_PROFILE],
            h,
        )
        || line.wide
}

pub fn too_many(line: Line) -> bool
    ensures { result ≡ not (counts_hold line) }
{
    Leg::MOST <= line.rows as usize
        || Leg::MOST_CONFIGURATIONS < line.entries
        || Configuration::MOST < line.configurations as usize + line.entries as usize
}

// The row's leg, as its constructor makes it.
pub fn leg_of(line: Line) -> Option<Leg>
    ensures { result ≡ leg_held line }
{
    let n = line.numbers;
    let ids = [
        n[Leg::ID_AT],
        n[Leg::TRAIN_AT],
        n[Leg::TRACK_AT],
        n[Leg::START_AT],
        n[Leg::END_AT],
    ];
    Leg::new(ids, line.configurations, line.entries, line.nominal)
}

// Numbers one after the other, from a place on.
fn write(table: &mut [u32], from: usize, numbers: &[u32])
    requires { from + length numbers.now ≤ length table.old }
    ensures { table.new ≡ sets table.old from numbers.now }
{
    table[from..from + numbers.len()].copy_from_slice(numbers);
}

// A leg's numbers stand in the order of its fields.
fn store_leg(legs: &mut [u32], at: usize, leg: Leg)
    ensures { legs.new ≡ stored_at leg_width at (leg_numbers leg) legs.old }
{
    if at < legs.len() / Leg::WIDTH {
        let numbers = [
            leg.id,
            leg.train,
            leg.track,
            leg.start,
            leg.end,
            leg.first,
            leg.count,
            leg.nominal,
        ];
        write(legs, at * Leg::WIDTH, &numbers);
    }
}

// A leg out of its limits is not stored; a row that is right has none.
pub fn store_made(legs: &mut [u32], at: usize, made: Option<Leg>)
    ensures { legs.new ≡ stored_leg at made legs.old }
{
    if let Some(leg) = made {
        store_leg(legs, at, leg);
    }
}

pub fn next_row(line: Line, at: u32) -> Line
    requires { Bounded line at }
    ensures { result ≡ next_line line at }
{
    let numbers = line.numbers;
    Line {
        place: at + 1,
        slot: 0,
        entries: 0,
        nominal: 0,
        wide: false,
        rows: line.rows + 1,
        configurations: line.configurations + line.entries,
        above: line.above.max(numbers[Leg::ID_AT] + 1),
        ..line
    }
}
