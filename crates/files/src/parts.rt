// The reading in three parts. Each answers the counts so far, or the refusal that ends everything.
ghost use Rattle.files.specs.Parts.{DraftRead, Listed, PowersRead, Drafted, RulesRead};

use csv_lines::places;
use files_tests::lists::Fault;
use files_tests::{lists, subnets};
use rules::answers::{File, Refusal};
use rules::stated::Stated;
use tables_lent::Counts;

// What is stated, and the timetable.
pub fn read_draft(
    stated: Stated,
    timetable: &[u8],
    legs: &mut [u32],
    configurations: &mut [u32],
) -> Result<Counts, Refusal>
    ensures { DraftRead stated timetable.now legs.old configurations.old result legs.new configurations.new }
{
    let h = stated.horizon;
    match stated.test() {
        Err(refusal) => Err(refusal),
        Ok(()) => match timetable::reader::read_timetable(timetable, h, legs, configurations) {
            Err(fault) => Err(fault.in_file(File::TIMETABLE)),
            Ok(read) => Ok(Counts {
                legs: read.rows as usize,
                configurations: read.configurations as usize,
                profiles: 0,
                samples: 0,
                constraints: 0,
                tracks: 0,
                subnets: 0,
            }),
        },
    }
}

// The profiles, and then 12 and 13 over the timetable's rows.
pub fn read_powers(
    counts: Counts,
    timetable: &[u8],
    text: &[u8],
    legs: &[u32],
    configurations: &[u32],
    profiles: &mut [u32],
    samples: &mut [i32],
) -> Result<Counts, Refusal>
    requires { Listed timetable.now legs.now counts.legs configurations.now }
    ensures { PowersRead counts timetable.now text.now legs.now configurations.now profiles.old samples.old result profiles.new samples.new }
{
    match profiles::reader::read_profiles(text, profiles, samples) {
        Err(refusal) => Err(refusal),
        Ok(read) => {
            let n = counts.legs;
            let m = read.profiles as usize;
            match lists::profile_fault(legs, n, configurations, profiles, m) {
                Some(Fault { row, number }) => {
                    Err(places::row_refusal(number, File::TIMETABLE, timetable, row))
                }
                None => Ok(Counts {
                    legs: n,
                    configurations: counts.configurations,
                    profiles: m,
                    samples: read.samples as usize,
                    constraints: 0,
                    tracks: 0,
                    subnets: 0,
                }),
            }
        }
    }
}

// The constraints, and then 15 over the timetable's rows.
pub fn read_rules(
    stated: Stated,
    counts: Counts,
    timetable: &[u8],
    text: &[u8],
    legs: &[u32],
    constraints: &mut [u32],
    tracks: &mut [u32],
) -> Result<Counts, Refusal>
    requires { Drafted timetable.now legs.now counts.legs }
    ensures { RulesRead stated counts timetable.now text.now legs.now constraints.old tracks.old result constraints.new tracks.new }
{
    let n = counts.legs;
    let rules = stated.rules();
    match constraints::read_constraints(rules, text, legs, n, constraints, tracks) {
        Err(fault) => Err(fault.in_file(File::CONSTRAINTS)),
        Ok(read) => match subnets::subnet_fault(legs, n, tracks, read.tracks) {
            Some(row) => Err(places::row_refusal(
                Refusal::NO_SUBNET,
                File::TIMETABLE,
                timetable,
                row,
            )),
            None => Ok(Counts {
                legs: n,
                configurations: counts.configurations,
                profiles: counts.profiles,
                samples: counts.samples,
                constraints: read.constraints,
                tracks: read.tracks,
                subnets: read.subnets,
            }),
        },
    }
}
