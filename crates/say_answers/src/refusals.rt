// Refused: nothing is said of the timetable, only what could not be read.
use crate::say;
use rules::answers::Refusal;

fn show_row(rt: &impl Print, row: &[u8]) {
    if row.is_empty() {
        return;
    }
    say::text(rt, b"row: ");
    say::bytes(rt, row);
    say::text(rt, b"\n");
}

// `row`: the row at the refusal's file and place; empty where there is none.
pub fn refused(rt: &impl Print, r: Refusal, row: &[u8]) {
    let number = r.number as u64;
    say::sentence(
        rt,
        b"refused %n: %m\nfile: %f, place: %n\n",
        &[number, number, r.file as u64, r.place as u64],
    );
    show_row(rt, row);
}
