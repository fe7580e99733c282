// Standard output: texts, and sentences with what is written of numbers, times and names.
use rules::figures::Peak;
use say_words::{energies, names, numbers, tallies, times};
use text_read::pieces;

// More bytes than any number, time or name has.
const LINE: usize = 128;

// Stands in a sentence before the letter of a word.
const MARK: u8 = b'%';

// How a number stands in a sentence, by the letter after the mark.
#[derive(Clone, Copy)]
struct Letter {}

impl Letter {
    const NUMBER: u8 = b'n';

    // How many there are, in words where there are none.
    const COUNT: u8 = b'c';

    const TIME: u8 = b't';

    // Kilojoules as MWh.
    const ENERGY: u8 = b'e';

    const KIND: u8 = b'k';

    const LIST: u8 = b'l';

    // What a refusal's number means.
    const MEANING: u8 = b'm';

    const FILE: u8 = b'f';

    const BYTE: u8 = b'b';
}

// A kind, a file, a refusal's number and a byte are below it.
const BYTES: u64 = 256;

// What cannot be written is let go: the program tells it nowhere.
pub fn text(rt: &impl Print, s: &[u8]) {
    let _ = rt.write_all(s);
}

// A number as the word of a letter, at the front of a line; the place after it. Another letter has no word.
fn put(line: &mut [u8], letter: u8, n: u64) -> usize {
    let number = (n % BYTES) as u8;
    match letter {
        Letter::NUMBER => numbers::put_whole(line, 0, n),
        Letter::COUNT => numbers::put_whole(line, 0, n),
        Letter::TIME => times::put_time(line, 0, n),
        Letter::ENERGY => energies::put_mwh(line, 0, n),
        Letter::KIND => names::put_kind(line, 0, number),
        Letter::LIST => names::put_list(line, 0, number),
        Letter::MEANING => names::put_meaning(line, 0, number),
        Letter::FILE => names::put_file(line, 0, number),
        Letter::BYTE => say_words::bytes::put_shown(line, 0, number),
        _ => 0,
    }
}

// The front of a line.
fn front(rt: &impl Print, line: &[u8], end: usize) {
    if end <= line.len() {
        text(rt, &line[0..end]);
    }
}

// A number as the word of a letter.
fn word(rt: &impl Print, letter: u8, n: u64) {
    let mut line = [0u8; LINE];
    let end = put(&mut line, letter, n);
    front(rt, &line, end);
}

// The same, but in words where there are none.
fn counted(rt: &impl Print, letter: u8, n: u64) {
    if letter == Letter::COUNT && n == 0 {
        text(rt, b"none");
        return;
    }
    word(rt, letter, n);
}

// A sentence with a mark and a letter for each number.
pub fn sentence(rt: &impl Print, s: &[u8], numbers: &[u64]) {
    let mut start = 0;
    for &number in numbers {
        let mark = pieces::find(s, MARK, start);
        if s.len() <= mark {
            return;
        }
        text(rt, &s[start..mark]);
        start = mark + 1;
        if s.len() <= start {
            return;
        }
        counted(rt, s[start], number);
        start += 1;
    }
    text(rt, &s[start..]);
}

pub fn peak(rt: &impl Print, h: u32, p: Peak) {
    let mut line = [0u8; LINE];
    let end = energies::put_peak(&mut line, 0, h, p);
    front(rt, &line, end);
}

pub fn formula(rt: &impl Print, kind: u8, inequality: u8) {
    let mut line = [0u8; LINE];
    let end = names::put_formula(&mut line, 0, kind, inequality);
    front(rt, &line, end);
}

pub fn tests(rt: &impl Print, kind: u8, count: u32) {
    let mut line = [0u8; LINE];
    let end = tallies::put_count(&mut line, 0, kind, count);
    front(rt, &line, end);
}

// Bytes of a file, or of a word that a person gave.
pub fn bytes(rt: &impl Print, s: &[u8]) {
    for &b in s {
        word(rt, Letter::BYTE, b as u64);
    }
}

// Above every result.
pub fn label(rt: &impl Print) {
    text(rt, b"no violation shown is not no violation\n");
}

// The last line of a group, which a script can read.
pub fn answer(rt: &impl Print, word: &[u8]) {
    text(rt, b"answer: ");
    text(rt, word);
    text(rt, b"\n");
}

// Where nothing was answered, why.
pub fn no_answer(rt: &impl Print, why: &[u8]) {
    text(rt, why);
    text(rt, b"\n");
    answer(rt, b"none");
}
