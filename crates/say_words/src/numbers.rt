// Whole numbers as bytes, of any size that a `u64` has.
ghost use Rattle.rules.specs.Bytes.{spelled};
ghost use Rattle.text_write.specs.Written.{Written};
ghost use Rattle.say_words.specs.Numbers.{two_digits, three_digits};

// Digits count in tens.
const TEN: u64 = 10;

const HUNDRED: u64 = TEN * TEN;

// The digits, with no needless zero.
pub fn put_whole(buffer: &mut [u8], at: usize, n: u64) -> usize
    ensures { Written buffer.old at (spelled n) buffer.new result }
{
    if n < TEN {
        return text_write::put_byte(buffer, at, b'0' + n as u8);
    }
    let after = put_whole(buffer, at, n / TEN);
    text_write::put_byte(buffer, after, b'0' + (n % TEN) as u8)
}

// A zero in front of one digit.
pub fn put_two(buffer: &mut [u8], at: usize, n: u64) -> usize
    ensures { Written buffer.old at (two_digits n) buffer.new result }
{
    if n < TEN {
        let after = text_write::put_byte(buffer, at, b'0');
        return put_whole(buffer, after, n);
    }
    put_whole(buffer, at, n)
}

pub fn put_three(buffer: &mut [u8], at: usize, n: u64) -> usize
    ensures { Written buffer.old at (three_digits n) buffer.new result }
{
    if n < HUNDRED {
        let after = text_write::put_byte(buffer, at, b'0');
        return put_two(buffer, after, n);
    }
    put_whole(buffer, at, n)
}
