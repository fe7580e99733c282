// A byte of a file, or of a name that a person gave, as it is shown: no terminal acts on it, and no file writes a line of ours.
ghost use Rattle.std.specs.Prelude.{◌≡◌, ◌<◌};
ghost use Rattle.text_write.specs.Written.{Written};
ghost use Rattle.say_words.specs.Shown.{sixteen, is_plain, hex_digit, shown};

const SIXTEEN: u8 = 16;

const TEN: u8 = 10;

// A sign of ASCII or a space.
fn is_plain(b: u8) -> bool
    ensures { result ≡ is_plain b }
{
    matches!(b, b' '..=b'~')
}

fn hex_digit(n: u8) -> u8
    requires { n < sixteen }
    ensures { result ≡ hex_digit n }
{
    if n < TEN { b'0' + n } else { b'a' + (n - TEN) }
}

// A byte that is not plain by its number.
pub fn put_shown(buffer: &mut [u8], at: usize, b: u8) -> usize
    ensures { Written buffer.old at (shown b) buffer.new result }
{
    if is_plain(b) {
        return text_write::put_byte(buffer, at, b);
    }
    let number = [b'\\', b'x', hex_digit(b / SIXTEEN), hex_digit(b % SIXTEEN)];
    text_write::put_bytes(buffer, at, &number)
}
