// Where a separator stands.
ghost use Rattle.std.specs.Prelude.{◌≡◌, ◌+◌, drop};
ghost use Rattle.text_read.specs.Places.{up_to};

// The place of the first `sep` at or after `from`, or the length where there is none.
pub fn find(s: &[u8], sep: u8, from: usize) -> usize
    ensures { result ≡ from + up_to sep (drop from s.now) }
{
    for at in from..s.len() {
        if s[at] == sep {
            return at;
        }
    }
    from.max(s.len())
}
