// A field's content: all of it, or what stands in its pair of quotes.
ghost use Rattle.std.specs.Prelude.{◌≡◌, is_some};
ghost use Rattle.rules.specs.Bytes.{content_of};
ghost use Rattle.rules.specs.Duties.{quoted_by};
ghost use Rattle.duties_fields.specs.Fields.{or_empty};

use crate::QUOTE;
use text_read::pieces;

// No quote, or one pair about all of it.
pub fn is_content(field: &[u8]) -> bool
    ensures { result ≡ is_some (content_of field.now) }
{
    let first = pieces::find(field, QUOTE, 0);
    if field.len() <= first {
        return true;
    }
    if first != 0 {
        return false;
    }
    let second = pieces::find(field, QUOTE, 1);
    second == field.len() - 1
}

// 1 where it begins with a quote.
pub fn mark(field: &[u8]) -> usize
    ensures { result ≡ quoted_by field.now }
{
    usize::from(field.first() == Some(&QUOTE))
}

// The content; empty where there is none.
pub fn content<'a>(field: &'a [u8]) -> &'a [u8]
    ensures { result.now ≡ or_empty (content_of field.now) }
{
    if is_content(field) {
        let from = mark(field);
        let end = field.len() - from;
        return &field[from..end];
    }
    &[]
}
