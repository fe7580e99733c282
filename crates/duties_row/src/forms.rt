// Names, the type, and the course.
ghost use Rattle.std.specs.Prelude.{◌≡◌};
ghost use Rattle.rules.specs.Duties.{is_train, is_known, is_course, is_name, type_column, course_column};
ghost use Rattle.duties_fields.specs.Fields.{content_in};
ghost use Rattle.duties_row.specs.Rowed.{is_named, is_row};

use crate::numbers;
use duties_fields::{fields, names};
use rules::sizes::{Column, Event};
use text_read::words;

fn is_train(s: &[u8]) -> bool
    ensures { result ≡ is_train s.now }
{
    words::spells(s, &Event::TRAIN)
}

fn is_known(s: &[u8]) -> bool
    ensures { result ≡ is_known s.now }
{
    is_train(s) || words::spells(s, &Event::CHANGE_END) || words::spells(s, &Event::SPARE)
}

// A name for TRAIN, and else empty.
fn is_course(kind: &[u8], course: &[u8]) -> bool
    ensures { result ≡ is_course kind.now course.now }
{
    if is_train(kind) {
        return names::is_name(course);
    }
    course.is_empty()
}

fn name_at(line: &[u8], k: usize) -> bool
    ensures { result ≡ is_name (content_in k line.now) }
{
    names::is_name(fields::content_at(line, k))
}

fn has_course(line: &[u8]) -> bool
    ensures { result ≡ is_course (content_in type_column line.now) (content_in course_column line.now) }
{
    is_course(
        fields::content_at(line, Column::KIND),
        fields::content_at(line, Column::COURSE),
    )
}

fn is_named(line: &[u8]) -> bool
    ensures { result ≡ is_named line.now }
{
    name_at(line, Column::DUTY)
        && name_at(line, Column::FROM)
        && name_at(line, Column::TO)
        && has_course(line)
}

pub fn train_in(line: &[u8]) -> bool
    ensures { result ≡ is_train (content_in type_column line.now) }
{
    is_train(fields::content_at(line, Column::KIND))
}

pub fn known_in(line: &[u8]) -> bool
    ensures { result ≡ is_known (content_in type_column line.now) }
{
    is_known(fields::content_at(line, Column::KIND))
}

pub fn is_row(line: &[u8]) -> bool
    ensures { result ≡ is_row line.now }
{
    fields::is_ten(line) && is_named(line) && numbers::has_wholes(line)
}
