// The line of a holiday.
ghost use Rattle.std.specs.Prelude.{◌≡◌, ◌≤◌, length};
ghost use Rattle.calendar.specs.Dates.{last_day};
ghost use Rattle.calendar.specs.Kinds.{kind_number};
ghost use Rattle.pieces.specs.Texts.{pieces_text};
ghost use Rattle.holiday_lines.specs.Texts.{line_of};

use calendar::books::HolidayKind;
use calendar::dates::Date;
use calendar::weeks::Weekday;
use pieces::piece::Piece;

// A day and the fact that it has a date go together through three functions here; a struct of it would be made anew at each turn.
/// The pieces of the line of a holiday.
pub(crate) fn line_of(day: u32, kind: HolidayKind) -> [Piece<'static>; 10]
    requires { day ≤ last_day }
    ensures text { pieces_text result ≡ line_of day (kind_number kind) }
    ensures few { length (line_of day (kind_number kind)) ≤ 80 }
{
    let date = Date::of(day).unwrap();
    [
        Piece::Date {
            year: date.year,
            month: date.month,
            of_month: date.of_month,
        },
        Piece::Text(b" "),
        Piece::Text(Weekday::of(day).name().as_bytes()),
        Piece::Text(b" "),
        Piece::Number(day as usize),
        Piece::Text(b" "),
        Piece::Number(usize::from(kind.number())),
        Piece::Text(b" "),
        Piece::Text(kind.name().as_bytes()),
        Piece::Text(b"\n"),
    ]
}
