// The rows of each kind as values that stand in bytes.
ghost use Rattle.std.specs.Prelude.{◌≡◌, ◌+◌, ◌≤◌, length};
ghost use Rattle.writing.specs.Puts.{Put};
ghost use Rattle.refusals.specs.declared.Kind.{Kind};
ghost use Rattle.refusals.specs.declared.Kind.TheVariants as kinds;
ghost use Rattle.refusals.specs.Numbers.{kind_number};
ghost use Rattle.fields.specs.Forms.{field};
ghost use Rattle.deposit.specs.Deposit.{head_of, line_of, stop_of, journey_of};
ghost use Rattle.layout.specs.Writing.{head_body, line_body, stop_body, profile_body, special_body, link_body, section_body, use_body, pattern_body, override_body, journey_body};

use crate::parts::Part;
use deposit::rows::{
    HeadRow, JourneyRow, LineRow, LinkRow, OverrideRow, PatternRow, ProfileRow, SectionRow,
    SpecialRow, StopRow, UseRow,
};
use layout::table::width;
use refusals::Kind;

/// The row of a kind, which is the content of a field.
pub(crate) trait Row: Part {
    ghost kind: { Kind };

    fn kind(self) -> Kind
        ensures { result ≡ kind };

    /// How many bytes it takes.
    fn size(self) -> usize
        requires { Self.can_put self }
        ensures value { result ≡ length (Self.bytes_of self) }
        ensures few { result ≤ 197 };
}

/// Writes a row as a field, with the number of its kind as tag. The caller has seen to the room.
pub(crate) fn put_field<R: Row>(out: &mut [u8], row: R) -> usize
    requires can { R.can_put row }
    requires room { 3 + length (R.bytes_of row) ≤ length out.old }
    ensures { Put out.old 0 (field (kind_number R.kind) (R.bytes_of row)) out.new result }
{
    row.kind()
        .number()
        .then(row.size() as u16)
        .then(row)
        .put(out)
}

impl Part for HeadRow<'_> {
    ghost bytes_of = { λ row. head_body (head_of row) };

    ghost can_put = { λ row. length row.service.now ≤ 24 };

    fn put(self, out: &mut [u8]) -> usize {
        let numbers = self
            .revision
            .then(self.created)
            .then(self.modified)
            .then(self.modification)
            .then(self.start)
            .then(self.end)
            .then(self.profile);
        self.service.then(numbers).put(out)
    }
}

impl Row for HeadRow<'_> {
    ghost kind = { kinds.Head };

    fn kind(self) -> Kind {
        Kind::Head
    }

    fn size(self) -> usize {
        3 + self.service.len() + width(self.kind())
    }
}

impl Part for LineRow<'_> {
    ghost bytes_of = { λ row. line_body (line_of row) };

    ghost can_put = { λ row. length row.name.now + length row.outbound.now + length row.inbound.now ≤ 184 };

    fn put(self, out: &mut [u8]) -> usize {
        self.name.then(self.outbound.then(self.inbound)).put(out)
    }
}

impl Row for LineRow<'_> {
    ghost kind = { kinds.Line };

    fn kind(self) -> Kind {
        Kind::Line
    }

    fn size(self) -> usize {
        9 + self.name.len() + self.outbound.len() + self.inbound.len()
    }
}

impl Part for StopRow<'_> {
    ghost bytes_of = { λ row. stop_body (stop_of row) };

    ghost can_put = { λ row. length row.code.now + length row.name.now ≤ 60 };

    fn put(self, out: &mut [u8]) -> usize {
        self.code.then(self.name).put(out)
    }
}

impl Row for StopRow<'_> {
    ghost kind = { kinds.Stop };

    fn kind(self) -> Kind {
        Kind::Stop
    }

    fn size(self) -> usize {
        6 + self.code.len() + self.name.len()
    }
}

impl Part for ProfileRow {
    ghost bytes_of = { profile_body };

    ghost can_put = { λ row. (row.runs ≤ 255) × (row.not_runs ≤ 255) };

    fn put(self, out: &mut [u8]) -> usize {
        self.weekdays
            .then(self.runs as u8)
            .then(self.not_runs as u8)
            .then(self.first_special)
            .then(self.specials)
            .put(out)
    }
}

impl Row for ProfileRow {
    ghost kind = { kinds.Profile };

    fn kind(self) -> Kind {
        Kind::Profile
    }

    fn size(self) -> usize {
        width(self.kind())
    }
}

impl Part for SpecialRow {
    ghost bytes_of = { special_body };

    fn put(self, out: &mut [u8]) -> usize {
        self.first.then(self.last).then(self.runs).put(out)
    }
}

impl Row for SpecialRow {
    ghost kind = { kinds.Special };

    fn kind(self) -> Kind {
        Kind::Special
    }

    fn size(self) -> usize {
        width(self.kind())
    }
}

impl Part for LinkRow {
    ghost bytes_of = { link_body };

    fn put(self, out: &mut [u8]) -> usize {
        let times = self.run.then(self.from_wait).then(self.to_wait);
        let activities = self.from_activity.then(self.to_activity);
        self.from
            .then(self.to)
            .then(times)
            .then(activities)
            .put(out)
    }
}

impl Row for LinkRow {
    ghost kind = { kinds.Link };

    fn kind(self) -> Kind {
        Kind::Link
    }

    fn size(self) -> usize {
        width(self.kind())
    }
}

impl Part for SectionRow {
    ghost bytes_of = { section_body };

    fn put(self, out: &mut [u8]) -> usize {
        self.first_link.then(self.links).put(out)
    }
}

impl Row for SectionRow {
    ghost kind = { kinds.Section };

    fn kind(self) -> Kind {
        Kind::Section
    }

    fn size(self) -> usize {
        width(self.kind())
    }
}

impl Part for UseRow {
    ghost bytes_of = { use_body };

    fn put(self, out: &mut [u8]) -> usize {
        self.section.put(out)
    }
}

impl Row for UseRow {
    ghost kind = { kinds.Use };

    fn kind(self) -> Kind {
        Kind::Use
    }

    fn size(self) -> usize {
        width(self.kind())
    }
}

impl Part for PatternRow {
    ghost bytes_of = { pattern_body };

    fn put(self, out: &mut [u8]) -> usize {
        self.direction.then(self.first_use).then(self.uses).put(out)
    }
}

impl Row for PatternRow {
    ghost kind = { kinds.Pattern };

    fn kind(self) -> Kind {
        Kind::Pattern
    }

    fn size(self) -> usize {
        width(self.kind())
    }
}

impl Part for OverrideRow {
    ghost bytes_of = { override_body };

    fn put(self, out: &mut [u8]) -> usize {
        self.position
            .then(self.run)
            .then(self.from_wait)
            .then(self.to_wait)
            .put(out)
    }
}

impl Row for OverrideRow {
    ghost kind = { kinds.Override };

    fn kind(self) -> Kind {
        Kind::Override
    }

    fn size(self) -> usize {
        width(self.kind())
    }
}

impl Part for JourneyRow<'_> {
    ghost bytes_of = { λ row. journey_body (journey_of row) };

    ghost can_put = { λ row. length row.code.now ≤ 24 };

    fn put(self, out: &mut [u8]) -> usize {
        let numbers = self
            .line
            .then(self.pattern)
            .then(self.other)
            .then(self.profile)
            .then(self.departure)
            .then(self.day_shift)
            .then(self.first_override)
            .then(self.overrides);
        self.code.then(numbers).put(out)
    }
}

impl Row for JourneyRow<'_> {
    ghost kind = { kinds.Journey };

    fn kind(self) -> Kind {
        Kind::Journey
    }

    fn size(self) -> usize {
        3 + self.code.len() + width(self.kind())
    }
}
