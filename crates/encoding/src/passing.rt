// Rows that pass the rules: how many bytes they take, and writing them.
ghost use Rattle.std.specs.Prelude.{◌≡◌, ◌+◌, ◌<◌, ◌≤◌, false, length, is_some, IfOk};
ghost use Rattle.std.specs.Result.{result_err};
ghost use Rattle.writing.specs.Puts.{Put};
ghost use Rattle.fields.specs.Forms.{field};
ghost use Rattle.refusals.specs.Numbers.{kind_number};
ghost use Rattle.deposit.specs.Deposit.{count_of};
ghost use Rattle.profile.specs.Verdict.{verdict};
ghost use Rattle.layout.specs.Writing.{bodies, fields_of, deposit_content};
ghost use Rattle.encoding.specs.Rows.{body_at};

use crate::rows::{Row, put_field};
use deposit::carrier::Carrier;
use profile::check::verdict;
use refusals::{DepositFault, KINDS, Kind};

/// A carrier whose rows pass the rules.
#[derive(Drop)]
pub(crate) struct PassingRows<'c, C: Carrier> {
    carrier: &'c C,
    ghost passes: { is_some (verdict (C.Carrier.meaning carrier.now)) ≡ false },
}

impl<'c, C: Carrier> PassingRows<'c, C> {
    /// The rows of a carrier where they pass, else the fault that the rules find in them.
    pub(crate) fn new(carrier: &'c C) -> Result<PassingRows<'c, C>, DepositFault>
        ensures fault { result_err result ≡ verdict (C.Carrier.meaning carrier.now) }
        ensures rows { IfOk result (λ rows. rows.carrier.now ≡ carrier.now) }
    {
        // by cases, since the field says what the second one knows
        match verdict(carrier) {
            Some(fault) => Err(fault),
            None => Ok(PassingRows { carrier }),
        }
    }

    // Rows are measured beside being written: what does not fit must leave the bytes as they were.
    // How many bytes the content of a row takes. A row of each kind is of its own type, so each arm calls another `size`.
    fn row_length(&self, kind: Kind, row: usize) -> usize
        requires { row < count_of (C.Carrier.meaning self.now.carrier.now) kind }
        ensures value { result ≡ length (body_at (C.Carrier.meaning self.now.carrier.now) kind row) }
        ensures few { result ≤ 197 }
    {
        match kind {
            Kind::Head => self.carrier.head(row).size(),
            Kind::Line => self.carrier.line(row).size(),
            Kind::Stop => self.carrier.stop(row).size(),
            Kind::Profile => self.carrier.profile(row).size(),
            Kind::Special => self.carrier.special(row).size(),
            Kind::Link => self.carrier.link(row).size(),
            Kind::Section => self.carrier.section(row).size(),
            Kind::Use => self.carrier.use_of_section(row).size(),
            Kind::Pattern => self.carrier.pattern(row).size(),
            Kind::Override => self.carrier.override_row(row).size(),
            Kind::Journey => self.carrier.journey(row).size(),
        }
    }

    // How many bytes the fields of the rows of a kind take.
    fn kind_length(&self, kind: Kind) -> usize
        ensures value { result ≡ length (fields_of (kind_number kind) (bodies (C.Carrier.meaning self.now.carrier.now) kind)) }
        ensures few { result ≤ 200000 }
    {
        let mut total = 0;
        for row in 0..self.carrier.count(kind) {
            total += 3 + self.row_length(kind, row);
        }
        total
    }

    /// How many bytes the fields of all rows take.
    pub(crate) fn length(&self) -> usize
        ensures { result ≡ length (deposit_content (C.Carrier.meaning self.now.carrier.now)) }
    {
        let mut total = 0;
        for kind in &KINDS {
            total += self.kind_length(*kind);
        }
        total
    }

    // Writes a row as a field; each arm calls `put_field` at another type.
    fn put_row(&self, out: &mut [u8], kind: Kind, row: usize) -> usize
        requires within { row < count_of (C.Carrier.meaning self.now.carrier.now) kind }
        requires room { 3 + length (body_at (C.Carrier.meaning self.now.carrier.now) kind row) ≤ length out.old }
        ensures { Put out.old 0 (field (kind_number kind) (body_at (C.Carrier.meaning self.now.carrier.now) kind row)) out.new result }
    {
        match kind {
            Kind::Head => put_field(out, self.carrier.head(row)),
            Kind::Line => put_field(out, self.carrier.line(row)),
            Kind::Stop => put_field(out, self.carrier.stop(row)),
            Kind::Profile => put_field(out, self.carrier.profile(row)),
            Kind::Special => put_field(out, self.carrier.special(row)),
            Kind::Link => put_field(out, self.carrier.link(row)),
            Kind::Section => put_field(out, self.carrier.section(row)),
            Kind::Use => put_field(out, self.carrier.use_of_section(row)),
            Kind::Pattern => put_field(out, self.carrier.pattern(row)),
            Kind::Override => put_field(out, self.carrier.override_row(row)),
            Kind::Journey => put_field(out, self.carrier.journey(row)),
        }
    }

    // Writes the rows of a kind as fields.
    fn put_kind(&self, out: &mut [u8], kind: Kind) -> usize
        requires { length (fields_of (kind_number kind) (bodies (C.Carrier.meaning self.now.carrier.now) kind)) ≤ length out.old }
        ensures { Put out.old 0 (fields_of (kind_number kind) (bodies (C.Carrier.meaning self.now.carrier.now) kind)) out.new result }
    {
        let mut next = 0;
        for row in 0..self.carrier.count(kind) {
            next += self.put_row(&mut out[next..], kind, row);
        }
        next
    }

    /// Writes all rows as fields, kind after kind, at the front of the bytes and tells how many they took.
    pub(crate) fn put(&self, out: &mut [u8]) -> usize
        requires { length (deposit_content (C.Carrier.meaning self.now.carrier.now)) ≤ length out.old }
        ensures { Put out.old 0 (deposit_content (C.Carrier.meaning self.now.carrier.now)) out.new result }
    {
        let mut next = 0;
        for kind in &KINDS {
            next += self.put_kind(&mut out[next..], *kind);
        }
        next
    }
}
