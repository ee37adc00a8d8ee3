// Every reason for which a call of the archive does not do what it was asked.
#![tactic(auto)]

ghost use Rattle.std.specs.Prelude.{◌≡◌, Some};
ghost use Rattle.refusals.specs.Numbers.{told, told_bytes, place_of, kind_number, rule_number, KindTried, refusal_words};
ghost use Rattle.refusals.specs.declared.Refusal.TheVariants.{Deposit};

use std::error::Error;
use std::fmt;

/// A kind of row of a deposit.
#[derive(Clone, Copy, Debug, PartialEq, Eq)]
pub enum Kind {
    Head = 1,
    Line = 2,
    Stop = 3,
    Profile = 4,
    Special = 5,
    Link = 6,
    Section = 7,
    Use = 8,
    Pattern = 9,
    Override = 10,
    Journey = 11,
}

/// Every kind, in the order of the numbers.
pub const KINDS: [Kind; 11] = [
    Kind::Head,
    Kind::Line,
    Kind::Stop,
    Kind::Profile,
    Kind::Special,
    Kind::Link,
    Kind::Section,
    Kind::Use,
    Kind::Pattern,
    Kind::Override,
    Kind::Journey,
];

impl Kind {
    /// 1 for the head to 11 for a journey.
    pub fn number(self) -> u8
        ensures value { result ≡ kind_number self }
    {
        self as u8
    }
}

// No library call gives the case of a discriminant.
/// The kind that a number stands for; 40 for the number of no kind.
impl TryFrom<u8> for Kind {
    type Error = Refusal;

    ghost try_from_gives = { KindTried };

    fn try_from(number: u8) -> Result<Kind, Refusal> {
        match number {
            1 => Ok(Kind::Head),
            2 => Ok(Kind::Line),
            3 => Ok(Kind::Stop),
            4 => Ok(Kind::Profile),
            5 => Ok(Kind::Special),
            6 => Ok(Kind::Link),
            7 => Ok(Kind::Section),
            8 => Ok(Kind::Use),
            9 => Ok(Kind::Pattern),
            10 => Ok(Kind::Override),
            11 => Ok(Kind::Journey),
            _ => Err(Refusal::OutOfRange),
        }
    }
}

/// A rule of the profile that a deposit can break.
#[derive(Clone, Copy, Debug, PartialEq, Eq)]
pub enum Rule {
    /// 11: how many rows of a kind there are.
    Counts = 11,
    /// 12: a value or a reference is out of range.
    Ranges = 12,
    /// 13: revision, modification and modified moment do not agree.
    Revision = 13,
    /// 14: the operating period ends before it starts.
    Period = 14,
    /// 15: a line has no description.
    Description = 15,
    /// 16: the holidays of a profile contradict each other, or a special ends before it starts.
    Days = 16,
    /// 17: a journey does not name one pattern and a profile.
    Reference = 17,
    /// 18: the links of a pattern are too many or do not join.
    Joining = 18,
    /// 19: a journey's overrides do not rise, or lie outside its pattern.
    Overriding = 19,
    /// 20: a stop code or a journey code stands twice.
    Codes = 20,
}

impl Rule {
    /// 11 to 20.
    pub fn number(self) -> u8
        ensures value { result ≡ rule_number self }
    {
        self as u8
    }
}

/// What is wrong with a deposit.
#[derive(Clone, Copy, Debug, PartialEq, Eq)]
pub enum DepositFault {
    /// 11 to 20: a row of a kind breaks a rule.
    Breaks { rule: Rule, kind: Kind, row: usize },
}

/// What is wrong with bytes that should be in form, and the place of the field that shows it.
#[derive(Clone, Copy, Debug, PartialEq, Eq)]
pub enum ByteFault {
    /// 50: a field overruns what holds it.
    Overruns { place: usize },
    /// 51: a tag is not due here.
    Undue { place: usize },
    /// 52: a row's content is too short or long, a text too long, or half a moment missing.
    Misfits { place: usize },
}

impl ByteFault {
    // Cases with a place in them have no discriminants to be their numbers.
    /// 50 to 52.
    pub fn number(self) -> u8
        ensures value { result ≡ (told_bytes self).number }
    {
        match self {
            ByteFault::Overruns { .. } => 50,
            ByteFault::Undue { .. } => 51,
            ByteFault::Misfits { .. } => 52,
        }
    }

    // One arm for all cases of a closed enum, each of which has a place.
    /// The place of the field that shows it.
    pub fn place(self) -> usize
        ensures value { result ≡ place_of self }
    {
        match self {
            ByteFault::Overruns { place }
            | ByteFault::Undue { place }
            | ByteFault::Misfits { place } => place,
        }
    }
}

/// A refusal: each case has one number, which `number` tells.
#[derive(Clone, Copy, Debug, PartialEq, Eq)]
pub enum Refusal {
    /// 11 to 20: a fault of the deposit.
    Deposit(DepositFault),
    /// 40: a day, a date or a code that a reader gave is out of range.
    OutOfRange,
    /// 44: a list is too short for what was to be put into it.
    TooShort,
}

impl Refusal {
    // A case with a fault in it has no discriminant to be its number.
    /// The number by which users know this refusal.
    pub fn number(self) -> u8
        ensures value { result ≡ (told self).number }
    {
        match self {
            Refusal::Deposit(DepositFault::Breaks { rule, .. }) => rule.number(),
            Refusal::OutOfRange => 40,
            Refusal::TooShort => 44,
        }
    }
}

/// A fault of the deposit refuses it.
impl From<DepositFault> for Refusal {
    ghost from_gives = { λ fault refusal. refusal ≡ Deposit fault };

    fn from(fault: DepositFault) -> Refusal {
        Refusal::Deposit(fault)
    }
}

impl fmt::Display for Refusal {
    ghost output = { λ refusal. Some (refusal_words refusal) };

    fn fmt<W: fmt::Write>(&self, f: &mut fmt::Formatter<W>) -> fmt::Result {
        write!(f, "refused {}", self.number())
    }
}

impl Error for Refusal {}
