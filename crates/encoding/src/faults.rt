// Why a deposit is not written.
ghost use Rattle.std.specs.Prelude.{◌≡◌};
ghost use Rattle.encoding.specs.Faults.{write_number};
ghost use Rattle.encoding.specs.declared.faults.WriteFault.TheVariants.{Broken};

use refusals::DepositFault;

/// Why a deposit is not written.
#[derive(Clone, Copy, Debug, PartialEq, Eq)]
pub enum WriteFault {
    /// 11 to 20: it breaks a rule.
    Broken(DepositFault),
    /// 21: its rows take more bytes than one field can hold.
    TooLong,
    /// 32: there is no room for it.
    NoRoom,
}

impl WriteFault {
    // A case with a fault in it has no discriminant to be its number.
    /// 11 to 21, or 32.
    pub fn number(self) -> u8
        ensures value { result ≡ write_number self }
    {
        match self {
            WriteFault::Broken(DepositFault::Breaks { rule, .. }) => rule.number(),
            WriteFault::TooLong => 21,
            WriteFault::NoRoom => 32,
        }
    }
}

/// A deposit that breaks a rule is not written.
impl From<DepositFault> for WriteFault {
    ghost from_gives = { λ fault told. told ≡ Broken fault };

    fn from(fault: DepositFault) -> WriteFault {
        WriteFault::Broken(fault)
    }
}
