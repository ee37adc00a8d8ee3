// Absolute times and lengths of time. Two absolute times are never added: there is no such sum.
ghost use Rattle.std.specs.Prelude.{◌≡◌, ◌+◌, ◌^◌, ◌<◌};
ghost use Rattle.times.specs.Sums.{Sum};

use std::ops::Add;

/// Seconds from midnight of the operating day.
#[derive(Clone, Copy, Debug, PartialEq, Eq, PartialOrd, Ord)]
pub struct AbsoluteTime(pub u32);

/// A length of time in seconds.
#[derive(Clone, Copy, Debug, PartialEq, Eq, PartialOrd, Ord)]
pub struct RelativeTime(pub u32);

impl Add<RelativeTime> for AbsoluteTime {
    type Output = AbsoluteTime;

    ghost can_add = { λ at by. at.0 + by.0 < 2 ^ 32 };

    ghost add_gives = { λ at by r. r.0 ≡ at.0 + by.0 };

    fn add(self, by: RelativeTime) -> AbsoluteTime {
        AbsoluteTime(self.0 + by.0)
    }
}

impl Add<RelativeTime> for RelativeTime {
    type Output = RelativeTime;

    ghost can_add = { λ x y. x.0 + y.0 < 2 ^ 32 };

    ghost add_gives = { λ x y r. r.0 ≡ x.0 + y.0 };

    fn add(self, other: RelativeTime) -> RelativeTime {
        RelativeTime(self.0 + other.0)
    }
}

// The two sums of each kind stay two: each is one call of the library, and one for both would hide that there is no sum of two times.
impl AbsoluteTime {
    /// The time so much later, unless the number of its seconds is too great.
    pub fn checked_add(self, by: RelativeTime) -> Option<AbsoluteTime>
        ensures answer { Sum result (self.0 + by.0) (λ t. t.0) }
    {
        self.0.checked_add(by.0).map(AbsoluteTime)
    }
}

impl RelativeTime {
    /// Both lengths together, unless the number of seconds is too great.
    pub fn checked_add(self, other: RelativeTime) -> Option<RelativeTime>
        ensures answer { Sum result (self.0 + other.0) (λ t. t.0) }
    {
        self.0.checked_add(other.0).map(RelativeTime)
    }
}
