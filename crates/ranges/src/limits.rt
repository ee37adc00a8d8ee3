// The limits of the values of rows, each named once.

/// The longest service code, line name and journey code, in bytes.
pub const LONGEST_CODE: usize = 24;

/// The longest description of a line's direction.
pub const LONGEST_DESCRIPTION: usize = 80;

/// The longest stop code.
pub const LONGEST_STOP_CODE: usize = 12;

/// The longest name of a stop.
pub const LONGEST_STOP_NAME: usize = 48;

/// All seven weekdays of a mask.
pub const WEEKDAYS: u8 = 127;

/// All kinds of holidays of a mask.
pub const HOLIDAYS: u16 = 255;

/// The longest run of a link, in seconds.
pub const LONGEST_RUN: u32 = 21_600;

/// The longest wait at an end of a link, in seconds.
pub const LONGEST_WAIT: u32 = 3_600;

/// The activity with the greatest number.
pub const GREATEST_ACTIVITY: u8 = 4;

/// The greatest position of a link in a pattern.
pub const LAST_POSITION: u16 = 199;
