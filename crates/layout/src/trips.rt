// The byte form keeps what is written: two theorems of the definitions, and a worked example.
ghost use Rattle.layout.specs.Trips.{SameRows, SameBytes, WorkedStop};

/// Kept rows are written and read again as the same rows; bytes in form are read and written again as the same bytes.
pub fn round_trips_stand()
    ensures rows { SameRows }
    ensures bytes { SameBytes }
    ensures worked { WorkedStop }
{}
