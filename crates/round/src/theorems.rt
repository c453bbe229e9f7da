// The theorem on writing and reading. The function does nothing: its contract is the statement that it is named after.
ghost use Rattle.round.specs.Trips.{RoundTrip};

use sheet::meaning::Sheet;

// What is written of a sheet of any make is read back: the same records, marks, grades and ring, and no decline.
pub fn round_trip<S: Sheet>()
    ensures { RoundTrip S.Sheet }
{}
