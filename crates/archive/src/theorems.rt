// The theorem on calls that are made on a folder directly. The function does nothing: its contract is the statement that it is named after.
ghost use Rattle.archive.specs.Direct.{DirectUpheld};

use sheet::meaning::Sheet;

// Calls made one after another on a new folder over any sheet, each told by its own contract alone: the folder has what the plain account
// has and answers each question so, each call gave what is right at its step, and settings aside alone made no least ratio greater.
pub fn direct_calls_uphold<S: Sheet>()
    ensures { DirectUpheld S.Sheet }
{}
