// The theorem on the form of a release. The function does nothing: its contract is the statement that it is named after.
ghost use Rattle.form.specs.Statements.{ReadAsLaidOut};

// Bytes are read as contents, to their end, just where they are the layout of them and the contents meet the rules of the form.
pub fn read_as_laid_out()
    ensures { ReadAsLaidOut }
{}
