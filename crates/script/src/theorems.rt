// The theorems on lines. Each function does nothing: its contract is the statement that it is named after.
ghost use Rattle.script.specs.Statements.{ReadOneWay, LinesShort, LongLinesWrong};

// The bytes of a line are those of one call only.
pub fn read_one_way()
    ensures { ReadOneWay }
{}

// A line of the form has at most 17 bytes.
pub fn lines_are_short()
    ensures { LinesShort }
{}

// A line of more than 80 bytes stands for no call.
pub fn long_lines_are_wrong()
    ensures { LongLinesWrong }
{}
