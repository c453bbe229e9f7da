// A theorem on folders. The function does nothing: its contract is the statement that it is named after.
ghost use Rattle.layers.specs.Statements.{AsideAndBack};

// What is set aside and brought back stands as before, with its marks.
pub fn aside_and_back()
    ensures { AsideAndBack }
{}
