// Small folders, worked out by hand, as one theorem about the definitions. No code but the function that carries it.
#![tactic(auto)]

ghost use Rattle.samples.specs.Statements.{Samples};

// Of each sample folder: its least ratio, grades, refusals and release are these.
pub fn sample_folders()
    ensures { Samples }
{}
