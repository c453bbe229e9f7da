// How one record leads to another, where it does.

#[derive(Clone, Copy, Debug, PartialEq, Eq)]
pub enum Step {
    // the second was judged stronger
    Mark,
    // compared and found alike: no mark either way
    Hop,
}
