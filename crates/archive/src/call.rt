// What is asked of a folder.
use model::thresholds::Thresholds;

#[derive(Clone, Copy)]
pub enum Call {
    Enter(u8),
    Mark(u8, u8),
    Strike(u8, u8),
    SetAside(u8),
    BringBack(u8),
    // grades on the whole scale, on the pair of whole and unit, and on the unit scale
    Loose(Thresholds),
    Strict(Thresholds),
    Unit,
    // the least ratio, with its ring and the loose grades at it
    Ratio,
    // a line that stands for no call: it changes nothing, and is declined. It has its place among the answers like any call: as a
    // None it would be told apart at every step, and be answered all the same
    Wrong,
}
