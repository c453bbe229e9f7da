// The least ratio: the greatest ratio of marks to hops that a ring has, with that ring and the grades at that ratio.
ghost use Rattle.std.specs.Prelude.{◌≡◌, true, length, pos, nat_lt};
ghost use Rattle.model.specs.Limits.{within_limits};
ghost use Rattle.model.specs.Ratios.{thresholds_at};
ghost use Rattle.model.specs.Views.{View};
ghost use Rattle.scale.specs.Wholes.{of_whole};
ghost use Rattle.sheet.specs.Views.{view_of};
ghost use Rattle.grading.specs.Graphs.{Draws};
ghost use Rattle.paths.specs.Numbers.{BestLoose, ForbidsLoosely};
ghost use Rattle.grading.specs.Outcomes.{memory, brought, enough, suffices, PastKept, SameLent, Attempt};
ghost use Rattle.grading.specs.Ratios.{RatioFound, ratio, Climbed, answer_to};

use crate::count::{Tally, count_steps};
use crate::forbidden::Forbidden;
use crate::graph::Graph;
use crate::memory::Memory;
use crate::read::read;
use crate::solve::solve_graph;
use model::decline::Decline;
use model::thresholds::Thresholds;
use scale::whole::Whole;
use sheet::meaning::Sheet;

// Marks to hops on the ring shown, and how many records that ring has. Where no ring has a mark the answer is 0 to 1 with a ring of
// none: these numbers are the answer's own, so no Option is about them.
#[derive(Clone, Copy)]
pub struct Ratio {
    pub marks: u8,
    pub hops: u8,
    pub ring: u8,
}

impl Ratio {
    // Before any ring is found.
    fn none() -> Ratio
        ensures { result ≡ ratio 0 1 0 }
    {
        Ratio {
            marks: 0,
            hops: 1,
            ring: 0,
        }
    }

    fn of(tally: Tally, ring: u8) -> Ratio
        ensures { result ≡ ratio tally.marks tally.hops ring }
    {
        Ratio {
            marks: tally.marks,
            hops: tally.hops,
            ring,
        }
    }

    // A ring without hops is a circle, above every ratio: that is what a circle is, and no number stands for it.
    fn has_hops(self) -> bool
        ensures { result ≡ nat_lt 0 self.hops }
    {
        self.hops > 0
    }

    // A ring has a greater ratio just where it forbids a loose grading at these.
    fn thresholds(self) -> Thresholds
        ensures { result ≡ thresholds_at self.marks self.hops }
    {
        Thresholds {
            t1: self.hops as u32,
            t2: self.marks as u32,
        }
    }

    fn answer(self) -> Result<Ratio, Decline>
        ensures { result ≡ answer_to self }
    {
        if self.has_hops() {
            Ok(self)
        } else {
            Err(Decline::Circle { ring: self.ring })
        }
    }
}

// The best loose grading of what the graph draws, or a ring that forbids every one.
fn solve_loosely(
    graph: &Graph,
    thresholds: Thresholds,
    memory: &mut Memory<'_, Whole>,
) -> Result<(), Forbidden>
    requires room { suffices (brought memory.old) ≡ true }
    requires limits { within_limits thresholds ≡ true }
    ensures solved { (w : View) → Draws w graph.now → Attempt w (λ g. BestLoose w thresholds (λ u. (g u).value)) (of_whole (pos 0)) (ForbidsLoosely w thresholds)
        (brought memory.old) (brought memory.new) result }
    ensures same { SameLent memory.old memory.new }
{
    solve_graph::<Whole>(graph, thresholds, memory)
}

// From ring to ring, each of a greater ratio, until none has a greater one or a circle shows. The memory has the last ring.
fn climb<S: Sheet>(sheet: &S, memory: &mut Memory<'_, Whole>) -> Ratio
    requires { suffices (brought memory.old) ≡ true }
    ensures climbed { Climbed (view_of S.Sheet sheet.now) result (brought memory.old).grades (brought memory.new).grades (brought memory.new).ring }
    ensures same { SameLent memory.old memory.new }
{
    let graph = read(sheet);
    let mut best = Ratio::none();
    while best.has_hops() {
        match solve_loosely(&graph, best.thresholds(), memory) {
            Ok(()) => return best,
            Err(found) => {
                best = Ratio::of(count_steps(&graph, memory.shown(found)), found.ring);
            }
        }
    }
    best
}

// The same with rings in bytes of their own. The parts come one by one: made into a memory where the caller's is at hand, they are
// not shown to be the same again.
fn climb_beside<S: Sheet>(
    sheet: &S,
    grades: &mut [Whole],
    ring: &mut [u8],
    values: &mut [Whole],
    bytes: &mut [u8],
) -> Ratio
    requires { enough (length grades.old) (length ring.old) (length values.old) (length bytes.old) ≡ true }
    ensures climbed { Climbed (view_of S.Sheet sheet.now) result grades.old grades.new ring.new }
    ensures past { PastKept (memory grades.old ring.old values.old bytes.old) (memory grades.new ring.new values.new bytes.new) }
{
    let mut memory = Memory {
        grades,
        ring,
        values,
        bytes,
    };
    climb(sheet, &mut memory)
}

// The least ratio of what stands, its ring, and the best loose grades for t1 = hops and t2 = marks: declines by 1, 12.
pub fn least_ratio<S: Sheet>(sheet: &S, memory: &mut Memory<'_, Whole>) -> Result<Ratio, Decline>
    ensures found { RatioFound (view_of S.Sheet sheet.now) (brought memory.old) (brought memory.new) result }
    ensures same { SameLent memory.old memory.new }
{
    if !memory.is_enough() {
        return Err(Decline::TooLittleMemory);
    }
    // Rings found on the way stay here: the caller's bytes past the last one are kept.
    let mut shown = [0; 64];
    let best = climb_beside(
        sheet,
        memory.grades,
        &mut shown,
        memory.values,
        memory.bytes,
    );
    let k = best.ring as usize;
    memory.ring[..k].copy_from_slice(&shown[..k]);
    best.answer()
}
