// The theorems on rings and gradings. Each function does nothing: its contract is the statement that it is named after.
ghost use Rattle.model.specs.Statements.{RingForbidsLoose, RingForbidsStrict, AllStepsCount, TurningKeeps, FewerRings, FewerCircles, GradingShowsLeast, GradingAbove, NoGreaterRatio};

// A ring with e·t1 > h·t2 leaves no loose grading, to any denominator.
pub fn ring_forbids_loose()
    ensures { RingForbidsLoose }
{}

// A ring with e ≥ 1 and e·t1 ≥ h·t2 leaves no strict grading, to any denominator.
pub fn ring_forbids_strict()
    ensures { RingForbidsStrict }
{}

// Each step of a ring is a mark or a hop, and not both: e + h is the number of its records.
pub fn all_steps_count()
    ensures { AllStepsCount }
{}

// Read from another of its records, a ring keeps its steps, its marks and its hops.
pub fn turning_keeps_a_ring()
    ensures { TurningKeeps }
{}

// A ring of fewer standing records is a ring of all of them, with the same marks and hops.
pub fn fewer_records_fewer_rings()
    ensures { FewerRings }
{}

// A circle of fewer standing records is a circle of all of them.
pub fn fewer_records_fewer_circles()
    ensures { FewerCircles }
{}

// What shows a ratio (a ring that has it, or none for 0 to 1) and a loose grading at that ratio are enough: it is the least ratio.
pub fn grading_shows_least_ratio()
    ensures { GradingShowsLeast }
{}

// A loose grading at a ratio e/h, to a denominator d, gives one to d·h for all thresholds whose t2/t1 is no less.
pub fn grading_at_a_ratio_and_above()
    ensures { GradingAbove }
{}

// With fewer standing records the least ratio is no greater.
pub fn fewer_records_no_greater_ratio()
    ensures { NoGreaterRatio }
{}
