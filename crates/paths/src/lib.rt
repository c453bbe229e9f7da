// The mathematics of relaxation on any scale: layers, walks, and rings whose sum is below nothing.
// No code but the functions that name its theorems.
#![tactic(auto)]

ghost use Rattle.paths.specs.Statements.{WalksBound, BelowForbids};

use scale::scale::Scale;

// Values that meet every step, none of them above nothing, are nowhere above the sum of a walk.
pub fn walks_bound<V: Scale>()
    ensures { WalksBound V.Scale }
{}

// A ring whose sum is below nothing leaves no values that meet every step.
pub fn ring_below_forbids<V: Scale>()
    ensures { BelowForbids V.Scale }
{}
