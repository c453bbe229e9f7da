// What stands and its steps, as adjacency rows.
ghost use Rattle.std.specs.Prelude.{◌≡◌, ◌<◌, slice_index};
ghost use Rattle.model.specs.Sets.{has};
ghost use Rattle.grading.specs.Rows.{Apart};

use model::bits::has_bit;

// Bit u of `standing` says that u stands, bit u of row v that a mark, or a hop, leads from u to v. Marks and hops are two arrays and not
// one of pairs: each is made whole by `rows`, from a test of its own.
#[derive(Clone, Copy)]
pub struct Graph {
    pub standing: u64,
    pub marks: [u64; 64],
    pub hops: [u64; 64],
    // a step is a mark or a hop, and not both
    ghost apart: { Apart marks hops },
}

impl Graph {
    // Whether a mark leads from u to v.
    pub fn has_mark(&self, u: usize, v: usize) -> bool
        requires { v < 64 }
        ensures { result ≡ has (slice_index self.now.marks v) u }
    {
        has_bit(self.marks[v], u)
    }

    pub fn has_hop(&self, u: usize, v: usize) -> bool
        requires { v < 64 }
        ensures { result ≡ has (slice_index self.now.hops v) u }
    {
        has_bit(self.hops[v], u)
    }
}
