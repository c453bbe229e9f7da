// The memory that a caller brings to a grading.
ghost use Rattle.std.specs.Prelude.{◌≡◌, ◌≤◌, true, length, take, replicate};
ghost use Rattle.grading.specs.Outcomes.{memory, brought, suffices};

use crate::forbidden::Forbidden;
use scale::scale::Scale;

// Grades have 64 places and a ring 64 bytes; scratch is 4,160 values and as many bytes. It may be more; what is more is kept on
// every outcome, in scratch too.
// Calls inside ask that each part has its size, by a clause: a type for that would be a second struct of the same four parts. And each
// call says that the same slices are lent after it, which no invariant can: it speaks of before and after.
#[derive(Drop)]
pub struct Memory<'a, V> {
    pub grades: &'a mut [V],
    pub ring: &'a mut [u8],
    pub values: &'a mut [V],
    pub bytes: &'a mut [u8],
}

impl<V> Memory<'_, V> {
    // Whether each part has its size.
    pub fn is_enough(&self) -> bool
        ensures { result ≡ suffices (brought self.now) }
    {
        self.grades.len() >= 64
            && self.ring.len() >= 64
            && self.values.len() >= 4160
            && self.bytes.len() >= 4160
    }

    // The ring that was found, in the first ring bytes.
    pub(crate) fn shown(&self, found: Forbidden) -> &[u8]
        requires { found.ring ≤ length self.now.ring.now }
        ensures { result.now ≡ take found.ring self.now.ring.now }
    {
        &self.ring[..found.ring as usize]
    }
}

// Memory of just the sizes, for values of any scale.
#[derive(Drop)]
pub struct Room<V> {
    grades: [V; 64],
    ring: [u8; 64],
    values: [V; 4160],
    bytes: [u8; 4160],
}

impl<V: Scale> Room<V> {
    // All places hold nothing.
    pub fn new() -> Room<V>
        ensures grades { result.grades ≡ replicate 64 V.nothing }
        ensures ring { result.ring ≡ replicate 64 0 }
        ensures values { result.values ≡ replicate 4160 V.nothing }
        ensures bytes { result.bytes ≡ replicate 4160 0 }
    {
        Room {
            grades: [V::nothing(); 64],
            ring: [0; 64],
            values: [V::nothing(); 4160],
            bytes: [0; 4160],
        }
    }

    // What it holds is lent, and is enough.
    pub fn lend(&mut self) -> Memory<'_, V>
        ensures lent { brought result ≡ memory self.old.grades self.old.ring self.old.values self.old.bytes }
        ensures enough { suffices (brought result) ≡ true }
    {
        let Room {
            grades,
            ring,
            values,
            bytes,
        } = self;
        Memory {
            grades,
            ring,
            values,
            bytes,
        }
    }
}
