// The four sections of a release, each after its count.
ghost use Rattle.std.specs.Prelude.{[], length};
ghost use Rattle.model.specs.Sets.{has};
ghost use Rattle.form.specs.Reading.{records_part, marks_part, depths_part, ring_part, release};
ghost use Rattle.form.specs.Sections.{records_below};
ghost use Rattle.reading.specs.Giving.{GivesAs};
ghost use Rattle.reading.specs.Claims.{of_set, IsSet, AreRows, ArePlaces, IsRing, StandsFor};

use crate::claim::Claim;
use crate::reader::Reader;
use arrayvec::ArrayVec;
use model::bits::{has_bit, with_bit};
use model::decline::Decline;

// The records, rising, as a set.
fn read_records(reader: &mut Reader<'_>) -> Result<u64, Decline>
    ensures { GivesAs IsSet (records_part reader.old.rest.now) reader.new.rest.now result }
{
    let mut records = 0;
    let mut low = 0;
    for _ in 0..reader.byte()? {
        let u = reader.number_from(low)?;
        records = with_bit(records, u as usize);
        low = u + 1;
    }
    Ok(records)
}

// The marks between these records, rising, as rows of bits.
fn read_marks(reader: &mut Reader<'_>, records: u64) -> Result<[u64; 64], Decline>
    ensures { GivesAs (AreRows records) (marks_part (has records) reader.old.rest.now) reader.new.rest.now result }
{
    let mut rows = [0; 64];
    let mut low = (0, 0);
    for _ in 0..reader.two_bytes()? {
        let (u, v) = reader.pair_from(records, low)?;
        rows[u as usize] = with_bit(rows[u as usize], v as usize);
        low = (u, v + 1);
    }
    Ok(rows)
}

// A depth for each record, at its place.
fn read_depths(reader: &mut Reader<'_>, records: u64) -> Result<[u16; 64], Decline>
    ensures { GivesAs (ArePlaces records) (depths_part (length (records_below (of_set records) 64)) reader.old.rest.now) reader.new.rest.now result }
{
    reader.byte_of(records.count_ones() as u8)?;
    let mut depths = [0; 64];
    for u in 0..64 {
        if has_bit(records, u) {
            depths[u] = reader.two_bytes()?;
        }
    }
    Ok(depths)
}

fn read_ring(reader: &mut Reader<'_>) -> Result<ArrayVec<u8, 255>, Decline>
    ensures { GivesAs IsRing (ring_part reader.old.rest.now) reader.new.rest.now result }
{
    let mut ring = ArrayVec::new();
    for _ in 0..reader.byte()? {
        ring.push(reader.number()?);
    }
    Ok(ring)
}

// The whole, up to the last byte.
pub(crate) fn read_claim(bytes: &[u8]) -> Result<Claim, Decline>
    ensures { GivesAs StandsFor (release bytes.now) [] result }
{
    let mut reader = Reader::new(bytes);
    let records = read_records(&mut reader)?;
    let claim = Claim {
        records,
        marks: read_marks(&mut reader, records)?,
        depths: read_depths(&mut reader, records)?,
        ring: read_ring(&mut reader)?,
    };
    reader.end()?;
    Ok(claim)
}
