// The load report over a pair sheet that passes check, packets, and two files of readings of the filter's counters.
#![tactic(auto)]

ghost use Rattle.std.specs.Prelude.{◌≡◌, true, false, ◌≤◌, length, get_or, MatchResult};
ghost use Rattle.std.proofs.lemmas.List.Edits.{sets};
ghost use Rattle.policy.specs.Refusals.{heard};
ghost use Rattle.policy.specs.declared.Refusal.TheVariants.{LengthWrong};
ghost use Rattle.wire.specs.Buffers.{filled};
ghost use Rattle.sheet.specs.Steps.{pair_at};
ghost use Rattle.load.specs.Load.{no_load};
ghost use Rattle.load.specs.Packets.{added_to, hits_in};
ghost use Rattle.load.specs.Steps.{load_value};
ghost use Rattle.reporting.specs.Report.{are_readings, totals_size, totals_of, hits_size, Reports};

use groups::WORK_BYTES;
use load::Load;
use origins::CheckedSheet;
use policy::{Answer, Refusal, TOTAL_MOST};
use rows::{TABLE_NUMBERS, TabledSheet};

// The fewest numbers that may be lent: the totals, and a number of hits for each place that a list can have.
pub const TOTALS_NUMBERS: usize = 6;

pub const HITS_NUMBERS: usize = TOTAL_MOST;

// The bytes of one reading.
pub const READING_BYTES: usize = 4;

// Whether both have a reading for each of so many places, and no byte more.
#[tactic(auto, unfolding(crate::specs::Report::are_readings))]
fn are_readings(earlier: &[u8], later: &[u8], places: usize) -> bool
    requires { places ≤ hits_size }
    ensures { result ≡ are_readings places earlier.now later.now }
{
    earlier.len() == READING_BYTES * places && later.len() == READING_BYTES * places
}

// An earlier and a later reading of the counter at each of so many places.
#[derive(Clone, Copy)]
pub struct Readings<'a> {
    pub earlier: &'a [u8],
    pub later: &'a [u8],
    pub places: usize,
    pub ghost few: { places ≤ hits_size },
    pub ghost lengths: { are_readings places earlier.now later.now ≡ true },
}

impl<'a> Readings<'a> {
    // Readings that fit so many places, or the refusal.
    pub fn new(earlier: &'a [u8], later: &'a [u8], places: usize) -> Result<Readings<'a>, Refusal>
        requires { places ≤ hits_size }
        ensures { MatchResult result (λ r. (r.earlier.now ≡ earlier.now) × (r.later.now ≡ later.now) × (r.places ≡ places)) (λ f. (f ≡ LengthWrong) × (are_readings places earlier.now later.now ≡ false)) }
    {
        if !are_readings(earlier, later, places) {
            return Err(Refusal::LengthWrong);
        }
        Ok(Readings {
            earlier,
            later,
            places,
        })
    }

    // The hits at a place between the two readings; none behind the last place.
    pub fn hits_at(self, place: usize) -> u32
        ensures { result ≡ get_or (hits_in self.entry.places self.entry.earlier.now self.entry.later.now) place 0 }
    {
        if self.places <= place {
            return 0;
        }
        let at = READING_BYTES * place;
        load::hits_between(
            wire::four_at(self.earlier, at),
            wire::four_at(self.later, at),
        )
    }
}

fn put_hits(hits: &mut [u32], readings: Readings<'_>)
    requires { hits_size ≤ length hits.old }
    ensures { hits.new ≡ filled hits_size hits.old (hits_in readings.entry.places readings.entry.earlier.now readings.entry.later.now) }
{
    let front = &mut hits[..HITS_NUMBERS];
    for (place, hit) in front.iter_mut().enumerate() {
        *hit = readings.hits_at(place);
    }
}

fn put_totals(totals: &mut [u64], t: Load)
    requires { totals_size ≤ length totals.old }
    ensures { totals.new ≡ sets totals.old 0 (totals_of (load_value t)) }
{
    let gain = t.gain();
    totals[..TOTALS_NUMBERS].copy_from_slice(&[
        t.packets,
        t.before,
        t.after,
        t.forwarded,
        gain.numerator,
        gain.denominator,
    ]);
}

fn load_all(sheet: CheckedSheet<'_>, packets: &[u8]) -> Result<Load, Refusal>
    ensures { heard load_value result ≡ added_to (pair_at sheet.entry.layout sheet.entry.bytes.now) no_load packets.now }
{
    let mut table = [0u32; TABLE_NUMBERS];
    load::add_block(Load::none(), packets, TabledSheet::new(sheet, &mut table))
}

// The report: check, the readings' lengths, the packets; then the totals and the hits at each place of the cell list. The files and
// buffers come one by one, as the call for C lends them.
pub fn report(
    sheet: &[u8],
    packets: &[u8],
    earlier: &[u8],
    later: &[u8],
    totals: &mut [u64],
    hits: &mut [u32],
    work: &mut [u8],
) -> Answer
    ensures { Reports sheet.now packets.now earlier.now later.now totals.old hits.old work.old result totals.new hits.new work.new }
{
    if totals.len() < TOTALS_NUMBERS || hits.len() < HITS_NUMBERS || work.len() < WORK_BYTES {
        return Err(Refusal::BufferShort);
    }
    let checked = CheckedSheet::new(sheet, work)?;
    let readings = Readings::new(earlier, later, checked.places())?;
    let load = load_all(checked, packets)?;
    put_totals(totals, load);
    put_hits(hits, readings);
    Ok(readings.places)
}
