// Refusal 13 over bands: one run, each band beside the one before it.
#![tactic(auto)]

ghost use Rattle.std.specs.Prelude.{◌≡◌, ◌<◌, length};
ghost use Rattle.integers.specs.Hull.{range, within};
ghost use Rattle.rules.specs.Calls.{earlier, band_fits, bands_fit};
ghost use Rattle.bands.specs.Checks.{passes_at};

use plan::{Band, Day, MOST_BANDS, Number, Power, Refusal, Span};

#[tactic(auto, unfolding(integers::specs::Hull::within))]
pub fn lies_within<T: Number>(ends: Span<T>, x: T) -> bool
    ensures { result ≡ within (range (T.number ends.low) (T.number ends.high)) (T.number x) }
{
    let x = x.number();
    ends.low.number() <= x && x <= ends.high.number()
}

// "beyond its ends, naming no resource"
#[tactic(auto, unfolding(rules::specs::Calls::band_fits, rules::specs::Calls::band_ends))]
fn band_fits(b: Band, resources: usize) -> bool
    ensures { result ≡ band_fits resources b }
{
    b.place < resources && lies_within(Day::ends(), b.from) && lies_within(Power::ends(), b.limit)
}

// "strictly rising by place and then by day"
fn comes_before(a: Band, b: Band) -> bool
    ensures { result ≡ earlier a b }
{
    a.place < b.place || (a.place == b.place && a.from < b.from)
}

// Band k, behind the one before it: the first is behind none.
fn passes_at(bands: &[Band], k: usize, resources: usize) -> bool
    requires { k < length bands.now }
    ensures { result ≡ passes_at resources bands.now k }
{
    k < MOST_BANDS
        && (k == 0 || comes_before(bands[k - 1], bands[k]))
        && band_fits(bands[k], resources)
}

// "a band out of order, beyond its ends, naming no resource, or a 65th, place the first such band"
#[tactic(auto, using(crate::proofs::Checks::bands_steps))]
pub fn check_bands(bands: &[Band], resources: usize) -> Result<(), Refusal>
    ensures { result ≡ bands_fit resources bands.now }
{
    for k in 0..bands.len() {
        if !passes_at(bands, k, resources) {
            return Err(Refusal::BandOutside(k));
        }
    }
    Ok(())
}
