// Runs of records in a plan file, read into lent lists: as many as a list has places, or, of bands, as many as there are marks.
#![tactic(auto)]

ghost use Rattle.std.specs.Prelude.{◌≡◌, IfOk, ◌+◌, ◌*◌, length};
ghost use Rattle.format.specs.declared.Mark.TheVariants.{LB};
ghost use Rattle.format.specs.Format.{size};
ghost use Rattle.format.specs.Reading.{ReadRun, ReadBands, RunWithin};

use format::Mark;
use plan::{Band, MOST_BANDS, Refusal};
use reader::{Reader, Recorded};

// One record after another, for each place of the list.
pub fn read_run<T: Recorded>(reader: &mut Reader, list: &mut [T]) -> Result<(), Refusal>
    ensures read { ReadRun T.layout reader.old.file.now reader.old.at (length list.old) result list.new }
    ensures past { IfOk result (λ x. reader.new.at ≡ reader.old.at + length list.old * size T.layout.due) }
    ensures same_file { reader.new.file ≡ reader.old.file }
{
    for x in list.iter_mut() {
        *x = T::take(reader)?;
    }
    Ok(())
}

// All LB from where the reader stands, of which no count is in the file. "In a file a 65th is refused when met whole (cut short, it gets 9), as is,
// with 11, an earlier one that the lent band list has no room for": a file without bands costs a look at two bytes.
pub fn read_bands(reader: &mut Reader, bands: &mut [Band]) -> Result<usize, Refusal>
    ensures read_bands { ReadBands reader.old.file.now reader.old.at (length bands.old) result bands.new }
    ensures run_within { RunWithin result (length bands.new) }
    ensures past { IfOk result (λ k. reader.new.at ≡ reader.old.at + k * size LB) }
    ensures same_file { reader.new.file ≡ reader.old.file }
{
    let mut k: usize = 0;
    while reader.stands_before(Mark::LB) {
        let band = Band::take(reader)?;
        if MOST_BANDS <= k {
            return Err(Refusal::BandOutside(k));
        }
        if bands.len() <= k {
            return Err(Refusal::ListShort);
        }
        bands[k] = band;
        k += 1;
    }
    Ok(k)
}
