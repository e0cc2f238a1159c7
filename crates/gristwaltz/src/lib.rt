// Gristwaltz for other languages: calls on a plan file in memory, each with one number as its answer. They keep no state. Only what is
// exported stands here, so that an edit of it is proved again in seconds; the work is done in crates calls and looks.
#![tactic(auto)]

ghost use Rattle.std.specs.Prelude.{◌≡◌};
ghost use Rattle.plan.specs.declared.Call.TheVariants.{Balance, Step, Pass, Settle, Within};
ghost use Rattle.answers.specs.Files.{file_result, file_call, check_file, most_file};

use answers::number_of;
use plan::Call;

// Settles the plan of a file and writes the settled plan's file.
#[unsafe(no_mangle)]
pub extern "C" fn gristwaltz_settle(file: &[u8], out: &mut [u8]) -> u64
    ensures { file_result result out.new ≡ file_call Settle file.now out.old }
{
    number_of(calls::apply_to_file(Call::Settle, file, out))
}

// The same with at most so many passes: where they are too few, the plan that they left, and 0.
#[unsafe(no_mangle)]
pub extern "C" fn gristwaltz_settle_within(file: &[u8], most: u64, out: &mut [u8]) -> u64
    ensures { file_result result out.new ≡ file_call (Within most) file.now out.old }
{
    number_of(calls::apply_to_file(Call::Within(most), file, out))
}

// How many passes settling the plan of a file makes at most.
#[tactic(auto, using(answers::proofs::Numbers::most_number))]
#[unsafe(no_mangle)]
pub extern "C" fn gristwaltz_most_passes(file: &[u8]) -> u64
    ensures { result ≡ most_file file.now }
{
    number_of(looks::most_passes(file))
}

// One balance step.
#[unsafe(no_mangle)]
pub extern "C" fn gristwaltz_balance(file: &[u8], out: &mut [u8]) -> u64
    ensures { file_result result out.new ≡ file_call Balance file.now out.old }
{
    number_of(calls::apply_to_file(Call::Balance, file, out))
}

// One resource step.
#[unsafe(no_mangle)]
pub extern "C" fn gristwaltz_resource_step(file: &[u8], place: usize, out: &mut [u8]) -> u64
    ensures { file_result result out.new ≡ file_call (Step place) file.now out.old }
{
    number_of(calls::apply_to_file(Call::Step(place), file, out))
}

// One pass: the balance step, then the step of each resource in list order. Passes until one changes nothing are settling.
#[unsafe(no_mangle)]
pub extern "C" fn gristwaltz_pass(file: &[u8], out: &mut [u8]) -> u64
    ensures { file_result result out.new ≡ file_call Pass file.now out.old }
{
    number_of(calls::apply_to_file(Call::Pass, file, out))
}

// Whether a file is a plan that passes the entry checks.
#[tactic(auto, using(answers::proofs::Numbers::check_number))]
#[unsafe(no_mangle)]
pub extern "C" fn gristwaltz_check(file: &[u8]) -> u64
    ensures { result ≡ check_file file.now }
{
    number_of(looks::check_file(file).and(Ok(0)))
}
