//! The alternatives of instances, once for each run of them.
ghost use Rattle.std.specs.Prelude.{ℕ, ◌≡◌, ◌<◌, ◌≤◌, get_or, leb, length, true, OnOk};
ghost use Rattle.ground_instances.specs.Lists.{AddsRun, RunsRise, alternative_at, last_behind};

use crate::entry::AlternativeRun;
use std::alloc::AllocError;
use util_interner::in_32_bits;

/// How many runs begin at a place or before it.
fn count_runs(runs: &[AlternativeRun], place: usize) -> usize
    ensures within { result ≤ length runs.now }
    ensures begun { (low high : ℕ) → RunsRise low runs.now high → (k : ℕ) (d : AlternativeRun) → k < result → (get_or runs.now k d).first ≤ place }
    ensures others { (low high : ℕ) → RunsRise low runs.now high → (k : ℕ) (d : AlternativeRun) → result ≤ k → k < length runs.now
        → place < (get_or runs.now k d).first }
{
    runs.partition_point(
        |run: &AlternativeRun| -> bool
            ensures { result ≡ leb run.now.first place }
        { run.first as usize <= place },
    )
}

/// The alternative of the instance at a place; 0 where no run has begun.
pub fn alternative_at(runs: &[AlternativeRun], place: usize) -> u32
    ensures { (low high : ℕ) → RunsRise low runs.now high → result ≡ alternative_at runs.now place }
{
    let begun = count_runs(runs, place);
    if begun == 0 {
        return 0;
    }
    runs[begun - 1].alternative
}

/// Whether the last run is of an alternative.
fn is_last(runs: &[AlternativeRun], alternative: usize) -> bool
    ensures { result ≡ true → last_behind 0 runs.now ≡ alternative }
{
    let many = runs.len();
    many > 0 && runs[many - 1].alternative as usize == alternative
}

/// Begins the run of an alternative at an instance.
fn begin_run(
    runs: &mut Vec<AlternativeRun>,
    alternative: usize,
    place: usize,
) -> Result<(), AllocError>
    ensures { OnOk result (RunsRise 0 runs.old.items place → AddsRun alternative place runs.old.items runs.new.items) }
{
    let run = AlternativeRun {
        alternative: in_32_bits(alternative)?,
        first: in_32_bits(place)?,
    };
    runs.push(run)?;
    Ok(())
}

/// Adds the run of an instance behind those of all before it, unless it is of the last one's alternative.
#[inline(always)]
pub fn add_run(
    runs: &mut Vec<AlternativeRun>,
    alternative: usize,
    place: usize,
) -> Result<(), AllocError>
    ensures { OnOk result (RunsRise 0 runs.old.items place → AddsRun alternative place runs.old.items runs.new.items) }
{
    if is_last(runs, alternative) {
        return Ok(());
    }
    begin_run(runs, alternative, place)
}
