//! Runs of the meaning of a text's graph, without a machine.

ghost use Rattle.std.specs.Prelude.{◌≡◌, IfErr, IfOk, Some};
ghost use Rattle.driver.specs.Refused.{IsGoodText, IsRefusedMeaning};
ghost use Rattle.oracle.specs.Gathering.{wave_counts};
ghost use Rattle.oracle.specs.Reporting.{IsMeant};
ghost use Rattle.oracle.specs.Waves.{AreWavesOf};

use crate::compiling::check_text;
use crate::fault::Fault;
use graph_check::Checked;
use oracle::{MeanReport, WaveReport, mean, waves};
use std::alloc::Allocator;

/// A run of the meaning of the text's graph.
#[derive(Drop)]
pub struct Meant<'a, A: Allocator> {
    pub checked: Checked<'a, A>,
    pub report: MeanReport<A>,
}

/// Runs the meaning of the text's graph, for at most `steps` activities.
pub fn mean_text<'a, A: Allocator + Clone>(
    alloc: A,
    text: &'a [u8],
    inputs: &[i64],
    steps: u64,
) -> Result<Meant<'a, A>, Fault>
    ensures good { IfOk result (λ m. IsGoodText text.now m.checked) }
    ensures meant { IfOk result (λ m. IsMeant m.checked inputs.now steps m.report.end m.report.outputs.items m.report.cells.items) }
    ensures refused { IfErr result (IsRefusedMeaning text.now inputs.now) }
{
    let checked = check_text(alloc.clone()?, text)?;
    let report = mean(alloc, &checked, inputs, steps)?;
    Ok(Meant { checked, report })
}

/// The waves of the meaning of the graph that the text has.
#[derive(Drop)]
pub struct Waved<'a, A: Allocator> {
    pub checked: Checked<'a, A>,
    pub report: WaveReport<A>,
}

/// The waves of the meaning of the graph that the text has: in each wave all activities happen that are enabled at its beginning. At
/// most `steps` activities in all.
pub fn waves_text<'a, A: Allocator + Clone>(
    alloc: A,
    text: &'a [u8],
    inputs: &[i64],
    steps: u64,
) -> Result<Waved<'a, A>, Fault>
    ensures good { IfOk result (λ w. IsGoodText text.now w.checked) }
    ensures waves { IfOk result (λ w. AreWavesOf w.checked inputs.now steps w.report.end w.report.counts.items) }
    ensures reported { IfOk result (λ w. wave_counts w.checked inputs.now steps ≡ Some (w.report.end, w.report.counts.items)) }
    ensures refused { IfErr result (IsRefusedMeaning text.now inputs.now) }
{
    let checked = check_text(alloc.clone()?, text)?;
    let report = waves(alloc, &checked, inputs, steps)?;
    Ok(Waved { checked, report })
}
