// The inspection of a file on lent buffers: the verdict with the findings and the mended copy, and the outcome of one pair. Each buffer is a parameter of
// its own, and no field of a struct, as C lends it and README names it.
#![tactic(auto)]

mod verdicts;

ghost use Rattle.std.specs.Prelude.{◌≡◌, length};
ghost use Rattle.lent.specs.Pens.{Written};
ghost use Rattle.tfm.specs.Sizes.{layout_of};
ghost use Rattle.gather.specs.Answers.{SmallestAs, PairAs, room_after};
ghost use Rattle.judge.specs.Judge.{answer_of, pair_says, zeros, judge_number, pair_number, program_in, loop_text, verdict_in, verdict_of, Judged, Paired};
ghost use Rattle.judge.specs.Inside.{loop_of, Copied, ReportedAs, JudgedUnwiped, PairedUnwiped};

use gather::Pair;
use lent::Pen;
use tfm::{Font, Layout, Refusal};
pub use verdicts::{Judgement, Verdict};

// Finding 18 in its place, where there is a loop.
fn put_loop(pen: &mut Pen, smallest: Option<Pair>)
    ensures { Written pen.old (loop_text (loop_of smallest)) pen.new }
{
    if let Some(Pair { left, right }) = smallest {
        mend::findings::put_record(pen, 18, left, right);
    }
}

// All findings in ascending order of tag, and whether there is one but the remarks and the loop.
fn report(pen: &mut Pen, file: &[u8], font: &Font, marks: &[u8], smallest: Option<Pair>) -> bool
    ensures { ReportedAs file.now font.now marks.now smallest pen.old result pen.new }
{
    mend::findings::put_findings(pen, file, font, marks, 1, 1);
    let junk = pen.end();
    mend::findings::put_findings(pen, file, font, marks, 2, 4);
    let strings = pen.end();
    mend::findings::put_findings(pen, file, font, marks, 6, 1);
    let count = pen.end();
    mend::findings::put_findings(pen, file, font, marks, 7, 11);
    let steps = pen.end();
    put_loop(pen, smallest);
    let looped = pen.end();
    mend::findings::put_findings(pen, file, font, marks, 19, 5);
    (junk < strings) | (count < steps) | (looped < pen.end())
}

fn verdict_on(mends: bool, smallest: Option<Pair>) -> Verdict
    ensures { verdict_in result ≡ verdict_of mends (loop_of smallest) }
{
    match smallest {
        Some(_) => Verdict::Looping,
        None if mends => Verdict::Mended,
        None => Verdict::Clean,
    }
}

// The mended copy, into the lent copy.
fn mend_into(file: &[u8], font: &Font, marks: &[u8], copy: &mut [u8])
    ensures { Copied file.now font.now marks.now copy.old copy.new }
{
    let mut pen = Pen::new(copy);
    mend::copy::put_copy(&mut pen, file, font, marks);
}

// The smallest loop of the program that the copy holds.
fn smallest_in(copy: &[u8], layout: Layout, pairs: &mut [u32]) -> Result<Option<Pair>, Refusal>
    ensures smallest_as { SmallestAs (program_in copy.now layout) (length pairs.old) result }
    ensures pairs_after { pairs.new ≡ zeros pairs.old }
{
    gather::smallest_loop(&tfm::tables_of(copy, layout), pairs)
}

// The verdict on a file that is not refused with 1 to 13; on 14 and 15 the copy and the findings are still to be wiped.
fn judge_accepted(
    file: &[u8],
    layout: Layout,
    copy: &mut [u8],
    findings: &mut [u8],
    pairs: &mut [u32],
) -> Result<Judgement, Refusal>
    ensures { judge_number file.now layout copy.old ≡ 0 → JudgedUnwiped file.now layout copy.old findings.old pairs.old result copy.new findings.new pairs.new }
{
    let font = tfm::tables_of(file, layout);
    let mut marks = [0u8; 32768];
    program::mark_all(&font, &mut marks);
    mend_into(file, &font, &marks, copy);
    let smallest = smallest_in(copy, layout, pairs)?;
    let mut pen = Pen::new(findings);
    let mends = report(&mut pen, file, &font, &marks, smallest);
    if pen.has_overflowed() {
        return Err(Refusal::FindingsDoNotFit);
    }
    Ok(Judgement {
        verdict: verdict_on(mends, smallest),
        findings: pen.end(),
    })
}

pub fn verdict(
    file: &[u8],
    copy: &mut [u8],
    findings: &mut [u8],
    pairs: &mut [u32],
) -> Result<Judgement, Refusal>
    ensures { Judged file.now (layout_of file.now) copy.old findings.old pairs.old (answer_of result) copy.new findings.new pairs.new }
{
    let layout = tfm::read_layout(file);
    tfm::check(file, layout)?;
    if copy.len() < 4 * (layout.lf as usize) {
        return Err(Refusal::ShortCopy);
    }
    let judged = judge_accepted(file, layout, copy, findings, pairs);
    if judged.is_err() {
        copy.fill(0);
        findings.fill(0);
    }
    judged
}

fn outcome_in(
    copy: &[u8],
    layout: Layout,
    pairs: &mut [u32],
    left: u32,
    right: u32,
) -> Result<Option<u32>, Refusal>
    ensures pair_as { PairAs (program_in copy.now layout) (length pairs.old) left right result }
    ensures pairs_after { pairs.new ≡ room_after pairs.old result }
{
    gather::pair_outcome(&tfm::tables_of(copy, layout), pairs, left, right)
}

// The outcome of a pair of a file that is not refused with 1 to 12, 17 or 13; on 14 the copy is still to be wiped.
fn pair_accepted(
    file: &[u8],
    layout: Layout,
    left: u32,
    right: u32,
    copy: &mut [u8],
    pairs: &mut [u32],
) -> Result<Option<u32>, Refusal>
    ensures { pair_number file.now layout left right copy.old ≡ 0 → PairedUnwiped file.now layout left right copy.old pairs.old result copy.new pairs.new }
{
    let font = tfm::tables_of(file, layout);
    let mut marks = [0u8; 32768];
    program::mark_all(&font, &mut marks);
    mend_into(file, &font, &marks, copy);
    outcome_in(copy, layout, pairs, left, right)
}

pub fn pair(
    file: &[u8],
    left: u32,
    right: u32,
    copy: &mut [u8],
    pairs: &mut [u32],
) -> Result<Option<u32>, Refusal>
    ensures { Paired file.now (layout_of file.now) left right copy.old pairs.old (pair_says result) copy.new pairs.new }
{
    let layout = tfm::read_layout(file);
    tfm::check(file, layout)?;
    if (256 < left) | (255 < right) {
        return Err(Refusal::OutOfRange);
    }
    if copy.len() < 4 * (layout.lf as usize) {
        return Err(Refusal::ShortCopy);
    }
    let outcome = pair_accepted(file, layout, left, right, copy, pairs);
    if outcome.is_err() {
        copy.fill(0);
    }
    outcome
}
