// The audit of a district (document 02, W1): the checks in their order, each submission judged once, and the
// report.
#![tactic(auto)]

ghost use Rattle.std.specs.Prelude.{◌≡◌, true, ◌+◌, ◌≤◌, length};
ghost use Rattle.std.proofs.lemmas.List.Edits.{sets};
ghost use Rattle.words.specs.Over.{over};
ghost use Rattle.refusal.specs.Refusals.{number_of};
ghost use Rattle.roster.specs.Roster.{roster_number};
ghost use Rattle.district_parts.specs.Parts.{parts, counted, adds_up};
ghost use Rattle.district.specs.District as paper;
ghost use Rattle.district_pairs.specs.Entries as inner;

use district::{HIGHER_AT, LOWER_AT, Shown, TAIL_SIZE};
use district_pairs::Entries;
use refusal::Refusal;

// Judges each submission, writes its number to its byte of the report, and gives those that are accepted.
fn judge(roster: &[u8], buffer: &[u8], lengths: &[u32], report: &mut [u8]) -> Entries
    requires { (roster_number roster.now ≡ 0) × (counted lengths.now ≡ true)
        × (adds_up lengths.now buffer.now ≡ true) × (length lengths.now ≤ length report.old) }
    ensures accepted { inner.entries_of buffer.now result
        ≡ paper.accepted roster.now (parts lengths.now buffer.now) }
    ensures held { inner.Held roster.now buffer.now result }
    ensures bytes { report.new
        ≡ over (paper.number_bytes roster.now (parts lengths.now buffer.now))
        report.old }
{
    let mut entries = district_pairs::no_entries();
    let mut at = 0;
    for (i, length) in lengths.iter().enumerate() {
        let size = *length as usize;
        let end = at + size;
        let validated = submission_checks::validate_submission(roster, &buffer[at..end]);
        words::put_u8(report, i, refusal::number_of(&validated));
        entries = district_pairs::with_judged(entries, validated, i, at, size);
        at = end;
    }
    entries
}

// Writes what the pairs show to a place of the report.
fn put_tail(report: &mut [u8], at: usize, shown: Shown)
    requires { at + paper.tail_size ≤ length report.old }
    ensures { report.new ≡ sets report.old at (paper.tail_bytes shown) }
{
    let (lower, higher) = shown.fork.map_or((0, 0), |fork| (fork.lower, fork.higher));
    words::put_u16(report, at, shown.named);
    words::put_u8(report, at + LOWER_AT, lower);
    words::put_u8(report, at + HIGHER_AT, higher);
}

// Writes the report of a run that is not refused.
fn write(roster: &[u8], buffer: &[u8], lengths: &[u32], report: &mut [u8])
    requires { (roster_number roster.now ≡ 0) × (counted lengths.now ≡ true)
        × (adds_up lengths.now buffer.now ≡ true)
        × (length lengths.now + paper.tail_size ≤ length report.old) }
    ensures { report.new
        ≡ over (paper.district_bytes roster.now
        (parts lengths.now buffer.now)) report.old }
{
    let entries = judge(roster, buffer, lengths, report);
    let shown = district_pairs::pairs_shown(roster, buffer, entries);
    put_tail(report, lengths.len(), shown);
}

// The audit of a district: the report, or a refusal that writes nothing.
pub fn audit(
    roster: &[u8],
    buffer: &[u8],
    lengths: &[u32],
    report: &mut [u8],
) -> Result<(), Refusal>
    ensures number { number_of result
        ≡ paper.district_number roster.now buffer.now lengths.now
        report.old }
    ensures bytes { report.new
        ≡ paper.district_after roster.now buffer.now lengths.now
        report.old }
{
    roster_checks::validate(roster)?;
    if !district_parts::count_in_range(lengths) {
        return Err(Refusal::LengthCount);
    }
    if !district_parts::lengths_add_up(lengths, buffer) {
        return Err(Refusal::LengthSum);
    }
    if report.len() < lengths.len() + TAIL_SIZE {
        return Err(Refusal::ShortReport);
    }
    write(roster, buffer, lengths, report);
    Ok(())
}
