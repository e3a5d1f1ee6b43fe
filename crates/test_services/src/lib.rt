// What each service promises, promised again by a function that does nothing but call it: a clause that a
// service no longer has, or that says less, is refused here. Nothing calls these functions.
#![tactic(auto)]

ghost use Rattle.std.specs.Prelude.{◌≡◌};
ghost use Rattle.sha256.specs.Service.{digest_number, digest_after};
ghost use Rattle.lm_answer.specs.Number.{answer_number, answer_leaf, answer_steps};
ghost use Rattle.lms.specs.Check.{answer};
ghost use Rattle.lms.specs.Steps.{StepsCounted};
ghost use Rattle.report.specs.Report.{audit_number, report_after};
ghost use Rattle.report.specs.Claims.{Naming, Fairness};
ghost use Rattle.district.specs.District.{district_number, district_after};
ghost use Rattle.district.specs.Claims.{DistrictNaming, DistrictFairness};
ghost use Rattle.assembly.specs.Assembly.{assemble_number, assemble_length, output_after};
ghost use Rattle.assembly.specs.Claims.{Assembled};

use lm_answer::LmsAnswer;
use written::Written;

pub fn sha256(message: &[u8], digest: &mut [u8; 32]) -> u32
    ensures number { result ≡ digest_number message.now }
    ensures bytes { digest.new ≡ digest_after message.now digest.old }
{
    hirelog::hirelog_sha256(message, digest)
}

pub fn lms_check(key: &[u8], message: &[u8], signature: &[u8]) -> LmsAnswer
    ensures number { result.number
        ≡ answer_number (answer key.now message.now signature.now) }
    ensures leaf { result.leaf
        ≡ answer_leaf (answer key.now message.now signature.now) }
    ensures steps { result.steps
        ≡ answer_steps (answer key.now message.now signature.now) }
    ensures counted { StepsCounted key.now message.now signature.now
        result.steps }
{
    hirelog::hirelog_lms_check(key, message, signature)
}

pub fn audit(roster: &[u8], first: &[u8], second: &[u8], report: &mut [u8]) -> u32
    ensures number { result
        ≡ audit_number roster.now first.now second.now
        report.old }
    ensures bytes { report.new
        ≡ report_after roster.now first.now second.now
        report.old }
    ensures naming { Naming roster.now first.now second.now result
        report.new }
    ensures fairness { Fairness roster.now first.now second.now result
        report.new }
{
    hirelog::hirelog_audit(roster, first, second, report)
}

pub fn district(roster: &[u8], buffer: &[u8], lengths: &[u32], report: &mut [u8]) -> u32
    ensures number { result
        ≡ district_number roster.now buffer.now lengths.now
        report.old }
    ensures bytes { report.new
        ≡ district_after roster.now buffer.now lengths.now
        report.old }
    ensures naming { DistrictNaming roster.now buffer.now
        lengths.now result report.new }
    ensures fairness { DistrictFairness roster.now buffer.now
        lengths.now result report.new }
{
    hirelog::hirelog_district(roster, buffer, lengths, report)
}

pub fn assemble(roster: &[u8], log: &[u8], items: &[u8], output: &mut [u8]) -> Written
    ensures number { result.number
        ≡ assemble_number roster.now log.now items.now
        output.old }
    ensures length { result.length
        ≡ assemble_length roster.now log.now items.now
        output.old }
    ensures bytes { output.new
        ≡ output_after roster.now log.now items.now
        output.old }
    ensures assembled { Assembled roster.now log.now result.number result.length
        output.new }
{
    hirelog::hirelog_assemble(roster, log, items, output)
}
