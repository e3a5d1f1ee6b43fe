// The services. Callers in C have them by the crate hirelog_c (include/hirelog.h has the rules).
#![tactic(auto)]

ghost use Rattle.std.specs.Prelude.{◌≡◌};
ghost use Rattle.sha256.specs.Service.{digest_number, digest_after};
ghost use Rattle.lm_answer.specs.Number.{answer_number, answer_leaf, answer_steps};
ghost use Rattle.lms.specs.Check.{answer};
ghost use Rattle.lms.specs.Steps.{StepsCounted};
ghost use Rattle.report.specs.Report.{audit_number, report_after};
ghost use Rattle.report.specs.Claims.{Naming, Fairness};
ghost use Rattle.district.specs.District.{district_number, district_after};
ghost use Rattle.district.specs.Claims.{DistrictNaming, DistrictFairness};
ghost use Rattle.assembly.specs.Assembly.{assemble_number, assemble_length, output_after};
ghost use Rattle.assembly.specs.Claims.{Assembled};

use lm_answer::LmsAnswer;
use written::Written;

// SHA-256 (document 01, "Digest and signature"; FIPS 180-4): 0 and the digest of the message, or 16 for a
// message of more than 16,777,216 bytes, with the digest as it was.
pub fn hirelog_sha256(message: &[u8], digest: &mut [u8; 32]) -> u32
    ensures number { result ≡ digest_number message.now }
    ensures bytes { digest.new ≡ digest_after message.now digest.old }
{
    match sha256_service::digest(message) {
        Ok(bytes) => {
            *digest = bytes;
            0
        }
        Err(refusal) => refusal.number(),
    }
}

// The LMS signature check (document 01, "Digest and signature"; RFC 8554): 0 for good, 15 for bad, and 16,
// before anything else, for a message of more than 16,777,216 bytes; with 0 also the number of the
// signature's leaf (document 02, W5), with 15 and 16 leaf 0; and the chain steps of the check (W7), 0 where
// it does not come to the chains, as with 16.
pub fn hirelog_lms_check(key: &[u8], message: &[u8], signature: &[u8]) -> LmsAnswer
    ensures number { result.number
        ≡ answer_number (answer key.now message.now signature.now) }
    ensures leaf { result.leaf
        ≡ answer_leaf (answer key.now message.now signature.now) }
    ensures steps { result.steps
        ≡ answer_steps (answer key.now message.now signature.now) }
    ensures counted { StepsCounted key.now message.now signature.now
        result.steps }
{
    LmsAnswer::from(lms::check(key, message, signature))
}

// The audit (document 01): the number, and the report in the buffer's first 53 bytes; with number 1, for a
// buffer below 53 bytes, nothing is written. Demand 3 stands on the number and on the report's own bytes.
pub fn hirelog_audit(roster: &[u8], first: &[u8], second: &[u8], report: &mut [u8]) -> u32
    ensures number { result
        ≡ audit_number roster.now first.now second.now
        report.old }
    ensures bytes { report.new
        ≡ report_after roster.now first.now second.now
        report.old }
    ensures naming { Naming roster.now first.now second.now result
        report.new }
    ensures fairness { Fairness roster.now first.now second.now result
        report.new }
{
    refusal::number_of(&audit_pair::audit(roster, first, second, report))
}

// The audit of a district (document 02, W1): up to nine submissions end to end in one buffer. The number,
// and with number 0 the first bytes of the report, four more than there are lengths; a refused run writes
// nothing. Demand 3 stands on the number and on the report's own bytes, over the whole list.
pub fn hirelog_district(roster: &[u8], buffer: &[u8], lengths: &[u32], report: &mut [u8]) -> u32
    ensures number { result
        ≡ district_number roster.now buffer.now lengths.now
        report.old }
    ensures bytes { report.new
        ≡ district_after roster.now buffer.now lengths.now
        report.old }
    ensures naming { DistrictNaming roster.now buffer.now
        lengths.now result report.new }
    ensures fairness { DistrictFairness roster.now buffer.now
        lengths.now result report.new }
{
    refusal::number_of(&audit_district::audit(roster, buffer, lengths, report))
}

// Assembling a submission (document 02, W3) from a log and a bag of items: the number, and how many of the
// output's first bytes were written; a refusal writes nothing, and its length is 0. What is written is
// accepted against the same roster, and has the same log.
pub fn hirelog_assemble(roster: &[u8], log: &[u8], items: &[u8], output: &mut [u8]) -> Written
    ensures number { result.number
        ≡ assemble_number roster.now log.now items.now
        output.old }
    ensures length { result.length
        ≡ assemble_length roster.now log.now items.now
        output.old }
    ensures bytes { output.new
        ≡ output_after roster.now log.now items.now
        output.old }
    ensures assembled { Assembled roster.now log.now result.number result.length
        output.new }
{
    assembly_service::assemble(roster, log, items, output).into()
}
