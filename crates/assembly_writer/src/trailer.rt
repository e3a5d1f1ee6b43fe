// The trailer of an assembled submission (document 01, "A submission, read from its trailer", part 5): the
// cluster's name, and numbers.
ghost use Rattle.std.specs.Prelude.{◌≡◌, ◌+◌, ◌≤◌, ◌<◌, length};
ghost use Rattle.words.specs.Over.{over};
ghost use Rattle.assembly_writer.specs.Parts.{fields_for, fields_part, trailer_part};

use super::{PartSizes, Plan};
use submission_trailer::VERSION;

// The numbers of a trailer after the name: H, L, the four distances, version 1, of 4 bytes each.
const FIELD_COUNT: usize = 7;

const FIELD_SIZE: usize = 4;

// The numbers of the trailer: H, L, the four distances, from the start of each part to the trailer, version.
pub fn trailer_fields(plan: Plan, log: usize, sizes: PartSizes) -> [u32; FIELD_COUNT]
    requires { (plan.records < 4294967296) × (plan.leaders < 4294967296)
        × (log + (sizes.leaders + (sizes.stamps + sizes.commit)) < 4294967296) }
    ensures { result ≡ fields_for plan log sizes }
{
    let fourth = sizes.commit;
    let third = sizes.stamps + fourth;
    let second = sizes.leaders + third;
    let first = log + second;
    [
        plan.records as u32,
        plan.leaders as u32,
        first as u32,
        second as u32,
        third as u32,
        fourth as u32,
        VERSION,
    ]
}

// Writes numbers of 4 bytes, and gives the number of their bytes.
fn put_fields(out: &mut [u8], fields: [u32; FIELD_COUNT]) -> usize
    requires { length (fields_part fields) ≤ length out.old }
    ensures size { result ≡ length (fields_part fields) }
    ensures bytes { out.new ≡ over (fields_part fields) out.old }
{
    let mut at = 0;
    for field in fields {
        let rest = &mut out[at..];
        words::put_u32(rest, 0, field);
        at += FIELD_SIZE;
    }
    at
}

// Writes the trailer: the cluster's name, and numbers; gives the number of its bytes.
pub fn put_trailer(out: &mut [u8], name: &[u8], fields: [u32; FIELD_COUNT]) -> usize
    requires { length (trailer_part name.now fields) ≤ length out.old }
    ensures size { result ≡ length (trailer_part name.now fields) }
    ensures bytes { out.new
        ≡ over (trailer_part name.now fields) out.old }
{
    let at = name.len();
    words::put_bytes(out, 0, name);
    let rest = &mut out[at..];
    at + put_fields(rest, fields)
}
