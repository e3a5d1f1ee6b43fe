// The first index at which two logs differ (document 01, "The report"), over the term's width.
#![tactic(auto)]

ghost use Rattle.std.specs.Prelude.{◌≡◌, ◌+◌, ◌*◌, ◌≤◌, ◌<◌, length, take, drop, unwrap_or, IfSome};
ghost use Rattle.words.specs.BigEndian.{same};
ghost use Rattle.words.specs.Widths.{width_most};
ghost use Rattle.log_chain.specs.Records.{record_size, records_of};
ghost use Rattle.log_chain.specs.Difference.{differ_at};

// Whether so many bytes of two logs at a place are the same.
fn same_part(a: &[u8], b: &[u8], at: usize, size: usize) -> bool
    requires { (at + size ≤ length a.now) × (at + size ≤ length b.now) }
    ensures { result
        ≡ same (take size (drop at a.now)) (take size (drop at b.now)) }
{
    a[at..at + size] == b[at..at + size]
}

// The lowest index, from 1, whose records differ in two logs of so many records; none if none does.
pub fn difference(a: &[u8], b: &[u8], width: usize, first: usize, second: usize) -> Option<usize>
    requires { (width ≤ width_most) × (record_size width * first ≤ length a.now)
        × (record_size width * second ≤ length b.now) }
    ensures index { unwrap_or result 0
        ≡ differ_at 1 (records_of width first a.now) (records_of width second b.now) }
    ensures from_one { IfSome result (λ index. 0 < index) }
{
    let size = log_chain::record_size(width);
    for i in 0..first.min(second) {
        if !same_part(a, b, size * i, size) {
            return Some(i + 1);
        }
    }
    None
}
