// The distinct terms of a log, counted as a set (document 02, W3, check 8), over the term's width.
#![tactic(auto)]

ghost use Rattle.std.specs.Prelude.{◌≡◌, ◌*◌, ◌≤◌, leb, length};
ghost use Rattle.words.specs.Widths.{width_most};
ghost use Rattle.log_chain.specs.Records.{record_size, records_of};
ghost use Rattle.log_terms.specs.Later.{records_after};
ghost use Rattle.log_distinct.specs.Distinct.{occurs, distinct};

// Whether a term occurs among the records that follow record i.
fn occurs_after(s: &[u8], width: usize, records: usize, i: usize, term: u64) -> bool
    requires { (width ≤ width_most) × (i ≤ records) × (record_size width * records ≤ length s.now) }
    ensures { result ≡ occurs term (records_after width records i s.now) }
{
    (i..records).any(|k| log_terms::last_term(s, width, k + 1) == term)
}

// Whether a log has at most so many distinct terms. A term is counted where it occurs last.
pub fn terms_at_most(s: &[u8], width: usize, records: usize, most: usize) -> bool
    requires { (width ≤ width_most) × (record_size width * records ≤ length s.now) }
    ensures { result ≡ leb (distinct (records_of width records s.now)) most }
{
    let mut count = 0;
    for i in 0..records {
        let term = log_terms::last_term(s, width, i + 1);
        if !occurs_after(s, width, records, i + 1, term) {
            count += 1;
            if most < count {
                return false;
            }
        }
    }
    true
}
