// The kinds of line that the program prints of a report (document 01, "The report").
#![tactic(auto)]

ghost use Rattle.std.specs.Prelude.{[], ◌∷◌, ◌++◌, ◌+◌, ◌≤◌, ◌<◌, length};
ghost use Rattle.text_decimal.specs.Decimal.{decimal};
ghost use Rattle.text_decimal.specs.Put.{Put, digits_most};
ghost use Rattle.text_line.specs.Texts.{refusal_line, fork_line, replica_line};
ghost use Rattle.text_line.specs.Room.{refusal_room, fork_room, replica_room};

// Puts a word and a number.
fn put_field(out: &mut [u8], at: usize, word: &[u8], x: u32) -> usize
    requires { at + length word.now + digits_most ≤ length out.old }
    ensures { Put out.old out.new at result (word.now ++ decimal x)
        (length word.now + digits_most) }
{
    words::put_bytes(out, at, word);
    text_decimal::put_decimal(out, at + word.len(), x)
}

// Puts a line feed.
fn put_end(out: &mut [u8], at: usize) -> usize
    requires { at < length out.old }
    ensures { Put out.old out.new at result (10 ∷ []) 1 }
{
    out[at] = b'\n';
    at + 1
}

// Puts a word and a number, the last of a line.
fn put_last(out: &mut [u8], at: usize, word: &[u8], x: u32) -> usize
    requires { at + length word.now + digits_most + 1 ≤ length out.old }
    ensures { Put out.old out.new at result
        ((word.now ++ decimal x) ++ (10 ∷ [])) (length word.now + digits_most + 1) }
{
    let next = put_field(out, at, word, x);
    put_end(out, next)
}

// Puts the line of a report's number and place. These and the rule are printed as the report's bytes have
// them, and so are integers.
pub fn put_refusal(out: &mut [u8], at: usize, number: u32, place: u32) -> usize
    requires { at + refusal_room ≤ length out.old }
    ensures { Put out.old out.new at result (refusal_line number place) refusal_room }
{
    let next = put_field(out, at, b"refusal ", number);
    put_last(out, next, b" in ", place)
}

// Puts the line of the fork index.
pub fn put_fork(out: &mut [u8], at: usize, index: u32) -> usize
    requires { at + fork_room ≤ length out.old }
    ensures { Put out.old out.new at result (fork_line index) fork_room }
{
    put_last(out, at, b"fork ", index)
}

// Puts a replica's line.
pub fn put_replica(out: &mut [u8], at: usize, replica: u32, rule: u32, term: u32) -> usize
    requires { at + replica_room ≤ length out.old }
    ensures { Put out.old out.new at result
        (replica_line replica rule term) replica_room }
{
    let second = put_field(out, at, b"board ", replica);
    let third = put_field(out, second, b" rule ", rule);
    put_last(out, third, b" term ", term)
}
