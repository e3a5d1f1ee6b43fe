// The types of one-time signatures, and the digits that they cut a hash value into (RFC 8554, 3.1.3, 4.1
// and 4.4).
#![tactic(auto)]

ghost use Rattle.std.specs.Prelude.{◌≡◌};
ghost use Rattle.lm_digits.specs.Parameters.{one_time};

pub mod digits;

// The most chains of a one-time type: those of type 1 (RFC 8554, 4.1, table 1).
pub const CHAINS_MOST: usize = 265;

// The chains of type 4, a digit a byte.
pub const BYTE_CHAINS: usize = 34;

// The parameters of a one-time type: digit bits w, chains p, checksum shift ls (RFC 8554, table 1). Contracts
// ask that they are listed (`Listed`); no ghost field does, as `Follows` is claimed of rows of any width.
#[derive(Clone, Copy)]
pub struct Parameters {
    pub bits: u32,
    pub chains: usize,
    pub shift: u32,
}

// A value, and the chain steps that lead to it (document 02, W7).
#[derive(Clone, Copy)]
pub struct WithSteps<T> {
    pub value: T,
    pub steps: u32,
}

// The parameters of a type number, if it is listed.
#[tactic(auto, unfolding(crate::specs::Parameters::one_time, crate::specs::Parameters::row))]
pub fn one_time(number: u32) -> Option<Parameters>
    ensures { result ≡ one_time number }
{
    match number {
        1 => Some(Parameters {
            bits: 1,
            chains: CHAINS_MOST,
            shift: 7,
        }),
        2 => Some(Parameters {
            bits: 2,
            chains: 133,
            shift: 6,
        }),
        3 => Some(Parameters {
            bits: 4,
            chains: 67,
            shift: 4,
        }),
        4 => Some(Parameters {
            bits: 8,
            chains: BYTE_CHAINS,
            shift: 0,
        }),
        _ => None,
    }
}
