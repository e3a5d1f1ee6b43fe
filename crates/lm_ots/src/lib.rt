// The public key candidate of an LM-OTS one-time signature (RFC 8554, 4.6), over the digit width.
#![tactic(auto)]

pub mod candidate;
mod walk;
