// Bytes and words of strings, copies, and trits by words.
#![tactic(auto)]

pub mod bytes;
pub mod copies;
pub mod lanes;
pub mod words;
