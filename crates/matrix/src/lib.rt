// The matrix file: rows of trits in blocks of 512 bytes, each with a check. Reader, writer, check and the list of tied rows take any bytes of any
// length; a refusal is one of the table, and writes nothing. Each is a function for any layout that fits and leaves room for the
// elimination, called with the numbers of the set.
#![tactic(auto)]

pub mod file;
pub mod interface;
pub mod sets;
pub mod ties;
