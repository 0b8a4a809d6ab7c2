// Recorded answers as the programs that replay them read them: a file's records, and the 16-bit entries of each, low byte first.
#![tactic(auto)]

pub mod record; // record.rt: the entries of one record
pub mod file; // file.rt: the records of a file, each put to a check
