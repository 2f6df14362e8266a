//! What stands in front of the reports of a batch, and of the jobs of a job file.

use flp_list::Bytes;

/// What stands in front of the reports of a batch: the version, how many shares and proofs a report
/// has, the circuit text, how many old claims and reports follow, and how many buckets these are of.
/// Version 1 has one bucket, and does not write it.
#[derive(Debug, PartialEq, Eq, Drop)]
pub struct Header {
    pub version: u32,
    pub shares: u32,
    pub proofs: u32,
    pub text: Bytes,
    pub claims: u32,
    pub reports: u32,
    pub buckets: u32,
}

/// What stands in front of the jobs of a job file: how many shares and proofs the reports shall
/// have, the circuit text, and how many jobs follow.
#[derive(Debug, PartialEq, Eq, Drop)]
pub struct JobHeader {
    pub shares: u32,
    pub proofs: u32,
    pub text: Bytes,
    pub jobs: u32,
}
