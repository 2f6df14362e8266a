//! The laws of what `prove` makes, each the contract of a function that does nothing. The statements are in
//! `specs/Laws.antt`.
ghost use Rattle.flp_jobs.specs.Laws.{OneSetting, OneRefusal, NeverBoth, BatchesReadBack, RecordsAreHonest};

/// A file is a job file with one setting, or it is refused for one cause, and not both.
pub fn one_answer()
    ensures setting { OneSetting }
    ensures refusal { OneRefusal }
    ensures never_both { NeverBoth }
{
    flp_batch::laws::one_answer();
}

/// The batch that is made of a job file is a batch of the same circuit, with the records that are made of the jobs.
pub fn reads_back()
    ensures { BatchesReadBack }
{
    flp_load::laws::loaded_is_bounded();
}

/// The record that is made of a job keeps it: its words are words of the field, its shares sum up to the job's
/// encoding, which is valid under the joint words of each proof, and to the honest proofs of it for the job's seeds.
/// So it is an honest report.
pub fn records_are_honest()
    ensures { RecordsAreHonest }
{
    flp_load::laws::loaded_is_bounded();
}
