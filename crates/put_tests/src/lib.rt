//! Tests of the texts that are put as files of jobs.
#![tactic(auto)]

#[cfg(test)]
mod job_files;
