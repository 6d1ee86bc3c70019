//! Tests of `run_top` for what no worked case can show: what a run reports and reads, that two workers work at once, a text of a
//! megabyte, and files and folders of the file system. Whole runs, by their words, files, line and out file, are the cases of
//! `worked_cases`.
#![tactic(auto)]

#[cfg(test)]
mod tests;
