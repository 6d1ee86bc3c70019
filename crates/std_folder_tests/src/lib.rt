//! Tests of `std_folder` over real files: which handles are open, what readers read, where appended pieces go, and names
//! that can't be read or written.
#![tactic(auto)]

#[cfg(test)]
mod tests;
