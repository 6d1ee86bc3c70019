// The tests of what no clause says.

mod claims;
mod hand;
mod machine;
mod meeting;
mod workers;
