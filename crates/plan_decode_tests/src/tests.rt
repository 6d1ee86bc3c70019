// Plans against trees that were worked out by hand.
mod plans;
mod seen;
mod trees;
