// The tests of what no clause says: that rounds end, and that workers run at one time.

mod meeting;
mod rounds;
