// What each reader has read, and which failure decides.

mod blocks;
