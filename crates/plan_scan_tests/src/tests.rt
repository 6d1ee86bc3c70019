// Protocol Buffers against bytes that were worked out by hand.
mod messages;
mod records;
mod varints;
