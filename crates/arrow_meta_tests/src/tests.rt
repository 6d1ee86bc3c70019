// Metadata of another writer, and worked metadata with damaged counts.
mod digits;
mod footers;
mod foreign;
mod messages;
mod messages_foreign;
mod refusals;
mod refusals_foreign;
