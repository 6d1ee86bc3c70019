// FlatBuffers against worked bytes.
mod layout;
mod objects;
mod reading;
