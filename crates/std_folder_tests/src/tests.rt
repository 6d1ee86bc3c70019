// Real files, each made by a test in the folder that it runs in.
mod calls;
mod readers;
mod writes;
