mod lines;
mod meanings;
mod plan_reader;
mod plan_writer;
mod records;
