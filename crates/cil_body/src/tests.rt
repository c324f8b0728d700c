// Bodies that are read and refused, by topic.

mod bodies;
mod instructions;
mod sections;
