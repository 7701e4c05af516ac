//! Scripts by their lines, and scripts and the program over streams that fail or move bytes in parts.
mod batches;
mod lines;
mod program;
mod readings;
mod streams;
mod texts;
