//! Errors, byte orders, plain types, and the numbers that a reader counts in.

mod errors;
mod numbers;
mod plain_types;
mod sections;
