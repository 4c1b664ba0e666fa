//! Tests of the program's libraries, of what cannot be said from outside: outputs that fail at some byte, memory that is refused, programs
//! beside natives of the tests' own, debugger sessions whose reader fails, and files and streams as the library takes them. Whole commands
//! and sessions stand on the pages in tests/. A `BoundedPage` keeps what it takes in a list, a `FixedSink` in itself, so that a test of want of
//! memory asks for none; a `CallAnswer` is compared whole.
#![tactic(auto)]

#[cfg(test)]
mod tests;
