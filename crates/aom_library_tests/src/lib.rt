//! Programs of one's own over the library, as docs/library.md tells of them: each names one crate, and is a test here.
#![tactic(auto)]

#[cfg(test)]
mod tests;
