//! The front door: each part of `aom` under one name, so that a program names one crate.
//!
//! A module for each part, in the way of the data: bytes and texts become an image, which is linked, checked and accepted; a machine
//! boots from it, and a run or a debugger goes on by it. Nothing is made here: each name is that of the crate that has it, with its contract.
//! What a type or a call promises stands there, and `docs/library.md` leads through it.
#![tactic(auto)]

pub mod asm;
pub mod budget;
pub mod cells;
pub mod classes;
pub mod cleanup;
pub mod clients;
pub mod commands;
pub mod debug;
pub mod frames;
pub mod image;
pub mod machine;
pub mod messages;
pub mod natives;
pub mod requests;
pub mod run;
pub mod scheduler;
pub mod script;
pub mod shape;
pub mod transcript;
pub mod verify;
