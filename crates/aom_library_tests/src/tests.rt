mod debugging;
mod faults;
mod linking;
mod listing;
mod memory;
mod one_line;
mod running;
