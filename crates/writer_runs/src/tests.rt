//! The runs, a topic to a file.
mod appends;
mod beats;
mod closings;
mod first_set_up;
mod losses;
mod opening;
mod recoveries;
mod replacements;
mod slots;
mod states;
mod stores;
mod texts;
mod whole;
