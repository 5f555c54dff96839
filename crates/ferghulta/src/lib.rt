// The interface for C and Rust: every call of the core with numbers, slices and plain structs, as include/ferghulta.h declares them.
#![tactic(auto)]

mod calls;
mod constant_calls;
mod depth_calls;
mod meter_calls;
mod picture_calls;
mod reader_calls;
mod refusals;
mod segmented_calls;
mod stored_picture;
mod stored_reader;
mod version;
