// The layer `forms`: items and profiles as bytes (document 01, Units and Forms), the digit comparison (document 02, T-03), and the feeder for items that arrive in bits (T-02).
// Bytes come in; out come values, or refusal 1 (item), 2 (profile) or 15 (feeder). Lists stay in the lent bytes; only an item that a feeder hands out has bytes of its own.
#![tactic(auto)]

pub mod bytes;
pub mod comparison;
pub mod feeder;
pub mod fields;
pub mod framing;
pub mod item;
pub mod profile;
pub mod reader;
pub mod refusal;
pub mod units;
pub mod write;
