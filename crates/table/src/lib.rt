// The call table: 64 slots in a lent slice, one of which changes with an item (document 01, The call table), and the text of a listing line.
#![tactic(auto)]

pub mod check;
pub mod feed;
pub mod line;
pub mod lookup;
pub mod serve;
pub mod slot;
