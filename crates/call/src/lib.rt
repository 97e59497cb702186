// One call's behaviour, by value: its record, and the answer and next record of every item (document 01, Triggering to A call by itself).
// No module uses one that stands later in this row: stages, trigger, roles, armings, points, record, charging, range, relationship, answers, events, kind, operations, request, refusals, setup, step.
#![tactic(auto)]

pub mod answers;
pub mod armings;
pub mod charging;
pub mod events;
pub mod kind;
pub mod operations;
pub mod points;
pub mod range;
pub mod record;
pub mod refusals;
pub mod relationship;
pub mod request;
pub mod roles;
pub mod setup;
pub mod stages;
pub mod step;
pub mod trigger;
