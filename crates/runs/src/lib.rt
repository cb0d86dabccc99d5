// What a run is: whether a row of states settles a round, and the blocks of an earlier round.
#![tactic(auto)]

pub mod log;
pub mod starts;
