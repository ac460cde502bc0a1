// Words of n entries in memory, with given entries in front and the unused values behind them; and
// what a search for a completion of the given entries says.
#![tactic(auto)]

pub mod exchange;
pub mod ordering;
pub mod searched;
