#![tactic(auto)]
// The laws over whole runs, on real memories.
#[cfg(test)]
mod cuts;
#[cfg(test)]
mod drawings;
#[cfg(test)]
mod orders;
