#![tactic(auto)]

// Jobs, and the layers of memory that they draw through, worked by hand. Bytes are written as they lie in memory, low byte first.
#[cfg(test)]
mod begun;
#[cfg(test)]
mod boards;
#[cfg(test)]
mod grounds;
#[cfg(test)]
mod layered;
#[cfg(test)]
mod numbered;
#[cfg(test)]
mod pictures;
#[cfg(test)]
mod plain;
#[cfg(test)]
mod together;
