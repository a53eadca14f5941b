#![tactic(auto)]

// Rows of bits and the rules on pixels, against values worked by hand; a maker's own format and rule through the engine, and
// drawings that it declines.
#[cfg(test)]
mod bit_rows;
#[cfg(test)]
mod inside;
#[cfg(test)]
mod keys;
#[cfg(test)]
mod levels;
#[cfg(test)]
mod maker;
#[cfg(test)]
mod overlaps;
#[cfg(test)]
mod rasters;
#[cfg(test)]
mod told;
