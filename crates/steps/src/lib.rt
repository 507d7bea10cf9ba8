// Tests of the processor over a real store: what its instructions do to a worker, worked by hand from docs/MACHINE.md.
#![tactic(auto)]

#[cfg(test)]
mod bench;
#[cfg(test)]
mod codes;
#[cfg(test)]
mod comparisons;
#[cfg(test)]
mod executive;
#[cfg(test)]
mod faults;
#[cfg(test)]
mod jumps;
#[cfg(test)]
mod logic;
#[cfg(test)]
mod operands;
#[cfg(test)]
mod products;
#[cfg(test)]
mod programs;
#[cfg(test)]
mod references;
#[cfg(test)]
mod shifts;
#[cfg(test)]
mod skips;
#[cfg(test)]
mod sums;
#[cfg(test)]
mod transfers;
#[cfg(test)]
mod wraps;
