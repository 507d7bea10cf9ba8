// Trials of the installation's calls over real stores: what they answer, refuse and leave, worked by hand from docs/MACHINE.md, docs/REFUSALS.md and docs/FORMATS.md.
#![tactic(auto)]

#[cfg(test)]
mod admitting;
#[cfg(test)]
mod answering;
#[cfg(test)]
mod bench;
#[cfg(test)]
mod fixed;
#[cfg(test)]
mod kinds;
#[cfg(test)]
mod loading;
#[cfg(test)]
mod places;
#[cfg(test)]
mod replaying;
#[cfg(test)]
mod retiring;
#[cfg(test)]
mod running;
#[cfg(test)]
mod saving;
