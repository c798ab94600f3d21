//! Tests of worlds that mutators share.
#![tactic(auto)]

#[cfg(test)]
mod births;
#[cfg(test)]
mod games;
#[cfg(test)]
mod gates;
#[cfg(test)]
mod ideal;
#[cfg(test)]
mod notes;
#[cfg(test)]
mod orders;
#[cfg(test)]
mod private;
#[cfg(test)]
mod races;
#[cfg(test)]
mod random;
#[cfg(test)]
mod recycling;
#[cfg(test)]
mod twins;
#[cfg(test)]
mod walks;
#[cfg(test)]
mod worlds;
