//! Disks that crash, fail and lie, and what they leave. Nothing here is part of the product.
#![tactic(auto)]

#[cfg(test)]
mod every_byte;
#[cfg(test)]
mod files;
#[cfg(test)]
mod liar;
#[cfg(test)]
mod lies;
#[cfg(test)]
mod lives;
#[cfg(test)]
mod parts;
#[cfg(test)]
mod slots;
#[cfg(test)]
mod steps;
