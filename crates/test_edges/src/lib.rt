//! Tests of edges that neither a scenario nor the built program reaches: sessions over disks, readers and writers that fail, and
//! a drain whose turns are counted. Nothing here is part of the product.
#![tactic(auto)]

#[cfg(test)]
mod faults;
#[cfg(test)]
mod runs;
#[cfg(test)]
mod streams;
