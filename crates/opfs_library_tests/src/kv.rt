//! Tests of key-value files, over desks on disks in memory.
#[cfg(test)]
mod batches;
#[cfg(test)]
mod cases;
#[cfg(test)]
mod example;
#[cfg(test)]
mod kvs;
#[cfg(test)]
mod many;
#[cfg(test)]
mod steps;
#[cfg(test)]
mod stops;
#[cfg(test)]
mod visits;
