//! Tests of a script's run.
#[cfg(test)]
mod hands;
