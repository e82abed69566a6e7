// Tests of the orders, of rows and of fences, on values at the edges.
#![tactic(auto)]

#[cfg(test)]
mod fences;
#[cfg(test)]
mod orders;
#[cfg(test)]
mod rows;
