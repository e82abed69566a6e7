// Pages edited at their edges, in byte order.
#![tactic(auto)]

#[cfg(test)]
mod checked;
#[cfg(test)]
mod edits;
