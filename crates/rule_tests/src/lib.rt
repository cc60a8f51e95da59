// Tests of the rules and layers: piles of layers, refusals at the edges, and numbers past every bound.
#![tactic(auto)]

#[cfg(test)]
mod edges;
#[cfg(test)]
mod piles;
