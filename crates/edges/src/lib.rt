// The archive's public calls at their edges, and runs of them against plain lists.
#![tactic(auto)]

#[cfg(test)]
mod tests;
