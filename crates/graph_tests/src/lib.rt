#![tactic(auto)]

#[cfg(test)]
mod tests;
