#![tactic(auto)]

#[cfg(test)]
mod tests;
#[cfg(test)]
mod written;
