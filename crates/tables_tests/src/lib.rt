#![tactic(auto)]

#[cfg(test)]
mod carried;
#[cfg(test)]
mod tests;
