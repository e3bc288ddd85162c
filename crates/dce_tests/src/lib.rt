#![tactic(auto)]

#[cfg(test)]
mod assignments;
#[cfg(test)]
mod calls;
#[cfg(test)]
mod classes;
#[cfg(test)]
mod entered;
#[cfg(test)]
mod expect;
#[cfg(test)]
mod functions;
#[cfg(test)]
mod imports;
#[cfg(test)]
mod lists;
#[cfg(test)]
mod refusals;
#[cfg(test)]
mod runs;
#[cfg(test)]
mod settings;
#[cfg(test)]
mod vars;
