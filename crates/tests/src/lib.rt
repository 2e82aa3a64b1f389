// Examples that the product must get right, as tables that are run. What they show is proved elsewhere
// for every input; here the built code is held to it.
#![tactic(auto)]

#[cfg(test)]
mod buffers;
#[cfg(test)]
mod files;
#[cfg(test)]
mod limits;
#[cfg(test)]
mod rules;
#[cfg(test)]
mod windows;
