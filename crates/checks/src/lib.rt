// Examples of what the library does, run as tests.
#![tactic(auto)]

#[cfg(test)]
mod collecting;
#[cfg(test)]
mod recordings;
#[cfg(test)]
mod signals;
