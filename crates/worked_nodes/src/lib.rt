//! A controller and a host as a caller makes them, and a session of both frame by frame, as tests.
#![tactic(auto)]

#[cfg(test)]
mod card;
#[cfg(test)]
mod library;
#[cfg(test)]
mod sessions;
#[cfg(test)]
mod shown;
