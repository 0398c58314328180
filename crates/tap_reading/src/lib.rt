//! What a passive tap on one link reports of the frames that it hears: which messages each end has got. There is no code here that runs.
#![tactic(auto)]

pub mod kept_taps;
