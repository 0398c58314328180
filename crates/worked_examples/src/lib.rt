//! Worked examples of the public calls of the layers below the program, as tests: what no contract says, and examples from outside. Those of
//! the program's `run` and of memories stand in `worked_runs`.
#![tactic(auto)]

#[cfg(test)]
mod activation;
#[cfg(test)]
mod blocks;
#[cfg(test)]
mod chains;
#[cfg(test)]
mod checksums;
#[cfg(test)]
mod decisions;
#[cfg(test)]
mod decodings;
#[cfg(test)]
mod file_flashes;
#[cfg(test)]
mod flash_journals;
#[cfg(test)]
mod flash_pages;
#[cfg(test)]
mod frames;
#[cfg(test)]
mod gates;
#[cfg(test)]
mod kept_files;
#[cfg(test)]
mod library;
#[cfg(test)]
mod line_states;
#[cfg(test)]
mod link_ends;
#[cfg(test)]
mod lpdus;
#[cfg(test)]
mod nodes;
#[cfg(test)]
mod outside;
#[cfg(test)]
mod packets;
#[cfg(test)]
mod periods;
#[cfg(test)]
mod pipes;
#[cfg(test)]
mod registries;
#[cfg(test)]
mod relays;
#[cfg(test)]
mod shdlc_ends;
#[cfg(test)]
mod shown;
#[cfg(test)]
mod tables;
#[cfg(test)]
mod taps;
#[cfg(test)]
mod texts;
#[cfg(test)]
mod units;
#[cfg(test)]
mod whitelists;
