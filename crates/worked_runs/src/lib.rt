//! Worked examples of the program's `run` and of the memories that it tells, as tests: faults of the outside, pieces of the input,
//! journals and stores whose writes are cut, and worlds that settle. Those of the layers below stand in `worked_examples`.
#![tactic(auto)]

#[cfg(test)]
mod cuts;
#[cfg(test)]
mod flash_ends;
#[cfg(test)]
mod flash_stores;
#[cfg(test)]
mod images;
#[cfg(test)]
mod journals;
#[cfg(test)]
mod memories;
#[cfg(test)]
mod rows;
#[cfg(test)]
mod runs;
#[cfg(test)]
mod settled_rows;
#[cfg(test)]
mod shown;
#[cfg(test)]
mod transcript;
#[cfg(test)]
mod world_memories;
