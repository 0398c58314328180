//! One step of a node and what it notes, and what of it is kept: commands over power cuts, pipes that are made as whitelists allow, and
//! what a node's step tells of each of its links. Laws alone; nothing here runs.
//!
//! Links of a world of nodes, their order and their turns: each link is a run of the law of one link, and what a step notes stands in
//! its order; few RSETs are put on it, and few fragments are acknowledged in each round. Laws alone; nothing here runs.
//!
//! What is read off a history of nodes: unanswered notices, waiting creations, blocks to spare, and what a controller sees. Laws alone;
//! nothing here runs.
//!
//! Which messages are answered and how, as it is read off a history of nodes, and that every history of a schedule is legal. Laws alone;
//! nothing here runs.
#![tactic(auto)]

pub mod acknowledged_in_rounds;
pub mod acknowledged_in_turn;
pub mod answers_of_worlds;
pub mod blocks_to_spare;
pub mod bounds_of_commands;
pub mod bounds_of_resets;
pub mod commands_and_pipes;
pub mod cuts_in_events;
pub mod dues_of_worlds;
pub mod histories_in_order;
pub mod histories_of_schedules;
pub mod links_of_worlds;
pub mod links_told;
pub mod notices_and_commands;
pub mod one_step;
pub mod passes_of_steps;
pub mod passes_of_worlds;
pub mod power_cuts;
pub mod readings_in_steps;
pub mod replies_as_read;
pub mod replies_in_rows;
pub mod replies_of_histories;
pub mod replies_of_hosts;
pub mod rooms_in_steps;
pub mod rsets_of_worlds;
pub mod turns_in_order;
pub mod unanswered_notices;
pub mod views_of_controllers;
pub mod waiting_creations;
