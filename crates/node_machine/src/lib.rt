//! The machine of a node, a controller or a host (ETSI TS 102 622): what handling one message does, room for it, the turns at the
//! ends of a node, notices and their timeouts, and the steps that these make up. A node is a function of what comes to its ends and
//! of which write to its memory fails. Turns, room, timeouts and init are this project's own. Definitions alone; nothing here runs.
#![tactic(auto)]
