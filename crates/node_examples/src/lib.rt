//! Worked examples of links and of worlds of nodes: what the definitions tell of the text of a schedule is the transcript that an independent program
//! writes for it. Nothing here runs.
#![tactic(auto)]
