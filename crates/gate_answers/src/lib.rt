//! What the gates of a host controller say: instructions, response codes, and the tests that come before an answer
//! (ETSI TS 102 622, sections 6.1 to 6.3).
#![tactic(auto)]

mod instruction;
mod parameter;
mod response;

pub use instruction::{
    ADM_CLEAR_ALL_PIPE, ADM_CREATE_PIPE, ADM_DELETE_PIPE, ADM_NOTIFY_ALL_PIPE_CLEARED,
    ADM_NOTIFY_PIPE_CREATED, ADM_NOTIFY_PIPE_DELETED, ADMINISTRATION_GATE, ANY_CLOSE_PIPE,
    ANY_GET_PARAMETER, ANY_OPEN_PIPE, ANY_SET_PARAMETER, EVT_POST_DATA, IDENTITY_GATE,
    LINK_MANAGEMENT_GATE, LOOPBACK_GATE, Notice, instruction_of, notice,
};
pub use parameter::{refusal_to_get, refusal_to_set};
pub use response::{Answer, Response, answer, refused};
