//! What comes to an end of a link.
use swp_base::Control;
use swp_lpdu::LpduFault;

/// What comes to an end of a link.
#[derive(Clone, Copy)]
pub enum LinkInput<'a> {
    /// A frame, whose LPDU says this.
    Frame(&'a Result<Control, LpduFault>),
    /// A reset of the link is asked for, with this window, which is 1 to 4, or with the end's own one.
    Reset(Option<u8>),
    /// Activation begins anew, with the power mode of a CLF, which is 00 or 01, or the sync identifier of a UICC.
    Start(u16),
    /// Activation ends, and the link with it.
    Stop,
}
