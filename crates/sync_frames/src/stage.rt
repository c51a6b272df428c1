//! How far a feed has come.
use crate::fault::FrameFault;

/// Whether a feed reads on, has a fault to answer, or has answered one.
#[derive(Clone, Copy)]
pub(crate) enum Stage {
    Reading,
    Faulty(FrameFault),
    Failed,
}
