use crate::HttpRule;
use wif_base::Request;

/// A request that came, and whether the connection ends behind it.
#[derive(Debug, Drop)]
pub struct Incoming {
    pub request: Request,
    pub close: bool,
}

/// Why no request was read.
#[derive(Clone, Copy, Debug, PartialEq, Eq)]
pub enum HttpEnd {
    /// The first rule that is broken.
    Refused { rule: HttpRule },
    ReadFault,
    /// The input has more than 2^30 bytes.
    InputLimit,
    Memory,
}
