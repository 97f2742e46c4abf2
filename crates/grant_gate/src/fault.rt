/// Why a text carries no facts.
#[derive(Clone, Copy, Debug, PartialEq, Eq)]
pub enum GateFault {
    /// The text isn't of the compact form, or its header isn't one that is verified under.
    Shape,
    /// The text is of the form, and its MAC isn't that of the key.
    Mac,
    /// The MAC is right, and the payload isn't the one that is written for facts of their forms.
    Claims,
    Memory,
}
