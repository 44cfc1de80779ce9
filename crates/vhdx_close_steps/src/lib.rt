// Closing a log (change request Q-6) as steps: its plan, lists of its calls, what interrupted ones and power failures leave, and the
// theorems about them. There is no code but for what closing answers.
#![tactic(auto)]

// What closing answers where nothing refuses it.
#[derive(Clone, Copy, Debug, PartialEq, Eq, Drop)]
pub struct Closed {
    // of the image as closing leaves it
    pub length: u64,
    // how many sectors the log's replay wrote, the header not counted
    pub count: u64,
}
