/// The state word of a wait group: 64 bits, with a signed counter in the high half and the number of waits in
/// the low half.
#[derive(Clone, Copy, PartialEq, Eq, Drop)]
pub struct GroupWord {
    pub counter: i32,
    pub waits: u32,
}
