/// A turn: the value, while a pass has it. It isn't dropped by itself: `leave` takes it back.
pub struct Turn<B> {
    pub value: B,
}
