// Power at the sending end, in whole MW.
#[derive(Clone, Copy, PartialEq, Eq, PartialOrd, Ord, Debug, Default)]
pub struct Mw(pub u32);

// Power on its way and landed, in whole W.
#[derive(Clone, Copy, PartialEq, Eq, PartialOrd, Ord, Debug, Default)]
pub struct Watts(pub u64);
